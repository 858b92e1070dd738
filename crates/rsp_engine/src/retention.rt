// The items that are kept: until when each is needed, and letting go of the others.
ghost use Rattle.std.specs.Prelude.{◌≡◌, ◌≤◌, ◌+◌, ◌^◌, ◌++◌, ◌∷◌, ℕ, List, [], None, Some, true, false, OnOk, IfOk, length, map};
ghost use Rattle.std.specs.List.{All};
ghost use Rattle.rsp_spec.specs.Limits.{last_instant, most_triples};
ghost use Rattle.rsp_terms.specs.declared.statement.Triple.{Triple};
ghost use Rattle.rsp_scope.specs.Contents.{Accepted, Numbered, Watch};
ghost use Rattle.rsp_scope.specs.Ends.{as_accepted, AreEnds, EndsAt, IsKept};
ghost use Rattle.rsp_scope.specs.Kept.{taken};
ghost use Rattle.rsp_scope.specs.Needed.{is_needed};
ghost use Rattle.rsp_scope.specs.declared.item.Item.{Item};
ghost use Rattle.rsp_report.specs.Due.{IsFreshAt};
ghost use Rattle.rsp_engine.specs.Inside.{IsSought, asked, fixed, parts_of};
ghost use Rattle.rsp_engine.specs.Readers.{AreRead, IsEndBy, windows_of};
ghost use Rattle.rsp_engine.specs.Keeping.{EndsBy, IsLess, accepted_of, excess, watches_by, watches_followed};
ghost use Rattle.rsp_engine.specs.Passing.{is_overfull_outcome};
ghost use Rattle.rsp_engine.specs.Watching.{IsUpTo, IsWatching, Tells};

use crate::Outcome;
use crate::arrivals::watch;
use crate::live_query::LiveQuery;
use crate::readers::{PlacedWindow, Readers};
use rsp_scope::{Contents, Streams, later};
use rsp_spec::limits::MOST_HELD;
use rsp_terms::{Listed, Text, Triple};
use std::alloc::{AllocError, Global};

/// Until when the item of this number is needed, in ms since 1970: the greatest closing among the windows over its stream that
/// contain it; None where none does. Looks at no query. Takes no memory.
pub(crate) fn end_of(readers: &Readers, number: u64, stream: &Text, time: u64) -> Option<u64>
    requires { time ≤ 2 ^ 48 }
    ensures { IsEndBy (windows_of readers.now stream.now) number time result }
{
    let windows = readers.windows(stream);
    let mut end = None;
    for window in windows {
        end = later(end, end_within_window(window, number, time));
    }
    end
}

// the same, by one window
fn end_within_window(window: &PlacedWindow, number: u64, time: u64) -> Option<u64>
    requires { time ≤ 2 ^ 48 }
    ensures { IsEndBy (window.now ∷ []) number time result }
{
    if number < window.first {
        return None;
    }
    window.shape.last_needed(time)
}

// the same, by the windows of one query
fn end_by(contents: &[Contents], number: u64, stream: &Text, time: u64) -> Option<u64>
    requires { time ≤ 2 ^ 48 }
    ensures { (graph : List Triple) → EndsAt (watches_followed contents.now)
        (record { number = number; item = record { stream = stream.now; time = time; graph = graph } }) result }
{
    let mut end = None;
    for content in contents {
        end = later(end, content.end_of(number, stream, time));
    }
    end
}

/// How many triples would be kept from `time` on, with so many more, where that is more than can be. Looks at the kept items
/// only where all together are too many.
pub(crate) fn too_many(streams: &Streams, time: u64, triples: u64) -> Option<u64>
    requires small { triples ≤ most_triples }
    ensures { result ≡ excess streams.now time triples }
{
    let room = MOST_HELD - triples;
    if streams.held() <= room {
        return None;
    }
    let held = streams.held_from(time);
    (room < held).then_some(held.saturating_add(triples))
}

/// An item that comes, with the instant up to which it is needed.
#[derive(Drop)]
pub(crate) struct Arrival {
    pub stream: Text,
    pub time: u64,
    pub graph: Listed<Triple>,
    pub end: Option<u64>,
}

/// Takes an item, which each query then watches. Gives its stream. Makes room for one end more. Fails only where memory is
/// refused; what is then left is only to be dropped.
pub(crate) fn take<A>(
    alloc: Global,
    queries: &mut [LiveQuery<A>],
    readers: &mut Readers,
    streams: &mut Streams,
    ends: &mut Vec<Option<u64>>,
    arrival: Arrival,
    from: u64,
) -> Result<Text, AllocError>
    requires watching { All (λ live. IsWatching (asked live)) queries.old }
    requires read { AreRead readers.old queries.old }
    requires sought { All (λ live. IsSought from live) queries.old }
    requires later { from ≤ arrival.time }
    requires instant { arrival.time ≤ last_instant }
    ensures stream { IfOk result (λ stream. stream ≡ arrival.stream) }
    ensures kept { OnOk result (streams.new ≡ taken streams.old arrival.stream arrival.time arrival.graph arrival.end) }
    ensures room { OnOk result (length streams.new.items ≤ ends.new.cap) }
    ensures parts { OnOk result (map parts_of queries.new ≡ map parts_of queries.old) }
    ensures sought { OnOk result (All (λ live. IsSought from live) queries.new) }
    ensures read { OnOk result (AreRead readers.new queries.new) }
    ensures watching { OnOk result (All (λ live. IsWatching (asked live)) queries.new) }
    ensures up_to { OnOk result ((latest : ℕ) → arrival.time ≤ latest
        → All (λ live. All (IsUpTo latest) live.watched.items) queries.old
        → All (λ live. All (IsUpTo latest) live.watched.items) queries.new) }
    ensures fresh { OnOk result (All (λ live. All (IsUpTo arrival.time) live.watched.items) queries.old
        → All (λ live. All (IsFreshAt arrival.time) live.watched.items) queries.new) }
    ensures told { OnOk result ((items : List Accepted)
        → All (λ live. live.first ≤ length items) queries.old
        → All (λ live. Tells items from (fixed live) live.watched.items) queries.old
        → All (λ live. Tells (items ++ accepted_of arrival ∷ []) from (fixed live) live.watched.items) queries.new) }
{
    let room = streams.count().checked_add(1).ok_or(AllocError)?;
    ends.clear();
    ends.reserve(room)?;
    watch(alloc, queries, readers, &arrival.stream, arrival.time, from)?;
    let graph = arrival.graph.into_vec();
    streams.take(&arrival.stream, arrival.time, graph, arrival.end)?;
    Ok(arrival.stream)
}

/// Lets go of what isn't needed behind a report: by queries that go on, or without one that was overfull.
pub(crate) fn let_go<A>(
    queries: &[LiveQuery<A>],
    streams: &mut Streams,
    ends: &mut Vec<Option<u64>>,
    cut: u64,
    outcome: &Outcome,
)
    requires room { length streams.old.items ≤ ends.old.cap }
    requires timed { All (λ (item : Item). item.time ≤ 2 ^ 48) streams.old.items }
    ensures less { IsLess streams.old streams.new }
    ensures room { length streams.new.items ≤ ends.new.cap }
    ensures kept { (before : ℕ) (all : List Watch) (items : List Accepted) → before ≤ cut
        → (is_overfull_outcome outcome.now ≡ false → watches_by queries.now ≡ all)
        → ((n : ℕ) (entry : Numbered) → is_needed n (watches_by queries.now) entry ≡ true → is_needed n all entry ≡ true)
        → IsKept before all items streams.old → IsKept cut (watches_by queries.now) items streams.new }
{
    match outcome {
        Outcome::Overfull => lower(queries, streams, ends, cut),
        Outcome::Rows(_) => streams.drop_before(cut),
    }
}

/// Lets go of what these queries alone don't need from `cut` on, where another query has gone. Takes no memory: there is room
/// for the ends of all kept items.
pub(crate) fn lower<A>(
    queries: &[LiveQuery<A>],
    streams: &mut Streams,
    ends: &mut Vec<Option<u64>>,
    cut: u64,
)
    requires room { length streams.old.items ≤ ends.old.cap }
    requires timed { All (λ (item : Item). item.time ≤ 2 ^ 48) streams.old.items }
    ensures less { IsLess streams.old streams.new }
    ensures room { length streams.new.items ≤ ends.new.cap }
    ensures kept { (before : ℕ) (all : List Watch) (items : List Accepted) → before ≤ cut
        → ((n : ℕ) (entry : Numbered) → is_needed n (watches_by queries.now) entry ≡ true → is_needed n all entry ≡ true)
        → IsKept before all items streams.old → IsKept cut (watches_by queries.now) items streams.new }
{
    streams.settle();
    lower_settled(queries, streams, ends, cut);
}

// the same, where what has left is closed up, so that the items are read by their index at once
fn lower_settled<A>(
    queries: &[LiveQuery<A>],
    streams: &mut Streams,
    ends: &mut Vec<Option<u64>>,
    cut: u64,
)
    requires room { length streams.old.items ≤ ends.old.cap }
    requires timed { All (λ (item : Item). item.time ≤ 2 ^ 48) streams.old.items }
    ensures less { IsLess streams.old streams.new }
    ensures room { length streams.new.items ≤ ends.new.cap }
    ensures kept { (before : ℕ) (all : List Watch) (items : List Accepted) → before ≤ cut
        → ((n : ℕ) (entry : Numbered) → is_needed n (watches_by queries.now) entry ≡ true → is_needed n all entry ≡ true)
        → IsKept before all items streams.old → IsKept cut (watches_by queries.now) items streams.new }
{
    fill(queries, streams, ends);
    streams.shorten(ends.as_slice());
    streams.drop_before(cut);
}

// The ends of all kept items, where none is needed beyond the one it has. The query that gave the last item's end is asked
// first, since it mostly gives this one's too.
fn fill<A>(queries: &[LiveQuery<A>], streams: &Streams, ends: &mut Vec<Option<u64>>)
    requires room { length streams.now.items ≤ ends.old.cap }
    requires timed { All (λ (item : Item). item.time ≤ 2 ^ 48) streams.now.items }
    ensures ends { All (λ (item : Item). EndsBy (watches_by queries.now) (as_accepted item) item.end) streams.now.items
        → AreEnds (watches_by queries.now) streams.now.items ends.new.items }
    ensures many { length ends.new.items ≡ length streams.now.items }
    ensures room { ends.new.cap ≡ ends.old.cap }
{
    ends.clear();
    let mut giver = 0;
    for index in 0..streams.count() {
        let number = streams.number_at(index);
        let time = streams.time_at(index);
        let most = streams.end_at(index);
        let end = end_within(
            queries,
            &mut giver,
            number,
            streams.stream_at(index),
            time,
            most,
        );
        ends.push_reserved(end);
    }
}

// Until when an item is needed that isn't needed beyond `most`. Once some query needs it so long, no other is asked.
fn end_within<A>(
    queries: &[LiveQuery<A>],
    giver: &mut usize,
    number: u64,
    stream: &Text,
    time: u64,
    most: u64,
) -> Option<u64>
    requires { time ≤ 2 ^ 48 }
    ensures { (graph : List Triple) → EndsBy (watches_by queries.now)
        (record { number = number; item = record { stream = stream.now; time = time; graph = graph } }) most
        → EndsAt (watches_by queries.now)
        (record { number = number; item = record { stream = stream.now; time = time; graph = graph } }) result }
{
    if needs(queries, *giver, number, stream, time, most) {
        return Some(most);
    }
    let mut end = None;
    for (place, live) in queries.iter().enumerate() {
        let until = end_by(live.contents.as_slice(), number, stream, time);
        if until == Some(most) {
            *giver = place;
            return Some(most);
        }
        end = later(end, until);
    }
    end
}

// whether the query at this place needs the item up to `most`
fn needs<A>(
    queries: &[LiveQuery<A>],
    place: usize,
    number: u64,
    stream: &Text,
    time: u64,
    most: u64,
) -> bool
    requires { time ≤ 2 ^ 48 }
    ensures { result ≡ true → (graph : List Triple) → EndsBy (watches_by queries.now)
        (record { number = number; item = record { stream = stream.now; time = time; graph = graph } }) most
        → EndsAt (watches_by queries.now)
        (record { number = number; item = record { stream = stream.now; time = time; graph = graph } }) (Some most) }
{
    let Some(live) = queries.get(place) else {
        return false;
    };
    end_by(live.contents.as_slice(), number, stream, time) == Some(most)
}
