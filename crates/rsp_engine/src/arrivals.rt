// What a new item adds to what live queries watch: its time, to the windows over its stream. A query whose policy asks for no
// contents watches no times, so it isn't looked at.
ghost use Rattle.std.specs.Prelude.{◌≡◌, ◌-◌, ◌≤◌, ◌<◌, ◌++◌, ◌∷◌, ℕ, [], false, true, List, map, OnOk, bytes_eq, length, nat_le};
ghost use Rattle.std.specs.Prelude.{slice_get, slice_index_or};
ghost use Rattle.std.specs.List.{All, insert};
ghost use Rattle.std.specs.List.Sorted.{IsNonDecreasing, IsPermutation};
ghost use Rattle.std.specs.Option.{option_map_or};
ghost use Rattle.rsp_spec.specs.Limits.{last_instant};
ghost use Rattle.rsp_terms.specs.declared.statement.Triple.{Triple};
ghost use Rattle.rsp_scope.specs.Contents.{Accepted};
ghost use Rattle.rsp_report.specs.Due.{IsFreshAt, IsWatched};
ghost use Rattle.rsp_engine.specs.Inside.{IsSought, asked, fixed, parts_of};
ghost use Rattle.rsp_engine.specs.Watching.{IsUpTo, IsWatching, Tells, told_at, with_time};
ghost use Rattle.rsp_engine.specs.Readers.{AreRead, is_watcher, places_from, watchers_of};
ghost use Rattle.rsp_engine.specs.Watched.{AreChanged, AreWatchedWith, IsCalmed, IsMoved};
ghost use Rattle.rsp_engine.specs.declared.live_query.LiveQuery.{LiveQuery};

use crate::live_query::{LiveQuery, StreamWindow};
use crate::readers::Readers;
use crate::schedule::look;
use rsp_report::Watched;
use rsp_scope::forget_times;
use rsp_terms::{Listed, Text};
use std::alloc::{AllocError, Global};
use std::mem;

/// Adds the time of an item to the windows over its stream of the queries that ask for contents, which are then fresh and no
/// others, lets go of their times that are in no content from `from` - 1 ms on, and finds when these queries are due next, from
/// `from` on. Fails only where memory is refused; some queries may then watch the item and others not.
pub(crate) fn watch<A>(
    alloc: Global,
    queries: &mut [LiveQuery<A>],
    readers: &mut Readers,
    stream: &Text,
    time: u64,
    from: u64,
) -> Result<(), AllocError>
    requires watching { All (λ live. IsWatching (asked live)) queries.old }
    requires read { AreRead readers.old queries.old }
    requires sought { All (λ live. IsSought from live) queries.old }
    requires later { from ≤ time }
    requires instant { time ≤ last_instant }
    ensures parts { OnOk result (map parts_of queries.new ≡ map parts_of queries.old) }
    ensures sought { OnOk result (All (λ live. IsSought from live) queries.new) }
    ensures read { OnOk result (AreRead readers.new queries.new) }
    ensures watching { OnOk result (All (λ live. IsWatching (asked live)) queries.new) }
    ensures up_to { OnOk result ((latest : ℕ) → time ≤ latest
        → All (λ live. All (IsUpTo latest) live.watched.items) queries.old
        → All (λ live. All (IsUpTo latest) live.watched.items) queries.new) }
    ensures fresh { OnOk result (All (λ live. All (IsUpTo time) live.watched.items) queries.old
        → All (λ live. All (IsFreshAt time) live.watched.items) queries.new) }
    ensures told { OnOk result ((items : List Accepted) (graph : List Triple)
        → All (λ live. live.first ≤ length items) queries.old
        → All (λ live. Tells items from (fixed live) live.watched.items) queries.old
        → All (λ live. Tells (items ++ record { stream = stream.now; time = time; graph = graph } ∷ []) from (fixed live)
        live.watched.items)
        queries.new) }
{
    let newest = stream.share()?;
    calm(queries, readers);
    attend(alloc, queries, readers, stream, time, from)?;
    readers.note(newest);
    Ok(())
}

// takes `fresh` back from all windows
fn calm<A>(queries: &mut [LiveQuery<A>], readers: &Readers)
    requires { AreRead readers.now queries.old }
    ensures long { length queries.new ≡ length queries.old }
    ensures calmed { (k : ℕ) (d : LiveQuery A) → k < length queries.old
        → IsCalmed (slice_index_or queries.old k d) (slice_index_or queries.new k d) }
{
    match readers.newest() {
        Some(stream) => calm_watchers(queries, readers, stream),
        None => {}
    }
}

// takes `fresh` back from the windows of the queries that watch the stream
fn calm_watchers<A>(queries: &mut [LiveQuery<A>], readers: &Readers, stream: &Text)
    requires { watchers_of readers.now stream.now ≡ places_from (is_watcher stream.now) 0 queries.old }
    ensures { AreChanged (is_watcher stream.now) IsCalmed queries.old queries.new }
{
    let places = readers.watchers(stream);
    for index in 0..places.len() {
        let place = places[index];
        calm_query(&mut queries[place]);
    }
}

fn calm_query<A>(live: &mut LiveQuery<A>)
    ensures { IsCalmed live.old live.new }
{
    for window in 0..live.watched.len() {
        live.watched[window].fresh = false;
    }
}

// the queries that watch the stream watch the item
fn attend<A>(
    alloc: Global,
    queries: &mut [LiveQuery<A>],
    readers: &Readers,
    stream: &Text,
    time: u64,
    from: u64,
) -> Result<(), AllocError>
    requires watching { All (λ live. IsWatching (asked live)) queries.old }
    requires read { watchers_of readers.now stream.now ≡ places_from (is_watcher stream.now) 0 queries.old }
    requires later { from ≤ time }
    requires instant { time ≤ last_instant }
    ensures { OnOk result (AreChanged (is_watcher stream.now) (IsMoved stream.now time from) queries.old queries.new) }
{
    let places = readers.watchers(stream);
    for index in 0..places.len() {
        let place = places[index];
        watch_query(alloc, &mut queries[place], stream, time, from)?;
    }
    Ok(())
}

fn watch_query<A>(
    alloc: Global,
    live: &mut LiveQuery<A>,
    stream: &Text,
    time: u64,
    from: u64,
) -> Result<(), AllocError>
    requires watching { IsWatching (asked live.old) }
    requires later { from ≤ time }
    requires instant { time ≤ last_instant }
    ensures parts { OnOk result (parts_of live.new ≡ parts_of live.old) }
    ensures watched { OnOk result (AreWatchedWith stream.now time from live.old.windows
        live.old.watched.items live.new.watched.items) }
    ensures sought { OnOk result (IsSought from live.new) }
{
    for window in 0..live.watched.len() {
        let over = is_over(live.windows.as_slice(), window, stream);
        watch_window(alloc, &mut live.watched[window], over, time, from)?;
    }
    look(live, from);
    Ok(())
}

// whether the window of this number is over a stream
fn is_over(windows: &[StreamWindow], number: usize, stream: &Text) -> bool
    ensures { result ≡ option_map_or (λ w. bytes_eq stream.now w.stream) (slice_get windows.now number) false }
{
    match windows.get(number) {
        Some(window) => *stream == window.stream,
        None => false,
    }
}

fn watch_window(
    alloc: Global,
    watched: &mut Watched,
    over: bool,
    time: u64,
    from: u64,
) -> Result<(), AllocError>
    requires watched { IsWatched watched.old }
    requires later { from ≤ time }
    requires instant { time ≤ last_instant }
    ensures window { watched.new.window ≡ watched.old.window }
    ensures watched { OnOk result (IsWatched watched.new) }
    ensures up_to { OnOk result ((latest : ℕ) → time ≤ latest → IsUpTo latest watched.old → IsUpTo latest watched.new) }
    ensures fresh { OnOk result (IsUpTo time watched.old → IsFreshAt time watched.new) }
    ensures told { OnOk result ((t : ℕ) → from ≤ t → told_at t watched.new ≡ told_at t (with_time over time watched.old)) }
{
    forget_times(alloc, &watched.window, &mut watched.times, from);
    watched.fresh = over;
    if over {
        put_in_order(alloc, &mut watched.times, time)?;
    }
    Ok(())
}

// Puts a time among times in order: at the end, where none is later, and else at the place that halving finds. Where memory is
// refused, what is left is only to be dropped.
fn put_in_order(alloc: Global, times: &mut Listed<u64>, time: u64) -> Result<(), AllocError>
    requires { IsNonDecreasing times.old }
    ensures sorted { OnOk result (IsNonDecreasing times.new) }
    ensures put { OnOk result (IsPermutation (time ∷ times.old) times.new) }
{
    if is_latest(times.as_slice(), time) {
        times.push(time)?;
        return Ok(());
    }
    let place = place_of(times.as_slice(), time);
    let mut moved = mem::replace(times, Listed::new(alloc)).into_vec();
    moved.insert(place, time)?;
    *times = Listed::from_vec(moved);
    Ok(())
}

// whether the last of these times isn't later, if there is one
fn is_latest(times: &[u64], time: u64) -> bool
    ensures { result ≡ option_map_or (λ last. nat_le last time) (slice_get times.now (length times.now - 1)) true }
{
    match times.last() {
        Some(last) => *last <= time,
        None => true,
    }
}

// where a time goes among times in order: behind all that aren't later
fn place_of(times: &[u64], time: u64) -> usize
    requires { IsNonDecreasing times.now }
    ensures within { result ≤ length times.now }
    ensures order { IsNonDecreasing (insert times.now result time) }
{
    times.partition_point(|other| *other <= time)
}
