// The place of the first moment left: an instant, and a query by its place in the order of registration.
ghost use Rattle.std.specs.Prelude.{◌≡◌, ◌&&◌, ◌+◌, ◌≤◌, None, Some, length, map, not, true, unwrap_or};
ghost use Rattle.std.specs.List.{All};
ghost use Rattle.std.specs.Option.{option_map_or};
ghost use Rattle.rsp_spec.specs.Instants.{IsLeastIn};
ghost use Rattle.rsp_spec.specs.Limits.{last_instant};
ghost use Rattle.rsp_report.specs.Due.{IsWatched, is_due};
ghost use Rattle.rsp_engine.specs.Inside.{AreSought, IsSought, asked, undated};
ghost use Rattle.rsp_engine.specs.Left.{IsFirstAt, IsFirstLeft};
ghost use Rattle.rsp_engine.specs.Readers.{AreRead, is_watcher, places_from, reads, watchers_of};
ghost use Rattle.rsp_engine.specs.Sought.{IsSoonest, first_number, sooner};
ghost use Rattle.rsp_engine.specs.Watching.{IsPolicy, IsPrompt, IsWatching, is_due_over_by, name_of, reports_by};

use crate::live_query::LiveQuery;
use crate::readers::Readers;
use rsp_report::{Chosen, Watched, due_on_item, next_due};
use rsp_spec::limits::LAST_INSTANT;
use rsp_terms::Text;

/// A place among the moments: an instant, in ms since 1970, and a query by its number among the live ones.
#[derive(Clone, Copy)]
pub(crate) struct Pending {
    pub at: u64,
    pub query: usize,
}

/// The instant of a place, and `next` where there is none.
pub(crate) fn cut_at(first: Option<Pending>, next: u64) -> u64
    ensures { result ≡ option_map_or (λ (place : Pending). place.at) first next }
{
    match first {
        Some(place) => place.at,
        None => next,
    }
}

/// The first place from `from` on at which a query reports, up to `next`: below it where the query is due next, at `next` itself
/// by the newest item, where it just arrived over the stream `arrived`. Takes no memory.
pub(crate) fn first_left<A>(
    queries: &[LiveQuery<A>],
    readers: &Readers,
    arrived: &Option<Text>,
    next: u64,
    from: Pending,
) -> Option<Pending>
    requires prompt { All (λ live. IsPrompt next arrived.now (asked live)) queries.now }
    requires next { next ≤ last_instant + 1 }
    requires from { from.at ≤ next }
    requires read { AreRead readers.now queries.now }
    requires sought { AreSought next (Some from) queries.now }
    ensures first { IsFirstLeft (λ live. name_of (asked live)) (λ t live. reports_by next arrived.now t (asked live)) queries.now
        next from.at from.query result }
    ensures sought { AreSought next result queries.now }
{
    match soonest(queries, next) {
        Some(place) => Some(place),
        None => first_on_item(queries, readers, arrived, next, first_number(from, next)),
    }
}

// ---- below `next`

// the first of the queries that are due soonest
fn soonest<A>(queries: &[LiveQuery<A>], next: u64) -> Option<Pending>
    ensures { IsSoonest (λ live. live.due) queries.now (length queries.now) next result }
{
    let mut best = None;
    for query in 0..queries.len() {
        best = sooner(best, queries[query].due, query, next);
    }
    best
}

// the place of the query of this number, where it is due before the best so far
fn sooner(best: Option<Pending>, due: Option<u64>, query: usize, next: u64) -> Option<Pending>
    ensures { result ≡ sooner best due query next }
{
    match due {
        Some(at) if at < cut_at(best, next) => Some(Pending { at, query }),
        _ => best,
    }
}

// ---- at `next` itself

// the number of the first query there that is left, from a place on
fn first_number(from: Pending, next: u64) -> usize
    ensures { result ≡ first_number from next }
{
    if from.at < next { 0 } else { from.query }
}

// the first place there, of the queries from a number on
fn first_on_item<A>(
    queries: &[LiveQuery<A>],
    readers: &Readers,
    arrived: &Option<Text>,
    next: u64,
    number: usize,
) -> Option<Pending>
    requires prompt { All (λ live. IsPrompt next arrived.now (asked live)) queries.now }
    requires next { next ≤ last_instant + 1 }
    requires read { AreRead readers.now queries.now }
    ensures { IsFirstLeft (λ live. name_of (asked live)) (λ t live. reports_by next arrived.now t (asked live)) queries.now
        next next number result }
{
    let query = first_reporting(queries, readers, arrived, next, number)?;
    Some(Pending { at: next, query })
}

// the first query from a number on that reports on the newest item, where one just arrived
fn first_reporting<A>(
    queries: &[LiveQuery<A>],
    readers: &Readers,
    arrived: &Option<Text>,
    next: u64,
    number: usize,
) -> Option<usize>
    requires prompt { All (λ live. IsPrompt next arrived.now (asked live)) queries.now }
    requires next { next ≤ last_instant + 1 }
    requires read { AreRead readers.now queries.now }
    ensures { IsFirstAt (λ live. reports_by next arrived.now next (asked live)) queries.now number result }
{
    match arrived {
        Some(stream) => first_over(queries, readers, stream, next, number),
        None => None,
    }
}

// the first query from a number on that is due on the newest item, which came over this stream at `next`: one that watches it
fn first_over<A>(
    queries: &[LiveQuery<A>],
    readers: &Readers,
    stream: &Text,
    next: u64,
    number: usize,
) -> Option<usize>
    requires prompt { All (λ live. IsPrompt next (Some stream.now) (asked live)) queries.now }
    requires next { next ≤ last_instant + 1 }
    requires read { watchers_of readers.now stream.now ≡ places_from (is_watcher stream.now) 0 queries.now }
    ensures { IsFirstAt (λ live. is_due_over_by (asked live) stream.now next) queries.now number result }
{
    let places = readers.watchers(stream);
    for index in 0..places.len() {
        let place = places[index];
        if is_left_over(&queries[place], number <= place, stream, next) {
            return Some(place);
        }
    }
    None
}

// whether a query is left and due on the newest item, which came over this stream, one that it reads, at `next`
fn is_left_over<A>(live: &LiveQuery<A>, left: bool, stream: &Text, next: u64) -> bool
    requires prompt { IsPrompt next (Some stream.now) (asked live.now) }
    requires next { next ≤ last_instant + 1 }
    requires reads { reads stream.now live.now.windows ≡ true }
    ensures { result ≡ (left && is_due_over_by (asked live.now) stream.now next) }
{
    if left {
        is_due_over(live, stream, next)
    } else {
        false
    }
}

fn is_due_over<A>(live: &LiveQuery<A>, stream: &Text, next: u64) -> bool
    requires prompt { IsPrompt next (Some stream.now) (asked live.now) }
    requires next { next ≤ last_instant + 1 }
    requires reads { reads stream.now live.now.windows ≡ true }
    ensures { result ≡ is_due_over_by (asked live.now) stream.now next }
{
    if !live.policy.tuple {
        return false;
    }
    due_on_item(&live.policy, live.watched.as_slice(), next)
}

// ---- when a query is due next

/// Where nothing came before `to`, no query is looked at before it. Takes no memory.
pub(crate) fn set_out<A>(queries: &mut [LiveQuery<A>], next: Option<u64>, to: u64)
    requires watching { All (λ live. IsWatching (asked live)) queries.old }
    requires sought { All (λ live. IsSought (unwrap_or next 0) live) queries.old }
    ensures same { map undated queries.new ≡ map undated queries.old }
    ensures sought { All (λ live. IsSought (unwrap_or next to) live) queries.new }
{
    match next {
        Some(_) => {}
        None => look_at_all(queries, to),
    }
}

fn look_at_all<A>(queries: &mut [LiveQuery<A>], from: u64)
    requires { All (λ live. IsWatching (asked live)) queries.old }
    ensures same { map undated queries.new ≡ map undated queries.old }
    ensures sought { All (λ live. IsSought from live) queries.new }
{
    for query in 0..queries.len() {
        look(&mut queries[query], from);
    }
}

/// Finds when a query is due next, from an instant on. Takes no memory.
pub(crate) fn look<A>(live: &mut LiveQuery<A>, from: u64)
    requires policy { IsPolicy live.old.policy }
    requires watched { All IsWatched live.old.watched.items }
    ensures same { undated live.new ≡ undated live.old }
    ensures sought { IsSought from live.new }
{
    live.due = due_from(&live.policy, live.watched.as_slice(), from);
}

/// The least instant from `from` on at which a query with these windows is due, in ms since 1970. None where there is none, and
/// where the query looks at items. Takes no memory.
pub(crate) fn due_from(policy: &Chosen, watched: &[Watched], from: u64) -> Option<u64>
    requires policy { IsPolicy policy.now }
    requires watched { All IsWatched watched.now }
    ensures { IsLeastIn (λ t. (not policy.now.tuple && is_due policy.now watched.now t) ≡ true) from last_instant result }
{
    if policy.tuple {
        return None;
    }
    next_due(policy, watched, from, LAST_INSTANT)
}
