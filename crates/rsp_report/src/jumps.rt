// The next instant at which the content of one window isn't empty, or changes: from item to item, over gaps.
ghost use Rattle.std.specs.Prelude.{◌≡◌, ◌^◌, ◌≤◌, ◌-◌, true, Some, IfSome};
ghost use Rattle.rsp_spec.specs.Instants.{IsLeastIn};
ghost use Rattle.rsp_spec.specs.Windows.{IsShape};
ghost use Rattle.rsp_report.specs.Due.{IsWatched, changes, has_content};
ghost use Rattle.rsp_report.specs.Searches.{Enters, IsFirstBehind, IsFirstNeeded, Leaves, sooner};

use crate::contents::{Watched, first_after, is_needed};

/// The least instant from `from` to `to` ms at which some item is in the content.
pub(crate) fn next_content(watched: &Watched, from: u64, to: u64) -> Option<u64>
    requires within { from ≤ 2 ^ 48 }
    requires watched { IsWatched watched.now }
    ensures { IsLeastIn (λ t. has_content t watched.now ≡ true) from to result }
{
    match first_needed(watched, 0, from) {
        Some(time) => {
            let at = from.max(time);
            if at <= to { Some(at) } else { None }
        }
        None => None,
    }
}

/// The least instant from `from` to `to` ms at which some item enters or leaves the content.
pub(crate) fn next_change(watched: &Watched, from: u64, to: u64) -> Option<u64>
    requires within { from ≤ 2 ^ 48 }
    requires watched { IsWatched watched.now }
    ensures { IsLeastIn (λ t. changes t watched.now ≡ true) from to result }
{
    let entering = next_entering(watched, from, to);
    let leaving = next_leaving(watched, from, to);
    sooner(entering, leaving)
}

fn next_entering(watched: &Watched, from: u64, to: u64) -> Option<u64>
    requires within { from ≤ 2 ^ 48 }
    requires watched { IsWatched watched.now }
    ensures least { IsLeastIn (Enters watched.now.window watched.now.times) from to result }
    ensures shape { IsShape watched.now.window }
{
    match first_needed(watched, from.saturating_sub(1), from) {
        Some(time) => { if time <= to { Some(time) } else { None } }
        None => None,
    }
}

// behind the last instant that needs the first item that is needed just before
fn next_leaving(watched: &Watched, from: u64, to: u64) -> Option<u64>
    requires within { from ≤ 2 ^ 48 }
    requires watched { IsWatched watched.now }
    ensures { IsLeastIn (Leaves watched.now.window watched.now.times) from to result }
{
    match first_needed(watched, 0, from.saturating_sub(1)) {
        Some(time) => leaving_of(watched, time, from, to),
        None => None,
    }
}

fn leaving_of(watched: &Watched, time: u64, from: u64, to: u64) -> Option<u64>
    requires within { time ≤ 2 ^ 48 }
    requires first { IsFirstNeeded watched.now.window watched.now.times 0 (from - 1) (Some time) }
    ensures { IsLeastIn (Leaves watched.now.window watched.now.times) from to result }
{
    match watched.window.last_needed(time) {
        Some(last) => { if last < to { Some(last + 1) } else { None } }
        None => None,
    }
}

/// The sooner of two instants.
pub(crate) fn sooner(a: Option<u64>, b: Option<u64>) -> Option<u64>
    ensures { result ≡ sooner a b }
{
    match (a, b) {
        (Some(x), Some(y)) => Some(x.min(y)),
        (Some(x), None) => Some(x),
        (None, other) => other,
    }
}

// the first time above `low` that some window contains and that is needed at `t`; times in gaps are passed gap by gap
fn first_needed(watched: &Watched, low: u64, t: u64) -> Option<u64>
    requires low_high { low ≤ 2 ^ 48 }
    requires within { t ≤ 2 ^ 48 }
    requires watched { IsWatched watched.now }
    ensures first { IsFirstNeeded watched.now.window watched.now.times low t result }
    ensures high { IfSome result (λ time. time ≤ 2 ^ 48) }
    ensures shape { IsShape watched.now.window }
{
    let _first = watched.window.next_close(t);
    let mut reach = t;
    'gaps: while let Some(time) = first_behind(watched, low, reach) {
        if is_needed(&watched.window, time, t) {
            return Some(time);
        }
        reach = time;
    }
    None
}

// the first time above `low` behind the opening of the first window that closes at `t` or later
fn first_behind(watched: &Watched, low: u64, t: u64) -> Option<u64>
    requires low_high { low ≤ 2 ^ 48 }
    requires within { t ≤ 2 ^ 48 }
    requires watched { IsWatched watched.now }
    ensures first { IsFirstBehind watched.now.window watched.now.times low t result }
    ensures high { IfSome result (λ time. time ≤ 2 ^ 48) }
{
    let window = &watched.window;
    let opening = window.opening(window.first_to_reach(t));
    first_after(watched.times.as_slice(), low.max(opening))
}
