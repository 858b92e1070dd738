// Questions about one window of a query, answered by search among sorted times.
ghost use Rattle.std.specs.Prelude.{◌≡◌, ◌^◌, ◌≤◌, ◌↔◌, IsTrue};
ghost use Rattle.std.specs.List.{Contains};
ghost use Rattle.std.specs.List.Sorted.{IsNonDecreasing};
ghost use Rattle.rsp_spec.specs.Windows.{IsShape};
ghost use Rattle.rsp_spec.specs.Relations.{IsNeeded};
ghost use Rattle.rsp_report.specs.Due.{IsWatched, changes, has_content, shows_new};
ghost use Rattle.rsp_report.specs.Searches.{IsFirstAfter, IsFirstReaching, Leaves};

use rsp_terms::Listed;
use rsp_windows::Window;

/// A window of a query, with the times of the items over its stream that the query may see.
#[derive(Drop)]
pub struct Watched {
    /// The window.
    pub window: Window,
    /// The times in order, in milliseconds.
    pub times: Listed<u64>,
    /// Whether the last time is that of the item just accepted.
    pub fresh: bool,
}

/// Whether some item is in the content at `t` ms, by one search.
pub(crate) fn has_content(watched: &Watched, t: u64) -> bool
    requires within { t ≤ 2 ^ 48 }
    requires watched { IsWatched watched.now }
    ensures { result ≡ has_content t watched.now }
{
    match first_reaching(watched, t) {
        Some(first) => first <= t,
        None => false,
    }
}

/// Whether some item enters or leaves the content at `t` ms, by two searches.
pub(crate) fn changes(watched: &Watched, t: u64) -> bool
    requires within { t ≤ 2 ^ 48 }
    requires watched { IsWatched watched.now }
    ensures { result ≡ changes t watched.now }
{
    if t == 0 {
        return false;
    }
    let left = leaves(watched, t);
    if enters(watched, t) { true } else { left }
}

/// Whether the item just accepted, of time `t` ms, is in the content.
pub(crate) fn shows_new(watched: &Watched, t: u64) -> bool
    requires within { t ≤ 2 ^ 48 }
    ensures { result ≡ shows_new t watched.now }
{
    if watched.fresh {
        is_needed(&watched.window, t, t)
    } else {
        false
    }
}

// whether an item of time t is in the content at t
fn enters(watched: &Watched, t: u64) -> bool
    requires within { t ≤ 2 ^ 48 }
    requires later { 1 ≤ t }
    requires watched { IsWatched watched.now }
    ensures { IsTrue result ↔ Contains watched.now.times t × IsNeeded watched.now.window t t }
{
    match first_after(watched.times.as_slice(), t - 1) {
        Some(first) => {
            if first == t {
                is_needed(&watched.window, t, t)
            } else {
                false
            }
        }
        None => false,
    }
}

// whether the content at the instant before has an item that no window needs at t
fn leaves(watched: &Watched, t: u64) -> bool
    requires within { t ≤ 2 ^ 48 }
    requires later { 1 ≤ t }
    requires watched { IsWatched watched.now }
    ensures leaves { IsTrue result ↔ Leaves watched.now.window watched.now.times t }
    ensures shape { IsShape watched.now.window }
{
    match first_reaching(watched, t - 1) {
        Some(first) => {
            if first < t {
                !is_needed(&watched.window, first, t)
            } else {
                false
            }
        }
        None => false,
    }
}

// whether some window contains the time and closes at t or later
pub(crate) fn is_needed(window: &Window, time: u64, t: u64) -> bool
    requires within { time ≤ 2 ^ 48 }
    ensures needed { IsTrue result ↔ IsNeeded window.now time t }
    ensures shape { IsShape window.now }
{
    match window.last_needed(time) {
        Some(last) => t <= last,
        None => false,
    }
}

// the first time behind the opening of the first window that closes at t or later
fn first_reaching(watched: &Watched, t: u64) -> Option<u64>
    requires within { t ≤ 2 ^ 48 }
    requires watched { IsWatched watched.now }
    ensures first { IsFirstReaching watched.now.window watched.now.times t result }
    ensures shape { IsShape watched.now.window }
{
    let window = &watched.window;
    first_after(
        watched.times.as_slice(),
        window.opening(window.first_to_reach(t)),
    )
}

// the least time above `low`, by one search
pub(crate) fn first_after(times: &[u64], low: u64) -> Option<u64>
    requires sorted { IsNonDecreasing times.now }
    requires within { low ≤ 2 ^ 63 }
    ensures { IsFirstAfter times.now low result }
{
    let next = low + 1;
    match times.binary_search(&next) {
        Ok(_) => Some(next),
        Err(place) => times.get(place).copied(),
    }
}
