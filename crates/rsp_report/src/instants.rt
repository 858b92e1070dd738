// Whether a query is due: at an instant, or on an item.
ghost use Rattle.std.specs.Prelude.{◌≡◌, ◌^◌, ◌≤◌, ◌<◌, List, map, true, false, None};
ghost use Rattle.std.specs.List.{All};
ghost use Rattle.std.specs.Option.{ForSome};
ghost use Rattle.rsp_report.specs.Due.{IsWatched, changes, has_content, is_due, is_due_on_item, IsFreshAt, shows_new};
ghost use Rattle.rsp_report.specs.Leaps.{closes, divides, some_window};
ghost use Rattle.rsp_report.specs.Seen.{seen_at};
ghost use Rattle.rsp_report.specs.declared.contents.Watched.{Watched};

use crate::chosen::Chosen;
use crate::contents;
use crate::contents::Watched;

/// Whether a query with these windows is due at the instant `t`, in ms: all strategies hold, each by some window. The
/// policy looks at instants, a period is at least 1 ms, `t` and all times are at most 2^48. Takes no memory; a window
/// costs a few searches.
pub fn due(policy: &Chosen, watched: &[Watched], t: u64) -> bool
    requires tick { policy.now.tuple ≡ false }
    requires period { ForSome policy.now.period (λ period. 0 < period) }
    requires within { t ≤ 2 ^ 48 }
    requires watched { All IsWatched watched.now }
    ensures value { result ≡ is_due policy.now watched.now t }
    ensures unseen { (other : List Watched) → map (seen_at t) other ≡ map (seen_at t) watched.now
        → result ≡ is_due policy.now other t }
{
    if policy.close && !some_closes(watched, t) {
        return false;
    }
    if policy.change && !some_changes(watched, t) {
        return false;
    }
    if policy.nonempty && !some_content(watched, t) {
        return false;
    }
    divides(policy.period, t)
}

/// Whether a query with these windows is due on the item just accepted, of time `t` ms, over one of its streams. The
/// policy looks at items and asks for neither a closing nor a period; a window whose `fresh` is set has `t` as its last
/// time; `t` and all times are at most 2^48. Takes no memory; a window costs a few searches.
pub fn due_on_item(policy: &Chosen, watched: &[Watched], t: u64) -> bool
    requires tick { policy.now.tuple ≡ true }
    requires close { policy.now.close ≡ false }
    requires period { policy.now.period ≡ None }
    requires within { t ≤ 2 ^ 48 }
    requires watched { All IsWatched watched.now }
    requires fresh { All (IsFreshAt t) watched.now }
    ensures value { result ≡ is_due_on_item policy.now watched.now t }
    ensures unseen { (other : List Watched) → map (seen_at t) other ≡ map (seen_at t) watched.now
        → result ≡ is_due_on_item policy.now other t }
{
    if policy.change && !some_shows_new(watched, t) {
        return false;
    }
    if policy.nonempty && !some_content(watched, t) {
        return false;
    }
    true
}

// whether the period, where there is one, divides t
fn divides(period: Option<u64>, t: u64) -> bool
    requires { ForSome period (λ period. 0 < period) }
    ensures { result ≡ divides period t }
{
    match period {
        Some(period) => t % period == 0,
        None => true,
    }
}

fn some_closes(watched: &[Watched], t: u64) -> bool
    requires within { t ≤ 2 ^ 48 }
    ensures { result ≡ some_window (closes t) watched.now }
{
    for one in watched {
        if one.window.closes_at(t) {
            return true;
        }
    }
    false
}

fn some_changes(watched: &[Watched], t: u64) -> bool
    requires within { t ≤ 2 ^ 48 }
    requires watched { All IsWatched watched.now }
    ensures { result ≡ some_window (changes t) watched.now }
{
    for one in watched {
        if contents::changes(one, t) {
            return true;
        }
    }
    false
}

fn some_content(watched: &[Watched], t: u64) -> bool
    requires within { t ≤ 2 ^ 48 }
    requires watched { All IsWatched watched.now }
    ensures { result ≡ some_window (has_content t) watched.now }
{
    for one in watched {
        if contents::has_content(one, t) {
            return true;
        }
    }
    false
}

fn some_shows_new(watched: &[Watched], t: u64) -> bool
    requires within { t ≤ 2 ^ 48 }
    ensures { result ≡ some_window (shows_new t) watched.now }
{
    for one in watched {
        if contents::shows_new(one, t) {
            return true;
        }
    }
    false
}
