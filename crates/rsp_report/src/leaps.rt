// From due instant to due instant: each strategy gives the next instant at which it holds, until all agree.
ghost use Rattle.std.specs.Prelude.{◌≡◌, ◌^◌, ◌≤◌, ◌<◌, ◌%◌, ◌==◌, ◌&&◌, ℕ, List, map, true, false};
ghost use Rattle.std.specs.List.{All};
ghost use Rattle.std.specs.Option.{ForSome};
ghost use Rattle.rsp_spec.specs.Instants.{IsLeastIn};
ghost use Rattle.rsp_spec.specs.Windows.{closes_at};
ghost use Rattle.rsp_report.specs.Due.{IsWatched, is_due};
ghost use Rattle.rsp_report.specs.Leaps.{AllHold, HasPeriod, HoldsByChange, HoldsByContent, HoldsByTime, asks, divides};
ghost use Rattle.rsp_report.specs.Leaps.{some_window};
ghost use Rattle.rsp_report.specs.Seen.{seen_at};
ghost use Rattle.rsp_report.specs.declared.contents.Watched.{Watched};

use crate::chosen::Chosen;
use crate::contents::Watched;
use crate::jumps::{next_change, next_content, sooner};
use rsp_windows::Window;

// what is asked of some window
#[derive(Clone, Copy)]
enum Question {
    // it closes, and the period divides the instant
    Close(u64),
    Change,
    Content,
}

/// The least instant from `from` to `to` ms at which a query with these windows is due; None exactly where there is
/// none. Times that are in no content at these instants, nor at those just before, change nothing. The policy looks at
/// instants, a period is at least 1 ms, `to` and all times are at most 2^48. Takes no memory. It goes from item to item
/// and from closing to closing, never through the instants between.
pub fn next_due(policy: &Chosen, watched: &[Watched], from: u64, to: u64) -> Option<u64>
    requires tick { policy.now.tuple ≡ false }
    requires period { ForSome policy.now.period (λ period. 0 < period) }
    requires within { to ≤ 2 ^ 48 }
    requires watched { All IsWatched watched.now }
    ensures least { IsLeastIn (λ t. is_due policy.now watched.now t ≡ true) from to result }
    ensures unseen { (other : List Watched)
        → ((t : ℕ) → from ≤ t → t ≤ to → map (seen_at t) other ≡ map (seen_at t) watched.now)
        → IsLeastIn (λ t. is_due policy.now other t ≡ true) from to result }
{
    next_of_all(policy, watched, from, to)
}

fn next_of_all(policy: &Chosen, watched: &[Watched], from: u64, to: u64) -> Option<u64>
    requires period { ForSome policy.now.period (λ period. 0 < period) }
    requires within { to ≤ 2 ^ 48 }
    requires watched { All IsWatched watched.now }
    ensures { IsLeastIn (AllHold policy.now watched.now) from to result }
{
    let mut at = from;
    'turns: while at <= to {
        let timed = next_by_time(policy, watched, at, to)?;
        let changed = next_by_change(policy, watched, timed, to)?;
        let shown = next_by_content(policy, watched, changed, to)?;
        if shown == timed {
            return Some(shown);
        }
        at = shown;
    }
    None
}

fn next_by_time(policy: &Chosen, watched: &[Watched], from: u64, to: u64) -> Option<u64>
    requires period { ForSome policy.now.period (λ period. 0 < period) }
    requires order { from ≤ to }
    requires within { to ≤ 2 ^ 48 }
    requires watched { All IsWatched watched.now }
    ensures { IsLeastIn (HoldsByTime policy.now watched.now) from to result }
{
    let period = period_of(policy);
    if policy.close {
        next_of_some(&Question::Close(period), watched, from, to)
    } else {
        next_multiple(period, from, to)
    }
}

// the period, or 1 where there is none
fn period_of(policy: &Chosen) -> u64
    requires period { ForSome policy.now.period (λ period. 0 < period) }
    ensures low { 0 < result }
    ensures alike { (t : ℕ) → (t % result == 0) ≡ divides policy.now.period t }
{
    match policy.period {
        Some(period) => period,
        None => 1,
    }
}

fn next_by_change(policy: &Chosen, watched: &[Watched], from: u64, to: u64) -> Option<u64>
    requires order { from ≤ to }
    requires within { to ≤ 2 ^ 48 }
    requires watched { All IsWatched watched.now }
    ensures { IsLeastIn (HoldsByChange policy.now watched.now) from to result }
{
    if policy.change {
        next_of_some(&Question::Change, watched, from, to)
    } else {
        Some(from)
    }
}

fn next_by_content(policy: &Chosen, watched: &[Watched], from: u64, to: u64) -> Option<u64>
    requires order { from ≤ to }
    requires within { to ≤ 2 ^ 48 }
    requires watched { All IsWatched watched.now }
    ensures { IsLeastIn (HoldsByContent policy.now watched.now) from to result }
{
    if policy.nonempty {
        next_of_some(&Question::Content, watched, from, to)
    } else {
        Some(from)
    }
}

// the least instant at which some window answers the question with yes
fn next_of_some(question: &Question, watched: &[Watched], from: u64, to: u64) -> Option<u64>
    requires period { HasPeriod question.now }
    requires order { from ≤ to }
    requires within { to ≤ 2 ^ 48 }
    requires watched { All IsWatched watched.now }
    ensures { IsLeastIn (λ t. some_window (asks question.now t) watched.now ≡ true) from to result }
{
    let mut best = None;
    for one in watched {
        let next = next_of_one(question, one, from, to);
        best = sooner(best, next);
    }
    best
}

fn next_of_one(question: &Question, one: &Watched, from: u64, to: u64) -> Option<u64>
    requires period { HasPeriod question.now }
    requires order { from ≤ to }
    requires within { to ≤ 2 ^ 48 }
    requires watched { IsWatched one.now }
    ensures { IsLeastIn (λ t. asks question.now t one.now ≡ true) from to result }
{
    match question {
        Question::Close(period) => next_closing(&one.window, *period, from, to),
        Question::Change => next_change(one, from, to),
        Question::Content => next_content(one, from, to),
    }
}

fn next_closing(window: &Window, period: u64, from: u64, to: u64) -> Option<u64>
    requires period { 0 < period }
    requires order { from ≤ to }
    requires within { to ≤ 2 ^ 48 }
    ensures { IsLeastIn (λ t. (closes_at window.now t && (t % period == 0)) ≡ true) from to result }
{
    let next = window.next_close(from);
    if next > to {
        return None;
    }
    // no multiple up to `to` but 0, and no window closes at 0
    if period > to {
        return None;
    }
    window.next_close_multiple(period, from, to)
}

// the least multiple of the period
fn next_multiple(period: u64, from: u64, to: u64) -> Option<u64>
    requires period { 0 < period }
    requires order { from ≤ to }
    ensures { IsLeastIn (λ t. (t % period == 0) ≡ true) from to result }
{
    let rest = from % period;
    if rest == 0 {
        return Some(from);
    }
    let missing = period - rest;
    if missing <= to - from {
        Some(from + missing)
    } else {
        None
    }
}
