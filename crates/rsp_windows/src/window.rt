// One query's windows, by their width, their distance and their first opening.

ghost use Rattle.std.specs.Prelude.{◌≡◌, Some, false, nat_le, true, ◌%◌, ℕ, ◌+◌, ◌*◌, ◌^◌, ◌<◌, ◌≤◌, ◌↔◌, IfSome, IsSome};
ghost use Rattle.std.specs.Option.{option_map_or};
ghost use Rattle.rsp_spec.specs.Instants.{IsLeastIn};
ghost use Rattle.rsp_spec.specs.Windows.{IsShape, Shape, active_window, closes_at, closing, is_needed, opening};
ghost use Rattle.rsp_spec.specs.Relations.{IsActive, IsAtMost, IsLastNeeded, IsNeeded, IsNextClosing};

use crate::congruence::next_shared;
use rsp_spec::limits::LAST_INSTANT;
use std::marker::Model;

/// Windows of one width that open at equal distances, numbered from 0. Window k is open after its opening,
/// `origin + k * slide`, up to and with its closing, `width` later. All times are milliseconds.
#[derive(Clone, Copy, PartialEq, Eq)]
pub struct Window {
    width: u64,
    slide: u64,
    origin: u64,
}

impl Model for Window {
    ghost use Rattle.rsp_spec.specs.Windows.{IsShape, Shape};

    ghost Value = { Shape };

    ghost view = { λ w. record { width = w.width; slide = w.slide; origin = w.origin } };

    ghost invariant = { λ w. IsShape (record { width = w.width; slide = w.slide; origin = w.origin }) };

    ghost inverse = { λ s. record { width = s.width; slide = s.slide; origin = s.origin } };
}

impl Window {
    /// Windows that are open for `width` ms, one opening `slide` ms after another and the first at `origin`.
    /// None where `width` or `slide` is 0, or one of the three is past the end of the year 9999.
    pub fn new(width: u64, slide: u64, origin: u64) -> Option<Window>
        ensures shape { IfSome result (λ w. w ≡ record { width = width; slide = slide; origin = origin }) }
        ensures some { IsSome result ↔ IsShape (record { width = width; slide = slide; origin = origin }) }
    {
        if width == 0 || slide == 0 {
            return None;
        }
        if width > LAST_INSTANT || slide > LAST_INSTANT || origin > LAST_INSTANT {
            return None;
        }
        Some(Window {
            width,
            slide,
            origin,
        })
    }

    /// The number of the window that is reported at `t` ms: of those that contain it the one that opened first. None
    /// where none does. `t` is at most 2^48. What `active` gives can be handed to `opening` and `closing`.
    pub fn active(&self, t: u64) -> Option<u64>
        requires { t ≤ 2 ^ 48 }
        ensures value { result ≡ active_window self.now t }
        ensures least { IsActive self.now t result }
        ensures within { IfSome result (λ k. k * self.now.slide ≤ t) }
        ensures shape { IsShape self.now }
    {
        let k = self.first_to_reach(t);
        if self.opening(k) < t { Some(k) } else { None }
    }

    /// When window `k` opens, in ms. This instant is not in it. `k * slide` is at most 2^62.
    pub fn opening(&self, k: u64) -> u64
        requires { k * self.now.slide ≤ 2 ^ 62 }
        ensures { result ≡ opening self.now k }
    {
        self.origin + k * self.slide
    }

    /// When window `k` closes, in ms. This instant is its last. `k * slide` is at most 2^62.
    pub fn closing(&self, k: u64) -> u64
        requires { k * self.now.slide ≤ 2 ^ 62 }
        ensures { result ≡ closing self.now k }
    {
        self.opening(k) + self.width
    }

    /// Whether some window closes at `t` ms, which is at most 2^48.
    pub fn closes_at(&self, t: u64) -> bool
        requires { t ≤ 2 ^ 48 }
        ensures value { result ≡ closes_at self.now t }
        ensures shape { IsShape self.now }
    {
        let first_closing = self.origin + self.width;
        if t < first_closing {
            return false;
        }
        (t - first_closing) % self.slide == 0
    }

    /// The least closing at `from` ms or later. `from` is at most 2^48; the closing is less than 2^50.
    pub fn next_close(&self, from: u64) -> u64
        requires { from ≤ 2 ^ 48 }
        ensures least { IsLeastIn (λ t. closes_at self.now t ≡ true) from result (Some result) }
        ensures next { IsNextClosing self.now from result }
        ensures within { result < 2 ^ 50 }
        ensures shape { IsShape self.now }
    {
        self.first_closing(from)
    }

    fn first_closing(&self, from: u64) -> u64
        requires { from ≤ 2 ^ 48 }
        ensures next { IsNextClosing self.now from result }
        ensures within { result < 2 ^ 50 }
        ensures shape { IsShape self.now }
    {
        self.closing(self.first_to_reach(from))
    }

    /// The least closing from `from` to `to` ms that `period` ms divide; None exactly where there is none. By the
    /// extended Euclidean algorithm, however far away it is. `period` is from 1 to 2^48.
    pub fn next_close_multiple(&self, period: u64, from: u64, to: u64) -> Option<u64>
        requires period_low { 0 < period }
        requires period_high { period ≤ 2 ^ 48 }
        ensures { IsLeastIn (λ t. (closes_at self.now t ≡ true) × (t % period ≡ 0)) from to result }
    {
        next_shared(self.origin + self.width, self.slide, period, from, to)
    }

    /// The greatest closing among the windows that contain `time` ms: up to this instant an item of that time can be in
    /// a content. None where no window contains it. `time` is at most 2^48.
    pub fn last_needed(&self, time: u64) -> Option<u64>
        requires { time ≤ 2 ^ 48 }
        ensures value { (from : ℕ) → is_needed self.now time from ≡ option_map_or (λ last. nat_le from last) result false }
        ensures last { IsLastNeeded self.now time result }
        ensures needed { (from : ℕ) → IsNeeded self.now time from ↔ IsAtMost from result }
        ensures within { IfSome result (λ last. last < 2 ^ 50) }
        ensures shape { IsShape self.now }
    {
        self.last_closing(time)
    }

    fn last_closing(&self, time: u64) -> Option<u64>
        requires { time ≤ 2 ^ 48 }
        ensures last { IsLastNeeded self.now time result }
        ensures needed { (from : ℕ) → IsNeeded self.now time from ↔ IsAtMost from result }
        ensures within { IfSome result (λ last. last < 2 ^ 50) }
        ensures shape { IsShape self.now }
    {
        if time <= self.origin {
            return None;
        }
        let closing = self.closing(self.last_to_open(time));
        if closing < time { None } else { Some(closing) }
    }

    // the last window that opens before t
    fn last_to_open(&self, t: u64) -> u64
        requires high { t ≤ 2 ^ 48 }
        requires begun { self.now.origin < t }
        ensures opens { opening self.now result < t }
        ensures last { (k : ℕ) → opening self.now k < t → k ≤ result }
        ensures within { result * self.now.slide ≤ t }
        ensures shape { IsShape self.now }
    {
        (t - 1 - self.origin) / self.slide
    }

    /// The number of the first window that closes at `t` ms or later: items up to its opening are in no content from `t`
    /// on. `t` is at most 2^48. The number can be handed to `opening` and `closing`.
    pub fn first_to_reach(&self, t: u64) -> u64
        requires { t ≤ 2 ^ 48 }
        ensures reaches { t ≤ closing self.now result }
        ensures first { (k : ℕ) → k < result → closing self.now k < t }
        ensures within { result * self.now.slide ≤ t + self.now.slide }
        ensures shape { IsShape self.now }
    {
        t.saturating_sub(self.origin + self.width)
            .div_ceil(self.slide)
    }
}
