// The times of the items over a window's stream.
ghost use Rattle.std.specs.Prelude.{◌≡◌, ◌+◌, ◌-◌, ◌*◌, ◌<◌, ◌≤◌, ◌^◌, ◌||◌, ℕ, false, drop, filter, length, nat_le};
ghost use Rattle.std.specs.List.Sorted.{IsNonDecreasing};
ghost use Rattle.rsp_spec.specs.Windows.{closing, in_content, opening};

use rsp_terms::Listed;
use rsp_windows::Window;
use std::alloc::Global;
use std::mem;

/// Lets go of times, in ms, that are in no content of the window from `from` - 1 ms on, which is at most 2^48. Takes no
/// memory. Of the times that are left at most half are up to the opening of the first window that closes at `from` - 1 or
/// later; each call looks at one time, but for those that let go of half of them or more.
pub fn forget_times(alloc: Global, window: &Window, times: &mut Listed<u64>, from: u64)
    requires within { from ≤ 2 ^ 48 }
    requires sorted { IsNonDecreasing times.old }
    ensures seen { (t : ℕ) → from ≤ t
        → filter (λ time. in_content window.now t time || in_content window.now (t - 1) time) times.new
        ≡ filter (λ time. in_content window.now t time || in_content window.now (t - 1) time) times.old }
    ensures rest { (n : ℕ) × (times.new ≡ drop n times.old) }
    ensures few { (k : ℕ) → 1 ≤ from → ((j : ℕ) → j < k → closing window.now j + 1 < from)
        → 2 * length (filter (λ time. nat_le time (opening window.now k)) times.new) ≤ length times.new }
{
    let Some(before) = from.checked_sub(1) else {
        return;
    };
    let low = window.opening(window.first_to_reach(before));
    if are_half_up_to(times.as_slice(), low) {
        let mut kept = mem::replace(times, Listed::new(alloc)).into_vec();
        kept.retain(|time| low < *time);
        *times = Listed::from_vec(kept);
    }
}

// whether the time at the middle isn't above `low`
fn are_half_up_to(times: &[u64], low: u64) -> bool
    requires { IsNonDecreasing times.now }
    ensures { result ≡ false → 2 * length (filter (λ time. nat_le time low) times.now) ≤ length times.now }
{
    match times.get(times.len() / 2) {
        Some(middle) => *middle <= low,
        None => false,
    }
}
