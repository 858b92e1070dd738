// Instants that are both a closing and a multiple of a period: by the extended Euclidean algorithm, never by a walk.
ghost use Rattle.std.specs.Prelude.{◌≡◌, ℕ, ◌+◌, ◌*◌, ◌^◌, ◌<◌, ◌≤◌, IfSome, IsNone};
ghost use Rattle.rsp_spec.specs.Instants.{IsLeastIn};
ghost use Rattle.rsp_windows.specs.Congruences.{IsBezout, IsRow, IsShared};

// a common divisor, and how many times the one number less so many times the other it is
#[derive(Clone, Copy)]
struct CommonDivisor {
    divisor: u64,
    times: u64,
    less: u64,
}

// equally spaced instants
#[derive(Clone, Copy)]
struct Row {
    first: u128,
    step: u128,
}

/// The least instant from `from` to `to` that is `base` and a whole number of slides more, and that the period divides.
pub(crate) fn next_shared(base: u64, slide: u64, period: u64, from: u64, to: u64) -> Option<u64>
    requires slide_low { 0 < slide }
    requires period_low { 0 < period }
    requires base_high { base ≤ 2 ^ 49 }
    requires slide_high { slide ≤ 2 ^ 48 }
    requires period_high { period ≤ 2 ^ 48 }
    ensures { IsLeastIn (IsShared base slide period) from to result }
{
    let row = shared_row(base, slide, period)?;
    let at = first_from(row.first, row.step, from as u128);
    if at <= to as u128 {
        Some(at as u64)
    } else {
        None
    }
}

fn shared_row(base: u64, slide: u64, period: u64) -> Option<Row>
    requires slide_low { 0 < slide }
    requires period_low { 0 < period }
    requires base_high { base ≤ 2 ^ 49 }
    requires slide_high { slide ≤ 2 ^ 48 }
    requires period_high { period ≤ 2 ^ 48 }
    ensures row { IfSome result (λ row. IsRow base slide period row.first row.step) }
    ensures none { IsNone result → (t : ℕ) → IsShared base slide period t → ⊥ }
    ensures sizes { IfSome result (λ row. (row.first ≤ 2 ^ 97) × (row.step ≤ 2 ^ 96)) }
{
    let common = divide_out(slide, period);
    if base % common.divisor != 0 {
        return None;
    }
    let missing = base.div_ceil(period) * period - base;
    let turn = (period / common.divisor) as u128;
    let number = (missing / common.divisor) as u128 * common.times as u128 % turn;
    Some(Row {
        first: base as u128 + number * slide as u128,
        step: turn * slide as u128,
    })
}

// two steps of Euclid at once, so that no coefficient is negative
fn divide_out(a: u64, b: u64) -> CommonDivisor
    requires a_low { 0 < a }
    requires b_low { 0 < b }
    ensures { IsBezout a b result.divisor result.times result.less }
{
    let rest = a % b;
    if rest == 0 {
        return CommonDivisor {
            divisor: b,
            times: 1,
            less: a / b - 1,
        };
    }
    let second = b % rest;
    if second == 0 {
        return CommonDivisor {
            divisor: rest,
            times: 1,
            less: a / b,
        };
    }
    let inner = divide_out(rest, second);
    let times = inner.times + inner.less * (b / rest);
    let less = inner.less + a / b * times;
    CommonDivisor {
        divisor: inner.divisor,
        times,
        less,
    }
}

// the first of the row at `from` or later
fn first_from(first: u128, step: u128, from: u128) -> u128
    requires moves { 0 < step }
    requires first_high { first ≤ 2 ^ 97 }
    requires step_high { step ≤ 2 ^ 96 }
    requires from_high { from ≤ 2 ^ 64 }
    ensures late { from ≤ result }
    ensures on { (j : ℕ) × (result ≡ first + j * step) }
    ensures least { (j : ℕ) → from ≤ first + j * step → result ≤ first + j * step }
{
    first + from.saturating_sub(first).div_ceil(step) * step
}
