// The decimal that a fraction is cut to, by long division.

ghost use Rattle.std.specs.Prelude.{◌≡◌, ◌≤◌, ◌<◌, ◌*◌, ◌^◌};
ghost use Rattle.rsp_number.specs.Decimals.{fit, fit_size};
ghost use Rattle.rsp_number.specs.SecondReadings.{IsFitOf};

use crate::decimals::{DecimalNumber, MOST_DIGITS};
use crate::integers::LARGEST;
use crate::wide::Wide;

/// The decimal that numerator / denominator is cut to, negated where `negative`; None exactly where its whole part
/// is past 2^63 - 1.
fn fit_size(negative: bool, numerator: u128, denominator: u128) -> Option<DecimalNumber>
    requires divides { 0 < denominator }
    requires room { denominator ≤ 10 ^ 37 }
    ensures value { result ≡ fit_size negative numerator denominator }
    ensures law { IsFitOf negative numerator denominator result }
{
    let whole = numerator / denominator;
    if whole > LARGEST as u128 {
        return None;
    }
    let mut size = whole as u64;
    let mut rest = numerator % denominator;
    for scale in 0..MOST_DIGITS {
        if rest == 0 {
            return Some(DecimalNumber::shortest(negative, size, scale));
        }
        let next = size as u128 * 10 + rest * 10 / denominator;
        if next > LARGEST as u128 {
            return Some(DecimalNumber::shortest(negative, size, scale));
        }
        size = next as u64;
        rest = rest * 10 % denominator;
    }
    Some(DecimalNumber::shortest(negative, size, MOST_DIGITS))
}

/// The decimal that numerator / denominator is cut to, toward zero; None exactly where its whole part is past
/// 2^63 - 1 in size.
pub(crate) fn fit_wide(numerator: Wide, denominator: u128) -> Option<DecimalNumber>
    requires divides { 0 < denominator }
    requires room { denominator ≤ 10 ^ 37 }
    ensures { result ≡ fit numerator denominator }
{
    fit_size(numerator.is_below_zero(), numerator.size(), denominator)
}
