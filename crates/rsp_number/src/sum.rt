// Sums in units of 10^-18 that are wider than 128 bits: the whole part and the fraction are kept apart.

ghost use Rattle.std.specs.Prelude.{◌≡◌, ◌≤◌, ◌<◌, ◌*◌, ◌^◌, ◌+ℤ◌, ◌*ℤ◌, ℤ, neg_ℤ, pos, int_div, unsigned_abs};
ghost use Rattle.rsp_spec.specs.Limits.{most_counted};
ghost use Rattle.rsp_number.specs.Decimals.{largest, integer_in_range, fit};
ghost use Rattle.rsp_number.specs.TallyBounds.{IsWhole};

use crate::decimals::DecimalNumber;
use crate::fit::fit_wide;
use crate::integers::{IntegerNumber, LARGEST};
use crate::wide::Wide;
use std::marker::Model;

/// How many units of 10^-18 one is.
const UNITS: u64 = 1_000_000_000_000_000_000;

/// A whole number of units of 10^-18, of less than 2^160 in size. The fraction is from 0 to 10^18 - 1, so that each
/// number has one form.
#[derive(Drop)]
pub(crate) struct Sum {
    whole: Wide,
    fraction: u64,
}

impl Model for Sum {
    ghost Value = { ℤ };

    ghost view = { λ s. (s.whole *ℤ pos (10 ^ 18)) +ℤ pos s.fraction };

    ghost invariant = { λ s. (s.fraction < 10 ^ 18) × (unsigned_abs ((s.whole *ℤ pos (10 ^ 18)) +ℤ pos s.fraction) < 2 ^ 160) };
}

impl Sum {
    /// No unit.
    pub(crate) fn nothing() -> Sum
        ensures { result ≡ pos 0 }
    {
        Sum {
            whole: Wide::from_size(0),
            fraction: 0,
        }
    }

    /// The integer in units.
    pub(crate) fn from_integer(integer: &IntegerNumber) -> Sum
        ensures value { result ≡ integer.now *ℤ pos (10 ^ 18) }
        ensures range { unsigned_abs result ≤ largest * 10 ^ 18 }
    {
        Sum {
            whole: Wide::from_integer(integer.numerator()),
            fraction: 0,
        }
    }

    /// So many units.
    pub(crate) fn from_units(units: Wide) -> Sum
        requires { unsigned_abs units < 2 ^ 127 }
        ensures { result ≡ units }
    {
        Sum {
            whole: units.floor(UNITS as u128),
            fraction: units.rest(UNITS as u128) as u64,
        }
    }

    /// The product with a count.
    pub(crate) fn times(&self, count: u64) -> Sum
        requires size { unsigned_abs self.now ≤ largest * 10 ^ 18 }
        requires count { count ≤ most_counted }
        ensures { result ≡ self.now *ℤ pos count }
    {
        let fraction = self.fraction as u128 * count as u128;
        let carry = fraction / UNITS as u128;
        Sum {
            whole: self.whole.times_plus(count as u128, carry),
            fraction: (fraction % UNITS as u128) as u64,
        }
    }

    /// The decimal that it is cut to; None exactly where there is none.
    pub(crate) fn cut(&self) -> Option<DecimalNumber>
        ensures { result ≡ fit self.now (10 ^ 18) }
    {
        if self.whole.size() > LARGEST as u128 + 1 {
            return None;
        }
        let units = self.whole.times_plus(UNITS as u128, self.fraction as u128);
        fit_wide(units, UNITS as u128)
    }

    /// The integer that it is; None exactly where its size is past 2^63 - 1.
    pub(crate) fn whole(&self) -> Option<IntegerNumber>
        requires { IsWhole self.now }
        ensures { result ≡ integer_in_range (int_div self.now (pos (10 ^ 18))) }
    {
        if self.whole.size() > LARGEST as u128 {
            None
        } else {
            Some(self.whole.into_integer())
        }
    }

    /// The sum.
    pub(crate) fn plus(&self, other: &Sum) -> Sum
        requires { unsigned_abs (self.now +ℤ other.now) < 2 ^ 160 }
        ensures { result ≡ self.now +ℤ other.now }
    {
        let whole = self.whole.plus(other.whole);
        let fraction = self.fraction + other.fraction;
        if fraction < UNITS {
            Sum { whole, fraction }
        } else {
            Sum {
                whole: whole.plus(Wide::from_size(1)),
                fraction: fraction - UNITS,
            }
        }
    }

    /// The number with the other sign.
    pub(crate) fn opposite(&self) -> Sum
        ensures { result ≡ neg_ℤ self.now }
    {
        if self.fraction == 0 {
            Sum {
                whole: self.whole.opposite(),
                fraction: 0,
            }
        } else {
            Sum {
                whole: self.whole.plus(Wide::from_size(1)).opposite(),
                fraction: UNITS - self.fraction,
            }
        }
    }
}
