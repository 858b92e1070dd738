// Whole numbers of 128 bits, for the numerators of exact values.

ghost use Rattle.std.specs.Prelude.{◌≡◌, ◌≤◌, ◌<◌, ◌*◌, ◌^◌, ◌+◌, ◌+ℤ◌, ◌*ℤ◌, ℤ, neg_ℤ, pos, cond, unsigned_abs};
ghost use Rattle.std.specs.Int.{int_div_euclid, int_rem_euclid};
ghost use Rattle.std.specs.Ordering.{int_cmp};
ghost use Rattle.rsp_number.specs.Decimals.{largest, is_below_zero};

use crate::integers::IntegerNumber;
use std::cmp::Ordering;
use std::marker::Model;

/// A whole number of less than 2^127 in size.
#[derive(Clone, Copy)]
pub(crate) struct Wide {
    value: i128,
}

impl Model for Wide {
    ghost Value = { ℤ };

    ghost view = { λ n. n.value };

    ghost invariant = { λ n. unsigned_abs n.value < 2 ^ 127 };

    ghost inverse = { λ z. record { value = z } };
}

impl Wide {
    /// The number that the integer is.
    pub(crate) fn from_integer(integer: IntegerNumber) -> Wide
        ensures { result ≡ integer }
    {
        Wide {
            value: integer.value() as i128,
        }
    }

    /// The number of this size, which is not below 0.
    pub(crate) fn from_size(size: u128) -> Wide
        requires { size < 2 ^ 127 }
        ensures { result ≡ pos size }
    {
        Wide {
            value: size as i128,
        }
    }

    /// The integer that the number is.
    pub(crate) fn into_integer(self) -> IntegerNumber
        requires { unsigned_abs self ≤ largest }
        ensures { result ≡ self }
    {
        IntegerNumber::signed(self.is_below_zero(), self.size() as u64)
    }

    /// The integer times a power of ten.
    pub(crate) fn scaled(integer: IntegerNumber, factor: u128) -> Wide
        requires size { unsigned_abs integer ≤ largest }
        requires factor { factor ≤ 10 ^ 18 }
        ensures value { result ≡ integer *ℤ pos factor }
        ensures range { unsigned_abs result ≤ largest * 10 ^ 18 }
    {
        Wide {
            value: integer.value() as i128 * factor as i128,
        }
    }

    /// The product of two integers.
    pub(crate) fn product(left: IntegerNumber, right: IntegerNumber) -> Wide
        requires left { unsigned_abs left ≤ largest }
        requires right { unsigned_abs right ≤ largest }
        ensures value { result ≡ left *ℤ right }
        ensures range { unsigned_abs result ≤ largest * largest }
    {
        Wide {
            value: left.value() as i128 * right.value() as i128,
        }
    }

    /// The sum.
    pub(crate) fn plus(self, other: Wide) -> Wide
        requires { unsigned_abs self + unsigned_abs other < 2 ^ 127 }
        ensures { result ≡ self +ℤ other }
    {
        Wide {
            value: self.value + other.value,
        }
    }

    /// The product with the factor, and the carry.
    pub(crate) fn times_plus(self, factor: u128, carry: u128) -> Wide
        requires size { unsigned_abs self ≤ largest + 1 }
        requires factor { factor ≤ 10 ^ 18 }
        requires carry { carry < 10 ^ 18 }
        ensures { result ≡ (self *ℤ pos factor) +ℤ pos carry }
    {
        Wide {
            value: self.value * factor as i128 + carry as i128,
        }
    }

    /// The number with the other sign.
    pub(crate) fn opposite(self) -> Wide
        ensures { result ≡ neg_ℤ self }
    {
        Wide { value: -self.value }
    }

    /// The number, with the other sign where `negative`.
    pub(crate) fn negated_where(self, negative: bool) -> Wide
        ensures { result ≡ cond negative (neg_ℤ self) self }
    {
        if negative { self.opposite() } else { self }
    }

    /// Its size without the sign.
    pub(crate) fn size(self) -> u128
        ensures value { result ≡ unsigned_abs self }
        ensures range { result < 2 ^ 127 }
    {
        self.value.unsigned_abs()
    }

    /// Whether it is below 0.
    pub(crate) fn is_below_zero(self) -> bool
        ensures { result ≡ is_below_zero self }
    {
        self.value < 0
    }

    /// The order of the two.
    pub(crate) fn compare(self, other: Wide) -> Ordering
        ensures { result ≡ int_cmp self other }
    {
        self.value.cmp(&other.value)
    }

    /// The greatest whole number that is not above self / divisor.
    pub(crate) fn floor(self, divisor: u128) -> Wide
        requires above_zero { 0 < divisor }
        requires range { divisor < 2 ^ 127 }
        ensures value { result ≡ int_div_euclid self (pos divisor) }
        ensures nearer { unsigned_abs result ≤ unsigned_abs self }
    {
        Wide {
            value: self.value.div_euclid(divisor as i128),
        }
    }

    /// What floor leaves of self / divisor, in parts of the divisor.
    pub(crate) fn rest(self, divisor: u128) -> u128
        requires above_zero { 0 < divisor }
        requires range { divisor < 2 ^ 127 }
        ensures value { pos result ≡ int_rem_euclid self (pos divisor) }
        ensures below { result < divisor }
    {
        self.value.rem_euclid(divisor as i128) as u128
    }
}
