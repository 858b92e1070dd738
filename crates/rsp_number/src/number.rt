// Numbers of both kinds.

ghost use Rattle.std.specs.Prelude.{◌≡◌, ◌≤◌, ◌^◌, unsigned_abs};
ghost use Rattle.rsp_number.specs.Decimals.{largest};
ghost use Rattle.rsp_number.specs.Numbers.{value_of};
ghost use Rattle.rsp_number.specs.Totals.{units};
ghost use Rattle.rsp_number.specs.SecondReadings.{AreUnits};

use crate::decimals::DecimalNumber;
use crate::integers::IntegerNumber;
use crate::wide::Wide;

/// An exact number. An integer and a decimal of one value are two numbers, which `compare` takes as equal.
#[derive(Clone, Copy, PartialEq, Eq, Debug)]
pub enum Number {
    /// An integer.
    Integer(IntegerNumber),
    /// A decimal, also where it is whole.
    Decimal(DecimalNumber),
}

impl Number {
    /// The whole number above the line of the fraction that it is.
    pub(crate) fn numerator(&self) -> IntegerNumber
        ensures value { result ≡ (value_of self.now).numerator }
        ensures range { unsigned_abs result ≤ largest }
    {
        match self {
            Number::Integer(integer) => integer.numerator(),
            Number::Decimal(decimal) => decimal.numerator(),
        }
    }

    /// The power of ten below the line, from 1 to 10^18.
    pub(crate) fn denominator(&self) -> u128
        ensures value { result ≡ (value_of self.now).denominator }
        ensures above_zero { 1 ≤ result }
        ensures range { result ≤ 10 ^ 18 }
    {
        match self {
            Number::Integer(_) => 1,
            Number::Decimal(decimal) => decimal.denominator(),
        }
    }

    /// How many 10^-18 it is.
    pub(crate) fn in_units(&self) -> Wide
        ensures value { result ≡ units self.now }
        ensures exact { AreUnits (value_of self.now) result }
    {
        match self {
            Number::Integer(integer) => integer.in_units(),
            Number::Decimal(decimal) => decimal.in_units(),
        }
    }
}
