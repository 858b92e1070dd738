// What gives a number of the same kind: negation, size and rounding to a whole number. It always exists.

ghost use Rattle.std.specs.Prelude.{◌≡◌, ◌≤◌, unsigned_abs};
ghost use Rattle.rsp_number.specs.Decimals.{largest};
ghost use Rattle.rsp_number.specs.declared.number.Number.TheVariants.{Decimal};
ghost use Rattle.rsp_number.specs.Numbers.{value_of, negation, absolute_value, rounding, floor_of, ceil_of, round_of};
ghost use Rattle.rsp_number.specs.SecondReadings.{IsFloor};

use crate::decimals::DecimalNumber;
use crate::integers::IntegerNumber;
use crate::number::Number;
use crate::wide::Wide;

/// The number with the other sign.
pub fn neg(number: &Number) -> Number
    ensures { result ≡ negation number.now }
{
    match number {
        Number::Integer(integer) => Number::Integer(integer.opposite()),
        Number::Decimal(decimal) => Number::Decimal(decimal.opposite()),
    }
}

/// The number without its sign.
pub fn abs(number: &Number) -> Number
    ensures { result ≡ absolute_value number.now }
{
    match number {
        Number::Integer(integer) => Number::Integer(integer.absolute()),
        Number::Decimal(decimal) => Number::Decimal(decimal.absolute()),
    }
}

/// The least whole number that is not below the number.
pub fn ceil(number: &Number) -> Number
    ensures { result ≡ rounding ceil_of number.now }
{
    match number {
        Number::Integer(integer) => Number::Integer(*integer),
        Number::Decimal(decimal) => Number::Decimal(DecimalNumber::whole(whole_ceil(decimal))),
    }
}

/// The greatest whole number that is not above the number.
pub fn floor(number: &Number) -> Number
    ensures { result ≡ rounding floor_of number.now }
{
    match number {
        Number::Integer(integer) => Number::Integer(*integer),
        Number::Decimal(decimal) => Number::Decimal(DecimalNumber::whole(whole_floor(decimal))),
    }
}

/// The nearest whole number, and of two that are as near the greater.
///
/// 2.5 gives 3, -2.5 gives -2, and the integer 7 stays 7.
pub fn round(number: &Number) -> Number
    ensures { result ≡ rounding round_of number.now }
{
    match number {
        Number::Integer(integer) => Number::Integer(*integer),
        Number::Decimal(decimal) => Number::Decimal(DecimalNumber::whole(whole_round(decimal))),
    }
}

/// The decimal's floor.
fn whole_floor(decimal: &DecimalNumber) -> IntegerNumber
    ensures value { result ≡ floor_of (value_of (Decimal decimal.now)) }
    ensures law { IsFloor (value_of (Decimal decimal.now)) result }
    ensures range { unsigned_abs result ≤ largest }
{
    let numerator = Wide::from_integer(decimal.numerator());
    numerator.floor(decimal.denominator()).into_integer()
}

/// The decimal's ceiling: the floor from the other side of 0.
fn whole_ceil(decimal: &DecimalNumber) -> IntegerNumber
    ensures value { result ≡ ceil_of (value_of (Decimal decimal.now)) }
    ensures range { unsigned_abs result ≤ largest }
{
    let numerator = Wide::from_integer(decimal.numerator().opposite());
    numerator
        .floor(decimal.denominator())
        .opposite()
        .into_integer()
}

/// The floor of one half more than the decimal.
fn whole_round(decimal: &DecimalNumber) -> IntegerNumber
    ensures value { result ≡ round_of (value_of (Decimal decimal.now)) }
    ensures range { unsigned_abs result ≤ largest }
{
    let denominator = decimal.denominator();
    let doubled = Wide::scaled(decimal.numerator(), 2);
    doubled
        .plus(Wide::from_size(denominator))
        .floor(denominator * 2)
        .into_integer()
}
