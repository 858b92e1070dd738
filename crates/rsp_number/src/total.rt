// Sums of many numbers, exact whatever is taken in and given back.

ghost use Rattle.std.specs.Prelude.{◌≡◌, ◌≤◌, ◌+◌, ◌*◌, ◌^◌, unsigned_abs};
ghost use Rattle.rsp_spec.specs.Limits.{most_counted};
ghost use Rattle.rsp_number.specs.Decimals.{largest};
ghost use Rattle.rsp_number.specs.TallyBounds.{IsTally, IsWhole, IsWithin};
ghost use Rattle.rsp_number.specs.Totals.{units, integers_of, decimals_of, empty_tally, after_taking, after_giving};
ghost use Rattle.rsp_number.specs.Totals.{value_of_total};

use crate::number::Number;
use crate::sum::Sum;
use std::marker::Model;

/// The exact sum of at most 2^32 numbers, and how many integers and decimals are in it.
#[derive(Drop)]
pub struct Total {
    sum: Sum,
    integers: u64,
    decimals: u64,
}

impl Model for Total {
    ghost use Rattle.rsp_number.specs.Tallies.{Tally};
    ghost use Rattle.rsp_number.specs.TallyBounds.{IsTally};

    ghost Value = { Tally };

    ghost view = { λ t. record { sum = t.sum; integers = t.integers; decimals = t.decimals } };

    ghost invariant = { λ t. IsTally (record { sum = t.sum; integers = t.integers; decimals = t.decimals }) };
}

impl Total {
    /// The sum of no numbers.
    pub fn new() -> Total
        ensures { result ≡ empty_tally }
    {
        Total {
            sum: Sum::nothing(),
            integers: 0,
            decimals: 0,
        }
    }

    /// Takes the number in, `times` times; at most 2^32 numbers are then in the total.
    pub fn take(&mut self, number: &Number, times: u64)
        requires { self.old.integers + self.old.decimals + times ≤ most_counted }
        ensures total { self.new ≡ after_taking self.old number.now times }
        ensures range { unsigned_abs (units number.now) ≤ largest * 10 ^ 18 }
    {
        let part = in_units(number).times(times);
        self.sum = self.sum.plus(&part);
        match number {
            Number::Integer(_) => self.integers += times,
            Number::Decimal(_) => self.decimals += times,
        }
    }

    /// Gives the number back, `times` times. So many of its kind are in the total, and what stays can be a sum of the
    /// numbers that stay: at most 2^63 - 1 in size for each, and whole where no decimal stays.
    pub fn give(&mut self, number: &Number, times: u64)
        requires integers { integers_of number.now times ≤ self.old.integers }
        requires decimals { decimals_of number.now times ≤ self.old.decimals }
        requires within { let after = after_giving self.old number.now times in
            IsWithin after.sum (after.integers + after.decimals) }
        requires whole { let after = after_giving self.old number.now times in after.decimals ≡ 0 → IsWhole after.sum }
        ensures { self.new ≡ after_giving self.old number.now times }
    {
        let before = &self.sum;
        let part = in_units(number).times(times).opposite();
        self.sum = before.plus(&part);
        match number {
            Number::Integer(_) => self.integers -= times,
            Number::Decimal(_) => self.decimals -= times,
        }
    }

    /// The sum: an integer where no decimal is in the total, else the decimal that it is cut to. None exactly where
    /// no such number holds it.
    pub fn value(&self) -> Option<Number>
        ensures value { result ≡ value_of_total self.now }
        ensures tally { IsTally self.now }
    {
        if self.decimals == 0 {
            self.sum.whole().map(Number::Integer)
        } else {
            self.sum.cut().map(Number::Decimal)
        }
    }
}

/// The number in units of 10^-18.
fn in_units(number: &Number) -> Sum
    ensures value { result ≡ units number.now }
    ensures range { unsigned_abs result ≤ largest * 10 ^ 18 }
{
    match number {
        Number::Integer(integer) => Sum::from_integer(integer),
        Number::Decimal(decimal) => Sum::from_units(decimal.in_units()),
    }
}
