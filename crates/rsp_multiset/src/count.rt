// Counts with a sign.
ghost use Rattle.std.specs.Prelude.{◌≡◌, ◌<◌, ◌^◌, ℤ, pos, ◌+ℤ◌, ◌*ℤ◌, neg_ℤ, unsigned_abs, ◌<ℤ◌, ◌≤ℤ◌, ◌↔◌, IsTrue, OkIff};

use std::alloc::AllocError;
use std::marker::Model;

/// How often, with a sign: a whole number from -(2^63 - 1) to 2^63 - 1. A sum or product past that is refused with the
/// answer for want of memory.
#[derive(Clone, Copy)]
pub struct Count {
    value: i64,
}

impl Model for Count {
    ghost use Rattle.std.specs.Prelude.{ℤ, ◌<◌, ◌^◌, unsigned_abs};

    ghost Value = { ℤ };

    ghost view = { λ c. c.value };

    ghost invariant = { λ c. unsigned_abs c.value < 2 ^ 63 };

    ghost inverse = { λ z. record { value = z } };
}

impl Count {
    ghost use Rattle.std.specs.Prelude.{◌≡◌, ◌<◌, ◌^◌, ℤ, pos, ◌+ℤ◌, ◌*ℤ◌, neg_ℤ, unsigned_abs, ◌<ℤ◌, ◌≤ℤ◌, ◌↔◌, IsTrue, OkIff};

    /// The count of this value. Refuses -2^63 alone.
    pub fn new(value: i64) -> Result<Count, AllocError>
        ensures { OkIff result (unsigned_abs value < 2 ^ 63) value }
    {
        if value == i64::MIN {
            Err(AllocError)
        } else {
            Ok(Count { value })
        }
    }

    /// So many. Refuses what is past 2^63 - 1.
    pub fn of_many(times: u64) -> Result<Count, AllocError>
        ensures { OkIff result (times < 2 ^ 63) (pos times) }
    {
        if times < 1 << 63 {
            Ok(Count {
                value: times as i64,
            })
        } else {
            Err(AllocError)
        }
    }

    /// The count 0.
    pub fn zero() -> Count
        ensures { result ≡ pos 0 }
    {
        Count { value: 0 }
    }

    /// The number.
    pub fn value(self) -> i64
        ensures value { result ≡ self }
        ensures in_range { unsigned_abs self < 2 ^ 63 }
    {
        self.value
    }

    /// The number without its sign.
    pub fn size(self) -> u64
        ensures { result ≡ unsigned_abs self }
    {
        self.value.unsigned_abs()
    }

    /// Whether it is 0.
    pub fn is_zero(self) -> bool
        ensures { IsTrue result ↔ (self ≡ pos 0) }
    {
        self.value == 0
    }

    /// Whether it is below 0.
    pub fn is_negative(self) -> bool
        ensures { IsTrue result ↔ (self <ℤ pos 0) }
    {
        self.value < 0
    }

    /// The count with the other sign.
    pub fn opposite(self) -> Count
        ensures { result ≡ neg_ℤ self }
    {
        Count { value: -self.value }
    }

    /// So many less, of a count that is at least as many.
    pub(crate) fn less(self, times: u64) -> Count
        requires { pos times ≤ℤ self }
        ensures { result ≡ self +ℤ neg_ℤ (pos times) }
    {
        Count {
            value: self.value - times as i64,
        }
    }

    /// The sum, refused where it is out of range.
    pub fn checked_add(self, other: Count) -> Result<Count, AllocError>
        ensures { OkIff result (unsigned_abs (self +ℤ other) < 2 ^ 63) (self +ℤ other) }
    {
        match self.value.checked_add(other.value) {
            Some(sum) => Count::new(sum),
            None => Err(AllocError),
        }
    }

    /// The product, refused where it is out of range.
    pub fn checked_mul(self, other: Count) -> Result<Count, AllocError>
        ensures { OkIff result (unsigned_abs (self *ℤ other) < 2 ^ 63) (self *ℤ other) }
    {
        match self.value.checked_mul(other.value) {
            Some(product) => Count::new(product),
            None => Err(AllocError),
        }
    }
}
