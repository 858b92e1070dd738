// SUM and AVG.
ghost use Rattle.std.specs.Prelude.{◌≡◌, ◌≤◌, ◌^◌, ◌+◌, List, [], Option, length, IfOk, OnOk, cond};
ghost use Rattle.rsp_expr.specs.Errors.{value_of_both};
ghost use Rattle.rsp_number.specs.Numbers.{integer_result, quotient};
ghost use Rattle.rsp_number.specs.Totals.{value_of_total};
ghost use Rattle.rsp_aggregates.specs.Sums.{number_in, mean};

use rsp_folds::Fold;
use rsp_literals::{integer_of, literal_of, number_of, quotient_of};
use rsp_number::{Number, Total};
use rsp_terms::Term;
use std::alloc::{AllocError, Global};

/// The exact sum of the values that have a number, how many these are, and how many values are errors or have none.
#[derive(Drop)]
pub struct Summing {
    average: bool,
    total: Total,
    numbers: u64,
    others: u64,
}

impl Summing {
    ghost use Rattle.std.specs.Prelude.{◌≡◌, []};
    ghost use Rattle.rsp_aggregates.specs.Sums.{SumStands};

    /// AVG, or else SUM, with nothing in it. Takes no memory.
    pub fn new(average: bool) -> Summing
        ensures average { result.average ≡ average }
        ensures nothing { SumStands result.total result.numbers result.others [] }
    {
        Summing {
            average,
            total: Total::new(),
            numbers: 0,
            others: 0,
        }
    }
}

// the value's number
fn number_in(value: &Option<Term>) -> Option<Number>
    ensures { result ≡ number_in value.now }
{
    match value {
        None => None,
        Some(term) => number_of(term),
    }
}

// the sum divided by how many numbers there are; of none the integer 0
fn mean(total: &Total, numbers: u64) -> Option<Number>
    ensures { result ≡ mean total.now numbers }
{
    if numbers == 0 {
        integer_of(0)
    } else {
        quotient_of(total.value(), numbers)
    }
}

fn sum_or_mean(average: bool, total: &Total, numbers: u64) -> Option<Number>
    ensures { result ≡ cond average (mean total.now numbers) (value_of_total total.now) }
{
    if average {
        mean(total, numbers)
    } else {
        total.value()
    }
}

impl Fold for Summing {
    ghost use Rattle.rsp_aggregates.specs.Sums.{sum_aggregate, SumStands, sums_alike, sum_aggregates_alike};

    ghost aggregate = { λ fold values. sum_aggregate fold.average values };

    ghost stands = { λ fold values. SumStands fold.total fold.numbers fold.others values };

    ghost stands_alike = { λ fold values others same stands.
        sums_alike fold.total fold.numbers fold.others values others same stands };

    ghost aggregates_alike = { λ fold values others same. sum_aggregates_alike fold.average values others same };

    fn fresh(&self, _alloc: Global) -> Result<Summing, AllocError> {
        Ok(Summing::new(self.average))
    }

    fn take(&mut self, _alloc: Global, value: &Option<Term>, times: u64) -> Result<(), AllocError> {
        match number_in(value) {
            None => self.others += times,
            Some(number) => {
                self.total.take(&number, times);
                self.numbers += times;
            }
        }
        Ok(())
    }

    fn give(&mut self, _alloc: Global, value: &Option<Term>, times: u64) -> Result<(), AllocError> {
        match number_in(value) {
            None => self.others -= times,
            Some(number) => {
                self.total.give(&number, times);
                self.numbers -= times;
            }
        }
        Ok(())
    }

    fn result(&self, alloc: Global) -> Result<Option<Term>, AllocError> {
        if self.others > 0 {
            return Ok(None);
        }
        literal_of(alloc, sum_or_mean(self.average, &self.total, self.numbers))
    }
}
