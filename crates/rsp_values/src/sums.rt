// Sums and averages of numbers.
ghost use Rattle.std.specs.Prelude.{◌≡◌, ◌≤◌, ◌+◌, IfOk, OkIff, length, option_map};
ghost use Rattle.std.specs.Option.{option_and_then};
ghost use Rattle.rsp_spec.specs.Limits.{most_counted};
ghost use Rattle.rsp_number.specs.Totals.{after_taking};
ghost use Rattle.rsp_expr.specs.Aggregates as aggregates;
ghost use Rattle.rsp_expr.specs.Forms as forms;

use rsp_literals::{integer_of, number_of, quotient_of};
use rsp_number::{Number, Total};
use rsp_spec::limits::MOST_COUNTED;
use rsp_terms::Term;
use std::alloc::{AllocError, Global};

/// The numbers of the values, where none of them is an error and each has a number.
pub(crate) fn numbers_in(
    alloc: Global,
    values: &[Option<Term>],
) -> Result<Option<Vec<Number>>, AllocError>
    ensures { IfOk result (λ numbers. option_map (λ found. found.items) numbers ≡ aggregates.numbers_of values.now) }
{
    let mut numbers = Vec::new(alloc);
    for value in values {
        match number_in(value) {
            None => return Ok(None),
            Some(number) => numbers.push(number)?,
        }
    }
    Ok(Some(numbers))
}

fn number_in(value: &Option<Term>) -> Option<Number>
    ensures { result ≡ option_and_then forms.number_of value.now }
{
    match value {
        None => None,
        Some(term) => number_of(term),
    }
}

/// The sum; None exactly where no number holds it. Fails exactly for more than 2^32 numbers.
pub(crate) fn sum_of(numbers: &[Number]) -> Result<Option<Number>, AllocError>
    ensures { OkIff result (length numbers.now ≤ most_counted) (aggregates.sum_of numbers.now) }
{
    Ok(total_of(numbers)?.value())
}

fn total_of(numbers: &[Number]) -> Result<Total, AllocError>
    ensures { OkIff result (length numbers.now ≤ most_counted) (aggregates.total_of numbers.now) }
{
    if numbers.len() as u64 > MOST_COUNTED {
        return Err(AllocError);
    }
    let mut total = Total::new();
    for number in numbers {
        take_one(&mut total, number);
    }
    Ok(total)
}

fn take_one(total: &mut Total, number: &Number)
    requires { total.old.integers + total.old.decimals + 1 ≤ most_counted }
    ensures taken { total.new ≡ after_taking total.old number.now 1 }
    ensures count { total.new.integers + total.new.decimals ≡ total.old.integers + total.old.decimals + 1 }
{
    total.take(number, 1);
}

/// The sum divided by how many numbers there are, and 0 where there is none; None exactly where no number holds the sum or
/// the quotient. Fails exactly for more than 2^32 numbers.
pub(crate) fn average_of(numbers: &[Number]) -> Result<Option<Number>, AllocError>
    ensures { OkIff result (length numbers.now ≤ most_counted) (aggregates.average_of numbers.now) }
{
    if numbers.is_empty() {
        return Ok(integer_of(0));
    }
    Ok(quotient_of(sum_of(numbers)?, numbers.len() as u64))
}
