// What counts and sums make.
ghost use Rattle.std.specs.Prelude.{◌≡◌, IfOk, pos};
ghost use Rattle.rsp_number.specs.Numbers.{integer_result, quotient};
ghost use Rattle.rsp_expr.specs.Errors.{value_of_both};
ghost use Rattle.rsp_expr.specs.Functions.{numeral_result};

use crate::numerals::term_of;
use rsp_number::{IntegerNumber, Number, div};
use rsp_terms::Term;
use std::alloc::{AllocError, Global};

/// The integer; None exactly where it is past 2^63 - 1.
pub fn integer_of(count: u64) -> Option<Number>
    ensures { result ≡ integer_result (pos count) }
{
    match i64::try_from(count) {
        Err(_) => None,
        Ok(count) => IntegerNumber::new(count).map(Number::Integer),
    }
}

/// The sum divided by so many; None exactly where there is no sum, or no number holds the quotient.
pub fn quotient_of(sum: Option<Number>, count: u64) -> Option<Number>
    ensures { result ≡ value_of_both quotient sum (integer_result (pos count)) }
{
    both_divided(sum, integer_of(count))
}

fn both_divided(sum: Option<Number>, count: Option<Number>) -> Option<Number>
    ensures { result ≡ value_of_both quotient sum count }
{
    match sum {
        None => None,
        Some(sum) => match count {
            None => None,
            Some(count) => div(&sum, &count),
        },
    }
}

/// The literal of a number, where there is one. Fails only where memory is refused.
pub fn literal_of(alloc: Global, number: Option<Number>) -> Result<Option<Term>, AllocError>
    ensures { IfOk result (λ term. term ≡ numeral_result number) }
{
    match number {
        None => Ok(None),
        Some(number) => Ok(Some(term_of(alloc, &number)?)),
    }
}
