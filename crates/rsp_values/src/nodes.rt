// What a node makes of the values of its parts, each of which may be an error.
ghost use Rattle.std.specs.Prelude.{◌≡◌, ◌||◌, IfOk, Bool, Some, if◌then◌else◌, is_some, None};
ghost use Rattle.std.specs.Bool.{beq};
ghost use Rattle.std.specs.Option.{option_and_then, option_eq};
ghost use Rattle.rsp_expr.specs.Booleans.{truth_of, boolean_result, logical_not};
ghost use Rattle.rsp_expr.specs.Comparing as comparing;
ghost use Rattle.rsp_expr.specs.Errors.{value_of_both};
ghost use Rattle.rsp_expr.specs.Functions as functions;
ghost use Rattle.rsp_expr.specs.Values.{cell};
ghost use Rattle.rsp_operands.specs.Operands as operands;
ghost use Rattle.rsp_operands.specs.Operands.{term_for, value_for};
ghost use Rattle.rsp_values.specs.Parts.{terms_for, of_two, of_third, undecided, argument_values};
ghost use Rattle.rsp_multiset.specs.Rows.{Cells};
ghost use Rattle.rsp_terms.specs.declared.term.Term.{Term};

use crate::reading::ReadRow;
use rsp_expr::{Expression, Function};
use rsp_operands::{Operand, binary_value, equality, ternary_value, unary_value};
use rsp_terms::Term;
use std::alloc::{AllocError, Global};

// ---- leaves

pub(crate) fn constant(term: &Term) -> Result<Option<Operand>, AllocError>
    ensures { IfOk result (λ operand. value_for operand ≡ Some term.now) }
{
    Ok(Some(Operand::Term(term.share()?)))
}

pub(crate) fn cell<R: ReadRow>(row: &R, variable: usize) -> Result<Option<Operand>, AllocError>
    ensures { IfOk result (λ operand. value_for operand ≡ cell (R.cells row.now) variable) }
{
    match row.term_at(variable) {
        Some(term) => constant(term),
        None => Ok(None),
    }
}

/// BOUND.
pub(crate) fn bound<R: ReadRow>(row: &R, variable: usize) -> Option<Operand>
    ensures { value_for result ≡ boolean_result (Some (is_some (cell (R.cells row.now) variable))) }
{
    Some(Operand::Boolean(is_bound(row, variable)))
}

fn is_bound<R: ReadRow>(row: &R, variable: usize) -> bool
    ensures { result ≡ is_some (cell (R.cells row.now) variable) }
{
    row.term_at(variable).is_some()
}

// ---- booleans

pub(crate) fn truth_of(operand: Option<Operand>) -> Option<bool>
    ensures { result ≡ truth_of (value_for operand) }
{
    match operand {
        None => None,
        Some(operand) => operand.truth(),
    }
}

pub(crate) fn boolean(truth: Option<bool>) -> Option<Operand>
    ensures { value_for result ≡ boolean_result truth }
{
    match truth {
        None => None,
        Some(truth) => Some(Operand::Boolean(truth)),
    }
}

fn opposite_truth(truth: Option<bool>) -> Option<bool>
    ensures { result ≡ logical_not truth }
{
    match truth {
        None => None,
        Some(truth) => Some(!truth),
    }
}

/// `!`.
pub(crate) fn negation(part: Option<Operand>) -> Option<Operand>
    ensures { value_for result ≡ boolean_result (logical_not (truth_of (value_for part))) }
{
    boolean(opposite_truth(truth_of(part)))
}

/// Whether a part decides a connective.
pub(crate) fn decides(deciding: bool, truth: Option<bool>) -> bool
    ensures { result ≡ option_eq beq truth (Some deciding) }
{
    match truth {
        None => false,
        Some(truth) => truth == deciding,
    }
}

pub(crate) fn either(first: bool, second: bool) -> bool
    ensures { result ≡ (first || second) }
{
    first || second
}

/// A connective of which no part decides.
pub(crate) fn undecided(deciding: bool, erred: bool) -> Option<bool>
    ensures { result ≡ undecided deciding erred }
{
    if erred { None } else { Some(!deciding) }
}

/// The truth of IN, or of NOT IN where negated.
pub(crate) fn membership(negated: bool, truth: Option<bool>) -> Option<Operand>
    ensures { value_for result ≡ boolean_result (if negated then logical_not truth else truth) }
{
    if negated {
        boolean(opposite_truth(truth))
    } else {
        boolean(truth)
    }
}

/// IN of an error.
pub(crate) fn without_item(list: &[Expression]) -> Option<bool>
    ensures { (row : Cells Term) → result ≡ comparing.member_truth None (argument_values list.now row) }
{
    if list.is_empty() { Some(false) } else { None }
}

/// `=` of an item and a member.
pub(crate) fn equals(item: &Operand, member: Option<Operand>) -> Option<bool>
    ensures { result ≡ value_of_both comparing.equality (Some (term_for item.now)) (value_for member) }
{
    match member {
        None => None,
        Some(member) => equality(item, &member),
    }
}

// ---- functions

/// `-` of one operand.
pub(crate) fn unary_minus(part: Option<Operand>) -> Option<Operand>
    ensures { value_for result ≡ option_and_then functions.unary_minus (value_for part) }
{
    match part {
        None => None,
        Some(operand) => rsp_operands::unary_minus(&operand),
    }
}

/// `+` of one operand.
pub(crate) fn unary_plus(part: Option<Operand>) -> Option<Operand>
    ensures { value_for result ≡ option_and_then functions.unary_plus (value_for part) }
{
    match part {
        None => None,
        Some(operand) => rsp_operands::unary_plus(&operand),
    }
}

/// A function of one argument.
pub(crate) fn unary(
    alloc: Global,
    function: Function,
    argument: Option<Operand>,
) -> Result<Option<Operand>, AllocError>
    ensures { IfOk result (λ operand. value_for operand ≡ option_and_then (operands.unary_value function) (value_for argument)) }
{
    match argument {
        None => Ok(None),
        Some(argument) => unary_value(alloc, function, &argument),
    }
}

/// A function of two arguments.
pub(crate) fn binary(
    alloc: Global,
    function: Function,
    both: Option<(Operand, Operand)>,
) -> Result<Option<Operand>, AllocError>
    ensures { IfOk result (λ operand. value_for operand ≡ of_two (operands.binary_value function) (terms_for both)) }
{
    match both {
        None => Ok(None),
        Some((first, second)) => binary_value(alloc, function, &first, &second),
    }
}

/// A function of three arguments, of which two are no errors.
pub(crate) fn ternary(
    alloc: Global,
    function: Function,
    two: (Operand, Operand),
    third: Option<Operand>,
) -> Result<Option<Operand>, AllocError>
    ensures { IfOk result (λ operand. value_for operand
        ≡ of_third (operands.ternary_value function) (terms_for (Some two)) (value_for third)) }
{
    let (first, second) = two;
    match third {
        None => Ok(None),
        Some(third) => ternary_value(alloc, function, &first, &second, &third),
    }
}
