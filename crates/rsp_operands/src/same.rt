// sameTerm (SPARQL 1.1 Query, section 17.4.1.8).
ghost use Rattle.std.specs.Prelude.{◌≡◌};
ghost use Rattle.rsp_terms.specs.Same.{term_eq};
ghost use Rattle.rsp_expr.specs.BooleanValues.{boolean_literal};
ghost use Rattle.rsp_expr.specs.Numerals.{numeral_literal};
ghost use Rattle.rsp_functions.specs.declared.function.Function.TheVariants as function;
ghost use Rattle.rsp_operands.specs.Operands.{binary_value, term_for, value_for};

use crate::operand::{Operand, read_back};
use rsp_literals::{is_boolean_term, is_string_term, is_term_of};
use rsp_number::Number;
use rsp_terms::Term;

/// sameTerm. Takes no memory.
pub(crate) fn same_term(left: &Operand, right: &Operand) -> Option<Operand>
    ensures { value_for result ≡ binary_value function.SameTerm (term_for left.now) (term_for right.now) }
{
    Some(Operand::Boolean(is_same_term(left, right)))
}

// whether both stand for one term
fn is_same_term(left: &Operand, right: &Operand) -> bool
    ensures { result ≡ term_eq (term_for left.now) (term_for right.now) }
{
    match (left, right) {
        (Operand::Term(left), right) => is_term_for(left, right),
        (left, Operand::Term(right)) => is_term_of_other(left, right),
        (Operand::Number(left), Operand::Number(right)) => is_same_number(left, right),
        (Operand::Boolean(left), Operand::Boolean(right)) => is_same_boolean(*left, *right),
        (Operand::String(left), Operand::String(right)) => left == right,
        _ => false,
    }
}

// whether the operand stands for the term
fn is_term_for(term: &Term, operand: &Operand) -> bool
    ensures { result ≡ term_eq term.now (term_for operand.now) }
{
    match operand {
        Operand::Term(other) => term == other,
        Operand::Number(number) => is_term_of(term, number),
        Operand::Boolean(value) => is_boolean_term(term, *value),
        Operand::String(text) => is_string_term(term, text.as_str()),
    }
}

fn is_term_of_other(operand: &Operand, term: &Term) -> bool
    ensures { result ≡ term_eq (term_for operand.now) term.now }
{
    is_term_for(term, operand)
}

fn is_same_number(left: &Number, right: &Number) -> bool
    ensures { result ≡ term_eq (numeral_literal left.now) (numeral_literal right.now) }
{
    let left = read_back(left);
    let right = read_back(right);
    left == right
}

fn is_same_boolean(left: bool, right: bool) -> bool
    ensures { result ≡ term_eq (boolean_literal left) (boolean_literal right) }
{
    left == right
}
