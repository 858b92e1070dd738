// The operators that compare.
ghost use Rattle.std.specs.Prelude.{◌≡◌, None, false, option_map};
ghost use Rattle.rsp_terms.specs.Same.{term_eq};
ghost use Rattle.rsp_expr.specs.Comparing.{comparable_of, value_equality, value_order, term_equality, equality};
ghost use Rattle.rsp_expr.specs.Comparing.{comparison_order, comparison};
ghost use Rattle.rsp_expr.specs.Comparing as comparing;
ghost use Rattle.rsp_expr.specs.Errors.{value_of_both};
ghost use Rattle.rsp_operands.specs.Operands.{term_for, comparable_for};

use crate::operand::{Operand, is_literal};
use rsp_expr::Sign;
use rsp_literals::{boolean_of, number_of, string_of};
use rsp_number::Number;
use rsp_terms::Term;
use std::cmp::Ordering;

/// What a literal is compared by.
#[derive(Clone, Copy)]
pub(crate) enum Comparable<'a> {
    Number(Number),
    String(&'a str),
    Boolean(bool),
}

fn value_of_operand(operand: &Operand) -> Option<Comparable<'_>>
    ensures { option_map comparable_for result ≡ comparable_of (term_for operand.now) }
{
    match operand {
        Operand::Term(term) => value_of_term(term),
        Operand::Number(_) => numeric_value(operand.number()),
        Operand::Boolean(value) => Some(Comparable::Boolean(*value)),
        Operand::String(text) => Some(Comparable::String(text.as_str())),
    }
}

fn numeric_value(number: Option<Number>) -> Option<Comparable<'static>>
    ensures { option_map comparable_for result ≡ option_map comparing.number number }
{
    match number {
        Some(number) => Some(Comparable::Number(number)),
        None => None,
    }
}

fn value_of_term(term: &Term) -> Option<Comparable<'_>>
    ensures { option_map comparable_for result ≡ comparable_of term.now }
{
    if let Some(number) = number_of(term) {
        return Some(Comparable::Number(number));
    }
    if let Some(text) = string_of(term) {
        return Some(Comparable::String(text));
    }
    match boolean_of(term) {
        Some(value) => Some(Comparable::Boolean(value)),
        None => None,
    }
}

fn equal_values(left: &Comparable, right: &Comparable) -> Option<bool>
    ensures { result ≡ value_equality (comparable_for left.now) (comparable_for right.now) }
{
    match (left, right) {
        (Comparable::Number(left), Comparable::Number(right)) => {
            Some(rsp_number::compare(left, right) == Ordering::Equal)
        }
        (Comparable::String(left), Comparable::String(right)) => Some(*left == *right),
        (Comparable::Boolean(left), Comparable::Boolean(right)) => Some(*left == *right),
        _ => None,
    }
}

fn order_of_values(left: &Comparable, right: &Comparable) -> Option<Ordering>
    ensures { result ≡ value_order (comparable_for left.now) (comparable_for right.now) }
{
    match (left, right) {
        (Comparable::Number(left), Comparable::Number(right)) => {
            Some(rsp_number::compare(left, right))
        }
        (Comparable::String(left), Comparable::String(right)) => {
            Some(rsp_strings::compare(left, right))
        }
        (Comparable::Boolean(left), Comparable::Boolean(right)) => Some(left.cmp(right)),
        _ => None,
    }
}

// by the values of both, where they are of one kind
fn equality_by_value(left: &Operand, right: &Operand) -> Option<bool>
    ensures { result ≡ value_of_both value_equality (comparable_of (term_for left.now)) (comparable_of (term_for right.now)) }
{
    match (value_of_operand(left), value_of_operand(right)) {
        (Some(left), Some(right)) => equal_values(&left, &right),
        _ => None,
    }
}

fn order(left: &Operand, right: &Operand) -> Option<Ordering>
    ensures { result ≡ comparison_order (term_for left.now) (term_for right.now) }
{
    match (value_of_operand(left), value_of_operand(right)) {
        (Some(left), Some(right)) => order_of_values(&left, &right),
        _ => None,
    }
}

fn equal_terms(left: &Term, right: &Term) -> Option<bool>
    ensures { result ≡ term_equality left.now right.now }
{
    if left == right {
        return Some(true);
    }
    if is_literal(left) && is_literal(right) {
        return None;
    }
    Some(false)
}

// what isn't one term
fn equality_of_two(left: &Operand, right: &Operand) -> Option<bool>
    requires { term_eq (term_for left.now) (term_for right.now) ≡ false }
    ensures { result ≡ term_equality (term_for left.now) (term_for right.now) }
{
    if left.is_literal() && right.is_literal() {
        return None;
    }
    Some(false)
}

// what isn't of one kind isn't one term, unless both are terms as they stand
fn equality_by_term(left: &Operand, right: &Operand) -> Option<bool>
    requires { value_of_both value_equality (comparable_of (term_for left.now)) (comparable_of (term_for right.now)) ≡ None }
    ensures { result ≡ term_equality (term_for left.now) (term_for right.now) }
{
    match (left.as_term(), right.as_term()) {
        (Some(left), Some(right)) => equal_terms(left, right),
        (Some(_), None) => equality_of_two(left, right),
        (None, _) => equality_of_two(left, right),
    }
}

/// `=`; None is an error. Takes no memory.
pub fn equality(left: &Operand, right: &Operand) -> Option<bool>
    ensures { result ≡ equality (term_for left.now) (term_for right.now) }
{
    if left.is_inexact() || right.is_inexact() {
        return None;
    }
    match equality_by_value(left, right) {
        Some(equal) => Some(equal),
        None => equality_by_term(left, right),
    }
}

/// An operator that compares, by its sign; None is an error. Takes no memory.
pub fn comparison(sign: Sign, left: &Operand, right: &Operand) -> Option<bool>
    ensures { result ≡ comparison sign (term_for left.now) (term_for right.now) }
{
    match sign {
        Sign::Equal => equality(left, right),
        Sign::NotEqual => equality(left, right).map(|equal| !equal),
        Sign::Less => order(left, right).map(|order| order.is_lt()),
        Sign::Greater => order(left, right).map(|order| order.is_gt()),
        Sign::LessEqual => order(left, right).map(|order| order.is_le()),
        Sign::GreaterEqual => order(left, right).map(|order| order.is_ge()),
        _ => None,
    }
}
