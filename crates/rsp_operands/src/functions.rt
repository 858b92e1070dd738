// Arithmetic, and the functions of one, two and three arguments (SPARQL 1.1 Query, sections 17.3 and 17.4).
ghost use Rattle.std.specs.Prelude.{◌≡◌, IfOk};
ghost use Rattle.rsp_expr.specs.Functions as functions;
ghost use Rattle.rsp_expr.specs.Functions.{calculation};
ghost use Rattle.rsp_operands.specs.Operands.{unary_value, binary_value, ternary_value, term_for, value_for};

use crate::operand::Operand;
use crate::same::same_term;
use crate::{literals, texts};
use rsp_expr::{Function, Sign};
use rsp_number::{Number, abs, add, ceil, div, floor, mul, neg, round, sub};
use std::alloc::{AllocError, Global};

fn calculation(sign: Sign, left: &Number, right: &Number) -> Option<Number>
    ensures { result ≡ calculation sign left.now right.now }
{
    match sign {
        Sign::Add => add(left, right),
        Sign::Subtract => sub(left, right),
        Sign::Multiply => mul(left, right),
        Sign::Divide => div(left, right),
        _ => None,
    }
}

/// An operator of arithmetic, by its sign; None is an error. Takes no memory.
pub fn arithmetic(sign: Sign, left: &Operand, right: &Operand) -> Option<Operand>
    ensures { value_for result ≡ functions.arithmetic sign (term_for left.now) (term_for right.now) }
{
    let (Some(left), Some(right)) = (left.number(), right.number()) else {
        return None;
    };
    match calculation(sign, &left, &right) {
        Some(number) => Some(Operand::Number(number)),
        None => None,
    }
}

/// `-` of one operand; None is an error. Takes no memory.
pub fn unary_minus(operand: &Operand) -> Option<Operand>
    ensures { value_for result ≡ functions.unary_minus (term_for operand.now) }
{
    match operand.number() {
        Some(number) => Some(Operand::Number(neg(&number))),
        None => None,
    }
}

/// `+` of one operand; None is an error. Takes no memory.
pub fn unary_plus(operand: &Operand) -> Option<Operand>
    ensures { value_for result ≡ functions.unary_plus (term_for operand.now) }
{
    match operand.number() {
        Some(number) => Some(Operand::Number(number)),
        None => None,
    }
}

/// A function of one argument; None is an error. Fails only where memory is refused.
pub fn unary_value(
    alloc: Global,
    function: Function,
    argument: &Operand,
) -> Result<Option<Operand>, AllocError>
    ensures { IfOk result (λ value. value_for value ≡ unary_value function (term_for argument.now)) }
{
    match function {
        Function::IsIri => Ok(Some(Operand::Boolean(argument.is_iri()))),
        Function::IsUri => Ok(Some(Operand::Boolean(argument.is_iri()))),
        Function::IsBlank => Ok(Some(Operand::Boolean(argument.is_blank()))),
        Function::IsLiteral => Ok(Some(Operand::Boolean(argument.is_literal()))),
        Function::IsNumeric => Ok(literals::is_numeric(argument)),
        Function::Str => literals::lexical_form(alloc, argument),
        Function::Lang => literals::language_tag(alloc, argument),
        Function::Datatype => literals::datatype_iri(alloc, argument),
        Function::Iri => literals::iri_of(argument),
        Function::Uri => literals::iri_of(argument),
        Function::StrLen => Ok(texts::length(argument)),
        Function::Abs => Ok(numeric_value(argument.number().map(|number| abs(&number)))),
        Function::Ceil => Ok(numeric_value(argument.number().map(|number| ceil(&number)))),
        Function::Floor => Ok(numeric_value(argument.number().map(|number| floor(&number)))),
        Function::Round => Ok(numeric_value(argument.number().map(|number| round(&number)))),
        _ => Ok(None),
    }
}

fn numeric_value(number: Option<Number>) -> Option<Operand>
    ensures { value_for result ≡ functions.numeral_result number }
{
    match number {
        Some(number) => Some(Operand::Number(number)),
        None => None,
    }
}

/// A function of two arguments; None is an error. Fails only where memory is refused.
pub fn binary_value(
    alloc: Global,
    function: Function,
    first: &Operand,
    second: &Operand,
) -> Result<Option<Operand>, AllocError>
    ensures { IfOk result (λ value. value_for value ≡ binary_value function (term_for first.now) (term_for second.now)) }
{
    match function {
        Function::SameTerm => Ok(same_term(first, second)),
        Function::StrDt => literals::typed_literal(first, second),
        Function::StrLang => literals::language_literal(first, second),
        Function::Substr => texts::part_from(alloc, first, second),
        Function::StrStarts => Ok(texts::starts_with(first, second)),
        Function::StrEnds => Ok(texts::ends_with(first, second)),
        Function::Contains => Ok(texts::contains(first, second)),
        Function::StrBefore => texts::part_before(alloc, first, second),
        Function::StrAfter => texts::part_after(alloc, first, second),
        Function::LangMatches => Ok(texts::matches_language(first, second)),
        _ => Ok(None),
    }
}

/// A function of three arguments; None is an error. Fails only where memory is refused.
pub fn ternary_value(
    alloc: Global,
    function: Function,
    first: &Operand,
    second: &Operand,
    third: &Operand,
) -> Result<Option<Operand>, AllocError>
    ensures { IfOk result (λ value. value_for value
        ≡ ternary_value function (term_for first.now) (term_for second.now) (term_for third.now)) }
{
    match function {
        Function::Substr => texts::part_within(alloc, first, second, third),
        _ => Ok(None),
    }
}
