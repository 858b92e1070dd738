// Functions on texts (SPARQL 1.1 Query, section 17.4.3). Of another kind of argument they are errors.
ghost use Rattle.std.specs.Prelude.{◌≡◌, IfOk, pos};
ghost use Rattle.std.specs.Option.{option_copied};
ghost use Rattle.rsp_number.specs.Numbers.{integer_result};
ghost use Rattle.rsp_expr.specs.Functions.{are_compatible, part_of, integer_of, integer_in};
ghost use Rattle.rsp_expr.specs.Functions.{numeral_result};
ghost use Rattle.rsp_functions.specs.declared.function.Function.TheVariants as function;
ghost use Rattle.rsp_operands.specs.Operands.{unary_value, binary_value, ternary_value, term_for, value_for, written_for};

use crate::operand::{Operand, Written, text_operand};
use rsp_number::{IntegerNumber, Number};
use rsp_terms::Text;
use std::alloc::{AllocError, Global};

/// STRLEN: the number of characters.
pub(crate) fn length(text: &Operand) -> Option<Operand>
    ensures { value_for result ≡ unary_value function.StrLen (term_for text.now) }
{
    match text.written() {
        None => None,
        Some(text) => integer(rsp_strings::character_count(text.text)),
    }
}

/// SUBSTR from a place on. Fails only where memory is refused.
pub(crate) fn part_from(
    alloc: Global,
    text: &Operand,
    start: &Operand,
) -> Result<Option<Operand>, AllocError>
    ensures { IfOk result (λ part. value_for part ≡ binary_value function.Substr (term_for text.now) (term_for start.now)) }
{
    let (Some(text), Some(start)) = (text.written(), whole(start)) else {
        return Ok(None);
    };
    let part = rsp_strings::substring_from(text.text, start);
    Ok(Some(text_operand(alloc, text.tag, part)?))
}

/// SUBSTR of so many characters from a place on. Fails only where memory is refused.
pub(crate) fn part_within(
    alloc: Global,
    text: &Operand,
    start: &Operand,
    count: &Operand,
) -> Result<Option<Operand>, AllocError>
    ensures { IfOk result (λ part. value_for part
        ≡ ternary_value function.Substr (term_for text.now) (term_for start.now) (term_for count.now)) }
{
    let (Some(count), Some(text), Some(start)) = (whole(count), text.written(), whole(start)) else {
        return Ok(None);
    };
    let part = rsp_strings::substring(text.text, start, count);
    Ok(Some(text_operand(alloc, text.tag, part)?))
}

/// STRSTARTS.
pub(crate) fn starts_with(text: &Operand, part: &Operand) -> Option<Operand>
    ensures { value_for result ≡ binary_value function.StrStarts (term_for text.now) (term_for part.now) }
{
    let (Some(text), Some(part)) = (text.written(), part.written()) else {
        return None;
    };
    if !are_compatible(text.tag, part.tag) {
        return None;
    }
    Some(Operand::Boolean(rsp_strings::starts_with(text.text, part.text)))
}

/// STRENDS.
pub(crate) fn ends_with(text: &Operand, part: &Operand) -> Option<Operand>
    ensures { value_for result ≡ binary_value function.StrEnds (term_for text.now) (term_for part.now) }
{
    let (Some(text), Some(part)) = (text.written(), part.written()) else {
        return None;
    };
    if !are_compatible(text.tag, part.tag) {
        return None;
    }
    Some(Operand::Boolean(rsp_strings::ends_with(text.text, part.text)))
}

/// CONTAINS.
pub(crate) fn contains(text: &Operand, part: &Operand) -> Option<Operand>
    ensures { value_for result ≡ binary_value function.Contains (term_for text.now) (term_for part.now) }
{
    let (Some(text), Some(part)) = (text.written(), part.written()) else {
        return None;
    };
    if !are_compatible(text.tag, part.tag) {
        return None;
    }
    Some(Operand::Boolean(rsp_strings::contains(text.text, part.text)))
}

/// STRBEFORE. Fails only where memory is refused.
pub(crate) fn part_before(
    alloc: Global,
    text: &Operand,
    part: &Operand,
) -> Result<Option<Operand>, AllocError>
    ensures { IfOk result (λ found. value_for found ≡ binary_value function.StrBefore (term_for text.now) (term_for part.now)) }
{
    let (Some(text), Some(part)) = (text.written(), part.written()) else {
        return Ok(None);
    };
    if !are_compatible(text.tag, part.tag) {
        return Ok(None);
    }
    let found = rsp_strings::text_before(text.text, part.text);
    Ok(Some(found_part(alloc, text, found)?))
}

/// STRAFTER. Fails only where memory is refused.
pub(crate) fn part_after(
    alloc: Global,
    text: &Operand,
    part: &Operand,
) -> Result<Option<Operand>, AllocError>
    ensures { IfOk result (λ found. value_for found ≡ binary_value function.StrAfter (term_for text.now) (term_for part.now)) }
{
    let (Some(text), Some(part)) = (text.written(), part.written()) else {
        return Ok(None);
    };
    if !are_compatible(text.tag, part.tag) {
        return Ok(None);
    }
    let found = rsp_strings::text_after(text.text, part.text);
    Ok(Some(found_part(alloc, text, found)?))
}

/// LANGMATCHES of a tag and a range.
pub(crate) fn matches_language(tag: &Operand, range: &Operand) -> Option<Operand>
    ensures { value_for result ≡ binary_value function.LangMatches (term_for tag.now) (term_for range.now) }
{
    let (Some(tag), Some(range)) = (tag.string(), range.string()) else {
        return None;
    };
    Some(Operand::Boolean(rsp_strings::is_matched_by(tag, range)))
}

// the part with the text's tag, and the empty string where none was found
fn found_part(alloc: Global, text: Written, part: Option<&str>) -> Result<Operand, AllocError>
    ensures { IfOk result (λ operand. term_for operand ≡ part_of (written_for text.entry) (option_copied part.entry)) }
{
    match part {
        None => text_operand(alloc, None, ""),
        Some(part) => text_operand(alloc, text.tag, part),
    }
}

// both without a tag, of one tag, or the second without
fn are_compatible(tag: Option<&Text>, other: Option<&Text>) -> bool
    ensures { result ≡ are_compatible (option_copied tag.entry) (option_copied other.entry) }
{
    match (tag, other) {
        (_, None) => true,
        (None, Some(_)) => false,
        (Some(tag), Some(other)) => tag == other,
    }
}

// the number of an integer
fn whole(operand: &Operand) -> Option<IntegerNumber>
    ensures { result ≡ integer_of (term_for operand.now) }
{
    match operand.number() {
        Some(number) => integer_in(&number),
        None => None,
    }
}

fn integer_in(number: &Number) -> Option<IntegerNumber>
    ensures { result ≡ integer_in number.now }
{
    match number {
        Number::Integer(integer) => Some(*integer),
        Number::Decimal(_) => None,
    }
}

fn integer(count: usize) -> Option<Operand>
    ensures { value_for result ≡ numeral_result (integer_result (pos count)) }
{
    match i64::try_from(count) {
        Err(_) => None,
        Ok(count) => match IntegerNumber::new(count) {
            None => None,
            Some(count) => Some(Operand::Number(Number::Integer(count))),
        },
    }
}
