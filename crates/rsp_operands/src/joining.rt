// CONCAT (SPARQL 1.1 Query, section 17.4.3.12).
ghost use Rattle.std.specs.Prelude.{◌≡◌, IfOk, Some, map, option_map, [], ◌∷◌};
ghost use Rattle.std.specs.Option.{option_copied, option_eq};
ghost use Rattle.std.specs.List.{list_all};
ghost use Rattle.std.specs.Str.{bytes_eq};
ghost use Rattle.std.specs.String.{string_bytes};
ghost use Rattle.rsp_expr.specs.Functions.{concatenation, common_tag};
ghost use Rattle.rsp_operands.specs.Operands.{term_for, value_for, texts_onto, tag_for};

use crate::operand::{Operand, text_operand};
use rsp_terms::Text;
use std::alloc::{AllocError, Global};

/// The texts one after another, with the tag that all have; None is an error. Fails only where memory is refused.
pub fn concatenation(alloc: Global, parts: &[Operand]) -> Result<Option<Operand>, AllocError>
    ensures { IfOk result (λ value. value_for value ≡ concatenation (map term_for parts.now)) }
{
    match joined(alloc, parts)? {
        None => Ok(None),
        Some(text) => Ok(Some(text_operand(alloc, common_tag(parts), text.as_str())?)),
    }
}

// the texts one after another, where all parts are texts
fn joined(alloc: Global, parts: &[Operand]) -> Result<Option<String>, AllocError>
    ensures { IfOk result (λ text. option_map string_bytes text ≡ texts_onto (Some []) (map term_for parts.now)) }
{
    let mut text = String::new(alloc);
    for part in parts {
        match part.written() {
            None => return Ok(None),
            Some(written) => text.push_str(written.text)?,
        }
    }
    Ok(Some(text))
}

fn common_tag(parts: &[Operand]) -> Option<&Text>
    ensures { option_copied result ≡ common_tag (map tag_for (map term_for parts.now)) }
{
    match parts.split_first() {
        None => None,
        Some((first, others)) => tag_of_all(first, others),
    }
}

fn tag_of_all<'a>(first: &'a Operand, others: &[Operand]) -> Option<&'a Text>
    ensures { option_copied result ≡ common_tag (tag_for (term_for first.now) ∷ map tag_for (map term_for others.now)) }
{
    if all_have_tag_of(first, others) {
        tag_of(first)
    } else {
        None
    }
}

fn all_have_tag_of(first: &Operand, others: &[Operand]) -> bool
    ensures { result ≡ list_all (option_eq bytes_eq (tag_for (term_for first.now))) (map tag_for (map term_for others.now)) }
{
    for other in others {
        if !have_one_tag(first, other) {
            return false;
        }
    }
    true
}

fn have_one_tag(first: &Operand, other: &Operand) -> bool
    ensures { result ≡ option_eq bytes_eq (tag_for (term_for first.now)) (tag_for (term_for other.now)) }
{
    is_same_tag(tag_of(first), tag_of(other))
}

fn is_same_tag(tag: Option<&Text>, other: Option<&Text>) -> bool
    ensures { result ≡ option_eq bytes_eq (option_copied tag.entry) (option_copied other.entry) }
{
    match (tag, other) {
        (None, None) => true,
        (Some(tag), Some(other)) => tag == other,
        (None, Some(_)) => false,
        (Some(_), None) => false,
    }
}

fn tag_of(part: &Operand) -> Option<&Text>
    ensures { option_copied result ≡ tag_for (term_for part.now) }
{
    match part.written() {
        None => None,
        Some(written) => written.tag,
    }
}
