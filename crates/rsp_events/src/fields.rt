// Fields: what stands between blanks; names and times.
ghost use Rattle.std.specs.Prelude.{◌≡◌, ◌∷◌, ◌==◌, [], not, Some, None, IfOk, MatchOption, length};
ghost use Rattle.std.specs.List.{list_all};
ghost use Rattle.rsp_events.specs.Directives as form;
ghost use Rattle.rsp_events.specs.DirectiveSteps as steps;

use crate::lines::first_blank;
use rsp_spec::limits::LAST_INSTANT;
use rsp_terms::{Text, ascii_text};
use rsp_text::{behind_blanks, instant, read_u64};
use std::alloc::{AllocError, Global};

// ---- fields

/// Whether a text has a field.
pub(crate) fn has_fields(text: &[u8]) -> bool
    ensures { result ≡ not (length (form.fields text.now) == 0) }
{
    match next_field(text) {
        None => false,
        Some(_) => true,
    }
}

/// The field of a text that has one and no other.
pub(crate) fn only_field(text: &[u8]) -> Option<&[u8]>
    ensures { MatchOption result (steps.only_field (form.fields text.now) ≡ None)
        (λ field. steps.only_field (form.fields text.now) ≡ Some field.now) }
{
    let (field, behind) = next_field(text)?;
    match next_field(behind) {
        None => Some(field),
        Some(_) => None,
    }
}

/// The fields of a text that has two.
pub(crate) fn two_fields(text: &[u8]) -> Option<(&[u8], &[u8])>
    ensures { MatchOption result (steps.two_fields (form.fields text.now) ≡ None)
        (λ x. steps.two_fields (form.fields text.now) ≡ Some (x.0.now, x.1.now)) }
{
    let (first, behind) = next_field(text)?;
    let second = only_field(behind)?;
    Some((first, second))
}

// the first field and what stands behind it, where there is one
fn next_field(text: &[u8]) -> Option<(&[u8], &[u8])>
    ensures { MatchOption result (form.fields text.now ≡ [])
        (λ x. form.fields text.now ≡ x.0.now ∷ form.fields x.1.now) }
{
    let text = behind_blanks(text);
    if text.is_empty() {
        return None;
    }
    Some(text.split_at(first_blank(text)))
}

// ---- names and times

/// The text of a query's name: 1 to 64 letters, digits, `_` and `-`.
pub(crate) fn name_of(alloc: Global, field: &[u8]) -> Result<Option<Text>, AllocError>
    ensures { IfOk result (λ name. name ≡ steps.name_of field.now) }
{
    if !is_name(field) {
        return Ok(None);
    }
    Ok(Some(ascii_text(alloc, field)?))
}

#[tactic(auto, unfolding(crate::specs::Directives::is_name))]
fn is_name(text: &[u8]) -> bool
    ensures { result ≡ form.is_name text.now }
{
    if text.len() < 1 || 64 < text.len() {
        return false;
    }
    has_name_characters(text)
}

fn has_name_characters(text: &[u8]) -> bool
    ensures { result ≡ list_all form.is_name_character text.now }
{
    text.iter().all(|c| is_name_character(*c))
}

fn is_name_character(c: u8) -> bool
    ensures { result ≡ form.is_name_character c }
{
    c.is_ascii_alphanumeric() || c == b'_' || c == b'-'
}

/// A time in ms since 1970, as a number or as a date and time (XML Schema Part 2, section 3.2.7), up to the end of the
/// year 9999.
pub(crate) fn time_of(field: &[u8]) -> Option<u64>
    ensures { result ≡ form.time_of field.now }
{
    match number_of(field) {
        Some(time) => Some(time),
        None => instant(field),
    }
}

/// A number of ms since 1970, up to the end of the year 9999.
pub(crate) fn number_of(field: &[u8]) -> Option<u64>
    ensures { result ≡ form.number_of field.now }
{
    let number = read_u64(field)?;
    if number <= LAST_INSTANT {
        Some(number)
    } else {
        None
    }
}
