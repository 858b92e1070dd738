// Labels of blank nodes and language tags: the longest that stands at a place.
ghost use Rattle.std.specs.Prelude.{◌≡◌, ◌≤◌, ◌+◌, MatchOption, Some, None, IfOk, length, take, true, false, if◌then◌else◌};
ghost use Rattle.std.specs.Str.{chars, encode_utf8_all, IsUtf8};
ghost use Rattle.std.specs.Str.Lossy.{utf8_valid_len};
ghost use Rattle.rsp_terms.specs.Characters.{is_label_text, is_tag_text};
ghost use Rattle.rsp_scan.specs.Enclosed.{HasFront, HasNoFront};
ghost use Rattle.rsp_scan.specs.Names.{IsLabel, IsTag};
ghost use Rattle.rsp_scan.specs.Fronts.{longest_front};
ghost use Rattle.rsp_scan.specs.Readers as part;
ghost use Rattle.rsp_scan.specs.Scans.{further_bytes, next_of_tag, scan, tag_machine};

use crate::signs::{is_digit, is_letter, sign};
use rsp_terms::characters::{is_label_character, is_label_start};
use rsp_terms::{Text, Texts};
use std::alloc::AllocError;
use std::str;

/// The longest blank node label at the front of a text (RDF 1.1 N-Quads, section 4: BLANK_NODE_LABEL), without `_:`, and
/// the text behind it; None exactly where none stands there. Fails only where memory is refused.
pub fn label<'a>(texts: &mut Texts, text: &'a [u8]) -> Result<Option<(Text, &'a [u8])>, AllocError>
    ensures value { IfOk result (λ r. MatchOption r (part.label text.now ≡ None)
        (λ x. part.label text.now ≡ Some (x.0, x.1.now))) }
    ensures grammar { IfOk result (λ r. MatchOption r (HasNoFront IsLabel text.now)
        (λ x. HasFront IsLabel text.now x.0 x.1.now)) }
{
    marked_label(texts, text)
}

#[tactic(auto, unfolding(crate::specs::Readers::label))]
fn marked_label<'a>(
    texts: &mut Texts,
    text: &'a [u8],
) -> Result<Option<(Text, &'a [u8])>, AllocError>
    ensures { IfOk result (λ r. MatchOption r (part.label text.now ≡ None)
        (λ x. part.label text.now ≡ Some (x.0, x.1.now))) }
{
    let Some(behind) = sign(b'_', text) else {
        return Ok(None);
    };
    let Some(inner) = sign(b':', behind) else {
        return Ok(None);
    };
    let label = label_front(inner);
    if label.is_empty() {
        return Ok(None);
    }
    Ok(Some((texts.text(label)?, &inner[label.len()..])))
}

// the longest label at the front
fn label_front(text: &[u8]) -> &str
    ensures value { result.now ≡ part.longest_label text.now }
    ensures bound { length result.now ≤ length text.now }
{
    longest_label(valid_front(text))
}

// the characters before the first byte that isn't UTF-8
fn valid_front(text: &[u8]) -> &str
    ensures value { result.now ≡ take (utf8_valid_len text.now) text.now }
    ensures bound { length result.now ≤ length text.now }
{
    match str::from_utf8(text) {
        Ok(all) => all,
        Err(fault) => match str::from_utf8(&text[..fault.valid_up_to()]) {
            Ok(front) => front,
            Err(_) => unreachable!(),
        },
    }
}

fn longest_label(text: &str) -> &str
    ensures value { result.now ≡ encode_utf8_all (longest_front is_label_text (chars text.now)) }
    ensures bound { length result.now ≤ length text.now }
{
    &text[..label_len(text)]
}

// how many bytes the longest label at the front has
fn label_len(text: &str) -> usize
    ensures { result ≡ length (encode_utf8_all (longest_front is_label_text (chars text.now))) }
{
    let mut characters = text.chars();
    match characters.next() {
        None => 0,
        Some(first) => {
            if !is_label_start(first) {
                return 0;
            }
            first.len_utf8() + further_len(characters.as_str())
        }
    }
}

// so many bytes of label characters, without dots at their end
fn further_len(text: &str) -> usize
    ensures value { result ≡ further_bytes (chars text.now) }
    ensures bound { result ≤ length text.now }
{
    let mut read = 0;
    let mut end = 0;
    for character in text.chars() {
        if !is_label_character(character) {
            return end;
        }
        read += character.len_utf8();
        end = furthest(character != '.', read, end);
    }
    end
}

/// The longest language tag at the front of a text (RDF 1.1 N-Quads, section 4: LANGTAG), without `@`, and the text behind
/// it; None exactly where none stands there. Fails only where memory is refused.
pub fn tag<'a>(texts: &mut Texts, text: &'a [u8]) -> Result<Option<(Text, &'a [u8])>, AllocError>
    ensures value { IfOk result (λ r. MatchOption r (part.tag text.now ≡ None)
        (λ x. part.tag text.now ≡ Some (x.0, x.1.now))) }
    ensures grammar { IfOk result (λ r. MatchOption r (HasNoFront IsTag text.now)
        (λ x. HasFront IsTag text.now x.0 x.1.now)) }
{
    marked_tag(texts, text)
}

#[tactic(auto, unfolding(crate::specs::Readers::tag))]
fn marked_tag<'a>(texts: &mut Texts, text: &'a [u8]) -> Result<Option<(Text, &'a [u8])>, AllocError>
    ensures { IfOk result (λ r. MatchOption r (part.tag text.now ≡ None)
        (λ x. part.tag text.now ≡ Some (x.0, x.1.now))) }
{
    let Some(inner) = sign(b'@', text) else {
        return Ok(None);
    };
    let tag = longest_tag(inner);
    if tag.is_empty() {
        return Ok(None);
    }
    let rest = &inner[tag.len()..];
    match str::from_utf8(tag) {
        Ok(tag) => Ok(Some((texts.text(tag)?, rest))),
        Err(_) => unreachable!(),
    }
}

fn longest_tag(text: &[u8]) -> &[u8]
    ensures value { result.now ≡ longest_front is_tag_text text.now }
    ensures bound { length result.now ≤ length text.now }
    ensures utf8 { IsUtf8 result.now }
{
    &text[..tag_len(text)]
}

// how many bytes the longest tag at the front has
fn tag_len(text: &[u8]) -> usize
    ensures value { result ≡ scan tag_machine (true, false) text.now }
    ensures bound { result ≤ length text.now }
{
    let mut end = 0;
    let mut state = (true, false);
    for (place, c) in text.iter().enumerate() {
        let Some(next) = next_of_tag(state, *c) else {
            return end;
        };
        state = next;
        end = furthest(next.1, place + 1, end);
    }
    end
}

// The state says whether the first subtag is read, and whether the subtag has begun.
fn next_of_tag(state: (bool, bool), c: u8) -> Option<(bool, bool)>
    ensures { result ≡ next_of_tag state c }
{
    let (is_first, is_begun) = state;
    if c == b'-' && is_begun {
        return Some((false, false));
    }
    if is_letter(c) || !is_first && is_digit(c) {
        return Some((is_first, true));
    }
    None
}

fn furthest(ends: bool, place: usize, end: usize) -> usize
    ensures { result ≡ (if ends then place else end) }
{
    if ends { place } else { end }
}
