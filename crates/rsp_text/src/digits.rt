// Numbers in decimal digits, and texts of fixed form.
ghost use Rattle.std.specs.Prelude.{◌≡◌, ◌≤◌, ◌+◌, ◌^◌, ◌<◌, IsTrue, Some, None, if◌then◌else◌, length, take, drop, nat_lt};
ghost use Rattle.std.specs.Char.{is_ascii_digit};
ghost use Rattle.std.specs.List.{list_all};
ghost use Rattle.std.specs.Str.Parse.{digits_value};
ghost use Rattle.rsp_text.specs.Digits as form;

use crate::fronts::{is_digit, leading_digits};
use std::str;

/// A number of 1 to 20 digits; None exactly where the text isn't that or the number is past 2^64 - 1.
///
/// `read_u64(b"0042")` is `Some(42)`; `read_u64(b"+42")` and `read_u64(b"18446744073709551616")` are None.
#[tactic(auto, unfolding(crate::specs::Digits::read_u64))]
pub fn read_u64(text: &[u8]) -> Option<u64>
    ensures { result ≡ form.read_u64 text.now }
{
    if text.len() < 1 || 20 < text.len() || !are_digits(text) {
        return None;
    }
    value_of(text)
}

fn are_digits(text: &[u8]) -> bool
    ensures { result ≡ list_all is_ascii_digit text.now }
{
    text.iter().all(|c| is_digit(*c))
}

/// The number that digits write, where 64 bits hold it.
pub(crate) fn value_of(digits: &[u8]) -> Option<u64>
    requires some { 0 < length digits.now }
    requires digits { IsTrue (list_all is_ascii_digit digits.now) }
    ensures { result ≡ (if nat_lt (digits_value 10 digits.now) (2 ^ 64) then Some (digits_value 10 digits.now) else None) }
{
    match str::from_utf8(digits) {
        Ok(text) => text.parse::<u64>().ok(),
        Err(_) => unreachable!(),
    }
}

/// The number that a few digits from a place on write.
pub(crate) fn number(text: &[u8], place: usize, count: usize) -> u32
    requires few { count ≤ 4 }
    requires within { place + count ≤ length text.now }
    requires digits { IsTrue (list_all is_ascii_digit (take count (drop place text.now))) }
    ensures value { result ≡ form.number count place text.now }
    ensures bound { result < 10 ^ count }
{
    number_of(&text[place..place + count])
}

fn number_of(digits: &[u8]) -> u32
    requires few { length digits.now ≤ 4 }
    requires digits { IsTrue (list_all is_ascii_digit digits.now) }
    ensures value { result ≡ digits_value 10 digits.now }
    ensures bound { result < 10 ^ length digits.now }
{
    let mut number = 0;
    for digit in digits {
        number = 10 * number + u32::from(*digit - b'0');
    }
    number
}

/// Whether a text is written like the model: a digit where the model has `0`, and else the model's own byte.
#[tactic(auto, unfolding(crate::specs::Digits::has_form))]
pub(crate) fn has_form(text: &[u8], model: &[u8]) -> bool
    ensures value { result ≡ form.has_form model.now text.now }
    ensures len { IsTrue result → length text.now ≡ length model.now }
{
    if text.len() != model.len() {
        return false;
    }
    for place in 0..text.len() {
        if !is_written_like(text[place], model[place]) {
            return false;
        }
    }
    true
}

fn is_written_like(c: u8, model: u8) -> bool
    ensures { result ≡ form.is_written_like model c }
{
    if model == b'0' {
        is_digit(c)
    } else {
        model == c
    }
}

/// `.` and the digits behind it, at the front; nothing where no `.` stands there.
#[tactic(auto, unfolding(crate::specs::Digits::fraction))]
pub(crate) fn fraction(text: &[u8]) -> &[u8]
    ensures value { result.now ≡ form.fraction text.now }
    ensures bound { length result.now ≤ length text.now }
    ensures digits { IsTrue (list_all is_ascii_digit (drop 1 result.now)) }
{
    match text {
        [b'.', behind @ ..] => &text[..1 + leading_digits(behind).len()],
        _ => &text[..0],
    }
}

/// The thousandths of a fraction.
pub(crate) fn thousandths(fraction: &[u8]) -> u32
    requires { IsTrue (list_all is_ascii_digit (drop 1 fraction.now)) }
    ensures value { result ≡ form.thousandths fraction.now }
    ensures bound { result < 1_000 }
{
    match fraction {
        [_, a, b, c, ..] => 100 * u32::from(*a - b'0')
            + 10 * u32::from(*b - b'0')
            + u32::from(*c - b'0'),
        [_, a, b] => 100 * u32::from(*a - b'0') + 10 * u32::from(*b - b'0'),
        [_, a] => 100 * u32::from(*a - b'0'),
        _ => 0,
    }
}
