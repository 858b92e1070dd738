// What a literal of a numeric type reads as.
ghost use Rattle.std.specs.Prelude.{◌≡◌, ◌≤◌, ◌^◌, Bool, true, min};
ghost use Rattle.rsp_number.specs.Decimals.{with_sign};
ghost use Rattle.rsp_number.specs.Texts.{is_negative, without_sign, are_digits, number_after, has_integer_form};
ghost use Rattle.rsp_number.specs.declared.number.Number.TheVariants as number;
ghost use Rattle.rsp_expr.specs.Datatypes.{is_at_least, is_at_most, is_in_range};
ghost use Rattle.rsp_expr.specs.CodeTypes.{bounds_of, typed_reading};
ghost use Rattle.rsp_expr.specs.Forms.{reading_map, value_in, whole_number, whole_reading, number_of};

use crate::datatypes::{datatype_of, greatest_of, least_of};
use rsp_expr::{Datatype, WholeType};
use rsp_number::{DecimalNumber, IntegerNumber, Number, Reading, decimal, integer};
use rsp_terms::Term;

/// What a literal with this lexical form reads as: its number, Beyond, or without the form. None where the datatype
/// isn't `xsd:decimal` or a type of whole numbers.
pub(crate) fn numeric_reading(datatype: Datatype, lexical: &str) -> Option<Reading<Number>>
    ensures { result ≡ typed_reading datatype lexical.now }
{
    let text = lexical.as_bytes();
    match datatype {
        Datatype::Whole(whole_type) => Some(integer_reading(whole_reading(whole_type, text))),
        Datatype::Decimal => Some(decimal_reading(decimal(text))),
        _ => None,
    }
}

fn integer_reading(reading: Reading<IntegerNumber>) -> Reading<Number>
    ensures { result ≡ reading_map number.Integer reading }
{
    match reading {
        Reading::Value(value) => Reading::Value(Number::Integer(value)),
        Reading::Beyond => Reading::Beyond,
        Reading::NotForm => Reading::NotForm,
    }
}

fn decimal_reading(reading: Reading<DecimalNumber>) -> Reading<Number>
    ensures { result ≡ reading_map number.Decimal reading }
{
    match reading {
        Reading::Value(value) => Reading::Value(Number::Decimal(value)),
        Reading::Beyond => Reading::Beyond,
        Reading::NotForm => Reading::NotForm,
    }
}

/// The number of a literal of a numeric type; None where it has none, since it isn't of the form or no number holds it,
/// and of every other term.
pub fn number_of(term: &Term) -> Option<Number>
    ensures { result ≡ number_of term.now }
{
    match term {
        Term::Literal { lexical, datatype } => {
            value_in(numeric_reading(datatype_of(datatype.as_str()), lexical.as_str()))
        }
        _ => None,
    }
}

fn value_in(reading: Option<Reading<Number>>) -> Option<Number>
    ensures { result ≡ value_in reading }
{
    match reading {
        Some(Reading::Value(value)) => Some(value),
        _ => None,
    }
}

/// What a text reads as under a type of whole numbers, whose range belongs to the form.
fn whole_reading(whole_type: WholeType, text: &[u8]) -> Reading<IntegerNumber>
    ensures { result ≡ whole_reading (bounds_of whole_type) text.now }
{
    match integer(text) {
        Reading::Value(value) => {
            if is_in_range(whole_type, text) {
                Reading::Value(value)
            } else {
                Reading::NotForm
            }
        }
        Reading::Beyond => {
            if is_in_range(whole_type, text) {
                Reading::Beyond
            } else {
                Reading::NotForm
            }
        }
        Reading::NotForm => Reading::NotForm,
    }
}

/// Whether the type has the number that the text writes, however large that is.
fn is_in_range(whole_type: WholeType, text: &[u8]) -> bool
    requires { has_integer_form text.now ≡ true }
    ensures { result ≡ is_in_range (bounds_of whole_type) (whole_number text.now) }
{
    match text {
        [b'-', digits @ ..] => is_size_in_range(whole_type, true, size_up_to_bound(digits)),
        [b'+', digits @ ..] => is_size_in_range(whole_type, false, size_up_to_bound(digits)),
        digits => is_size_in_range(whole_type, false, size_up_to_bound(digits)),
    }
}

/// 2^64, which is larger than any bound of a type.
const BOUND: u128 = 18_446_744_073_709_551_616;

/// The number that the digits write, or 2^64 where that is less.
fn size_up_to_bound(digits: &[u8]) -> u128
    requires { are_digits digits.now ≡ true }
    ensures { result ≡ min (number_after 0 digits.now) (2 ^ 64) }
{
    let mut size: u128 = 0;
    for digit in digits {
        size = (size * 10 + (*digit - b'0') as u128).min(BOUND);
    }
    size
}

/// Whether the type has the number of this size, negated where `negative`.
fn is_size_in_range(whole_type: WholeType, negative: bool, size: u128) -> bool
    requires { size ≤ 2 ^ 64 }
    ensures { result ≡ is_in_range (bounds_of whole_type) (with_sign negative size) }
{
    is_at_least(whole_type, negative, size) && is_at_most(whole_type, negative, size)
}

fn is_at_least(whole_type: WholeType, negative: bool, size: u128) -> bool
    requires { size ≤ 2 ^ 64 }
    ensures { result ≡ is_at_least (bounds_of whole_type).0 (with_sign negative size) }
{
    match least_of(whole_type) {
        Some(least) => least <= signed(negative, size),
        None => true,
    }
}

fn is_at_most(whole_type: WholeType, negative: bool, size: u128) -> bool
    requires { size ≤ 2 ^ 64 }
    ensures { result ≡ is_at_most (bounds_of whole_type).1 (with_sign negative size) }
{
    match greatest_of(whole_type) {
        Some(greatest) => signed(negative, size) <= greatest,
        None => true,
    }
}

fn signed(negative: bool, size: u128) -> i128
    requires { size ≤ 2 ^ 64 }
    ensures { result ≡ with_sign negative size }
{
    if negative {
        -(size as i128)
    } else {
        size as i128
    }
}
