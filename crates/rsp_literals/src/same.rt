// Whether a term is the literal of a value, which isn't made for that.
ghost use Rattle.std.specs.Prelude.{◌≡◌, ◌≤◌, ◌++◌, ℕ, List, false, MatchOption};
ghost use Rattle.std.specs.Str.{bytes_eq};
ghost use Rattle.rsp_number.specs.Decimals.{most_digits};
ghost use Rattle.rsp_number.specs.declared.number.Number.TheVariants as number;
ghost use Rattle.rsp_terms.specs.Same.{term_eq};
ghost use Rattle.rsp_expr.specs.BooleanValues.{boolean_literal, boolean_text};
ghost use Rattle.rsp_expr.specs.Numerals.{last_digits, fraction_text, size_text, sign_text, numeral};
ghost use Rattle.rsp_expr.specs.Numerals.{numeral_type, numeral_literal};
ghost use Rattle.rsp_expr.specs.Strings.{string_literal};

use crate::datatypes::{XSD_BOOLEAN, XSD_DECIMAL, XSD_INTEGER};
use itoa::Buffer;
use rsp_number::{DecimalNumber, IntegerNumber, Number};
use rsp_terms::{Term, XSD_STRING};

/// Whether the term is the literal of the boolean, which `boolean_term` makes. Takes no memory.
pub fn is_boolean_term(term: &Term, value: bool) -> bool
    ensures { result ≡ term_eq term.now (boolean_literal value) }
{
    match term {
        Term::Literal { lexical, datatype } => {
            lexical.as_str() == boolean_text(value) && datatype.as_str() == XSD_BOOLEAN
        }
        _ => false,
    }
}

fn boolean_text(value: bool) -> &'static str
    ensures { result.now ≡ boolean_text value }
{
    if value { "true" } else { "false" }
}

/// Whether the term is the `xsd:string` of the text. Takes no memory.
pub fn is_string_term(term: &Term, text: &str) -> bool
    ensures { result ≡ term_eq term.now (string_literal text.now) }
{
    match term {
        Term::Literal { lexical, datatype } => {
            lexical.as_str() == text && datatype.as_str() == XSD_STRING
        }
        _ => false,
    }
}

/// Whether the term is the literal of the number, which `term_of` makes. Takes no memory.
pub fn is_term_of(term: &Term, number: &Number) -> bool
    ensures { result ≡ term_eq term.now (numeral_literal number.now) }
{
    match term {
        Term::Literal { lexical, datatype } => {
            is_numeral(lexical.as_str().as_bytes(), number)
                && datatype.as_str() == numeral_type(number)
        }
        _ => false,
    }
}

fn numeral_type(number: &Number) -> &'static str
    ensures { result.now ≡ numeral_type number.now }
{
    match number {
        Number::Integer(_) => XSD_INTEGER,
        Number::Decimal(_) => XSD_DECIMAL,
    }
}

fn is_numeral(text: &[u8], number: &Number) -> bool
    ensures { result ≡ bytes_eq text.now (numeral number.now) }
{
    match number {
        Number::Integer(integer) => is_integer_numeral(text, integer),
        Number::Decimal(decimal) => is_decimal_numeral(text, decimal),
    }
}

fn is_integer_numeral(text: &[u8], integer: &IntegerNumber) -> bool
    ensures { result ≡ bytes_eq text.now (numeral (number.Integer integer.now)) }
{
    let mut digits = Buffer::new();
    text == digits.format(integer.value()).as_bytes()
}

fn is_decimal_numeral(text: &[u8], decimal: &DecimalNumber) -> bool
    ensures { result ≡ bytes_eq text.now (numeral (number.Decimal decimal.now)) }
{
    let coefficient = decimal.coefficient();
    match behind(text, sign_of(coefficient)) {
        None => false,
        Some(size) => is_size_text(size, coefficient.unsigned_abs(), decimal.scale()),
    }
}

fn sign_of(number: i64) -> &'static [u8]
    ensures { result.now ≡ sign_text number }
{
    if number < 0 { b"-" } else { b"" }
}

fn is_size_text(text: &[u8], size: u64, scale: u32) -> bool
    requires { scale ≤ most_digits }
    ensures { result ≡ bytes_eq text.now (size_text scale size) }
{
    let mut digits = Buffer::new();
    match behind(text, digits.format(size / 10u64.pow(scale)).as_bytes()) {
        None => false,
        Some(fraction) => is_fraction_text(fraction, size, scale),
    }
}

fn is_fraction_text(text: &[u8], size: u64, scale: u32) -> bool
    ensures { result ≡ bytes_eq text.now (fraction_text scale size) }
{
    if scale == 0 {
        return text.is_empty();
    }
    match behind(text, b".") {
        None => false,
        Some(digits) => are_last_digits(digits, size, scale),
    }
}

// whether the text is the last digits of a number, so many as the count
fn are_last_digits(text: &[u8], number: u64, count: u32) -> bool
    ensures { result ≡ bytes_eq text.now (last_digits count number) }
{
    if count == 0 {
        return text.is_empty();
    }
    match text.split_last() {
        None => false,
        Some((last, front)) => {
            *last == b'0' + (number % 10) as u8 && are_last_digits(front, number / 10, count - 1)
        }
    }
}

// what stands behind the front, where the text begins with it
fn behind<'a>(text: &'a [u8], front: &[u8]) -> Option<&'a [u8]>
    ensures { MatchOption result
        ((body : List ℕ) → bytes_eq text.now (front.now ++ body) ≡ false)
        (λ rest. (body : List ℕ) → bytes_eq text.now (front.now ++ body) ≡ bytes_eq rest.now body) }
{
    text.strip_prefix(front)
}
