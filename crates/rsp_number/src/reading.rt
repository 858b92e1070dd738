// What a text reads as.

ghost use Rattle.std.specs.Prelude.{◌≡◌};
ghost use Rattle.rsp_number.specs.Texts.{read_integer, read_decimal, value_or_beyond};
ghost use Rattle.rsp_number.specs.SecondReadings.{IsReadExactly};

use crate::decimals::DecimalNumber;
use crate::digits::{are_digits, before_point, behind_point, is_negative, unsigned};
use crate::integers::IntegerNumber;
use crate::written::{written_decimal, written_integer};

/// What a text reads as.
#[derive(Clone, Copy, PartialEq, Eq, Debug)]
pub enum Reading<T> {
    /// It has the form, and this is the number that it writes.
    Value(T),
    /// It has the form, and no number holds what it writes.
    Beyond,
    /// It hasn't the form.
    NotForm,
}

impl<T> Reading<T> {
    /// The value, or Beyond where there is none.
    fn value_or_beyond(value: Option<T>) -> Reading<T>
        ensures { result ≡ value_or_beyond value }
    {
        match value {
            Some(value) => Reading::Value(value),
            None => Reading::Beyond,
        }
    }
}

/// Reads an integer: an optional sign and digits, at least one. Beyond where its size is past 2^63 - 1.
///
/// `integer(b"+007")` is the value 7, `integer(b"9223372036854775808")` is Beyond, and `integer(b"1.0")` isn't of the form.
pub fn integer(text: &[u8]) -> Reading<IntegerNumber>
    ensures { result ≡ read_integer text.now }
{
    let digits = unsigned(text);
    if digits.is_empty() || !are_digits(digits) {
        return Reading::NotForm;
    }
    Reading::value_or_beyond(written_integer(is_negative(text), digits))
}

/// Reads a decimal: an optional sign, and digits with at most one point before, among or behind them, at least one
/// digit. Beyond where no decimal is exactly what it writes; zeros that alone pad it don't count.
///
/// `decimal(b"-012.340")` is the value -12.34, `decimal(b"0.0000000000000000001")` is Beyond, and `decimal(b".")` isn't of
/// the form.
pub fn decimal(text: &[u8]) -> Reading<DecimalNumber>
    ensures value { result ≡ read_decimal text.now }
    ensures exact { IsReadExactly text.now result }
{
    parts_read(text)
}

/// The same, from the digits before and behind the point.
fn parts_read(text: &[u8]) -> Reading<DecimalNumber>
    ensures { result ≡ read_decimal text.now }
{
    let whole = before_point(unsigned(text));
    let fraction = behind_point(unsigned(text));
    if !are_digits(whole) || !are_digits(fraction) || whole.len() + fraction.len() == 0 {
        return Reading::NotForm;
    }
    Reading::value_or_beyond(written_decimal(is_negative(text), whole, fraction))
}
