// The literal of a number.
ghost use Rattle.std.specs.Prelude.{◌≡◌, ◌≤◌, ◌/◌, ◌^◌, ◌++◌, Some, IfOk, OnOk, unsigned_abs};
ghost use Rattle.std.specs.Fmt.{decimal};
ghost use Rattle.std.specs.String.{string_bytes};
ghost use Rattle.rsp_number.specs.Decimals.{largest, most_digits, IsDecimal};
ghost use Rattle.rsp_number.specs.declared.number.Number.TheVariants as number;
ghost use Rattle.rsp_expr.specs.Forms.{number_of};
ghost use Rattle.rsp_expr.specs.Numerals.{last_digits, fraction_text, size_text, sign_text, numeral, numeral_literal};

use crate::datatypes::{XSD_DECIMAL, XSD_INTEGER};
use itoa::Buffer;
use rsp_number::{DecimalNumber, IntegerNumber, Number};
use rsp_terms::{Term, Text};
use std::alloc::{AllocError, Global};

/// The literal of a number: an `xsd:integer` in digits, with `-` where it is negative, or an `xsd:decimal`, the same
/// with a point and its digits behind it where there are any. At least one digit stands before the point. It reads as
/// the number again. Fails only where memory is refused.
pub fn term_of(alloc: Global, number: &Number) -> Result<Term, AllocError>
    ensures literal { IfOk result (λ term. term ≡ numeral_literal number.now) }
    ensures read_back { IfOk result (λ term. number_of term ≡ Some number.now) }
{
    match number {
        Number::Integer(integer) => integer_term(alloc, integer),
        Number::Decimal(decimal) => decimal_term(alloc, decimal),
    }
}

fn integer_term(alloc: Global, integer: &IntegerNumber) -> Result<Term, AllocError>
    ensures literal { IfOk result (λ term. term ≡ numeral_literal (number.Integer integer.now)) }
    ensures range { unsigned_abs integer.now ≤ largest }
{
    let mut digits = Buffer::new();
    let lexical = Text::new(alloc, digits.format(integer.value()))?;
    let datatype = Text::new(alloc, XSD_INTEGER)?;
    Ok(Term::Literal { lexical, datatype })
}

fn decimal_term(alloc: Global, decimal: &DecimalNumber) -> Result<Term, AllocError>
    ensures literal { IfOk result (λ term. term ≡ numeral_literal (number.Decimal decimal.now)) }
    ensures decimal { IsDecimal decimal.now }
{
    let mut text = String::new(alloc);
    push_decimal(decimal, &mut text)?;
    let lexical = Text::new(alloc, text.as_str())?;
    let datatype = Text::new(alloc, XSD_DECIMAL)?;
    Ok(Term::Literal { lexical, datatype })
}

fn push_decimal(decimal: &DecimalNumber, text: &mut String) -> Result<(), AllocError>
    ensures ok { OnOk result (string_bytes text.new ≡ string_bytes text.old ++ numeral (number.Decimal decimal.now)) }
    ensures decimal { IsDecimal decimal.now }
{
    let coefficient = decimal.coefficient();
    if coefficient < 0 {
        text.push('-')?;
    }
    push_size(coefficient.unsigned_abs(), decimal.scale(), text)
}

/// Appends a size that counts units of 1 / 10^scale.
fn push_size(size: u64, scale: u32, text: &mut String) -> Result<(), AllocError>
    requires { scale ≤ most_digits }
    ensures { OnOk result (string_bytes text.new ≡ string_bytes text.old ++ size_text scale size) }
{
    let mut digits = Buffer::new();
    text.push_str(digits.format(size / 10u64.pow(scale)))?;
    push_fraction(size, scale, text)
}

fn push_fraction(size: u64, scale: u32, text: &mut String) -> Result<(), AllocError>
    ensures { OnOk result (string_bytes text.new ≡ string_bytes text.old ++ fraction_text scale size) }
{
    if scale == 0 {
        return Ok(());
    }
    text.push('.')?;
    push_last_digits(size, scale, text)
}

/// Appends the last digits of a number, so many as the count.
fn push_last_digits(number: u64, count: u32, text: &mut String) -> Result<(), AllocError>
    ensures { OnOk result (string_bytes text.new ≡ string_bytes text.old ++ last_digits count number) }
{
    if count == 0 {
        return Ok(());
    }
    push_last_digits(number / 10, count - 1, text)?;
    text.push((b'0' + (number % 10) as u8) as char)?;
    Ok(())
}
