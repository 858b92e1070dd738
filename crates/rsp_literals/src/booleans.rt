// Booleans and boolean values.
ghost use Rattle.std.specs.Prelude.{◌≡◌, Some, IfOk};
ghost use Rattle.rsp_number.specs.Numbers.{value_of, is_zero};
ghost use Rattle.rsp_expr.specs.BooleanValues.{boolean_reading, boolean_of, is_filled, numeric_value};
ghost use Rattle.rsp_expr.specs.BooleanValues.{boolean_value, boolean_literal};
ghost use Rattle.rsp_expr.specs.CodeTypes.{typed_boolean, typed_value};

use crate::datatypes::{XSD_BOOLEAN, datatype_of};
use crate::forms::numeric_reading;
use rsp_expr::Datatype;
use rsp_number::{Number, Reading};
use rsp_terms::{Term, Text};
use std::alloc::{AllocError, Global};

/// The value of an `xsd:boolean` that is `true`, `1`, `false` or `0`; None of every other term.
pub fn boolean_of(term: &Term) -> Option<bool>
    ensures { result ≡ boolean_of term.now }
{
    match term {
        Term::Literal { lexical, datatype } => {
            typed_boolean(datatype_of(datatype.as_str()), lexical.as_str())
        }
        _ => None,
    }
}

fn typed_boolean(datatype: Datatype, text: &str) -> Option<bool>
    ensures { result ≡ typed_boolean datatype text.now }
{
    match datatype {
        Datatype::Boolean => boolean_reading(text),
        _ => None,
    }
}

fn boolean_reading(text: &str) -> Option<bool>
    ensures { result ≡ boolean_reading text.now }
{
    match text {
        "true" | "1" => Some(true),
        "false" | "0" => Some(false),
        _ => None,
    }
}

/// The boolean value of a term (SPARQL 1.1, section 17.2.2); None is an expression error. A boolean has its value; a
/// string, with or without a tag, whether it isn't empty; a number whether it isn't 0. A boolean and a number without
/// the form have false. A number that is Beyond and every other term have none.
pub fn boolean_value(term: &Term) -> Option<bool>
    ensures { result ≡ boolean_value term.now }
{
    match term {
        Term::Literal { lexical, datatype } => {
            typed_value(datatype_of(datatype.as_str()), lexical.as_str())
        }
        Term::Tagged { lexical, .. } => Some(is_filled(lexical.as_str())),
        _ => None,
    }
}

fn typed_value(datatype: Datatype, text: &str) -> Option<bool>
    ensures { result ≡ typed_value datatype text.now }
{
    match datatype {
        Datatype::Boolean => Some(boolean_reading(text).unwrap_or(false)),
        Datatype::String => Some(is_filled(text)),
        _ => numeric_value(numeric_reading(datatype, text)),
    }
}

fn is_filled(text: &str) -> bool
    ensures { result ≡ is_filled text.now }
{
    !text.is_empty()
}

fn numeric_value(reading: Option<Reading<Number>>) -> Option<bool>
    ensures { result ≡ numeric_value reading }
{
    match reading {
        None => None,
        Some(Reading::Value(number)) => Some(!is_zero(&number)),
        Some(Reading::Beyond) => None,
        Some(Reading::NotForm) => Some(false),
    }
}

fn is_zero(number: &Number) -> bool
    ensures { result ≡ is_zero (value_of number.now) }
{
    match number {
        Number::Integer(integer) => integer.value() == 0,
        Number::Decimal(decimal) => decimal.coefficient() == 0,
    }
}

/// The literal of a boolean. Fails only where memory is refused.
pub fn boolean_term(alloc: Global, value: bool) -> Result<Term, AllocError>
    ensures literal { IfOk result (λ term. term ≡ boolean_literal value) }
    ensures read_back { IfOk result (λ term. boolean_of term ≡ Some value) }
{
    let lexical = if value { "true" } else { "false" };
    let lexical = Text::new(alloc, lexical)?;
    let datatype = Text::new(alloc, XSD_BOOLEAN)?;
    Ok(Term::Literal { lexical, datatype })
}
