// Strings.
ghost use Rattle.std.specs.Prelude.{◌≡◌};
ghost use Rattle.std.specs.Option.{option_copied};
ghost use Rattle.rsp_expr.specs.Strings.{string_of, is_inexact};
ghost use Rattle.rsp_expr.specs.CodeTypes.{typed_string, is_floating};

use crate::datatypes::datatype_of;
use rsp_expr::Datatype;
use rsp_terms::Term;

/// The text of an `xsd:string`; None of every other term.
pub fn string_of(term: &Term) -> Option<&str>
    ensures { option_copied result ≡ string_of term.now }
{
    match term {
        Term::Literal { lexical, datatype } => {
            typed_string(datatype_of(datatype.as_str()), lexical.as_str())
        }
        _ => None,
    }
}

fn typed_string(datatype: Datatype, text: &str) -> Option<&str>
    ensures { option_copied result ≡ typed_string datatype text.now }
{
    match datatype {
        Datatype::String => Some(text),
        _ => None,
    }
}

/// Whether the term is a literal of `xsd:double` or `xsd:float`, whose numbers aren't exact.
pub fn is_inexact(term: &Term) -> bool
    ensures { result ≡ is_inexact term.now }
{
    match term {
        Term::Literal { datatype, .. } => is_floating(datatype_of(datatype.as_str())),
        _ => false,
    }
}

fn is_floating(datatype: Datatype) -> bool
    ensures { result ≡ is_floating datatype }
{
    matches!(datatype, Datatype::Double | Datatype::Float)
}
