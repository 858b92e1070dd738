// Functions on terms (SPARQL 1.1 Query, section 17.4.2). Of another kind of argument they are errors.
ghost use Rattle.std.specs.Prelude.{◌≡◌, Some, IfOk};
ghost use Rattle.rsp_terms.specs.declared.term.Term.TheVariants as term;
ghost use Rattle.rsp_expr.specs.Strings.{string_literal, string_of as string_of_term};
ghost use Rattle.rsp_expr.specs.Functions.{lexical_form, language_tag, datatype_iri, iri_of, iri_in, typed_literal};
ghost use Rattle.rsp_functions.specs.declared.function.Function.TheVariants as function;
ghost use Rattle.rsp_operands.specs.Operands.{unary_value, binary_value, term_for, value_for};

use crate::operand::Operand;
use rsp_expr::Datatype;
use rsp_literals::{RDF_LANG_STRING, boolean_term, datatype_of, term_of};
use rsp_terms::{Term, Text, XSD_STRING, is_iri, is_tag};
use std::alloc::{AllocError, Global};

/// isNumeric; an error of a double or a float.
pub(crate) fn is_numeric(argument: &Operand) -> Option<Operand>
    ensures { value_for result ≡ unary_value function.IsNumeric (term_for argument.now) }
{
    if argument.is_inexact() {
        return None;
    }
    Some(Operand::Boolean(argument.number().is_some()))
}

/// STR. Fails only where memory is refused.
pub(crate) fn lexical_form(alloc: Global, argument: &Operand) -> Result<Option<Operand>, AllocError>
    ensures { IfOk result (λ value. value_for value ≡ lexical_form (term_for argument.now)) }
{
    match argument {
        Operand::Term(term) => lexical_form_of(term),
        Operand::Number(number) => lexical_form_of(&term_of(alloc, number)?),
        Operand::Boolean(value) => lexical_form_of(&boolean_term(alloc, *value)?),
        Operand::String(text) => string(text),
    }
}

fn lexical_form_of(term: &Term) -> Result<Option<Operand>, AllocError>
    ensures { IfOk result (λ value. value_for value ≡ lexical_form term.now) }
{
    match term {
        Term::Iri(text) => string(text),
        Term::Blank { .. } => Ok(None),
        Term::Literal { lexical, .. } => string(lexical),
        Term::Tagged { lexical, .. } => string(lexical),
    }
}

fn string(text: &Text) -> Result<Option<Operand>, AllocError>
    ensures { IfOk result (λ value. value_for value ≡ Some (string_literal text.now)) }
{
    Ok(Some(Operand::String(text.share()?)))
}

fn iri(text: &Text) -> Result<Option<Operand>, AllocError>
    ensures { IfOk result (λ value. value_for value ≡ Some (term.Iri text.now)) }
{
    Ok(Some(Operand::Term(Term::Iri(text.share()?))))
}

/// LANG. Fails only where memory is refused.
pub(crate) fn language_tag(alloc: Global, argument: &Operand) -> Result<Option<Operand>, AllocError>
    ensures { IfOk result (λ value. value_for value ≡ language_tag (term_for argument.now)) }
{
    match argument {
        Operand::Term(Term::Iri(_)) => Ok(None),
        Operand::Term(Term::Blank { .. }) => Ok(None),
        Operand::Term(Term::Tagged { language, .. }) => string(language),
        _ => Ok(Some(Operand::String(Text::new(alloc, "")?))),
    }
}

/// DATATYPE. Fails only where memory is refused.
pub(crate) fn datatype_iri(alloc: Global, argument: &Operand) -> Result<Option<Operand>, AllocError>
    ensures { IfOk result (λ value. value_for value ≡ datatype_iri (term_for argument.now)) }
{
    match argument {
        Operand::Term(term) => datatype_iri_of(alloc, term),
        Operand::Number(number) => datatype_iri_of(alloc, &term_of(alloc, number)?),
        Operand::Boolean(value) => datatype_iri_of(alloc, &boolean_term(alloc, *value)?),
        Operand::String(_) => iri(&Text::new(alloc, XSD_STRING)?),
    }
}

fn datatype_iri_of(alloc: Global, term: &Term) -> Result<Option<Operand>, AllocError>
    ensures { IfOk result (λ value. value_for value ≡ datatype_iri term.now) }
{
    match term {
        Term::Iri(_) => Ok(None),
        Term::Blank { .. } => Ok(None),
        Term::Literal { datatype, .. } => iri(datatype),
        Term::Tagged { .. } => iri(&Text::new(alloc, RDF_LANG_STRING)?),
    }
}

/// IRI, and URI. Fails only where memory is refused.
pub(crate) fn iri_of(argument: &Operand) -> Result<Option<Operand>, AllocError>
    ensures { IfOk result (λ value. value_for value ≡ iri_of (term_for argument.now)) }
{
    match argument {
        Operand::Term(Term::Iri(text)) => iri(text),
        other => match string_in(other)? {
            Some(text) => Ok(iri_in(text)),
            None => Ok(None),
        },
    }
}

fn iri_in(text: Text) -> Option<Operand>
    ensures { value_for result ≡ iri_in text }
{
    if is_iri(text.as_str()) {
        Some(Operand::Term(Term::Iri(text)))
    } else {
        None
    }
}

/// STRDT. Fails only where memory is refused.
pub(crate) fn typed_literal(
    text: &Operand,
    datatype: &Operand,
) -> Result<Option<Operand>, AllocError>
    ensures { IfOk result (λ value. value_for value ≡ binary_value function.StrDt (term_for text.now) (term_for datatype.now)) }
{
    let Some(lexical) = string_in(text)? else {
        return Ok(None);
    };
    match datatype {
        Operand::Term(Term::Iri(datatype)) => literal_of(lexical, datatype),
        _ => Ok(None),
    }
}

fn literal_of(lexical: Text, datatype: &Text) -> Result<Option<Operand>, AllocError>
    ensures { IfOk result (λ value. value_for value ≡ typed_literal lexical (term.Iri datatype.now)) }
{
    if datatype.as_str() == RDF_LANG_STRING {
        return Ok(None);
    }
    let datatype = datatype.share()?;
    Ok(Some(Operand::Term(Term::Literal { lexical, datatype })))
}

/// STRLANG. Fails only where memory is refused.
pub(crate) fn language_literal(text: &Operand, tag: &Operand) -> Result<Option<Operand>, AllocError>
    ensures { IfOk result (λ value. value_for value ≡ binary_value function.StrLang (term_for text.now) (term_for tag.now)) }
{
    let (Some(lexical), Some(language)) = (string_in(text)?, string_in(tag)?) else {
        return Ok(None);
    };
    if is_tag(language.as_str()) {
        Ok(Some(Operand::Term(Term::Tagged { lexical, language })))
    } else {
        Ok(None)
    }
}

// the text of a string
fn string_in(operand: &Operand) -> Result<Option<Text>, AllocError>
    ensures { IfOk result (λ text. text ≡ string_of_term (term_for operand.now)) }
{
    match operand {
        Operand::Term(Term::Literal { lexical, datatype }) => {
            match datatype_of(datatype.as_str()) {
                Datatype::String => Ok(Some(lexical.share()?)),
                _ => Ok(None),
            }
        }
        Operand::String(text) => Ok(Some(text.share()?)),
        _ => Ok(None),
    }
}
