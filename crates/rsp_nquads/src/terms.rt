// The terms of a statement.
ghost use Rattle.std.specs.Prelude.{◌≡◌, MatchOption, Some, None, IfOk};
ghost use Rattle.rsp_nquads.specs.Parts as part;

use rsp_scan::{iri, label, sign, string, tag};
use rsp_terms::{Term, Text, Texts};
use rsp_text::behind_blanks;
use std::alloc::AllocError;

/// An IRI.
pub(crate) fn iri_term<'a>(
    texts: &mut Texts,
    text: &'a [u8],
) -> Result<Option<(Term, &'a [u8])>, AllocError>
    ensures { IfOk result (λ r. MatchOption r (part.iri_term text.now ≡ None)
        (λ x. part.iri_term text.now ≡ Some (x.0, x.1.now))) }
{
    match iri(texts, text)? {
        None => Ok(None),
        Some((name, rest)) => Ok(Some((Term::Iri(name), rest))),
    }
}

/// An IRI or a blank node of this document.
#[tactic(auto, unfolding(crate::specs::Parts::node))]
pub(crate) fn node<'a>(
    texts: &mut Texts,
    document: u32,
    text: &'a [u8],
) -> Result<Option<(Term, &'a [u8])>, AllocError>
    ensures { IfOk result (λ r. MatchOption r (part.node document text.now ≡ None)
        (λ x. part.node document text.now ≡ Some (x.0, x.1.now))) }
{
    match iri_term(texts, text)? {
        Some(read) => Ok(Some(read)),
        None => blank(texts, document, text),
    }
}

fn blank<'a>(
    texts: &mut Texts,
    document: u32,
    text: &'a [u8],
) -> Result<Option<(Term, &'a [u8])>, AllocError>
    ensures { IfOk result (λ r. MatchOption r (part.blank document text.now ≡ None)
        (λ x. part.blank document text.now ≡ Some (x.0, x.1.now))) }
{
    match label(texts, text)? {
        None => Ok(None),
        Some((label, rest)) => Ok(Some((Term::Blank { document, label }, rest))),
    }
}

/// An IRI, a blank node or a literal.
#[tactic(auto, unfolding(crate::specs::Parts::object))]
pub(crate) fn object<'a>(
    texts: &mut Texts,
    document: u32,
    text: &'a [u8],
) -> Result<Option<(Term, &'a [u8])>, AllocError>
    ensures { IfOk result (λ r. MatchOption r (part.object document text.now ≡ None)
        (λ x. part.object document text.now ≡ Some (x.0, x.1.now))) }
{
    match node(texts, document, text)? {
        Some(read) => Ok(Some(read)),
        None => literal(texts, text),
    }
}

#[tactic(auto, unfolding(crate::specs::Parts::literal))]
fn literal<'a>(texts: &mut Texts, text: &'a [u8]) -> Result<Option<(Term, &'a [u8])>, AllocError>
    ensures { IfOk result (λ r. MatchOption r (part.literal text.now ≡ None)
        (λ x. part.literal text.now ≡ Some (x.0, x.1.now))) }
{
    match string(texts, text)? {
        None => Ok(None),
        Some((lexical, rest)) => Ok(Some(literal_of(texts, lexical, rest)?)),
    }
}

#[tactic(auto, unfolding(crate::specs::Parts::literal_of))]
fn literal_of<'a>(
    texts: &mut Texts,
    lexical: Text,
    text: &'a [u8],
) -> Result<(Term, &'a [u8]), AllocError>
    ensures { IfOk result (λ x. part.literal_of lexical text.now ≡ Some (x.0, x.1.now)) }
{
    let behind = behind_blanks(text);
    if let Some((datatype, rest)) = datatype(texts, behind)? {
        return Ok((Term::Literal { lexical, datatype }, rest));
    }
    if let Some((language, rest)) = tag(texts, behind)? {
        return Ok((Term::Tagged { lexical, language }, rest));
    }
    let datatype = texts.xsd_string()?;
    Ok((Term::Literal { lexical, datatype }, text))
}

#[tactic(auto, unfolding(crate::specs::Parts::datatype))]
fn datatype<'a>(texts: &mut Texts, text: &'a [u8]) -> Result<Option<(Text, &'a [u8])>, AllocError>
    ensures { IfOk result (λ r. MatchOption r (part.datatype text.now ≡ None)
        (λ x. part.datatype text.now ≡ Some (x.0, x.1.now))) }
{
    let Some(behind) = sign(b'^', text) else {
        return Ok(None);
    };
    let Some(inner) = sign(b'^', behind) else {
        return Ok(None);
    };
    iri(texts, behind_blanks(inner))
}
