// Fields that are an IRI and nothing else.
ghost use Rattle.std.specs.Prelude.{◌≡◌, ◌↔◌, ℕ, List, Some, IfOk};
ghost use Rattle.rsp_nquads.specs.Grammar.{IsAbsoluteIri};
ghost use Rattle.rsp_nquads.specs.Fields.{absolute_iri};

use rsp_scan::{follow_rules, iri};
use rsp_terms::characters::is_absolute;
use rsp_terms::{Text, Texts};
use std::alloc::{AllocError, Global};

/// The IRI of a field that is an IRIREF (RDF 1.1 N-Quads, section 4) and nothing else, with its escapes replaced; None
/// exactly where the field isn't that, or the IRI isn't absolute. Fails only where memory is refused.
///
/// `absolute_iri(alloc, b"<x:\u0041>")` is `Ok(Some(name))` with `name.as_str() == "x:A"`; of `<A>` and of `x:A` it is
/// `Ok(None)`.
pub fn absolute_iri(alloc: Global, field: &[u8]) -> Result<Option<Text>, AllocError>
    ensures value { IfOk result (λ name. name ≡ absolute_iri field.now) }
    ensures grammar { (name : List ℕ) → (absolute_iri field.now ≡ Some name) ↔ IsAbsoluteIri field.now name }
{
    let mut texts = Texts::unkept(alloc);
    absolute_iri_among(&mut texts, field)
}

/// What [`absolute_iri`] gives, as a text that is shared with one of the table.
pub fn absolute_iri_among(texts: &mut Texts, field: &[u8]) -> Result<Option<Text>, AllocError>
    ensures value { IfOk result (λ name. name ≡ absolute_iri field.now) }
    ensures grammar { (name : List ℕ) → (absolute_iri field.now ≡ Some name) ↔ IsAbsoluteIri field.now name }
{
    follow_rules();
    whole_iri(texts, field)
}

#[tactic(auto, unfolding(crate::specs::Fields::absolute_iri))]
fn whole_iri(texts: &mut Texts, field: &[u8]) -> Result<Option<Text>, AllocError>
    ensures { IfOk result (λ name. name ≡ absolute_iri field.now) }
{
    let Some((name, behind)) = iri(texts, field)? else {
        return Ok(None);
    };
    if !behind.is_empty() {
        return Ok(None);
    }
    if !is_absolute(name.as_str()) {
        return Ok(None);
    }
    Ok(Some(name))
}
