// Directives: what the first line of a block says.
ghost use Rattle.std.specs.Prelude.{◌≡◌, IfOk};
ghost use Rattle.rsp_events.specs.declared.directives.Directive.TheVariants.{Register, Cancel, Tick};
ghost use Rattle.rsp_events.specs.Directives as form;
ghost use Rattle.rsp_events.specs.DirectiveSteps as steps;

use crate::fields::{has_fields, name_of, only_field, time_of, two_fields};
use crate::lines::{first_field, same};
use rsp_nquads::absolute_iri_among;
use rsp_terms::{Text, Texts};
use std::alloc::AllocError;

/// What a block does, by its first line.
#[derive(Drop)]
pub(crate) enum Directive {
    Register { name: Text },
    Cancel { name: Text },
    Item { stream: Text, time: u64 },
    Tick { time: u64 },
    Insert,
    Delete,
}

/// The directive of a line, where it is one. Fails only where memory is refused.
pub(crate) fn directive_of(texts: &mut Texts, line: &[u8]) -> Result<Option<Directive>, AllocError>
    ensures { IfOk result (λ directive. directive ≡ form.directive_of line.now) }
{
    let word = first_field(line);
    directive_read(texts, word, &line[word.len()..])
}

#[tactic(auto, unfolding(crate::specs::DirectiveSteps::directive_read))]
fn directive_read(
    texts: &mut Texts,
    word: &[u8],
    behind: &[u8],
) -> Result<Option<Directive>, AllocError>
    ensures { IfOk result (λ directive. directive ≡ steps.directive_read word.now (form.fields behind.now)) }
{
    if same(word, b"@register") {
        return register(texts, behind);
    }
    if same(word, b"@cancel") {
        return cancel(texts, behind);
    }
    if same(word, b"@item") {
        return item_of(texts, behind);
    }
    if same(word, b"@tick") {
        return Ok(tick(behind));
    }
    if same(word, b"@insert") {
        return Ok(alone(Directive::Insert, behind));
    }
    if same(word, b"@delete") {
        return Ok(alone(Directive::Delete, behind));
    }
    Ok(None)
}

fn register(texts: &mut Texts, behind: &[u8]) -> Result<Option<Directive>, AllocError>
    ensures { IfOk result (λ directive. directive ≡ steps.directive_with_name (λ name. Register name) (form.fields behind.now)) }
{
    let Some(field) = only_field(behind) else {
        return Ok(None);
    };
    match name_of(texts.alloc(), field)? {
        None => Ok(None),
        Some(name) => Ok(Some(Directive::Register { name })),
    }
}

fn cancel(texts: &mut Texts, behind: &[u8]) -> Result<Option<Directive>, AllocError>
    ensures { IfOk result (λ directive. directive ≡ steps.directive_with_name (λ name. Cancel name) (form.fields behind.now)) }
{
    let Some(field) = only_field(behind) else {
        return Ok(None);
    };
    match name_of(texts.alloc(), field)? {
        None => Ok(None),
        Some(name) => Ok(Some(Directive::Cancel { name })),
    }
}

fn item_of(texts: &mut Texts, behind: &[u8]) -> Result<Option<Directive>, AllocError>
    ensures { IfOk result (λ directive. directive ≡ steps.item_of_fields (form.fields behind.now)) }
{
    let Some((stream, time)) = two_fields(behind) else {
        return Ok(None);
    };
    item(texts, stream, time)
}

fn item(texts: &mut Texts, stream: &[u8], time: &[u8]) -> Result<Option<Directive>, AllocError>
    ensures { IfOk result (λ directive. directive ≡ steps.item_directive stream.now time.now) }
{
    let Some(stream) = absolute_iri_among(texts, stream)? else {
        return Ok(None);
    };
    match time_of(time) {
        None => Ok(None),
        Some(time) => Ok(Some(Directive::Item { stream, time })),
    }
}

fn tick(behind: &[u8]) -> Option<Directive>
    ensures { result ≡ steps.directive_with_time (λ time. Tick time) (form.fields behind.now) }
{
    let field = only_field(behind)?;
    let time = time_of(field)?;
    Some(Directive::Tick { time })
}

// a directive without further fields
fn alone(directive: Directive, behind: &[u8]) -> Option<Directive>
    ensures { result ≡ steps.directive_alone directive (form.fields behind.now) }
{
    if has_fields(behind) {
        None
    } else {
        Some(directive)
    }
}
