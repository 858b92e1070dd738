// What the lines of a block hold: the event, or the block's first fault.
ghost use Rattle.std.specs.Prelude.{◌≡◌, ◌+◌, IfOk, if◌then◌else◌, length};
ghost use Rattle.std.specs.List.{flat_map};
ghost use Rattle.rsp_events.specs.Contents as form;
ghost use Rattle.rsp_events.specs.Instants.{IsTimed};
ghost use Rattle.rsp_events.specs.declared.event.BlockFault.TheVariants.{BadBody};
ghost use Rattle.rsp_events.specs.declared.event.Content.TheVariants as content;
ghost use Rattle.rsp_events.specs.declared.event.Event.TheVariants as event;

use crate::bodies::{graph_of, quads_of, text_of};
use crate::buffers::Lines;
use crate::directives::{Directive, directive_of};
use crate::{BlockFault, Content, Event};
use rsp_terms::{Text, Texts};
use std::alloc::AllocError;

/// The event of a block, or its first fault: by its lines before `@end`, of which the first has this number in the text, and
/// by whether it has an `@end`. Fails only where memory is refused, or the 64-bit number of a line would pass its last value.
#[tactic(auto, unfolding(crate::specs::Contents::content_of_lines))]
pub(crate) fn content_of_lines(
    texts: &mut Texts,
    document: u32,
    first: u64,
    lines: &Lines,
    ended: bool,
) -> Result<Content, AllocError>
    ensures value { IfOk result (λ content. content ≡ form.content_of_lines document first lines.now ended) }
    ensures timed { IfOk result IsTimed }
{
    let Some((head, body)) = lines.split_first() else {
        return Ok(Content::Fault(BlockFault::BadDirective));
    };
    match directive_of(texts, head)? {
        None => Ok(Content::Fault(BlockFault::BadDirective)),
        Some(directive) => content_of_directive(texts, document, first, directive, &body, ended),
    }
}

#[tactic(auto, unfolding(crate::specs::Contents::content_of_directive))]
fn content_of_directive(
    texts: &mut Texts,
    document: u32,
    first: u64,
    directive: Directive,
    lines: &Lines,
    ended: bool,
) -> Result<Content, AllocError>
    ensures { IfOk result (λ content. content ≡ form.content_of_directive document first directive lines.now ended) }
{
    match directive {
        Directive::Register { name } => register(texts, first, name, lines, ended),
        Directive::Cancel { name } => Ok(Content::Event(Event::Cancel { name })),
        Directive::Item { stream, time } => {
            item(texts, document, first, stream, time, lines, ended)
        }
        Directive::Tick { time } => Ok(Content::Event(Event::Tick { time })),
        Directive::Insert => insert(texts, document, first, lines, ended),
        Directive::Delete => delete(texts, document, first, lines, ended),
    }
}

fn register(
    texts: &mut Texts,
    first: u64,
    name: Text,
    lines: &Lines,
    ended: bool,
) -> Result<Content, AllocError>
    ensures { IfOk result (λ content. content ≡ form.content_of_body first lines.now ended form.is_bad_text
        (λ lines. event.Register name (flat_map form.with_line_feed lines))) }
{
    match text_of(texts.alloc(), lines)? {
        Ok(text) => ending(first, lines, ended, Event::Register { name, text }),
        Err(place) => bad_line(first, place),
    }
}

fn item(
    texts: &mut Texts,
    document: u32,
    first: u64,
    stream: Text,
    time: u64,
    lines: &Lines,
    ended: bool,
) -> Result<Content, AllocError>
    ensures { IfOk result (λ content. content ≡ form.content_of_body first lines.now ended (form.is_bad_triple document)
        (λ lines. event.Item stream time (flat_map (form.triple_on document) lines))) }
{
    match graph_of(texts, document, lines)? {
        Ok(graph) => ending(
            first,
            lines,
            ended,
            Event::Item {
                stream,
                time,
                graph,
            },
        ),
        Err(place) => bad_line(first, place),
    }
}

fn insert(
    texts: &mut Texts,
    document: u32,
    first: u64,
    lines: &Lines,
    ended: bool,
) -> Result<Content, AllocError>
    ensures { IfOk result (λ content. content ≡ form.content_of_body first lines.now ended (form.is_bad_quad document)
        (λ lines. event.Insert (flat_map (form.quad_on document) lines))) }
{
    match quads_of(texts, document, lines)? {
        Ok(quads) => ending(first, lines, ended, Event::Insert { quads }),
        Err(place) => bad_line(first, place),
    }
}

fn delete(
    texts: &mut Texts,
    document: u32,
    first: u64,
    lines: &Lines,
    ended: bool,
) -> Result<Content, AllocError>
    ensures { IfOk result (λ content. content ≡ form.content_of_body first lines.now ended (form.is_bad_quad document)
        (λ lines. event.Delete (flat_map (form.quad_on document) lines))) }
{
    match quads_of(texts, document, lines)? {
        Ok(quads) => ending(first, lines, ended, Event::Delete { quads }),
        Err(place) => bad_line(first, place),
    }
}

// the event of a body without a bad line, where the body has its `@end`
fn ending(first: u64, lines: &Lines, ended: bool, event: Event) -> Result<Content, AllocError>
    ensures { IfOk result (λ made. made ≡ (if ended
        then content.Event event else content.Fault (BadBody (first + 1 + length lines.now)))) }
{
    if ended {
        return Ok(Content::Event(event));
    }
    bad_line(first, lines.len())
}

// the fault of the line at this place of a body
fn bad_line(first: u64, place: usize) -> Result<Content, AllocError>
    ensures { IfOk result (λ made. made ≡ content.Fault (BadBody (first + 1 + place))) }
{
    let Some(behind) = first.checked_add(1) else {
        return Err(AllocError);
    };
    let Some(line) = behind.checked_add(place as u64) else {
        return Err(AllocError);
    };
    Ok(Content::Fault(BlockFault::BadBody { line }))
}
