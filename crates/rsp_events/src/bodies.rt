// Bodies: what the lines before `@end` say.
ghost use Rattle.std.specs.Prelude.{◌≡◌, ◌++◌, IfOk, MatchOption, not, true, false};
ghost use Rattle.std.specs.List.{flat_map};
ghost use Rattle.std.specs.Str.{is_utf8};
ghost use Rattle.std.specs.String.{string_bytes};
ghost use Rattle.rsp_events.specs.Contents as form;
ghost use Rattle.rsp_events.specs.BodyLines.{IsRead};

use crate::buffers::Lines;
use rsp_nquads::{LineFault, statement_among};
use rsp_terms::{Listed, Quad, Text, Texts, Triple};
use std::alloc::{AllocError, Global};
use std::str;

// ---- statements

/// The quads that the lines say, in order, or the place of the first line that is refused.
pub(crate) fn quads_of(
    texts: &mut Texts,
    document: u32,
    lines: &Lines,
) -> Result<Result<Listed<Quad>, usize>, AllocError>
    ensures { IfOk result (λ read.
        IsRead (form.is_bad_quad document) lines.now (flat_map (form.quad_on document) lines.now) read) }
{
    let mut quads = Listed::new(texts.alloc());
    for place in 0..lines.len() {
        if !take_quad(texts, document, &mut quads, lines.line(place))? {
            return Ok(Err(place));
        }
    }
    Ok(Ok(quads))
}

// puts what a line says behind the quads; whether the line isn't refused
fn take_quad(
    texts: &mut Texts,
    document: u32,
    quads: &mut Listed<Quad>,
    line: &[u8],
) -> Result<bool, AllocError>
    ensures { IfOk result (λ taken. (form.is_bad_quad document line.now ≡ not taken)
        × (quads.new ≡ quads.old ++ form.quad_on document line.now)) }
{
    match statement_among(texts, document, line) {
        Ok(None) => Ok(true),
        Ok(Some(quad)) => {
            quads.push(quad)?;
            Ok(true)
        }
        Err(LineFault::OutOfMemory) => Err(AllocError),
        Err(_) => Ok(false),
    }
}

/// The triples of an item's lines, in order, or the place of the first line that is refused or has a graph.
pub(crate) fn graph_of(
    texts: &mut Texts,
    document: u32,
    lines: &Lines,
) -> Result<Result<Listed<Triple>, usize>, AllocError>
    ensures { IfOk result (λ read.
        IsRead (form.is_bad_triple document) lines.now (flat_map (form.triple_on document) lines.now) read) }
{
    let mut graph = Listed::new(texts.alloc());
    for place in 0..lines.len() {
        if !take_triple(texts, document, &mut graph, lines.line(place))? {
            return Ok(Err(place));
        }
    }
    Ok(Ok(graph))
}

// puts what a line says behind the triples; whether the line isn't refused and has no graph
fn take_triple(
    texts: &mut Texts,
    document: u32,
    graph: &mut Listed<Triple>,
    line: &[u8],
) -> Result<bool, AllocError>
    ensures { IfOk result (λ taken. (form.is_bad_triple document line.now ≡ not taken)
        × (graph.new ≡ graph.old ++ form.triple_on document line.now)) }
{
    match statement_among(texts, document, line) {
        Ok(None) => Ok(true),
        Ok(Some(quad)) => {
            let without_graph = quad.graph.is_none();
            graph.push(quad.triple)?;
            Ok(without_graph)
        }
        Err(LineFault::OutOfMemory) => Err(AllocError),
        Err(_) => Ok(false),
    }
}

// ---- query text

/// The lines as one text, each with a line feed behind it, or the place of the first line that isn't UTF-8.
pub(crate) fn text_of(alloc: Global, lines: &Lines) -> Result<Result<Text, usize>, AllocError>
    ensures { IfOk result (λ read. IsRead form.is_bad_text lines.now (flat_map form.with_line_feed lines.now) read) }
{
    let mut text = String::new(alloc);
    for place in 0..lines.len() {
        if !take_text(&mut text, lines.line(place))? {
            return Ok(Err(place));
        }
    }
    Ok(Ok(Text::new(alloc, text.as_str())?))
}

// puts a line behind the text; whether it is UTF-8
fn take_text(text: &mut String, line: &[u8]) -> Result<bool, AllocError>
    ensures { IfOk result (λ taken. (form.is_bad_text line.now ≡ not taken)
        × (taken ≡ true → string_bytes text.new ≡ string_bytes text.old ++ form.with_line_feed line.now)) }
{
    let Some(line) = utf8(line) else {
        return Ok(false);
    };
    text.push_str(line)?;
    text.push_str("\n")?;
    Ok(true)
}

fn utf8(line: &[u8]) -> Option<&str>
    ensures { MatchOption result (is_utf8 line.now ≡ false) (λ text. (is_utf8 line.now ≡ true) × (text.now ≡ line.now)) }
{
    match str::from_utf8(line) {
        Ok(text) => Some(text),
        Err(_) => None,
    }
}
