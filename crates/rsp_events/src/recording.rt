// Files of recorded streams.
ghost use Rattle.std.specs.Prelude.{◌≡◌, ◌++◌, Some, IfOk, OnOk};
ghost use Rattle.std.specs.List.{AllByRecursion};
ghost use Rattle.rsp_terms.specs.Same.{term_eq};
ghost use Rattle.rsp_nquads.specs.Statements.{statement_of};
ghost use Rattle.rsp_events.specs.Instants.{IsInstant};
ghost use Rattle.rsp_events.specs.Recorded as stream_file;
ghost use Rattle.rsp_events.specs.Openings.{recorded_by};
ghost use Rattle.rsp_events.specs.Recording as way;

use crate::fields::number_of;
use crate::files::{next_line, next_number, refuse};
use crate::{Event, LineRefused, RefusedAs};
use rsp_nquads::{LineFault, statement_among};
use rsp_terms::{Listed, Quad, Term, Text, Texts, Triple};
use rsp_text::instant;
use std::alloc::{AllocError, Global};
use std::mem;

const GENERATED_AT_TIME: &str = "http://www.w3.org/ns/prov#generatedAtTime";

const XSD_DATE_TIME: &str = "http://www.w3.org/2001/XMLSchema#dateTime";

const XSD_INTEGER: &str = "http://www.w3.org/2001/XMLSchema#integer";

/// The items of a stream's file in the order of their time lines, and its refused lines in the order of the file.
#[derive(Drop)]
pub struct RecordedItems {
    pub items: Listed<Event>,
    pub refused: Listed<LineRefused>,
}

// A file whose lines are read one by one: the items that are closed, the one that was opened last, and the refused lines.
#[derive(Drop)]
struct Recording {
    items: Listed<Event>,
    opened: Option<OpenItem>,
    refused: Listed<LineRefused>,
}

// An item that a quad may still join.
#[derive(Drop)]
struct OpenItem {
    name: Term,
    time: u64,
    graph: Listed<Triple>,
}

/// Reads the file of a recorded stream (RDF 1.1 N-Quads, section 4); blank nodes belong to the document.
///
/// A statement without graph whose predicate is `prov:generatedAtTime` and whose object is a time opens an item of this
/// time, whose name is the subject. A quad of the graph of the item that was opened last adds its triple to it. Each other
/// statement is refused, as is a line that is no statement; it changes nothing else. Fails only where memory is refused, or
/// the 64-bit number of a line would pass its last value.
pub fn recorded(
    alloc: Global,
    stream: &Text,
    document: u32,
    bytes: &[u8],
) -> Result<RecordedItems, AllocError>
    ensures value { IfOk result (λ read. read ≡ stream_file.recorded stream.now document bytes.now) }
    ensures timed { IfOk result (λ read. AllByRecursion IsInstant read.items) }
{
    lines_recorded(alloc, stream, document, bytes)
}

fn lines_recorded(
    alloc: Global,
    stream: &Text,
    document: u32,
    bytes: &[u8],
) -> Result<RecordedItems, AllocError>
    ensures { IfOk result (λ read. read ≡ recorded_by stream.now document bytes.now) }
{
    let mut reading = Recording {
        items: Listed::new(alloc),
        opened: None,
        refused: Listed::new(alloc),
    };
    let mut texts = Texts::new(alloc);
    let mut rest = bytes;
    let mut number = 1;
    'lines: loop {
        let Some((text, behind)) = next_line(rest) else {
            return finished(stream, reading);
        };
        take_line(&mut texts, stream, document, &mut reading, number, text)?;
        number = next_number(number)?;
        rest = behind;
    }
}

fn finished(stream: &Text, reading: Recording) -> Result<RecordedItems, AllocError>
    ensures { IfOk result (λ read. read ≡ record {
      items = reading.items ++ way.closed stream.now reading.opened;
      refused = reading.refused;
    }) }
{
    let Recording {
        items,
        opened,
        refused,
    } = reading;
    let mut items = items;
    push_closed(stream, &mut items, opened)?;
    Ok(RecordedItems { items, refused })
}

fn take_line(
    texts: &mut Texts,
    stream: &Text,
    document: u32,
    reading: &mut Recording,
    number: u64,
    text: &[u8],
) -> Result<(), AllocError>
    ensures { OnOk result (reading.new ≡ way.behind_line stream.now number (statement_of document text.now) reading.old) }
{
    match statement_among(texts, document, text) {
        Ok(None) => Ok(()),
        Ok(Some(quad)) => take_statement(texts.alloc(), stream, reading, number, quad),
        Err(LineFault::BadStatement { column }) => {
            refuse(
                &mut reading.refused,
                number,
                RefusedAs::BadStatement { column },
            )
        }
        Err(LineFault::RelativeIri { column }) => {
            refuse(
                &mut reading.refused,
                number,
                RefusedAs::RelativeIri { column },
            )
        }
        Err(LineFault::OutOfMemory) => Err(AllocError),
    }
}

fn take_statement(
    alloc: Global,
    stream: &Text,
    reading: &mut Recording,
    number: u64,
    quad: Quad,
) -> Result<(), AllocError>
    ensures { OnOk result (reading.new
        ≡ way.behind_statement stream.now number quad (stream_file.time_stated quad) reading.old) }
{
    match time_stated(&quad) {
        Some(time) => {
            let Quad { triple, graph: _ } = quad;
            let Triple {
                subject,
                predicate: _,
                object: _,
            } = triple;
            open_item(alloc, stream, reading, subject, time)
        }
        None => take_quad(reading, number, quad),
    }
}

fn open_item(
    alloc: Global,
    stream: &Text,
    reading: &mut Recording,
    name: Term,
    time: u64,
) -> Result<(), AllocError>
    ensures { OnOk result (reading.new ≡ way.behind_time_line stream.now name time reading.old) }
{
    let item = OpenItem {
        name,
        time,
        graph: Listed::new(alloc),
    };
    let before = mem::replace(&mut reading.opened, Some(item));
    push_closed(stream, &mut reading.items, before)
}

// puts the open item behind the items
fn push_closed(
    stream: &Text,
    items: &mut Listed<Event>,
    item: Option<OpenItem>,
) -> Result<(), AllocError>
    ensures { OnOk result (items.new ≡ items.old ++ way.closed stream.now item) }
{
    let Some(item) = item else {
        return Ok(());
    };
    let OpenItem {
        name: _,
        time,
        graph,
    } = item;
    let stream = stream.share()?;
    Ok(items.push(Event::Item {
        stream,
        time,
        graph,
    })?)
}

// a statement that is no time line
fn take_quad(reading: &mut Recording, number: u64, quad: Quad) -> Result<(), AllocError>
    ensures { OnOk result (reading.new ≡ way.behind_quad number quad reading.old) }
{
    match &mut reading.opened {
        Some(item) if is_of(&item.name, &quad) => Ok(item.graph.push(triple_of(quad))?),
        _ => refuse(&mut reading.refused, number, RefusedAs::NoTimeLine),
    }
}

fn triple_of(quad: Quad) -> Triple
    ensures { result ≡ quad.triple }
{
    quad.triple
}

// whether a quad is of the graph of this name
fn is_of(name: &Term, quad: &Quad) -> bool
    ensures { result ≡ stream_file.is_of (Some name.now) quad.now }
{
    match &quad.graph {
        Some(graph) => *graph == *name,
        None => false,
    }
}

// ---- time lines

fn time_stated(quad: &Quad) -> Option<u64>
    ensures { result ≡ stream_file.time_stated quad.now }
{
    if quad.graph.is_none() && is_generated_at_time(&quad.triple.predicate) {
        time_in(&quad.triple.object)
    } else {
        None
    }
}

fn is_generated_at_time(predicate: &Term) -> bool
    ensures { result ≡ term_eq predicate.now stream_file.generated_at_time }
{
    match predicate {
        Term::Iri(text) => text.as_str() == GENERATED_AT_TIME,
        _ => false,
    }
}

fn time_in(term: &Term) -> Option<u64>
    ensures { result ≡ stream_file.time_in term.now }
{
    let Term::Literal { lexical, datatype } = term else {
        return None;
    };
    if datatype.as_str() == XSD_DATE_TIME {
        return instant(lexical.as_str().as_bytes());
    }
    if datatype.as_str() == XSD_INTEGER {
        return number_of(lexical.as_str().as_bytes());
    }
    None
}
