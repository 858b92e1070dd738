// Files of stored quads.
ghost use Rattle.std.specs.Prelude.{◌≡◌, ◌++◌, IfOk, OnOk};
ghost use Rattle.rsp_nquads.specs.Statements.{statement_of};
ghost use Rattle.rsp_events.specs.Files.{loaded};
ghost use Rattle.rsp_events.specs.FileLines.{loaded_by, quads_in, no_statement, refused_line};

use crate::files::{next_line, next_number, refuse};
use crate::{LineRefused, RefusedAs};
use rsp_nquads::{LineFault, statement_among};
use rsp_terms::{Listed, Quad, Texts};
use std::alloc::{AllocError, Global};

/// The quads of a file, and its lines that are no statement, both in the file's order.
#[derive(Drop)]
pub struct LoadedQuads {
    pub quads: Listed<Quad>,
    pub refused: Listed<LineRefused>,
}

/// Reads a file of statements (RDF 1.1 N-Quads, section 4), with or without graph; blank nodes belong to the document. A
/// line that is refused changes nothing else. Fails only where memory is refused, or the 64-bit number of a line would pass
/// its last value.
pub fn loaded(alloc: Global, document: u32, bytes: &[u8]) -> Result<LoadedQuads, AllocError>
    ensures value { IfOk result (λ read. read ≡ loaded document bytes.now) }
{
    lines_loaded(alloc, document, bytes)
}

fn lines_loaded(alloc: Global, document: u32, bytes: &[u8]) -> Result<LoadedQuads, AllocError>
    ensures { IfOk result (λ read. read ≡ loaded_by document bytes.now) }
{
    let mut read = LoadedQuads {
        quads: Listed::new(alloc),
        refused: Listed::new(alloc),
    };
    let mut texts = Texts::new(alloc);
    let mut rest = bytes;
    let mut number = 1;
    'lines: loop {
        let Some((text, behind)) = next_line(rest) else {
            return Ok(read);
        };
        take_line(&mut texts, document, &mut read, number, text)?;
        number = next_number(number)?;
        rest = behind;
    }
}

fn take_line(
    texts: &mut Texts,
    document: u32,
    read: &mut LoadedQuads,
    number: u64,
    text: &[u8],
) -> Result<(), AllocError>
    ensures quads { OnOk result (read.new.quads ≡ read.old.quads ++ quads_in (statement_of document text.now)) }
    ensures refused { OnOk result (read.new.refused ≡ read.old.refused
        ++ refused_line (record { number = number; text = text.now }) (no_statement (statement_of document text.now))) }
{
    match statement_among(texts, document, text) {
        Ok(None) => Ok(()),
        Ok(Some(quad)) => Ok(read.quads.push(quad)?),
        Err(LineFault::BadStatement { column }) => {
            refuse(
                &mut read.refused,
                number,
                RefusedAs::BadStatement { column },
            )
        }
        Err(LineFault::RelativeIri { column }) => {
            refuse(&mut read.refused, number, RefusedAs::RelativeIri { column })
        }
        Err(LineFault::OutOfMemory) => Err(AllocError),
    }
}
