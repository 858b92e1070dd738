// Lines one behind the other in one buffer, by where each ends.
ghost use Rattle.std.specs.Prelude.{◌≡◌, ◌<◌, ◌≤◌, ◌++◌, ◌∷◌, [], OnOk, MatchOption, length, slice_index_or};
ghost use Rattle.rsp_events.specs.Buffers.{IsCut, pieces, start_at};

use rsp_terms::Listed;
use std::alloc::{AllocError, Global};
use std::marker::Model;
use std::mem;

// a larger buffer is let go, so that a long line takes its room no longer than it is read
const MOST_KEPT: usize = 65536;

/// Texts of lines in one buffer, which keeps its room as it is emptied.
#[derive(Drop)]
pub(crate) struct LineBuffer {
    bytes: Vec<u8>,
    ends: Vec<usize>,
}

impl Model for LineBuffer {
    ghost use Rattle.std.specs.Prelude.{◌≡◌, ℕ, List, length};
    ghost use Rattle.rsp_events.specs.Buffers.{IsCut, last_end, pieces};

    ghost Value = { List (List ℕ) };

    ghost view = { λ b. pieces b.bytes.items 0 b.ends.items };

    ghost invariant = { λ b. IsCut 0 b.ends.items (length b.bytes.items) × (last_end 0 b.ends.items ≡ length b.bytes.items) };
}

/// Some lines of a buffer.
#[derive(Drop)]
pub(crate) struct Lines<'a> {
    bytes: &'a [u8],
    start: usize,
    ends: &'a [usize],
}

impl<'a> Model for Lines<'a> {
    ghost use Rattle.std.specs.Prelude.{ℕ, List, length};
    ghost use Rattle.rsp_events.specs.Buffers.{IsCut, pieces};

    ghost Value = { List (List ℕ) };

    ghost view = { λ l. pieces l.bytes.now l.start l.ends.now };

    ghost invariant = { λ l. IsCut l.start l.ends.now (length l.bytes.now) };
}

impl LineBuffer {
    /// A buffer without lines. Takes no memory.
    pub(crate) fn new(alloc: Global) -> LineBuffer
        ensures { result ≡ [] }
    {
        LineBuffer {
            bytes: Vec::new(alloc),
            ends: Vec::new(alloc),
        }
    }

    /// The buffer without its lines. Takes no memory.
    pub(crate) fn emptied(self) -> LineBuffer
        ensures { result ≡ [] }
    {
        let LineBuffer { bytes, ends } = self;
        let mut bytes = bytes;
        let mut ends = ends;
        bytes.clear();
        ends.clear();
        LineBuffer { bytes, ends }
    }

    /// Puts a line behind the others. Fails only where memory is refused.
    pub(crate) fn push(&mut self, line: &[u8]) -> Result<(), AllocError>
        ensures { OnOk result (self.new ≡ self.old ++ line.now ∷ []) }
    {
        let before = self.bytes.len();
        self.bytes.extend_from_slice(line)?;
        let end = self.bytes.len();
        if self.ends.push(end).is_err() {
            self.bytes.truncate(before);
            return Err(AllocError);
        }
        Ok(())
    }

    /// The lines in order.
    pub(crate) fn lines(&self) -> Lines<'_>
        ensures { result ≡ self.now }
    {
        Lines {
            bytes: self.bytes.as_slice(),
            start: 0,
            ends: self.ends.as_slice(),
        }
    }
}

impl<'a> Lines<'a> {
    /// How many there are.
    pub(crate) fn len(&self) -> usize
        ensures { result ≡ length self.now }
    {
        self.ends.len()
    }

    /// The line at this place.
    pub(crate) fn line(&self, place: usize) -> &'a [u8]
        requires { place < length self.now }
        ensures { result.now ≡ slice_index_or self.now place result.now }
    {
        piece(self.bytes, self.start, self.ends, place)
    }

    /// The first line and those behind it, where there is one.
    pub(crate) fn split_first(&self) -> Option<(&'a [u8], Lines<'a>)>
        ensures { MatchOption result (self.now ≡ []) (λ x. self.now ≡ x.0.now ∷ x.1) }
    {
        let bytes = self.bytes;
        let (end, ends) = self.ends.split_first()?;
        let line = &bytes[self.start..*end];
        let start = *end;
        Some((line, Lines { bytes, start, ends }))
    }
}

fn piece<'a>(bytes: &'a [u8], start: usize, ends: &[usize], place: usize) -> &'a [u8]
    requires place { place < length ends.now }
    requires cut { IsCut start ends.now (length bytes.now) }
    ensures { result.now ≡ slice_index_or (pieces bytes.now start ends.now) place result.now }
{
    &bytes[start_at(start, ends, place)..ends[place]]
}

fn start_at(start: usize, ends: &[usize], place: usize) -> usize
    requires { place ≤ length ends.now }
    ensures { result ≡ start_at start ends.now place }
{
    if place == 0 { start } else { ends[place - 1] }
}

/// Buffers that are not in use, with their room.
#[derive(Drop)]
pub(crate) struct Spares {
    line: Vec<u8>,
    block: LineBuffer,
    alloc: Global,
}

impl Spares {
    /// None yet. Takes no memory.
    pub(crate) fn new(alloc: Global) -> Spares {
        Spares {
            line: Vec::new(alloc),
            block: LineBuffer::new(alloc),
            alloc,
        }
    }

    /// A line without bytes. Takes no memory.
    pub(crate) fn line(&mut self) -> Listed<u8>
        ensures { result ≡ [] }
    {
        let mut line = mem::replace(&mut self.line, Vec::new(self.alloc));
        line.clear();
        Listed::from_vec(line)
    }

    /// A buffer without lines. Takes no memory.
    pub(crate) fn block(&mut self) -> LineBuffer
        ensures { result ≡ [] }
    {
        mem::replace(&mut self.block, LineBuffer::new(self.alloc)).emptied()
    }

    /// Takes a line that is no longer in use.
    pub(crate) fn keep_line(&mut self, line: Listed<u8>) {
        let line = line.into_vec();
        if line.capacity() <= MOST_KEPT {
            self.line = line;
        }
    }

    /// Takes a buffer that is no longer in use.
    pub(crate) fn keep_block(&mut self, block: LineBuffer) {
        if block.bytes.capacity() <= MOST_KEPT && block.ends.capacity() <= MOST_KEPT {
            self.block = block;
        }
    }
}
