// Events and blocks.
use rsp_terms::{Listed, Quad, Text, Triple};
use thiserror::Error;

/// What the engine works off, one at a time.
#[derive(Drop)]
pub enum Event {
    /// A query becomes live under a name, by its text.
    Register {
        name: Text,
        text: Text,
    },
    /// A query is no longer live.
    Cancel {
        name: Text,
    },
    /// A graph arrives on a stream at a time, in ms since 1970.
    Item {
        stream: Text,
        time: u64,
        graph: Listed<Triple>,
    },
    /// Time passes: each instant up to this one, in ms since 1970, is complete.
    Tick {
        time: u64,
    },
    /// The quads become stored that aren't.
    Insert {
        quads: Listed<Quad>,
    },
    /// The quads are no longer stored that are.
    Delete {
        quads: Listed<Quad>,
    },
}

/// Why a block is no event. They are tested in this order.
#[derive(Clone, Copy, PartialEq, Eq, Debug, Error)]
pub enum BlockFault {
    /// The block has more than 16,777,216 bytes.
    #[error("a block of more than 16,777,216 bytes")]
    BlockTooLarge,
    /// The first line is no directive.
    #[error("no directive")]
    BadDirective,
    /// A line of the body is refused, or its `@end` is missing; `line` is the number of the first such line in the text,
    /// from 1.
    #[error("bad body: line {line}")]
    BadBody { line: u64 },
}

/// What a block holds.
#[derive(Drop)]
pub enum Content {
    Event(Event),
    Fault(BlockFault),
}

/// A block of the log, numbered from 1.
#[derive(Drop)]
pub struct Block {
    pub number: u64,
    pub content: Content,
}
