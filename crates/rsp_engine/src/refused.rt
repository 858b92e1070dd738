// Why an event is refused, and why no report can be given.
use rsp_report::PolicyMix;
use rsp_syntax::SyntaxFault;
use rsp_translation::Shape;
use thiserror::Error;

/// The first fault of a query's text: of the grammar or its limits, else of the query's shape, else of its policy.
#[derive(Debug, Drop, Error)]
pub enum TextFault {
    /// The text is no query.
    #[error("{0}")]
    Syntax(SyntaxFault),
    /// The query has no translation.
    #[error("{0}")]
    Shape(Shape),
    /// The strategies of the query's policy don't go together: one is named twice, or the tick is TUPLE beside CLOSE or EVERY.
    #[error("strategies that don't go together")]
    Policy(PolicyMix),
}

/// Why an event was refused. A refused event changes nothing, but for want of memory, which breaks the engine.
#[derive(Debug, Drop, Error)]
pub enum Refused {
    /// Memory was refused to the engine before.
    #[error("broken")]
    Broken,
    /// Memory is refused to the engine in this call.
    #[error("out of memory")]
    OutOfMemory,
    /// The query's text has a fault.
    #[error("{0}")]
    Text(TextFault),
    /// The event's time lies in what is complete: an item's time is less than `next`, or a tick's time + 1 is.
    /// Both in ms since 1970.
    #[error("late: time {time}, next {next}")]
    Late { time: u64, next: u64 },
    /// A live query has the name.
    #[error("the name is taken")]
    NameTaken,
    /// No live query has the name.
    #[error("no query has the name")]
    NoQuery,
    /// The query looks at items, and under a slack these come in no order.
    #[error("a slack, and a query that looks at items")]
    SlackTuple,
    /// 256 queries are live.
    #[error("as many queries are live as can be")]
    QueriesFull,
    /// So many triples of items would be kept, as listed, more than 1,000,000.
    #[error("too much would be kept: {held} triples")]
    HeldFull { held: u64 },
    /// So many quads would be stored, more than 1,000,000.
    #[error("the store is full: {quads} quads")]
    StoreFull { quads: u64 },
    /// The item has so many triples, as listed, more than 100,000.
    #[error("the item is too large: {triples} triples")]
    ItemTooLarge { triples: u64 },
    /// Some subtree of the query has more than 1,000,000 solutions over no facts at all.
    #[error("too many rows at the start")]
    StartOverfull,
}

/// Why no report was given.
#[derive(Clone, Copy, PartialEq, Eq, Debug, Error)]
pub enum EngineFault {
    /// Memory is refused to the engine in this call.
    #[error("out of memory")]
    OutOfMemory,
    /// Memory was refused to the engine before.
    #[error("broken")]
    Broken,
}
