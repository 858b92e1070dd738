// Lines of a file of statements that are refused.
use thiserror::Error;

/// Why a line of a file isn't taken. Columns count bytes from 1.
#[derive(Clone, Copy, PartialEq, Eq, Debug, Error)]
pub enum RefusedAs {
    /// The line is no statement: the first byte, behind blanks, at which no wanted part stands; at the line's end one past
    /// its length (RDF 1.1 N-Quads, section 4).
    #[error("no statement: column {column}")]
    BadStatement { column: u64 },
    /// The first byte of the first part that holds an IRI that isn't absolute, in what is a statement by its grammar.
    #[error("relative IRI: column {column}")]
    RelativeIri { column: u64 },
    /// In a recorded stream, a statement that is neither a time line nor a quad of the item that was opened last.
    #[error("neither a time line nor a quad of the open item")]
    NoTimeLine,
}

/// A line that isn't taken, by its number in the file, from 1; blank lines and comments count.
#[derive(Clone, Copy, PartialEq, Eq, Debug)]
pub struct LineRefused {
    pub line: u64,
    pub fault: RefusedAs,
}
