// Why a line is refused.
use thiserror::Error;

/// Why a line isn't taken. Columns count bytes from 1.
#[derive(Debug, Drop, Error)]
pub enum LineFault {
    /// The first byte, behind blanks, at which no wanted part stands; at the line's end one past its length.
    #[error("no statement: column {column}")]
    BadStatement { column: u64 },
    /// The first byte of the first part that holds an IRI that isn't absolute, in what is a statement by its grammar.
    #[error("relative IRI: column {column}")]
    RelativeIri { column: u64 },
    /// Memory was refused.
    #[error("out of memory")]
    OutOfMemory,
}
