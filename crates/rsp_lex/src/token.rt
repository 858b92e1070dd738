// Tokens, and the fault of a text that has none at a place.
use thiserror::Error;

/// What a token is. Where two kinds match equally long at a place, the token is of the one that stands first here.
#[derive(Clone, Copy, Debug, PartialEq, Eq)]
pub enum TokenKind {
    /// An IRI in brackets.
    Iri,
    /// A prefixed name.
    Prefixed,
    /// The label of a blank node, with its `_:`.
    Label,
    /// A variable, with its `?` or `$`.
    Variable,
    /// A span of time.
    Span,
    /// A letter, then letters, digits and `_`.
    Word,
    /// A language tag, with its `@`.
    Tag,
    Double,
    Decimal,
    Integer,
    /// A string between quotes, short or long.
    String,
    Symbol,
}

/// A token: its kind, the place of its first byte in the text, and that behind its last.
#[derive(Clone, Copy, Debug, PartialEq, Eq)]
pub struct Token {
    pub kind: TokenKind,
    pub start: usize,
    pub end: usize,
}

/// Why a text has no tokens.
#[derive(Debug, Drop, Error)]
pub enum LexFault {
    /// The first byte, behind white space and comments, at which no token begins.
    #[error("no token: byte {at}")]
    BadToken { at: usize },
    /// Memory was refused.
    #[error("out of memory")]
    OutOfMemory,
}
