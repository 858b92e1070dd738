// Why a text is no query.
ghost use Rattle.std.specs.Prelude.{◌≡◌};
ghost use Rattle.rsp_syntax.specs.declared.fault.SyntaxFault.TheVariants.{OutOfMemory};

use rsp_numbering::LimitName;
use rsp_terms::Text;
use std::alloc::{AllocError, AllocFailed};
use thiserror::Error;

/// Why a text is no query. A place `at` is a byte of the text, from 0.
#[derive(Debug, Drop, Error)]
pub enum SyntaxFault {
    /// The first place at which no token begins.
    #[error("no token: byte {at}")]
    BadToken { at: usize },
    /// The first token that can't stand; the text's length where the text is unfinished.
    #[error("no query: byte {at}")]
    Syntax { at: usize },
    /// The first token that can't stand is a word or a sign of SPARQL that is left out here.
    #[error("left out: byte {at}, {what}")]
    LeftOut { at: usize, what: Text },
    /// The text has too much of something.
    #[error("past a limit: {what:?}")]
    Limit { what: LimitName },
    /// Memory was refused.
    #[error("out of memory")]
    OutOfMemory,
}

impl From<AllocError> for SyntaxFault {
    ghost from_gives = { λ _ fault. fault ≡ OutOfMemory };

    fn from(_error: AllocError) -> SyntaxFault {
        SyntaxFault::OutOfMemory
    }
}

impl<T: Drop> From<AllocFailed<T>> for SyntaxFault {
    ghost from_gives = { λ _ fault. fault ≡ OutOfMemory };

    fn from(_failed: AllocFailed<T>) -> SyntaxFault {
        SyntaxFault::OutOfMemory
    }
}
