// Why a query has no translation.
ghost use Rattle.std.specs.Prelude.{◌≡◌};
ghost use Rattle.rsp_translation.specs.declared.shape.Shape.TheVariants.{OutOfMemory};

use rsp_terms::Text;
use std::alloc::{AllocError, AllocFailed};
use thiserror::Error;

/// Why a query has no translation. A place `at` is a byte of the query's text, from 0.
#[derive(Debug, Drop, Error)]
pub enum Shape {
    /// The word WINDOW before a name that no window has; the word FROM of a window whose name is declared again; or the word
    /// GRAPH before a variable and a group that isn't one of triples alone.
    #[error("no window or graph of this shape: byte {at}")]
    GraphShape { at: usize },
    /// The word EXISTS before a group that can't be tested so, or at the top of an OPTIONAL's group.
    #[error("no EXISTS of this shape: byte {at}")]
    ExistsShape { at: usize },
    /// A variable by its name, or `*`, that stands where its scope doesn't allow it.
    #[error("out of scope: {variable}")]
    Scope { variable: Text },
    /// Memory was refused.
    #[error("out of memory")]
    OutOfMemory,
}

impl From<AllocError> for Shape {
    ghost from_gives = { λ _ fault. fault ≡ OutOfMemory };

    fn from(_error: AllocError) -> Shape {
        Shape::OutOfMemory
    }
}

impl<T: Drop> From<AllocFailed<T>> for Shape {
    ghost from_gives = { λ _ fault. fault ≡ OutOfMemory };

    fn from(_failed: AllocFailed<T>) -> Shape {
        Shape::OutOfMemory
    }
}
