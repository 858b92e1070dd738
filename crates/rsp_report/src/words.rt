// The words of a policy.
ghost use Rattle.std.specs.Prelude.{◌≡◌, IfOk};

use rsp_terms::Listed;
use std::alloc::{AllocError, Global};

/// What a policy asks of some window of the query.
#[derive(Clone, Copy, PartialEq, Eq, Drop)]
pub enum Strategy {
    /// A window closes.
    Close,
    /// The content differs from that of the instant before.
    Change,
    /// The content isn't empty.
    NonEmpty,
    /// The period, in milliseconds, divides the instant.
    Every(u64),
}

/// A policy as it is written in a query.
#[derive(Drop)]
pub enum PolicyWords {
    /// Nothing is written.
    Absent,
    /// `UNDER CSPARQL`.
    Csparql,
    /// `UNDER CQELS`.
    Cqels,
    /// `REPORT` with its strategies in order; `tuple` where the tick is `TUPLE`.
    Listed {
        strategies: Listed<Strategy>,
        tuple: bool,
    },
}

impl PolicyWords {
    /// Equal words. Fails only where memory is refused.
    pub fn share(&self, alloc: Global) -> Result<PolicyWords, AllocError>
        ensures { IfOk result (λ other. other ≡ self.now) }
    {
        match self {
            PolicyWords::Absent => Ok(PolicyWords::Absent),
            PolicyWords::Csparql => Ok(PolicyWords::Csparql),
            PolicyWords::Cqels => Ok(PolicyWords::Cqels),
            PolicyWords::Listed { strategies, tuple } => {
                let others = Vec::from_slice(alloc, strategies.as_slice())?;
                Ok(PolicyWords::Listed {
                    strategies: Listed::from_vec(others),
                    tuple: *tuple,
                })
            }
        }
    }
}
