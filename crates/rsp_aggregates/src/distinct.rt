// DISTINCT.
use crate::copies::Copies;
use crate::plain::PlainFold;
use rsp_folds::Fold;
use rsp_terms::Term;
use std::alloc::{AllocError, Global};

/// How often each value is in, and a fold of each once: it moves only as a value's first copy comes or its last goes. All
/// errors are one value.
#[derive(Drop)]
pub struct DistinctFold {
    copies: Copies,
    fold: PlainFold,
}

impl DistinctFold {
    ghost use Rattle.std.specs.Prelude.{◌≡◌, []};
    ghost use Rattle.rsp_aggregates.specs.Folds.{OnceStands, PlainStands};

    /// The fold, of each value once, into which nothing is taken. Takes no memory.
    pub fn new(alloc: Global, fold: PlainFold) -> DistinctFold
        requires { PlainStands fold [] }
        ensures fold { result.fold ≡ fold }
        ensures nothing { OnceStands result.copies.errors result.copies.terms result.fold [] }
    {
        DistinctFold {
            copies: Copies::new(alloc),
            fold,
        }
    }
}

impl Fold for DistinctFold {
    ghost use Rattle.rsp_aggregates.specs.Folds.{plain_aggregate, once, OnceStands, once_alike, once_aggregates_alike};

    ghost aggregate = { λ distinct values. plain_aggregate distinct.fold (once values) };

    ghost stands = { λ distinct values. OnceStands distinct.copies.errors distinct.copies.terms distinct.fold values };

    ghost stands_alike = { λ distinct values others same stands.
        once_alike distinct.copies.errors distinct.copies.terms distinct.fold values others same stands };

    ghost aggregates_alike = { λ distinct values others same. once_aggregates_alike distinct.fold values others same };

    fn fresh(&self, alloc: Global) -> Result<DistinctFold, AllocError> {
        let fold = self.fold.fresh(alloc)?;
        Ok(DistinctFold::new(alloc, fold))
    }

    fn take(&mut self, alloc: Global, value: &Option<Term>, times: u64) -> Result<(), AllocError> {
        if self.copies.take(value, times)? {
            self.fold.take(alloc, value, 1)?;
        }
        Ok(())
    }

    fn give(&mut self, alloc: Global, value: &Option<Term>, times: u64) -> Result<(), AllocError> {
        if self.copies.give(value, times)? {
            self.fold.give(alloc, value, 1)?;
        }
        Ok(())
    }

    fn result(&self, alloc: Global) -> Result<Option<Term>, AllocError> {
        self.fold.result(alloc)
    }
}
