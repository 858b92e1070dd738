// The folds of all aggregates.
use crate::counting::Counting;
use crate::distinct::DistinctFold;
use crate::plain::PlainFold;
use rsp_expr::Kind;
use rsp_folds::Fold;
use rsp_terms::Term;
use std::alloc::{AllocError, Global};

/// The fold of an aggregate of any kind (SPARQL 1.1 Query, section 18.5.1): of all values, or of each once.
#[derive(Drop)]
pub enum Folding {
    Plain(PlainFold),
    Distinct(DistinctFold),
}

impl Folding {
    ghost use Rattle.std.specs.Prelude.{◌≡◌, List, [], Option};
    ghost use Rattle.rsp_terms.specs.declared.term.Term.{Term};
    ghost use Rattle.rsp_aggregates.specs.Folds.{asked_aggregate, folding_aggregate, FoldingStands};

    /// The fold of an aggregate of this kind, of each value once where `distinct`, with nothing in it; where `star`, of
    /// COUNT(*), whatever the kind. Takes no memory.
    pub fn new(alloc: Global, kind: Kind, distinct: bool, star: bool) -> Folding
        ensures aggregate { (values : List (Option Term)) → folding_aggregate result values
            ≡ asked_aggregate kind distinct star values }
        ensures nothing { FoldingStands result [] }
    {
        if star {
            return Folding::Plain(PlainFold::Counting(Counting::new(true)));
        }
        let fold = PlainFold::new(alloc, kind);
        if distinct {
            Folding::Distinct(DistinctFold::new(alloc, fold))
        } else {
            Folding::Plain(fold)
        }
    }
}

impl Fold for Folding {
    ghost use Rattle.rsp_aggregates.specs.Folds.{folding_aggregate, FoldingStands, folding_alike, folding_aggregates_alike};

    ghost aggregate = { folding_aggregate };

    ghost stands = { FoldingStands };

    ghost stands_alike = { folding_alike };

    ghost aggregates_alike = { folding_aggregates_alike };

    fn fresh(&self, alloc: Global) -> Result<Folding, AllocError> {
        match self {
            Folding::Plain(fold) => Ok(Folding::Plain(fold.fresh(alloc)?)),
            Folding::Distinct(fold) => Ok(Folding::Distinct(fold.fresh(alloc)?)),
        }
    }

    fn take(&mut self, alloc: Global, value: &Option<Term>, times: u64) -> Result<(), AllocError> {
        match self {
            Folding::Plain(fold) => fold.take(alloc, value, times),
            Folding::Distinct(fold) => fold.take(alloc, value, times),
        }
    }

    fn give(&mut self, alloc: Global, value: &Option<Term>, times: u64) -> Result<(), AllocError> {
        match self {
            Folding::Plain(fold) => fold.give(alloc, value, times),
            Folding::Distinct(fold) => fold.give(alloc, value, times),
        }
    }

    fn result(&self, alloc: Global) -> Result<Option<Term>, AllocError> {
        match self {
            Folding::Plain(fold) => fold.result(alloc),
            Folding::Distinct(fold) => fold.result(alloc),
        }
    }
}
