// Folds of all values, by their kinds.
use crate::counting::Counting;
use crate::extremes::Extreme;
use crate::summing::Summing;
use rsp_expr::Kind;
use rsp_folds::Fold;
use rsp_terms::Term;
use std::alloc::{AllocError, Global};

/// A fold of all values: a count, a sum or an average, the least or the greatest.
#[derive(Drop)]
pub enum PlainFold {
    Counting(Counting),
    Summing(Summing),
    Extreme(Extreme),
}

impl PlainFold {
    ghost use Rattle.std.specs.Prelude.{◌≡◌, List, [], Option};
    ghost use Rattle.rsp_expr.specs.Aggregates.{aggregate_of};
    ghost use Rattle.rsp_terms.specs.declared.term.Term.{Term};
    ghost use Rattle.rsp_aggregates.specs.Folds.{plain_aggregate, PlainStands};

    /// The fold of this kind, with nothing in it. Takes no memory.
    pub fn new(alloc: Global, kind: Kind) -> PlainFold
        ensures aggregate { (values : List (Option Term)) → plain_aggregate result values ≡ aggregate_of kind values }
        ensures nothing { PlainStands result [] }
    {
        match kind {
            Kind::Count => PlainFold::Counting(Counting::new(false)),
            Kind::Sum => PlainFold::Summing(Summing::new(false)),
            Kind::Avg => PlainFold::Summing(Summing::new(true)),
            Kind::Min => PlainFold::Extreme(Extreme::new(alloc, false)),
            Kind::Max => PlainFold::Extreme(Extreme::new(alloc, true)),
        }
    }
}

impl Fold for PlainFold {
    ghost use Rattle.rsp_aggregates.specs.Folds.{plain_aggregate, PlainStands, plain_alike, plain_aggregates_alike};

    ghost aggregate = { plain_aggregate };

    ghost stands = { PlainStands };

    ghost stands_alike = { plain_alike };

    ghost aggregates_alike = { plain_aggregates_alike };

    fn fresh(&self, alloc: Global) -> Result<PlainFold, AllocError> {
        match self {
            PlainFold::Counting(fold) => Ok(PlainFold::Counting(fold.fresh(alloc)?)),
            PlainFold::Summing(fold) => Ok(PlainFold::Summing(fold.fresh(alloc)?)),
            PlainFold::Extreme(fold) => Ok(PlainFold::Extreme(fold.fresh(alloc)?)),
        }
    }

    fn take(&mut self, alloc: Global, value: &Option<Term>, times: u64) -> Result<(), AllocError> {
        match self {
            PlainFold::Counting(fold) => fold.take(alloc, value, times),
            PlainFold::Summing(fold) => fold.take(alloc, value, times),
            PlainFold::Extreme(fold) => fold.take(alloc, value, times),
        }
    }

    fn give(&mut self, alloc: Global, value: &Option<Term>, times: u64) -> Result<(), AllocError> {
        match self {
            PlainFold::Counting(fold) => fold.give(alloc, value, times),
            PlainFold::Summing(fold) => fold.give(alloc, value, times),
            PlainFold::Extreme(fold) => fold.give(alloc, value, times),
        }
    }

    fn result(&self, alloc: Global) -> Result<Option<Term>, AllocError> {
        match self {
            PlainFold::Counting(fold) => fold.result(alloc),
            PlainFold::Summing(fold) => fold.result(alloc),
            PlainFold::Extreme(fold) => fold.result(alloc),
        }
    }
}
