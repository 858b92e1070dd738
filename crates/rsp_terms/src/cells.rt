// Terms and facts as values of multisets.
use crate::{Fact, Term};
use rsp_multiset::Cell;
use std::alloc::AllocError;

impl Cell for Term {
    ghost use Rattle.rsp_terms.specs.Same.{term_same};

    ghost identical = { term_same };

    fn share(&self) -> Result<Term, AllocError> {
        self.share()
    }
}

impl Cell for Fact {
    ghost use Rattle.rsp_terms.specs.Same.{fact_same};

    ghost identical = { fact_same };

    fn share(&self) -> Result<Fact, AllocError> {
        self.share()
    }
}
