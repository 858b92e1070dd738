// COUNT and COUNT(*).
ghost use Rattle.std.specs.Prelude.{◌≡◌, ◌≤◌, ◌^◌, ◌+◌, true, cond, is_some, IfOk, OnOk};
ghost use Rattle.rsp_aggregates.specs.Counts.{counted};

use rsp_folds::Fold;
use rsp_literals::{integer_of, literal_of};
use rsp_terms::Term;
use std::alloc::{AllocError, Global};

/// How many values are in and no errors, or, of rows, how many there are.
#[derive(Drop)]
pub struct Counting {
    rows: bool,
    count: u64,
}

impl Counting {
    ghost use Rattle.std.specs.Prelude.{◌≡◌};

    /// COUNT of an argument, or else COUNT(*), with nothing in it. Takes no memory.
    pub fn new(rows: bool) -> Counting
        ensures rows { result.rows ≡ rows }
        ensures nothing { result.count ≡ 0 }
    {
        Counting { rows, count: 0 }
    }
}

// whether the value is counted
fn is_counted(rows: bool, value: &Option<Term>) -> bool
    ensures { result ≡ cond rows true (is_some value.now) }
{
    if rows { true } else { value.is_some() }
}

impl Fold for Counting {
    ghost use Rattle.rsp_aggregates.specs.Counts.{counted_aggregate, Stands, stands_alike, aggregates_alike};

    ghost aggregate = { λ fold values. counted_aggregate fold.rows values };

    ghost stands = { λ fold values. Stands fold.rows fold.count values };

    ghost stands_alike = { λ fold values others same stands. stands_alike fold.rows fold.count values others same stands };

    ghost aggregates_alike = { λ fold values others same. aggregates_alike fold.rows values others same };

    fn fresh(&self, _alloc: Global) -> Result<Counting, AllocError> {
        Ok(Counting::new(self.rows))
    }

    fn take(&mut self, _alloc: Global, value: &Option<Term>, times: u64) -> Result<(), AllocError> {
        if is_counted(self.rows, value) {
            self.count += times;
        }
        Ok(())
    }

    fn give(&mut self, _alloc: Global, value: &Option<Term>, times: u64) -> Result<(), AllocError> {
        if is_counted(self.rows, value) {
            self.count -= times;
        }
        Ok(())
    }

    fn result(&self, alloc: Global) -> Result<Option<Term>, AllocError> {
        literal_of(alloc, integer_of(self.count))
    }
}
