// Conditions on merged rows.
ghost use Rattle.std.specs.Prelude.{◌≡◌};
ghost use Rattle.rsp_multiset.specs.Variables.{cell};
ghost use Rattle.rsp_operator_tests.specs.Asked.{equals};

use rsp_multiset::Row;
use rsp_operators::Condition;
use rsp_terms::{Same, Term};
use rsp_trials::term;
use rsp_values::{MergedRows, ReadRow, ShownRow};
use std::alloc::{AllocError, Global};

/// True on every row, which it tells at once: asked of a row, it gives up.
#[derive(Drop)]
pub(crate) struct Always {}

impl Condition<Same> for Always {
    ghost use Rattle.std.specs.Prelude.{true};

    ghost test = { λ condition row. true };

    fn always(&self) -> bool {
        true
    }

    fn holds(&self, _row: &Row<Term>, _domain: &Same) -> Result<bool, AllocError> {
        Err(AllocError)
    }

    fn holds_on_merge(
        &self,
        _left: &Row<Term>,
        _right: &Row<Term>,
        _domain: &Same,
    ) -> Result<bool, AllocError> {
        Err(AllocError)
    }
}

/// True where the variable's cell is this term; an error, and so not true, where it isn't bound.
#[derive(Drop)]
pub(crate) struct Equals {
    pub(crate) variable: usize,
    pub(crate) term: Term,
}

impl Condition<Same> for Equals {
    ghost use Rattle.rsp_multiset.specs.Variables.{cell};
    ghost use Rattle.rsp_operator_tests.specs.Asked.{equals};

    ghost test = { λ condition row. equals condition.term (cell row condition.variable) };

    fn always(&self) -> bool {
        false
    }

    fn holds(&self, row: &Row<Term>, domain: &Same) -> Result<bool, AllocError> {
        Ok(is_at(&ShownRow::new(row, domain), self.variable, &self.term))
    }

    fn holds_on_merge(
        &self,
        left: &Row<Term>,
        right: &Row<Term>,
        domain: &Same,
    ) -> Result<bool, AllocError> {
        let rows = MergedRows::new(left, right, domain);
        Ok(is_at(&rows, self.variable, &self.term))
    }
}

// whether the row binds the variable to the term
fn is_at<R: ReadRow>(row: &R, variable: usize, term: &Term) -> bool
    ensures { result ≡ equals term.now (cell (R.cells row.now) variable) }
{
    match row.term_at(variable) {
        Some(found) => *found == *term,
        None => false,
    }
}

/// The condition that the variable's cell is the term of this text.
pub(crate) fn equal_to(alloc: Global, variable: usize, text: &str) -> Result<Equals, AllocError> {
    let term = term(alloc, text)?;
    Ok(Equals { variable, term })
}
