// One input: the rows that it holds, and what a change of them must be.
ghost use Rattle.std.specs.Prelude.{◌≡◌, ◌+ℤ◌, ◌≤ℤ◌, pos, true, is_some, OnOk};
ghost use Rattle.rsp_multiset.specs.Rows.{row_eq};
ghost use Rattle.rsp_multiset.specs.Variables.{cell as cell_of};
ghost use Rattle.rsp_multiset.specs.Weights.{weight};
ghost use Rattle.rsp_operators.specs.Laws.{Fits};
ghost use Rattle.rsp_terms.specs.Same.{term_eq};

use crate::Refused;
use rsp_multiset::{Bag, Changes, Count, Row, apply};
use rsp_terms::Term;
use std::alloc::{AllocError, Global};

/// One input: the rows that it holds now, all of one width, which bind the key.
#[derive(Drop)]
pub struct Side {
    pub(crate) width: usize,
    pub(crate) key: Vec<usize>,
    pub(crate) rows: Bag<Term>,
}

impl Side {
    ghost use Rattle.std.specs.Prelude.{◌≡◌, [], OnOk};
    ghost use Rattle.rsp_multiset.specs.Rows.{row_eq};
    ghost use Rattle.rsp_multiset.specs.Weights.{AreCounts};
    ghost use Rattle.rsp_terms.specs.Same.{term_eq};
    ghost use Rattle.rsp_trials.specs.Held.{IsGiven, IsSum};

    pub(crate) fn new(alloc: Global, width: usize, key: Vec<usize>) -> Side
        ensures width { result.width ≡ width }
        ensures key { result.key ≡ key }
        ensures rows { result.rows ≡ [] }
    {
        Side {
            width,
            key,
            rows: Bag::new(alloc),
        }
    }

    // looks whether the change may come
    pub(crate) fn check(&self, change: &Changes<Row<Term>>) -> Result<(), Refused>
        ensures { OnOk result (IsGiven self.now.width self.now.key.items self.now.rows change.now) }
    {
        for index in 0..change.distinct() {
            let (row, _) = change.counted_at(index);
            check_row(&self.rows, self.width, &self.key, row, change.count(row))?;
        }
        Ok(())
    }

    // takes the change to the rows
    pub(crate) fn take(&mut self, change: &Changes<Row<Term>>) -> Result<(), AllocError>
        requires { IsGiven self.old.width self.old.key.items self.old.rows change.now }
        ensures width { self.new.width ≡ self.old.width }
        ensures key { self.new.key ≡ self.old.key }
        ensures before { AreCounts (row_eq term_eq) self.old.rows }
        ensures after { AreCounts (row_eq term_eq) self.new.rows }
        ensures rows { OnOk result (IsSum self.old.rows change.now self.new.rows) }
    {
        let _before = self.rows.distinct();
        let taken = apply(&mut self.rows, change);
        let _after = self.rows.distinct();
        taken
    }
}

fn check_row(
    rows: &Bag<Term>,
    width: usize,
    key: &[usize],
    row: &Row<Term>,
    by: Count,
) -> Result<(), Refused>
    ensures fits { OnOk result (Fits width key.now row.now) }
    ensures enough { OnOk result (pos 0 ≤ℤ (weight (row_eq term_eq) rows.now row.now +ℤ by)) }
{
    if !fits(row, width, key) {
        return Err(Refused::Misfit);
    }
    if !is_enough(rows.count(row), by) {
        return Err(Refused::Missing);
    }
    Ok(())
}

fn is_enough(held: u64, by: Count) -> bool
    ensures { result ≡ true → pos 0 ≤ℤ (pos held +ℤ by) }
{
    !by.is_negative() || by.size() <= held
}

fn is_bound(cells: &[Option<Term>], variable: usize) -> bool
    ensures { result ≡ is_some (cell_of cells.now variable) }
{
    match cells.get(variable) {
        Some(Some(_)) => true,
        _ => false,
    }
}

// whether the row has the width and binds the variables
fn fits(row: &Row<Term>, width: usize, key: &[usize]) -> bool
    ensures { result ≡ true → Fits width key.now row.now }
{
    if row.cells().len() != width {
        return false;
    }
    for variable in key {
        if !is_bound(row.cells(), *variable) {
            return false;
        }
    }
    true
}
