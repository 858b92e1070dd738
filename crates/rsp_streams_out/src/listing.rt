// The rows of a bag as a list.
ghost use Rattle.std.specs.Prelude.{◌≡◌, ◌+ℤ◌, pos, List, Option, IfOk, OnOk};
ghost use Rattle.rsp_multiset.specs.Rows.{row_eq};
ghost use Rattle.rsp_multiset.specs.Weights.{only, times, weight};
ghost use Rattle.rsp_terms.specs.declared.term.Term.{Term};
ghost use Rattle.rsp_terms.specs.Same.{term_eq};

use rsp_multiset::{Bag, Cell, Row};
use rsp_terms::{Listed, Term};
use std::alloc::{AllocError, Global};

/// The rows of the bag, each as often as it is there. Fails only where memory is refused.
pub(crate) fn rows_of(alloc: Global, bag: &Bag<Term>) -> Result<Listed<Row<Term>>, AllocError>
    ensures { IfOk result (λ rows. (q : List (Option Term)) → times (row_eq term_eq) rows q ≡ weight (row_eq term_eq) bag.now q) }
{
    let mut rows = Vec::new(alloc);
    for index in 0..bag.distinct() {
        let (row, count) = bag.entry_at(index);
        push_copies(row, count, &mut rows)?;
    }
    Ok(Listed::from_vec(rows))
}

fn push_copies(row: &Row<Term>, count: u64, rows: &mut Vec<Row<Term>>) -> Result<(), AllocError>
    ensures { OnOk result ((q : List (Option Term)) → times (row_eq term_eq) rows.new.items q
        ≡ times (row_eq term_eq) rows.old.items q +ℤ only (row_eq term_eq q row.now) (pos count)) }
{
    for _ in 0..count {
        rows.push(row.share()?)?;
    }
    Ok(())
}
