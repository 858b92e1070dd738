// How lists of rows differ, and bags of them.
ghost use Rattle.std.specs.Prelude.{◌≡◌, ◌+ℤ◌, IfOk, OnOk};
ghost use Rattle.rsp_multiset.specs.Rows.{Cells};
ghost use Rattle.rsp_multiset.specs.Weights.{weight, times, IsChanged};
ghost use Rattle.rsp_terms.specs.declared.term.Term.{Term};
ghost use Rattle.rsp_algebra.specs.Solutions.{same_row};

use rsp_multiset::{Bag, Cell, Changes, Row};
use rsp_terms::Term;
use std::alloc::{AllocError, Global};

fn add_rows(net: &mut Changes<Row<Term>>, rows: &[Row<Term>]) -> Result<(), AllocError>
    ensures { OnOk result ((q : Cells Term) → weight same_row net.new q
        ≡ weight same_row net.old q +ℤ times same_row rows.now q) }
{
    for row in rows {
        net.alter(row.share()?, 1)?;
    }
    Ok(())
}

fn take_rows(net: &mut Changes<Row<Term>>, rows: Vec<Row<Term>>) -> Result<(), AllocError>
    ensures { OnOk result ((q : Cells Term) → weight same_row net.new q +ℤ times same_row rows.items q
        ≡ weight same_row net.old q) }
{
    for row in rows {
        net.alter(row, -1)?;
    }
    Ok(())
}

/// The rows after less those before.
pub(crate) fn difference(
    alloc: Global,
    after: &[Row<Term>],
    before: Vec<Row<Term>>,
) -> Result<Changes<Row<Term>>, AllocError>
    ensures { IfOk result (λ net. IsChanged same_row before.items net after.now) }
{
    let mut net = Changes::new(alloc);
    add_rows(&mut net, after)?;
    take_rows(&mut net, before)?;
    Ok(net)
}

/// The bag of the rows.
pub(crate) fn bag_of(alloc: Global, rows: &[Row<Term>]) -> Result<Bag<Term>, AllocError>
    ensures { IfOk result (λ bag. (q : Cells Term) → weight same_row bag q ≡ times same_row rows.now q) }
{
    let mut bag = Bag::new(alloc);
    for row in rows {
        bag.add(row.share()?, 1)?;
    }
    Ok(bag)
}
