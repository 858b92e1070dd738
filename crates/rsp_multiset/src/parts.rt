// What a change brings in, and what it takes out.
ghost use Rattle.std.specs.Prelude.{◌≡◌, ◌≤ℤ◌, ◌<ℤ◌, ◌+ℤ◌, neg_ℤ, ℤ, pos, List, Option, OnOk, IfOk};
ghost use Rattle.rsp_multiset.specs.Rows.{row_eq};
ghost use Rattle.rsp_multiset.specs.Weights.{only, weight, above, below};

use crate::{Bag, Cell, Changes, Count, Row};
use std::alloc::{AllocError, Global};

/// Makes the change: each row is then there as often as before and its count in the change together. Fails where memory
/// is refused or a number is out of range; what is then left in the bag is only to be dropped.
pub fn apply<V: Cell>(bag: &mut Bag<V>, changes: &Changes<Row<V>>) -> Result<(), AllocError>
    requires { (q : List (Option V)) → pos 0 ≤ℤ (weight (row_eq V.eq) bag.old q +ℤ weight (row_eq V.eq) changes.now q) }
    ensures { OnOk result ((q : List (Option V)) → weight (row_eq V.eq) bag.new q
        ≡ weight (row_eq V.eq) bag.old q +ℤ weight (row_eq V.eq) changes.now q) }
{
    // in this order the number of rows isn't past its type on the way
    take_rows(bag, changes);
    add_rows(bag, changes)
}

/// The rows that the change brings in, each as often. Fails as [`Bag::add`] does.
pub fn positive<V: Cell>(alloc: Global, changes: &Changes<Row<V>>) -> Result<Bag<V>, AllocError>
    ensures { IfOk result (λ bag. (q : List (Option V)) → weight (row_eq V.eq) bag q
        ≡ above (weight (row_eq V.eq) changes.now q)) }
{
    let mut bag = Bag::new(alloc);
    add_rows(&mut bag, changes)?;
    Ok(bag)
}

/// The rows that the change takes out, each as often. Fails as [`Bag::add`] does.
pub fn negative<V: Cell>(alloc: Global, changes: &Changes<Row<V>>) -> Result<Bag<V>, AllocError>
    ensures { IfOk result (λ bag. (q : List (Option V)) → weight (row_eq V.eq) bag q
        ≡ above (neg_ℤ (weight (row_eq V.eq) changes.now q))) }
{
    let mut bag = Bag::new(alloc);
    add_taken_rows(&mut bag, changes)?;
    Ok(bag)
}

// takes out what the change takes out
fn take_rows<V: Cell>(bag: &mut Bag<V>, changes: &Changes<Row<V>>)
    requires { (q : List (Option V)) → pos 0 ≤ℤ (weight (row_eq V.eq) bag.old q +ℤ weight (row_eq V.eq) changes.now q) }
    ensures { (q : List (Option V)) → weight (row_eq V.eq) bag.new q
        ≡ weight (row_eq V.eq) bag.old q +ℤ below (weight (row_eq V.eq) changes.now q) }
{
    for index in 0..changes.distinct() {
        let (row, count) = changes.counted_at(index);
        take_row(bag, row, count);
    }
}

// puts in what the change brings in
fn add_rows<V: Cell>(bag: &mut Bag<V>, changes: &Changes<Row<V>>) -> Result<(), AllocError>
    ensures { OnOk result ((q : List (Option V)) → weight (row_eq V.eq) bag.new q
        ≡ weight (row_eq V.eq) bag.old q +ℤ above (weight (row_eq V.eq) changes.now q)) }
{
    for index in 0..changes.distinct() {
        let (row, count) = changes.counted_at(index);
        add_row(bag, row, count)?;
    }
    Ok(())
}

// puts in what the change takes out
fn add_taken_rows<V: Cell>(bag: &mut Bag<V>, changes: &Changes<Row<V>>) -> Result<(), AllocError>
    ensures { OnOk result ((q : List (Option V)) → weight (row_eq V.eq) bag.new q
        ≡ weight (row_eq V.eq) bag.old q +ℤ above (neg_ℤ (weight (row_eq V.eq) changes.now q))) }
{
    for index in 0..changes.distinct() {
        let (row, count) = changes.counted_at(index);
        add_row(bag, row, count.opposite())?;
    }
    Ok(())
}

fn take_row<V: Cell>(bag: &mut Bag<V>, row: &Row<V>, count: Count)
    requires { count <ℤ pos 0 → pos 0 ≤ℤ (weight (row_eq V.eq) bag.old row.now +ℤ count) }
    ensures { (q : List (Option V)) → weight (row_eq V.eq) bag.new q
        ≡ weight (row_eq V.eq) bag.old q +ℤ only (row_eq V.eq q row.now) (below count) }
{
    if count.is_negative() {
        bag.take_out(row, count.size());
    }
}

fn add_row<V: Cell>(bag: &mut Bag<V>, row: &Row<V>, count: Count) -> Result<(), AllocError>
    ensures { OnOk result ((q : List (Option V)) → weight (row_eq V.eq) bag.new q
        ≡ weight (row_eq V.eq) bag.old q +ℤ only (row_eq V.eq q row.now) (above count)) }
{
    if count.is_negative() {
        return Ok(());
    }
    bag.alter(row.share()?, count)
}
