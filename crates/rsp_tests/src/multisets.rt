// Rows, bags and changes: worked cases, and small ones that the contracts alone decide.
ghost use Rattle.std.specs.Prelude.{◌≡◌, ◌∷◌, [], true, false, pos, neg_ℤ, None, Some, IfOk};

use rsp_multiset::{Bag, Cell, Changes, Count, Row, apply, negative, positive};
use std::alloc::{AllocError, Global};
use std::test::Fail;

fn row(alloc: Global, first: Option<u64>, second: Option<u64>) -> Result<Row<u64>, AllocError>
    ensures { IfOk result (λ row. row ≡ first ∷ second ∷ []) }
{
    let cells = Vec::from_array(alloc, [first, second])?;
    Ok(Row::new(cells))
}

// ---- Laws of changes

fn two_of_five(changes: &mut Changes<u64>) -> Result<i64, AllocError>
    requires changes { changes.old ≡ [] }
    ensures { IfOk result (λ count. count ≡ pos 2) }
{
    changes.alter(5, 2)?;
    Ok(changes.count(&5).value())
}

fn none_of_six(changes: &mut Changes<u64>) -> Result<i64, AllocError>
    requires changes { changes.old ≡ [] }
    ensures { IfOk result (λ count. count ≡ pos 0) }
{
    changes.alter(5, 2)?;
    Ok(changes.count(&6).value())
}

fn a_change_is_popped(changes: &mut Changes<u64>) -> bool
    requires changes { changes.old ≡ (5, pos 2) ∷ [] }
    ensures { result ≡ true }
{
    changes.pop().is_some()
}

fn signs_turned(changes: &mut Changes<u64>)
    requires changes { changes.old ≡ (5, pos 2) ∷ [] }
    ensures { changes.new ≡ (5, neg_ℤ (pos 2)) ∷ [] }
{
    changes.negate();
}

fn five_joined(changes: &mut Changes<u64>, other: Changes<u64>) -> Result<i64, AllocError>
    requires changes { changes.old ≡ (5, pos 2) ∷ [] }
    requires other { other ≡ (6, pos 4) ∷ (5, pos 3) ∷ [] }
    ensures { IfOk result (λ count. count ≡ pos 5) }
{
    changes.join_changes(other)?;
    Ok(changes.count(&5).value())
}

// ---- Laws of bags

fn three_rows(bag: &mut Bag<u64>, one: Row<u64>, other: &Row<u64>) -> Result<u64, AllocError>
    requires bag { bag.old ≡ [] }
    requires one { one ≡ Some 1 ∷ [] }
    requires other { other.now ≡ Some 1 ∷ [] }
    ensures { IfOk result (λ count. pos count ≡ pos 3) }
{
    bag.alter(one, Count::new(3)?)?;
    Ok(bag.count(other))
}

fn two_that_come(
    alloc: Global,
    changes: &Changes<Row<u64>>,
    row: &Row<u64>,
) -> Result<u64, AllocError>
    requires changes { changes.now ≡ (Some 1 ∷ [], pos 2) ∷ (Some 3 ∷ [], neg_ℤ (pos 4)) ∷ [] }
    requires row { row.now ≡ Some 1 ∷ [] }
    ensures { IfOk result (λ count. pos count ≡ pos 2) }
{
    let bag = positive(alloc, changes)?;
    Ok(bag.count(row))
}

fn four_that_go(
    alloc: Global,
    changes: &Changes<Row<u64>>,
    row: &Row<u64>,
) -> Result<u64, AllocError>
    requires changes { changes.now ≡ (Some 1 ∷ [], pos 2) ∷ (Some 3 ∷ [], neg_ℤ (pos 4)) ∷ [] }
    requires row { row.now ≡ Some 3 ∷ [] }
    ensures { IfOk result (λ count. pos count ≡ pos 4) }
{
    let bag = negative(alloc, changes)?;
    Ok(bag.count(row))
}

// ---- Laws of rows

fn apart_fit(left: &Row<u64>, right: &Row<u64>) -> (bool, bool)
    requires left { left.now ≡ Some 1 ∷ None ∷ [] }
    requires right { right.now ≡ None ∷ Some 2 ∷ [] }
    ensures { (result.0 ≡ true) × (result.1 ≡ false) }
{
    (left.compatible(right), left.shares(right))
}

fn two_values_share(left: &Row<u64>, right: &Row<u64>) -> (bool, bool)
    requires left { left.now ≡ Some 1 ∷ None ∷ [] }
    requires right { right.now ≡ Some 4 ∷ Some 2 ∷ [] }
    ensures { (result.0 ≡ false) × (result.1 ≡ true) }
{
    (left.compatible(right), left.shares(right))
}

fn zero_is_not_unbound(left: &Row<u64>, right: &Row<u64>) -> (bool, bool)
    requires left { left.now ≡ Some 0 ∷ [] }
    requires right { right.now ≡ None ∷ [] }
    ensures { (result.0 ≡ false) × (result.1 ≡ true) }
{
    (left == right, left == left)
}

// ---- Cases

// 2 of one value and, joined to them, 3 more of it and 4 of another, all taken back
fn taken_back(alloc: Global) -> Result<Changes<u64>, AllocError> {
    let mut changes = Changes::new(alloc);
    let mut other = Changes::new(alloc);
    for (value, count) in [(5, 3), (6, 4)] {
        other.alter(value, count)?;
    }
    changes.alter(5, 2)?;
    changes.join_changes(other)?;
    changes.negate();
    Ok(changes)
}

#[test]
fn changes_are_added_and_taken_back(rt: HostRuntime) -> Result<(), Fail> {
    let mut changes = taken_back(rt.alloc())?;
    for (value, count) in [(5, -5), (6, -4), (7, 0)] {
        assert_eq!(rt; changes.count(&value).value(), count);
    }
    assert_eq!(rt; changes.distinct(), 2);
    assert!(rt; changes.pop().is_some());
    Ok(())
}

#[test]
fn an_entry_of_count_0_vanishes(rt: HostRuntime) -> Result<(), Fail> {
    let mut changes = Changes::new(rt.alloc());
    for (value, count) in [(5, 2), (7, -1), (5, -2)] {
        changes.alter(value, count)?;
    }
    assert_eq!(rt; changes.distinct(), 1);
    Ok(())
}

#[test]
fn a_sum_out_of_range_changes_nothing(rt: HostRuntime) -> Result<(), Fail> {
    let mut changes = Changes::new(rt.alloc());
    changes.alter(5, i64::MAX)?;
    for count in [1, i64::MIN] {
        assert!(rt; changes.alter(5, count).is_err());
    }
    assert_eq!(rt; changes.count(&5).value(), i64::MAX);
    Ok(())
}

// -6, if 3 * i64::MAX is refused
fn product() -> Result<i64, AllocError> {
    if Count::new(3)?.checked_mul(Count::new(i64::MAX)?).is_ok() {
        return Ok(0);
    }
    Ok(Count::new(-3)?.checked_mul(Count::new(2)?)?.value())
}

#[test]
fn counts_are_multiplied(rt: HostRuntime) -> Result<(), Fail> {
    assert_eq!(rt; product()?, -6);
    Ok(())
}

// one row goes out twice, another comes in four times
fn two_changes(alloc: Global) -> Result<Changes<Row<u64>>, AllocError> {
    let mut changes = Changes::new(alloc);
    for (cell, count) in [(1, -2), (2, 4)] {
        changes.alter(row(alloc, Some(cell), None)?, count)?;
    }
    Ok(changes)
}

#[test]
fn what_comes_in_and_what_goes_out(rt: HostRuntime) -> Result<(), Fail> {
    let alloc = rt.alloc();
    let changes = two_changes(alloc)?;
    assert_eq!(rt; positive(alloc, &changes)?.rows(), 4);
    assert_eq!(rt; negative(alloc, &changes)?.rows(), 2);
    Ok(())
}

// three rows of which two are taken out
fn one_left(alloc: Global) -> Result<Bag<u64>, AllocError> {
    let mut bag = Bag::new(alloc);
    bag.add(row(alloc, Some(1), None)?, 3)?;
    let mut changes = Changes::new(alloc);
    changes.alter(row(alloc, Some(1), None)?, -2)?;
    apply(&mut bag, &changes)?;
    Ok(bag)
}

#[test]
fn a_bag_is_changed(rt: HostRuntime) -> Result<(), Fail> {
    let bag = one_left(rt.alloc())?;
    assert_eq!(rt; (bag.rows(), bag.distinct()), (1, 1));
    Ok(())
}

#[test]
fn rows_are_merged(rt: HostRuntime) -> Result<(), Fail> {
    let alloc = rt.alloc();
    let left = row(alloc, Some(1), None)?;
    let right = row(alloc, None, Some(2))?;
    assert!(rt; left.compatible(&right) && !left.shares(&right));
    let both = left.merge(&right)?.share()?;
    assert_eq!(rt; both.into_cells().as_slice(), [Some(1), Some(2)].as_slice());
    Ok(())
}
