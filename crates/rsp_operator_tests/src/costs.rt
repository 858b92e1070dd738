// Large inputs, and small changes of them: each of these is a matter of seconds.
use crate::bounded::GivesUp;
use crate::conditions::Always;
use crate::trials::{
    anti, bounded_join, bounded_left_join, joined, keyed_anti, keyed_semi, left_join, semi,
};
use rsp_multiset::{Changes, Row};
use rsp_operators::Binary;
use rsp_outer::{CompatibleSharing, CompatibleWhere};
use rsp_terms::{Same, Term};
use rsp_trials::{BinaryTrial, Refused, numbered};
use std::alloc::{AllocError, Global};
use std::test::Fail;

// how many rows the left has
const LEFTS: u64 = 100_000;

// how many rows the right has from the first change on, where no later one is to move the left
const RIGHTS: u64 = 50_000;

// how many calls change one row
const CALLS: u64 = 20_000;

// how many rows of each side meet without a key
const MANY: u64 = 500_000;

// how many pairs of them may come
const MOST: u64 = 1_000_000;

// where the cell stands by which the rows of a side differ; in the other place all have one
#[derive(Clone, Copy)]
enum Place {
    First,
    Second,
}

fn row(alloc: Global, place: Place, number: u64, other: u64) -> Result<Row<Term>, AllocError> {
    let own = number.wrapping_add(1);
    match place {
        Place::First => numbered(alloc, &[own, 0, other]),
        Place::Second => numbered(alloc, &[other, own, 0]),
    }
}

fn add_rows(
    alloc: Global,
    change: &mut Changes<Row<Term>>,
    place: Place,
    many: u64,
    other: u64,
) -> Result<(), AllocError> {
    for number in 0..many {
        change.alter(row(alloc, place, number, other)?, 1)?;
    }
    Ok(())
}

// so many rows, each with a cell of its own in this place
fn rows(
    alloc: Global,
    place: Place,
    many: u64,
    other: u64,
) -> Result<Changes<Row<Term>>, AllocError> {
    let mut change = Changes::new(alloc);
    add_rows(alloc, &mut change, place, many, other)?;
    Ok(change)
}

fn single(alloc: Global, row: Row<Term>, by: i64) -> Result<Changes<Row<Term>>, AllocError> {
    let mut change = Changes::new(alloc);
    change.alter(row, by)?;
    Ok(change)
}

// gives the left's rows and so many of the right's in one change
fn fill<O: Binary<Same> + Drop>(
    alloc: Global,
    trial: &mut BinaryTrial<O>,
    rights: u64,
) -> Result<(), Refused> {
    let left = rows(alloc, Place::First, LEFTS, 0)?;
    let right = rows(alloc, Place::First, rights, 9)?;
    trial.change(alloc, &left, &right)?;
    Ok(())
}

// a right row comes or, every second time, goes again
fn change_one<O: Binary<Same> + Drop>(
    alloc: Global,
    trial: &mut BinaryTrial<O>,
    call: u64,
) -> Result<(), Refused> {
    let by = if call % 2 == 0 { 1 } else { -1 };
    let change = single(alloc, row(alloc, Place::First, call / 2, 7)?, by)?;
    trial.change(alloc, &Changes::new(alloc), &change)?;
    Ok(())
}

// one large change and many small ones
fn change_all<O: Binary<Same> + Drop>(
    alloc: Global,
    trial: &mut BinaryTrial<O>,
    rights: u64,
) -> Result<(), Refused> {
    fill(alloc, trial, rights)?;
    for call in 0..CALLS {
        change_one(alloc, trial, call)?;
    }
    Ok(())
}

// how many rows are answered after these
fn answered_after<O: Binary<Same> + Drop>(
    alloc: Global,
    mut trial: BinaryTrial<O>,
    rights: u64,
) -> Result<usize, Refused> {
    change_all(alloc, &mut trial, rights)?;
    Ok(trial.answers().distinct())
}

fn compatible(alloc: Global) -> Result<CompatibleWhere<Always>, AllocError> {
    Ok(CompatibleWhere::new(Vec::from_slice(alloc, &[0])?, Always {}))
}

fn sharing(alloc: Global) -> Result<CompatibleSharing, AllocError> {
    Ok(CompatibleSharing::new(Vec::from_slice(alloc, &[0])?))
}

fn give_left<O: Binary<Same> + Drop>(
    alloc: Global,
    trial: &mut BinaryTrial<O>,
    change: Changes<Row<Term>>,
) -> Result<(), Refused> {
    trial.change(alloc, &change, &Changes::new(alloc))?;
    Ok(())
}

// row after row of a key goes that has all rows of the left
fn change_one_key<O: Binary<Same> + Drop>(
    alloc: Global,
    trial: &mut BinaryTrial<O>,
) -> Result<(), Refused> {
    give_left(alloc, trial, rows(alloc, Place::Second, LEFTS, 1)?)?;
    for call in 0..CALLS {
        let gone = single(alloc, row(alloc, Place::Second, call, 1)?, -1)?;
        give_left(alloc, trial, gone)?;
    }
    Ok(())
}

fn answered_of_one_key<O: Binary<Same> + Drop>(
    alloc: Global,
    mut trial: BinaryTrial<O>,
) -> Result<usize, Refused> {
    change_one_key(alloc, &mut trial)?;
    Ok(trial.answers().distinct())
}

// whether it is refused that many rows meet as many without a key
fn refuses_many<O: Binary<Same> + Drop>(
    alloc: Global,
    trial: &mut BinaryTrial<O>,
) -> Result<bool, AllocError> {
    let left = rows(alloc, Place::First, MANY, 0)?;
    let right = rows(alloc, Place::Second, MANY, 0)?;
    Ok(trial.change(alloc, &left, &right).is_err())
}

// whether that is too much
fn is_too_much<O: GivesUp>(alloc: Global, mut trial: BinaryTrial<O>) -> Result<bool, AllocError> {
    Ok(refuses_many(alloc, &mut trial)? && trial.operator().has_given_up())
}

#[test]
fn of_one_key(rt: HostRuntime) -> Result<(), Fail> {
    let alloc = rt.alloc();
    assert!(rt; answered_of_one_key(alloc, joined(alloc, &[0])?)? == 0);
    Ok(())
}

#[test]
fn a_join_without_a_key(rt: HostRuntime) -> Result<(), Fail> {
    let alloc = rt.alloc();
    assert!(rt; is_too_much(alloc, bounded_join(alloc, &[], MOST)?)?);
    Ok(())
}

#[test]
fn an_outer_join_without_a_key(rt: HostRuntime) -> Result<(), Fail> {
    let alloc = rt.alloc();
    let pairing = CompatibleWhere::new(Vec::new(alloc), Always {});
    assert!(rt; is_too_much(alloc, bounded_left_join(alloc, pairing, MOST)?)?);
    Ok(())
}

#[test]
fn joins_by_key(rt: HostRuntime) -> Result<(), Fail> {
    let alloc = rt.alloc();
    assert!(rt; answered_after(alloc, joined(alloc, &[0])?, 0)? == 0);
    assert!(rt; answered_after(alloc, left_join(alloc, compatible(alloc)?)?, 0)? == 100_000);
    Ok(())
}

#[test]
fn negation_by_key(rt: HostRuntime) -> Result<(), Fail> {
    let alloc = rt.alloc();
    assert!(rt; answered_after(alloc, semi(alloc, compatible(alloc)?)?, 0)? == 0);
    assert!(rt; answered_after(alloc, anti(alloc, compatible(alloc)?)?, 0)? == 100_000);
    assert!(rt; answered_after(alloc, anti(alloc, sharing(alloc)?)?, 0)? == 100_000);
    Ok(())
}

// the last two without a key: any right row is enough, and no pair is tested
#[test]
fn by_key_alone(rt: HostRuntime) -> Result<(), Fail> {
    let alloc = rt.alloc();
    assert!(rt; answered_after(alloc, keyed_semi(alloc, &[0])?, 0)? == 0);
    assert!(rt; answered_after(alloc, keyed_anti(alloc, &[0])?, 0)? == 100_000);
    assert!(rt; answered_after(alloc, keyed_anti(alloc, &[])?, RIGHTS)? == 0);
    assert!(rt; answered_after(alloc, keyed_semi(alloc, &[])?, RIGHTS)? == 100_000);
    Ok(())
}
