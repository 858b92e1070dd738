// Random changes of both sides, each answer against the value made anew.
use crate::anew::{Answered, Asked, Held, Partners, made_anew};
use crate::conditions::{Always, Equals};
use crate::trials::{anti, joined, keyed_anti, keyed_semi, left_join, semi};
use rsp_multiset::{Bag, Changes, Count, Row};
use rsp_operators::Binary;
use rsp_outer::{CompatibleSharing, CompatibleWhere, MinusOp};
use rsp_terms::{Same, Term};
use rsp_trials::{BinaryTrial, Numbers, Refused, are_same, numbered, term};
use std::alloc::{AllocError, Global};
use std::test::Fail;

// how many changes an operator is given
const CHANGES: usize = 2000;

// how many rows a side may hold
const ROWS: u64 = 12;

// the row of this number; the first cell is bound in each row where it is a key
fn cells_of(number: u64, bound: bool) -> [u64; 3] {
    let first = if bound { number % 2 + 1 } else { number % 2 };
    [first, number / 2 % 3, number / 6 % 2]
}

fn add_held(
    alloc: Global,
    held: &mut Vec<Held>,
    bag: &Bag<Term>,
    cells: [u64; 3],
) -> Result<(), AllocError> {
    let times = bag.count(&numbered(alloc, &cells)?);
    if times > 0 {
        held.push((cells, times))?;
    }
    Ok(())
}

fn held_rows(alloc: Global, bag: &Bag<Term>, bound: bool) -> Result<Vec<Held>, AllocError> {
    let mut held = Vec::new(alloc);
    for number in 0..ROWS {
        add_held(alloc, &mut held, bag, cells_of(number, bound))?;
    }
    Ok(held)
}

// up to two rows that come or go
fn next_change(
    alloc: Global,
    numbers: &mut Numbers,
    bag: &Bag<Term>,
    bound: bool,
) -> Result<Changes<Row<Term>>, AllocError> {
    let mut change = Changes::new(alloc);
    add_rows(alloc, numbers, &mut change, bag, bound)?;
    Ok(change)
}

fn add_rows(
    alloc: Global,
    numbers: &mut Numbers,
    change: &mut Changes<Row<Term>>,
    bag: &Bag<Term>,
    bound: bool,
) -> Result<(), AllocError> {
    let many = numbers.below(3);
    for _ in 0..many {
        let cells = cells_of(numbers.below(ROWS), bound);
        let choice = numbers.below(5);
        add_row(alloc, change, bag, &cells, choice)?;
    }
    Ok(())
}

fn add_row(
    alloc: Global,
    change: &mut Changes<Row<Term>>,
    bag: &Bag<Term>,
    cells: &[u64; 3],
    choice: u64,
) -> Result<(), AllocError> {
    let row = numbered(alloc, cells)?;
    let by = next_count(bag, change, &row, choice)?;
    change.add(row, by)
}

// how often the row comes or goes, by how often it is there once the change has been made
fn next_count(
    bag: &Bag<Term>,
    change: &Changes<Row<Term>>,
    row: &Row<Term>,
    choice: u64,
) -> Result<Count, AllocError> {
    let held = Count::of_many(bag.count(row))?.checked_add(change.count(row))?;
    count_of(choice, held)
}

// once or twice more, once less, or none of it any more
fn count_of(choice: u64, held: Count) -> Result<Count, AllocError> {
    if held.is_zero() || choice < 2 {
        return Count::of_many(choice % 2 + 1);
    }
    if choice == 2 {
        return Ok(Count::of_many(1)?.opposite());
    }
    Ok(held.opposite())
}

// whether each of the changes leads to the value made anew
fn is_right<O: Binary<Same> + Drop>(
    alloc: Global,
    mut trial: BinaryTrial<O>,
    asked: Asked,
) -> Result<bool, Refused> {
    stays_right(alloc, &mut trial, asked)
}

fn stays_right<O: Binary<Same> + Drop>(
    alloc: Global,
    trial: &mut BinaryTrial<O>,
    asked: Asked,
) -> Result<bool, Refused> {
    let mut numbers = Numbers::new(1);
    for _ in 0..CHANGES {
        change_both(alloc, trial, &mut numbers, asked.bound)?;
        if !is_anew(alloc, trial, asked)? {
            return Ok(false);
        }
    }
    Ok(true)
}

fn change_both<O: Binary<Same> + Drop>(
    alloc: Global,
    trial: &mut BinaryTrial<O>,
    numbers: &mut Numbers,
    bound: bool,
) -> Result<(), Refused> {
    let left = next_change(alloc, numbers, trial.lefts(), bound)?;
    let right = next_change(alloc, numbers, trial.rights(), bound)?;
    give(alloc, trial, &left, &right)
}

fn give<O: Binary<Same> + Drop>(
    alloc: Global,
    trial: &mut BinaryTrial<O>,
    left: &Changes<Row<Term>>,
    right: &Changes<Row<Term>>,
) -> Result<(), Refused> {
    trial.change(alloc, left, right)?;
    Ok(())
}

fn is_anew<O: Binary<Same> + Drop>(
    alloc: Global,
    trial: &BinaryTrial<O>,
    asked: Asked,
) -> Result<bool, AllocError> {
    let lefts = held_rows(alloc, trial.lefts(), asked.bound)?;
    let rights = held_rows(alloc, trial.rights(), asked.bound)?;
    let value = made_anew(alloc, asked, &lefts, &rights)?;
    are_same(alloc, trial.answers(), &value)
}

// by the first cell as a key
fn compatible(alloc: Global) -> Result<CompatibleWhere<Always>, AllocError> {
    Ok(CompatibleWhere::new(Vec::from_slice(alloc, &[0])?, Always {}))
}

// the last cell of the merge is 1; without a key
fn last_is_one(alloc: Global) -> Result<CompatibleWhere<Equals>, AllocError> {
    let condition = Equals {
        variable: 2,
        term: term(alloc, "n:1")?,
    };
    Ok(CompatibleWhere::new(Vec::new(alloc), condition))
}

fn minus_by(alloc: Global, key: &[usize]) -> Result<BinaryTrial<MinusOp<Same>>, AllocError> {
    anti(alloc, CompatibleSharing::new(Vec::from_slice(alloc, key)?))
}

// where each row binds its first cell
fn by_key(answered: Answered, partners: Partners) -> Asked {
    Asked {
        answered,
        partners,
        bound: true,
    }
}

fn without_key(answered: Answered, partners: Partners) -> Asked {
    Asked {
        answered,
        partners,
        bound: false,
    }
}

#[test]
fn joins(rt: HostRuntime) -> Result<(), Fail> {
    let alloc = rt.alloc();
    let keyed = by_key(Answered::Merged, Partners::Compatible);
    assert!(rt; is_right(alloc, joined(alloc, &[0])?, keyed)?);
    let any = without_key(Answered::Merged, Partners::Compatible);
    assert!(rt; is_right(alloc, joined(alloc, &[])?, any)?);
    Ok(())
}

#[test]
fn left_joins(rt: HostRuntime) -> Result<(), Fail> {
    let alloc = rt.alloc();
    let keyed = by_key(Answered::Joined, Partners::Compatible);
    assert!(rt; is_right(alloc, left_join(alloc, compatible(alloc)?)?, keyed)?);
    let asked = without_key(Answered::Joined, Partners::LastIsOne);
    assert!(rt; is_right(alloc, left_join(alloc, last_is_one(alloc)?)?, asked)?);
    Ok(())
}

#[test]
fn minus(rt: HostRuntime) -> Result<(), Fail> {
    let alloc = rt.alloc();
    let asked = without_key(Answered::Without, Partners::Sharing);
    assert!(rt; is_right(alloc, minus_by(alloc, &[])?, asked)?);
    let keyed = by_key(Answered::Without, Partners::Sharing);
    assert!(rt; is_right(alloc, minus_by(alloc, &[0])?, keyed)?);
    Ok(())
}

#[test]
fn existence(rt: HostRuntime) -> Result<(), Fail> {
    let alloc = rt.alloc();
    let asked = without_key(Answered::With, Partners::LastIsOne);
    assert!(rt; is_right(alloc, semi(alloc, last_is_one(alloc)?)?, asked)?);
    let keyed = by_key(Answered::With, Partners::Compatible);
    assert!(rt; is_right(alloc, semi(alloc, compatible(alloc)?)?, keyed)?);
    Ok(())
}

#[test]
fn absence(rt: HostRuntime) -> Result<(), Fail> {
    let alloc = rt.alloc();
    let asked = without_key(Answered::Without, Partners::LastIsOne);
    assert!(rt; is_right(alloc, anti(alloc, last_is_one(alloc)?)?, asked)?);
    let keyed = by_key(Answered::Without, Partners::Compatible);
    assert!(rt; is_right(alloc, anti(alloc, compatible(alloc)?)?, keyed)?);
    Ok(())
}

#[test]
fn by_key_alone(rt: HostRuntime) -> Result<(), Fail> {
    let alloc = rt.alloc();
    let without = by_key(Answered::Without, Partners::SameFirst);
    assert!(rt; is_right(alloc, keyed_anti(alloc, &[0])?, without)?);
    let with = by_key(Answered::With, Partners::SameFirst);
    assert!(rt; is_right(alloc, keyed_semi(alloc, &[0])?, with)?);
    Ok(())
}

// any right row is enough
#[test]
fn by_no_key(rt: HostRuntime) -> Result<(), Fail> {
    let alloc = rt.alloc();
    let without = without_key(Answered::Without, Partners::Any);
    assert!(rt; is_right(alloc, keyed_anti(alloc, &[])?, without)?);
    let with = without_key(Answered::With, Partners::Any);
    assert!(rt; is_right(alloc, keyed_semi(alloc, &[])?, with)?);
    Ok(())
}
