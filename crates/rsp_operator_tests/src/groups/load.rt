// Groups under load: many rows, of which one changes at a time. A body that walks a group would take hours.
use super::column::{Asked, Trial, groups, of_values, rows_counted};
use super::values::{integer, value};
use rsp_functions::Kind;
use rsp_multiset::{Changes, Row};
use rsp_terms::Term;
use std::alloc::{AllocError, Global};
use std::test::Fail;

const ROWS: u64 = 200_000;

const CHANGES: u64 = 20_000;

fn key_cell(alloc: Global, key: u64) -> Result<Option<Term>, AllocError> {
    let text = format!(in alloc; "x:{key}")?;
    value(alloc, text.as_str())
}

fn number_cell(alloc: Global, number: u64) -> Result<Option<Term>, AllocError> {
    let text = format!(in alloc; "{number}")?;
    Ok(Some(integer(alloc, text.as_str())?))
}

// the row of a key's number and a value's
fn row(alloc: Global, key: u64, number: u64) -> Result<Row<Term>, AllocError> {
    let key = key_cell(alloc, key)?;
    let number = number_cell(alloc, number)?;
    let cells = Vec::from_array(alloc, [key, number, None])?;
    Ok(Row::new(cells))
}

fn add_rows(
    alloc: Global,
    rows: &mut Changes<Row<Term>>,
    one_group: bool,
) -> Result<(), AllocError> {
    for number in 0..ROWS {
        let key = if one_group { 0 } else { number };
        rows.alter(row(alloc, key, number + 1)?, 1)?;
    }
    Ok(())
}

// a row of each value, all of one group or each of its own
fn many_rows(alloc: Global, one_group: bool) -> Result<Changes<Row<Term>>, AllocError> {
    let mut rows = Changes::new(alloc);
    add_rows(alloc, &mut rows, one_group)?;
    Ok(rows)
}

// the values in their order, from the least, or else from the greatest
fn value_at(place: u64, from_greatest: bool) -> u64 {
    if from_greatest {
        ROWS.wrapping_sub(place)
    } else {
        place.wrapping_add(1)
    }
}

fn fill(alloc: Global, trial: &mut Trial, one_group: bool) -> Result<(), Fail> {
    let rows = many_rows(alloc, one_group)?;
    trial.change(alloc, &rows)?;
    Ok(())
}

// takes a row out; how many rows of the value change
fn row_goes(alloc: Global, trial: &mut Trial, key: u64, number: u64) -> Result<usize, Fail> {
    let mut change = Changes::new(alloc);
    change.alter(row(alloc, key, number)?, -1)?;
    let net = trial.change(alloc, &change)?;
    Ok(net.distinct())
}

// takes row after row out; whether each changes so many rows of the value
fn each_goes(
    alloc: Global,
    trial: &mut Trial,
    from_greatest: bool,
    one_group: bool,
    wanted: usize,
) -> Result<bool, Fail> {
    for place in 0..CHANGES {
        let number = value_at(place, from_greatest);
        let key = if one_group { 0 } else { number.wrapping_sub(1) };
        if row_goes(alloc, trial, key, number)? != wanted {
            return Ok(false);
        }
    }
    Ok(true)
}

fn rows_go(alloc: Global, asked: &Asked, one_group: bool, wanted: usize) -> Result<bool, Fail> {
    let mut trial = groups(alloc, &[0], &[*asked])?;
    fill(alloc, &mut trial, one_group)?;
    let from_greatest = matches!(asked.kind, Kind::Max);
    each_goes(alloc, &mut trial, from_greatest, one_group, wanted)
}

#[test]
fn row_counts_of_a_large_group(rt: HostRuntime) -> Result<(), Fail> {
    assert!(rt; rows_go(rt.alloc(), &rows_counted(), true, 2)?);
    Ok(())
}

#[test]
fn counts_of_a_large_group(rt: HostRuntime) -> Result<(), Fail> {
    assert!(rt; rows_go(rt.alloc(), &of_values(Kind::Count, false), true, 2)?);
    Ok(())
}

#[test]
fn counts_once_of_a_large_group(rt: HostRuntime) -> Result<(), Fail> {
    assert!(rt; rows_go(rt.alloc(), &of_values(Kind::Count, true), true, 2)?);
    Ok(())
}

#[test]
fn sums_of_a_large_group(rt: HostRuntime) -> Result<(), Fail> {
    assert!(rt; rows_go(rt.alloc(), &of_values(Kind::Sum, false), true, 2)?);
    Ok(())
}

#[test]
fn sums_once_of_a_large_group(rt: HostRuntime) -> Result<(), Fail> {
    assert!(rt; rows_go(rt.alloc(), &of_values(Kind::Sum, true), true, 2)?);
    Ok(())
}

#[test]
fn averages_of_a_large_group(rt: HostRuntime) -> Result<(), Fail> {
    assert!(rt; rows_go(rt.alloc(), &of_values(Kind::Avg, false), true, 2)?);
    Ok(())
}

#[test]
fn averages_once_of_a_large_group(rt: HostRuntime) -> Result<(), Fail> {
    assert!(rt; rows_go(rt.alloc(), &of_values(Kind::Avg, true), true, 2)?);
    Ok(())
}

#[test]
fn least_values_of_a_large_group(rt: HostRuntime) -> Result<(), Fail> {
    assert!(rt; rows_go(rt.alloc(), &of_values(Kind::Min, false), true, 2)?);
    Ok(())
}

#[test]
fn least_values_once_of_a_large_group(rt: HostRuntime) -> Result<(), Fail> {
    assert!(rt; rows_go(rt.alloc(), &of_values(Kind::Min, true), true, 2)?);
    Ok(())
}

#[test]
fn greatest_values_of_a_large_group(rt: HostRuntime) -> Result<(), Fail> {
    assert!(rt; rows_go(rt.alloc(), &of_values(Kind::Max, false), true, 2)?);
    Ok(())
}

#[test]
fn greatest_values_once_of_a_large_group(rt: HostRuntime) -> Result<(), Fail> {
    assert!(rt; rows_go(rt.alloc(), &of_values(Kind::Max, true), true, 2)?);
    Ok(())
}

#[test]
fn row_counts_of_many_groups(rt: HostRuntime) -> Result<(), Fail> {
    assert!(rt; rows_go(rt.alloc(), &rows_counted(), false, 1)?);
    Ok(())
}

#[test]
fn counts_of_many_groups(rt: HostRuntime) -> Result<(), Fail> {
    assert!(rt; rows_go(rt.alloc(), &of_values(Kind::Count, false), false, 1)?);
    Ok(())
}

#[test]
fn counts_once_of_many_groups(rt: HostRuntime) -> Result<(), Fail> {
    assert!(rt; rows_go(rt.alloc(), &of_values(Kind::Count, true), false, 1)?);
    Ok(())
}

#[test]
fn sums_of_many_groups(rt: HostRuntime) -> Result<(), Fail> {
    assert!(rt; rows_go(rt.alloc(), &of_values(Kind::Sum, false), false, 1)?);
    Ok(())
}

#[test]
fn sums_once_of_many_groups(rt: HostRuntime) -> Result<(), Fail> {
    assert!(rt; rows_go(rt.alloc(), &of_values(Kind::Sum, true), false, 1)?);
    Ok(())
}

#[test]
fn averages_of_many_groups(rt: HostRuntime) -> Result<(), Fail> {
    assert!(rt; rows_go(rt.alloc(), &of_values(Kind::Avg, false), false, 1)?);
    Ok(())
}

#[test]
fn averages_once_of_many_groups(rt: HostRuntime) -> Result<(), Fail> {
    assert!(rt; rows_go(rt.alloc(), &of_values(Kind::Avg, true), false, 1)?);
    Ok(())
}

#[test]
fn least_values_of_many_groups(rt: HostRuntime) -> Result<(), Fail> {
    assert!(rt; rows_go(rt.alloc(), &of_values(Kind::Min, false), false, 1)?);
    Ok(())
}

#[test]
fn least_values_once_of_many_groups(rt: HostRuntime) -> Result<(), Fail> {
    assert!(rt; rows_go(rt.alloc(), &of_values(Kind::Min, true), false, 1)?);
    Ok(())
}

#[test]
fn greatest_values_of_many_groups(rt: HostRuntime) -> Result<(), Fail> {
    assert!(rt; rows_go(rt.alloc(), &of_values(Kind::Max, false), false, 1)?);
    Ok(())
}

#[test]
fn greatest_values_once_of_many_groups(rt: HostRuntime) -> Result<(), Fail> {
    assert!(rt; rows_go(rt.alloc(), &of_values(Kind::Max, true), false, 1)?);
    Ok(())
}
