// Random changes, beside values made anew.
ghost use Rattle.std.specs.Prelude.{◌<◌};

use super::column::{Asked, Trial, groups, of_values, rows_counted};
use super::values::{decimal, integer, value};
use rsp_functions::Kind;
use rsp_multiset::{Changes, Row};
use rsp_terms::Term;
use rsp_trials::{Numbers, are_same};
use std::alloc::{AllocError, Global};
use std::test::Fail;

/// The values, in the order of terms; the first is an error.
const VALUES: [&str; 6] = ["", "x:9", "i-3", "i1", "i2", "d2.5"];

/// The tenths of each value that is a number.
const TENTHS: [i64; 6] = [0, 0, -30, 10, 20, 25];

/// How often each value is in each of three groups.
type Counts = [u32; 18];

/// How often each value is in one group.
type Times = [u32; 6];

fn times(counts: &Counts, group: usize, distinct: bool) -> Times
    requires { group < 3 }
{
    let all = [
        counts[group * 6],
        counts[group * 6 + 1],
        counts[group * 6 + 2],
        counts[group * 6 + 3],
        counts[group * 6 + 4],
        counts[group * 6 + 5],
    ];
    if distinct {
        all.map(|count| count.min(1))
    } else {
        all
    }
}

fn rows_in(times: &Times) -> u32 {
    let mut rows: u32 = 0;
    for count in times {
        rows = rows.wrapping_add(*count);
    }
    rows
}

fn whole(alloc: Global, number: i64) -> Result<Option<Term>, AllocError> {
    let text = format!(in alloc; "{number}")?;
    Ok(Some(integer(alloc, text.as_str())?))
}

// the first 18 digits behind the point of a quotient
fn digits(alloc: Global, top: u64, bottom: u64) -> Result<String, AllocError>
    requires { 0 < bottom }
{
    let mut text = String::new(alloc);
    let mut rest = top % bottom;
    for _ in 0..18 {
        rest = rest.wrapping_mul(10);
        let digit = rest / bottom;
        text = format!(in alloc; "{text}{digit}")?;
        rest %= bottom;
    }
    Ok(text)
}

// the decimal of a quotient, cut after the last digit
fn fraction(alloc: Global, top: i64, bottom: u64) -> Result<Option<Term>, AllocError>
    requires { 0 < bottom }
{
    let size = top.unsigned_abs();
    let sign = if top < 0 { "-" } else { "" };
    let whole = size / bottom;
    let digits = digits(alloc, size, bottom)?;
    let digits = digits.as_str().trim_end_matches('0');
    let point = if digits.is_empty() { "" } else { "." };
    let text = format!(in alloc; "{sign}{whole}{point}{digits}")?;
    Ok(Some(decimal(alloc, text.as_str())?))
}

// the sum in tenths
fn tenths_in(times: &Times) -> i64 {
    let mut sum: i64 = 0;
    for (count, tenths) in times.iter().zip(TENTHS.iter()) {
        sum = sum.wrapping_add(i64::from(*count).wrapping_mul(*tenths));
    }
    sum
}

fn sum(alloc: Global, times: &Times) -> Result<Option<Term>, AllocError> {
    if times[0] > 0 || times[1] > 0 {
        return Ok(None);
    }
    let tenths = tenths_in(times);
    if times[5] == 0 {
        return whole(alloc, tenths / 10);
    }
    fraction(alloc, tenths, 10)
}

fn average(alloc: Global, times: &Times) -> Result<Option<Term>, AllocError> {
    if times[0] > 0 || times[1] > 0 {
        return Ok(None);
    }
    let bottom = u64::from(rows_in(times)).wrapping_mul(10);
    if bottom == 0 {
        return whole(alloc, 0);
    }
    fraction(alloc, tenths_in(times), bottom)
}

fn least(alloc: Global, times: &Times) -> Result<Option<Term>, AllocError> {
    for (count, text) in times.iter().zip(VALUES.iter()) {
        if *count > 0 {
            return value(alloc, *text);
        }
    }
    Ok(None)
}

fn greatest(alloc: Global, times: &Times) -> Result<Option<Term>, AllocError> {
    if times[0] > 0 {
        return Ok(None);
    }
    let mut found = 0;
    for (place, count) in times.iter().enumerate() {
        if *count > 0 {
            found = place;
        }
    }
    match VALUES.get(found) {
        None => Ok(None),
        Some(text) => value(alloc, *text),
    }
}

// the aggregate of a group's values, made anew
fn aggregate(
    alloc: Global,
    asked: &Asked,
    counts: &Counts,
    group: usize,
) -> Result<Option<Term>, AllocError>
    requires { group < 3 }
{
    let times = times(counts, group, asked.distinct);
    if asked.star {
        return whole(alloc, i64::from(rows_in(&times)));
    }
    match asked.kind {
        Kind::Count => whole(alloc, i64::from(rows_in(&times).wrapping_sub(times[0]))),
        Kind::Sum => sum(alloc, &times),
        Kind::Avg => average(alloc, &times),
        Kind::Min => least(alloc, &times),
        Kind::Max => greatest(alloc, &times),
    }
}

// the first group's key is unbound
fn key(alloc: Global, group: usize) -> Result<Option<Term>, AllocError> {
    match group {
        0 => Ok(None),
        1 => value(alloc, "x:1"),
        _ => value(alloc, "x:2"),
    }
}

fn row(
    key: Option<Term>,
    second: Option<Term>,
    third: Option<Term>,
    alloc: Global,
) -> Result<Row<Term>, AllocError> {
    let cells = Vec::from_array(alloc, [key, second, third])?;
    Ok(Row::new(cells))
}

// adds the group's row, if it has rows, made anew
fn add_group(
    alloc: Global,
    rows: &mut Changes<Row<Term>>,
    asked: &Asked,
    counts: &Counts,
    group: usize,
) -> Result<(), AllocError>
    requires { group < 3 }
{
    if rows_in(&times(counts, group, false)) == 0 {
        return Ok(());
    }
    let found = aggregate(alloc, asked, counts, group)?;
    let key = key(alloc, group)?;
    rows.alter(row(key, None, found, alloc)?, 1)
}

// the groups' rows, made anew
fn all_rows(
    alloc: Global,
    asked: &Asked,
    counts: &Counts,
) -> Result<Changes<Row<Term>>, AllocError> {
    let mut rows = Changes::new(alloc);
    for group in 0..3 {
        add_group(alloc, &mut rows, asked, counts, group)?;
    }
    Ok(rows)
}

fn row_at(alloc: Global, group: usize, place: usize) -> Result<Row<Term>, AllocError>
    requires { place < 6 }
{
    let key = key(alloc, group)?;
    let value = value(alloc, VALUES[place])?;
    row(key, value, None, alloc)
}

// takes some copies of a value out of a group, or puts some in, and tells how many
fn count_turn(numbers: &mut Numbers, counts: &mut Counts, group: usize, place: usize) -> i64
    requires group { group < 3 }
    requires place { place < 6 }
{
    let many = numbers.below(3) as u32 + 1;
    let goes = numbers.below(2) == 0;
    let held = counts[group * 6 + place];
    if goes && held >= many {
        counts[group * 6 + place] = held - many;
        return -i64::from(many);
    }
    counts[group * 6 + place] = held.wrapping_add(many);
    i64::from(many)
}

// what comes or goes next
fn turn(
    alloc: Global,
    numbers: &mut Numbers,
    counts: &mut Counts,
) -> Result<Changes<Row<Term>>, AllocError> {
    let group = numbers.below(3) as usize;
    let place = numbers.below(6) as usize;
    let by = count_turn(numbers, counts, group, place);
    let row = row_at(alloc, group, place)?;
    let mut change = Changes::new(alloc);
    change.alter(row, by)?;
    Ok(change)
}

fn change_next(
    alloc: Global,
    trial: &mut Trial,
    numbers: &mut Numbers,
    counts: &mut Counts,
) -> Result<(), Fail> {
    let change = turn(alloc, numbers, counts)?;
    trial.change(alloc, &change)?;
    Ok(())
}

// whether all answers come to the rows made anew
fn is_anew(
    alloc: Global,
    asked: &Asked,
    trial: &Trial,
    counts: &Counts,
) -> Result<bool, AllocError> {
    let rows = all_rows(alloc, asked, counts)?;
    are_same(alloc, trial.answers(), &rows)
}

// whether the answers of a thousand changes always do
fn stay_anew(alloc: Global, asked: &Asked, trial: &mut Trial, seed: u64) -> Result<bool, Fail> {
    let mut numbers = Numbers::new(seed);
    let mut counts: Counts = [0; 18];
    for _ in 0..1000 {
        change_next(alloc, trial, &mut numbers, &mut counts)?;
        if !is_anew(alloc, asked, trial, &counts)? {
            return Ok(false);
        }
    }
    Ok(true)
}

fn agree(alloc: Global, asked: &Asked, seed: u64) -> Result<bool, Fail> {
    let mut trial = groups(alloc, &[0], &[*asked])?;
    stay_anew(alloc, asked, &mut trial, seed)
}

fn both_agree(alloc: Global, kind: Kind) -> Result<bool, Fail> {
    let each = agree(alloc, &of_values(kind, false), 1)?;
    let once = agree(alloc, &of_values(kind, true), 2)?;
    Ok(each && once)
}

#[test]
fn counts_are_as_made_anew(rt: HostRuntime) -> Result<(), Fail> {
    assert!(rt; both_agree(rt.alloc(), Kind::Count)?);
    Ok(())
}

#[test]
fn sums_are_as_made_anew(rt: HostRuntime) -> Result<(), Fail> {
    assert!(rt; both_agree(rt.alloc(), Kind::Sum)?);
    Ok(())
}

#[test]
fn averages_are_as_made_anew(rt: HostRuntime) -> Result<(), Fail> {
    assert!(rt; both_agree(rt.alloc(), Kind::Avg)?);
    Ok(())
}

#[test]
fn least_values_are_as_made_anew(rt: HostRuntime) -> Result<(), Fail> {
    assert!(rt; both_agree(rt.alloc(), Kind::Min)?);
    Ok(())
}

#[test]
fn greatest_values_are_as_made_anew(rt: HostRuntime) -> Result<(), Fail> {
    assert!(rt; both_agree(rt.alloc(), Kind::Max)?);
    Ok(())
}

#[test]
fn counts_of_rows_are_as_made_anew(rt: HostRuntime) -> Result<(), Fail> {
    assert!(rt; agree(rt.alloc(), &rows_counted(), 3)?);
    Ok(())
}
