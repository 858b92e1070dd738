// The values of aggregates.
ghost use Rattle.std.specs.Prelude.{◌≡◌, ◌≤◌, IfOk, map, option_map, is_some, if◌then◌else◌};
ghost use Rattle.std.specs.List.{count_by, reduce};
ghost use Rattle.std.specs.Option.{option_and_then, option_eq};
ghost use Rattle.rsp_multiset.specs.RowLists.{each_once};
ghost use Rattle.rsp_terms.specs.Same.{term_eq};
ghost use Rattle.rsp_expr.specs.Aggregates as aggregates;
ghost use Rattle.rsp_expr.specs.Errors.{all_values};
ghost use Rattle.rsp_expr.specs.Meanings.{formula_of, aggregation_of};
ghost use Rattle.rsp_expr.specs.Functions.{numeral_result};
ghost use Rattle.rsp_expr.specs.Values as values;
ghost use Rattle.rsp_values.specs.Extremes.{better};

use crate::evaluation::value;
use crate::extremes::greatest_or_least;
use crate::sums::{average_of, numbers_in, sum_of};
use indexmap::IndexSet;
use rsp_expr::{Aggregate, Expression, Kind};
use rsp_literals::{integer_of, literal_of};
use rsp_multiset::Row;
use rsp_terms::Term;
use std::alloc::{AllocError, Global};

/// The value of the aggregate in a group of rows (SPARQL 1.1 Query, section 18.5.1); None exactly where it is an error.
/// An aggregate without an argument counts the rows, whatever its kind. Fails only where memory is refused, and where SUM
/// or AVG has more than 2^32 values.
pub fn aggregate_value(
    alloc: Global,
    aggregate: &Aggregate,
    rows: &[Row<Term>],
) -> Result<Option<Term>, AllocError>
    ensures { IfOk result (λ term. term ≡ aggregates.aggregate_value (aggregation_of aggregate.now) rows.now) }
{
    match &aggregate.argument {
        None => literal_of(alloc, integer_of(rows.len() as u64)),
        Some(argument) => {
            let values = argument_values(alloc, argument, rows)?;
            aggregate_of_counted(alloc, aggregate.kind, aggregate.distinct, values)
        }
    }
}

// the value of the argument in each row
fn argument_values(
    alloc: Global,
    argument: &Expression,
    rows: &[Row<Term>],
) -> Result<Vec<Option<Term>>, AllocError>
    ensures { IfOk result (λ found. found.items ≡ map (values.value (formula_of argument.now)) rows.now) }
{
    let mut found = Vec::new(alloc);
    for row in rows {
        found.push(value(alloc, argument, row)?)?;
    }
    Ok(found)
}

fn aggregate_of_counted(
    alloc: Global,
    kind: Kind,
    distinct: bool,
    values: Vec<Option<Term>>,
) -> Result<Option<Term>, AllocError>
    ensures { IfOk result (λ term. term ≡ aggregates.aggregate_of kind (aggregates.counted_values distinct values.items)) }
{
    if distinct {
        aggregate_of(alloc, kind, distinct_values(alloc, values)?)
    } else {
        aggregate_of(alloc, kind, values)
    }
}

fn aggregate_of(
    alloc: Global,
    kind: Kind,
    values: Vec<Option<Term>>,
) -> Result<Option<Term>, AllocError>
    ensures { IfOk result (λ term. term ≡ aggregates.aggregate_of kind values.items) }
{
    match kind {
        Kind::Count => literal_of(alloc, integer_of(count_of(&values) as u64)),
        Kind::Sum => sum(alloc, &values),
        Kind::Avg => average(alloc, &values),
        Kind::Min => extreme(alloc, false, values),
        Kind::Max => extreme(alloc, true, values),
    }
}

// ---- each value once

fn set_of_values(
    alloc: Global,
    values: Vec<Option<Term>>,
) -> Result<IndexSet<Option<Term>>, AllocError>
    ensures { IfOk result (λ set. set.keys ≡ each_once (option_eq term_eq) values.items) }
{
    let mut set = IndexSet::new(alloc);
    for value in values {
        set.insert(value)?;
    }
    Ok(set)
}

fn distinct_values(
    alloc: Global,
    values: Vec<Option<Term>>,
) -> Result<Vec<Option<Term>>, AllocError>
    ensures { IfOk result (λ kept. kept.items ≡ each_once (option_eq term_eq) values.items) }
{
    let mut kept = Vec::new(alloc);
    for value in set_of_values(alloc, values)? {
        kept.push(value)?;
    }
    Ok(kept)
}

// ---- each kind

// how many values are no errors
fn count_of(values: &[Option<Term>]) -> usize
    ensures { result ≡ count_by is_some values.now }
{
    let mut count = 0;
    for value in values {
        count += one_where(value.is_some());
    }
    count
}

fn one_where(holds: bool) -> usize
    ensures value { result ≡ (if holds then 1 else 0) }
    ensures few { result ≤ 1 }
{
    if holds { 1 } else { 0 }
}

fn sum(alloc: Global, values: &[Option<Term>]) -> Result<Option<Term>, AllocError>
    ensures { IfOk result (λ term. term
        ≡ numeral_result (option_and_then aggregates.sum_of (aggregates.numbers_of values.now))) }
{
    match numbers_in(alloc, values)? {
        None => Ok(None),
        Some(numbers) => literal_of(alloc, sum_of(&numbers)?),
    }
}

fn average(alloc: Global, values: &[Option<Term>]) -> Result<Option<Term>, AllocError>
    ensures { IfOk result (λ term. term
        ≡ numeral_result (option_and_then aggregates.average_of (aggregates.numbers_of values.now))) }
{
    match numbers_in(alloc, values)? {
        None => Ok(None),
        Some(numbers) => literal_of(alloc, average_of(&numbers)?),
    }
}

// the greatest value, or else the least
fn extreme(
    alloc: Global,
    greatest: bool,
    values: Vec<Option<Term>>,
) -> Result<Option<Term>, AllocError>
    ensures { IfOk result (λ term. term ≡ option_and_then (reduce (better greatest)) (all_values values.items)) }
{
    match terms_in(alloc, values)? {
        None => Ok(None),
        Some(terms) => greatest_or_least(alloc, greatest, terms),
    }
}

// all of the values, where none is an error
fn terms_in(alloc: Global, values: Vec<Option<Term>>) -> Result<Option<Vec<Term>>, AllocError>
    ensures { IfOk result (λ terms. option_map (λ found. found.items) terms ≡ all_values values.items) }
{
    let mut terms = Vec::new(alloc);
    for value in values {
        match value {
            None => return Ok(None),
            Some(term) => terms.push(term)?,
        }
    }
    Ok(Some(terms))
}
