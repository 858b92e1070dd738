// Groups of rows, and their aggregates.
ghost use Rattle.std.specs.Prelude.{◌≡◌, IfOk, filter, map};
ghost use Rattle.rsp_terms.specs.declared.term.Term.{Term};
ghost use Rattle.rsp_multiset.specs.Rows.{Cells};
ghost use Rattle.rsp_algebra.specs.Meanings.{aggregations_of};
ghost use Rattle.rsp_algebra.specs.Solutions.{projection, group_keys, group_of, with_aggregates, grouped};
ghost use Rattle.rsp_eval.specs.Keys.{bucket_of};

use crate::expressions::aggregate_value;
use crate::filtering::distinct_rows;
use crate::keys::{Buckets, add_row, rows_of_key};
use crate::projecting::{project_rows, unit_rows};
use indexmap::IndexMap;
use rsp_expr::Aggregate;
use rsp_multiset::Row;
use rsp_terms::Term;
use std::alloc::{AllocError, Global};

// the cells at the keys, of each group once
fn keys_of_groups(
    alloc: Global,
    width: usize,
    keys: &[usize],
    rows: &[Row<Term>],
) -> Result<Vec<Row<Term>>, AllocError>
    ensures { IfOk result (λ made. made.items ≡ group_keys width keys.now rows.now) }
{
    if keys.is_empty() {
        return unit_rows(alloc, width);
    }
    distinct_rows(alloc, project_rows(alloc, width, keys, rows)?)
}

// the rows by their cells at the keys; rows of one group stand in their order
fn in_groups(
    alloc: Global,
    width: usize,
    keys: &[usize],
    rows: Vec<Row<Term>>,
) -> Result<Buckets, AllocError>
    ensures { IfOk result (λ buckets. (q : Cells Term) → bucket_of buckets q ≡ group_of width keys.now rows.items q) }
{
    let mut buckets = IndexMap::new(alloc);
    for row in rows {
        let key = row.projected(width, keys)?;
        add_row(alloc, &mut buckets, key, row)?;
    }
    Ok(buckets)
}

// the key with each aggregate's value over the rows for its variable
fn aggregate_row(
    alloc: Global,
    width: usize,
    aggregates: &[(usize, Aggregate)],
    rows: &[Row<Term>],
    key: Row<Term>,
) -> Result<Row<Term>, AllocError>
    ensures { IfOk result (λ row. row ≡ with_aggregates width (aggregations_of aggregates.now) rows.now key) }
{
    let mut row = key;
    for entry in aggregates {
        let (variable, aggregate) = entry;
        let term = aggregate_value(alloc, aggregate, rows)?;
        row = row.extended(width, *variable, &term)?;
    }
    Ok(row)
}

// one row for each key, with the aggregates over the rows of its bucket
fn aggregate_groups(
    alloc: Global,
    width: usize,
    aggregates: &[(usize, Aggregate)],
    keys: Vec<Row<Term>>,
    buckets: &Buckets,
) -> Result<Vec<Row<Term>>, AllocError>
    ensures { IfOk result (λ made. made.items
        ≡ map (λ key. with_aggregates width (aggregations_of aggregates.now) (bucket_of buckets.now key) key) keys.items) }
{
    let mut made = Vec::new(alloc);
    for key in keys {
        let rows = rows_of_key(buckets, &key);
        made.push(aggregate_row(alloc, width, aggregates, rows, key)?)?;
    }
    Ok(made)
}

/// A row for each group of the rows, in the order of first places: its cells at the keys, and each aggregate's value for
/// its variable. Without keys all rows are one group, also where there are none.
pub(crate) fn group_rows(
    alloc: Global,
    width: usize,
    keys: &[usize],
    aggregates: &[(usize, Aggregate)],
    rows: Vec<Row<Term>>,
) -> Result<Vec<Row<Term>>, AllocError>
    ensures { IfOk result (λ made. made.items ≡ grouped width keys.now (aggregations_of aggregates.now) rows.items) }
{
    let firsts = keys_of_groups(alloc, width, keys, &rows)?;
    let buckets = in_groups(alloc, width, keys, rows)?;
    aggregate_groups(alloc, width, aggregates, firsts, &buckets)
}
