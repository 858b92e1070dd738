// Changed rows by what groups need of them.
ghost use Rattle.std.specs.Prelude.{◌≡◌, ℤ, List, Option, map, IfOk, IfSome};
ghost use Rattle.std.specs.List.{AllByRecursion};
ghost use Rattle.std.specs.Option.{option_map};
ghost use Rattle.rsp_multiset.specs.Rows.{Cells};
ghost use Rattle.rsp_multiset.specs.Shown.{shown_row, IsKnown};
ghost use Rattle.rsp_multiset.specs.Variables.{projection};
ghost use Rattle.rsp_operators.specs.Laws.{IsShownAlike};

use crate::aggregated::{Aggregated, Grouping};
use rsp_multiset::{Cell, Changes, Count, Row};
use rsp_operators::Computed;
use rsp_terms::{Domain, Term};
use std::alloc::{AllocError, Global};

/// A changed row: the cells of its key, the values of the arguments in it, and how often it comes in or, below 0, goes out.
#[derive(Drop)]
pub(crate) struct Entry<V: Cell> {
    pub(crate) key: Row<V>,
    pub(crate) values: Vec<Option<Term>>,
    pub(crate) by: Count,
}

// the term that the value shows
fn term_of_value<D: Domain>(
    value: &Option<D::Value>,
    domain: &D,
) -> Result<Option<Term>, AllocError>
    requires { IfSome value.now (D.knows domain.now) }
    ensures { IfOk result (λ term. term ≡ option_map (D.shown domain.now) value.now) }
{
    match value {
        None => Ok(None),
        Some(value) => Ok(Some(domain.show(value).share()?)),
    }
}

// the argument's value in the row
fn argument_term<D: Domain, C: Computed<D>>(
    argument: &C,
    row: &Row<D::Value>,
    domain: &mut D,
) -> Result<Option<Term>, AllocError>
    requires { IsKnown (D.knows domain.old) row.now }
    ensures term { IfOk result (λ term. term ≡ C.of argument.now (shown_row (D.shown domain.old) row.now)) }
    ensures known { (v : D.Value) → D.knows domain.old v
        → IsShownAlike (D.shown domain.old) (D.knows domain.new) (D.shown domain.new) v }
{
    let value = argument.value(row, domain)?;
    term_of_value(&value, domain)
}

// the values of all arguments in the row
fn argument_terms<D: Domain, C: Computed<D>, F>(
    alloc: Global,
    aggregates: &[Aggregated<C, F>],
    row: &Row<D::Value>,
    domain: &mut D,
) -> Result<Vec<Option<Term>>, AllocError>
    requires { IsKnown (D.knows domain.old) row.now }
    ensures terms { IfOk result (λ terms. terms.items
        ≡ map (λ a. C.of a.argument (shown_row (D.shown domain.old) row.now)) aggregates.now) }
    ensures known { (v : D.Value) → D.knows domain.old v
        → IsShownAlike (D.shown domain.old) (D.knows domain.new) (D.shown domain.new) v }
{
    let mut terms = Vec::new(alloc);
    for aggregate in aggregates {
        terms.push(argument_term(&aggregate.argument, row, domain)?)?;
    }
    Ok(terms)
}

fn read_entry<D: Domain, C: Computed<D>, F>(
    alloc: Global,
    grouping: &Grouping<C, F>,
    row: &Row<D::Value>,
    by: Count,
    domain: &mut D,
) -> Result<Entry<D::Value>, AllocError>
    requires { IsKnown (D.knows domain.old) row.now }
    ensures key { IfOk result (λ entry. entry.key ≡ projection grouping.now.width grouping.now.keys.items row.now) }
    ensures values { IfOk result (λ entry. entry.values.items
        ≡ map (λ a. C.of a.argument (shown_row (D.shown domain.old) row.now)) grouping.now.aggregates.items) }
    ensures by { IfOk result (λ entry. entry.by ≡ by) }
    ensures known { (v : D.Value) → D.knows domain.old v
        → IsShownAlike (D.shown domain.old) (D.knows domain.new) (D.shown domain.new) v }
{
    let values = argument_terms(alloc, &grouping.aggregates, row, domain)?;
    let key = row.projected(grouping.width, &grouping.keys)?;
    Ok(Entry { key, values, by })
}

/// The changed rows by what groups need of them.
pub(crate) fn read_entries<D: Domain, C: Computed<D>, F>(
    alloc: Global,
    grouping: &Grouping<C, F>,
    change: &Changes<Row<D::Value>>,
    domain: &mut D,
) -> Result<Vec<Entry<D::Value>>, AllocError>
    requires { AllByRecursion (λ (e : Cells D.Value × ℤ). IsKnown (D.knows domain.old) e.0) change.now }
    ensures keys { IfOk result (λ entries. map (λ e. e.key) entries.items
        ≡ map (λ e. projection grouping.now.width grouping.now.keys.items e.0) change.now) }
    ensures values { IfOk result (λ entries. map (λ e. e.values.items) entries.items
        ≡ map (λ e. map (λ a. C.of a.argument (shown_row (D.shown domain.old) e.0)) grouping.now.aggregates.items) change.now) }
    ensures counts { IfOk result (λ entries. map (λ e. e.by) entries.items ≡ map (λ e. e.1) change.now) }
    ensures known { (v : D.Value) → D.knows domain.old v
        → IsShownAlike (D.shown domain.old) (D.knows domain.new) (D.shown domain.new) v }
{
    let mut entries = Vec::new(alloc);
    for index in 0..change.distinct() {
        let (row, by) = change.counted_at(index);
        entries.push(read_entry(alloc, grouping, row, by, domain)?)?;
    }
    Ok(entries)
}
