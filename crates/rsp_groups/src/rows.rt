// The rows of groups.
ghost use Rattle.std.specs.Prelude.{◌≡◌, ◌+ℤ◌, neg_ℤ, ℕ, ℤ, Bool, List, Option, Some, IfOk, OnOk, IfSome, map, length};
ghost use Rattle.std.specs.Option.{option_map};
ghost use Rattle.rsp_multiset.specs.Rows.{Cells, row_eq};
ghost use Rattle.rsp_multiset.specs.Shown.{shown_row, IsKnown};
ghost use Rattle.rsp_multiset.specs.Variables.{extension};
ghost use Rattle.rsp_multiset.specs.Weights.{weight, times};
ghost use Rattle.rsp_terms.specs.declared.term.Term.{Term};
ghost use Rattle.rsp_operators.specs.Laws.{IsShownAlike};
ghost use Rattle.rsp_groups.specs.Answers.{with_cells, group_row, IsRow, Shows};
ghost use Rattle.rsp_groups.specs.Standing.{GroupStands};

use crate::aggregated::{Aggregated, Grouping};
use crate::folds::results_of;
use crate::group::Group;
use rsp_folds::Fold;
use rsp_multiset::{Cell, Changes, Row};
use rsp_terms::{Domain, Term};
use std::alloc::{AllocError, Global};

// a value that shows the term
fn keep_value<D: Domain>(
    term: &Option<Term>,
    domain: &mut D,
) -> Result<Option<D::Value>, AllocError>
    ensures value { IfOk result (λ value. option_map (D.shown domain.new) value ≡ term.now) }
    ensures knows { IfOk result (λ value. IfSome value (D.knows domain.new)) }
    ensures known { (v : D.Value) → D.knows domain.old v
        → IsShownAlike (D.shown domain.old) (D.knows domain.new) (D.shown domain.new) v }
{
    match term {
        None => Ok(None),
        Some(term) => {
            let value = domain.keep(term.share()?)?;
            Ok(Some(value))
        }
    }
}

// the row with a value that shows the term for the variable
fn extended_row<D: Domain>(
    width: usize,
    variable: usize,
    term: &Option<Term>,
    row: &Row<D::Value>,
    domain: &mut D,
) -> Result<Row<D::Value>, AllocError>
    requires { IsRow width (D.knows domain.old) row.now }
    ensures shown { IfOk result (λ made. shown_row (D.shown domain.new) made
        ≡ extension width variable term.now (shown_row (D.shown domain.old) row.now)) }
    ensures row { IfOk result (λ made. IsRow width (D.knows domain.new) made) }
    ensures known { (v : D.Value) → D.knows domain.old v
        → IsShownAlike (D.shown domain.old) (D.knows domain.new) (D.shown domain.new) v }
{
    let value = keep_value(term, domain)?;
    row.extended(width, variable, &value)
}

// the group's row: the aggregates for their variables
fn aggregate_row<D: Domain, C, F>(
    width: usize,
    aggregates: &[Aggregated<C, F>],
    results: &[Option<Term>],
    key: &Row<D::Value>,
    domain: &mut D,
) -> Result<Row<D::Value>, AllocError>
    requires { IsRow width (D.knows domain.old) key.now }
    ensures shown { IfOk result (λ made. shown_row (D.shown domain.new) made
        ≡ with_cells width (map (λ a. a.variable) aggregates.now) results.now (shown_row (D.shown domain.old) key.now)) }
    ensures row { IfOk result (λ made. IsRow width (D.knows domain.new) made) }
    ensures known { (v : D.Value) → D.knows domain.old v
        → IsShownAlike (D.shown domain.old) (D.knows domain.new) (D.shown domain.new) v }
{
    let mut row = key.share()?;
    for (aggregate, value) in aggregates.iter().zip(results.iter()) {
        row = extended_row(width, aggregate.variable, value, &row, domain)?;
    }
    Ok(row)
}

// works the group's row out, and keeps it
fn renew_row<D: Domain, C, F: Fold>(
    alloc: Global,
    grouping: &Grouping<C, F>,
    group: &mut Group<D::Value, F>,
    key: &Row<D::Value>,
    domain: &mut D,
) -> Result<Row<D::Value>, AllocError>
    requires { IsRow grouping.now.width (D.knows domain.old) key.now }
    ensures count { group.new.rows ≡ group.old.rows }
    ensures folds { group.new.folds ≡ group.old.folds }
    ensures given { IfOk result (λ row. group.new.given ≡ Some row) }
    ensures shows { IfOk result (λ row. (arguments : List (Cells Term → Option Term))
        (aggregates : List (List (Option Term) → Option Term)) (rows : List (Cells Term))
        → GroupStands F.stands F.aggregate arguments aggregates group.old.rows group.old.folds.items rows
        → Shows grouping.now.width (D.knows domain.new) (D.shown domain.new) row
        (group_row grouping.now.width (map (λ a. a.variable) grouping.now.aggregates.items) arguments aggregates rows
        (shown_row (D.shown domain.old) key.now))) }
    ensures known { (v : D.Value) → D.knows domain.old v
        → IsShownAlike (D.shown domain.old) (D.knows domain.new) (D.shown domain.new) v }
{
    let results = results_of(alloc, group.folds.as_slice())?;
    let row = aggregate_row(
        grouping.width,
        grouping.aggregates.as_slice(),
        results.as_slice(),
        key,
        domain,
    )?;
    group.given = Some(row.share()?);
    Ok(row)
}

/// The group's row: the one that it keeps, or else worked out, and kept.
pub(crate) fn row_of_group<D: Domain, C, F: Fold>(
    alloc: Global,
    grouping: &Grouping<C, F>,
    group: &mut Group<D::Value, F>,
    key: &Row<D::Value>,
    domain: &mut D,
) -> Result<Row<D::Value>, AllocError>
    requires { IsRow grouping.now.width (D.knows domain.old) key.now }
    ensures count { group.new.rows ≡ group.old.rows }
    ensures folds { group.new.folds ≡ group.old.folds }
    ensures given { IfOk result (λ row. group.new.given ≡ Some row) }
    ensures shows { IfOk result (λ row. (arguments : List (Cells Term → Option Term))
        (aggregates : List (List (Option Term) → Option Term)) (rows : List (Cells Term))
        → GroupStands F.stands F.aggregate arguments aggregates group.old.rows group.old.folds.items rows
        → IfSome group.old.given (λ kept. Shows grouping.now.width (D.knows domain.old) (D.shown domain.old) kept
        (group_row grouping.now.width (map (λ a. a.variable) grouping.now.aggregates.items) arguments aggregates rows
        (shown_row (D.shown domain.old) key.now)))
        → Shows grouping.now.width (D.knows domain.new) (D.shown domain.new) row
        (group_row grouping.now.width (map (λ a. a.variable) grouping.now.aggregates.items) arguments aggregates rows
        (shown_row (D.shown domain.old) key.now))) }
    ensures known { (v : D.Value) → D.knows domain.old v
        → IsShownAlike (D.shown domain.old) (D.knows domain.new) (D.shown domain.new) v }
{
    match &group.given {
        Some(row) => row.share(),
        None => renew_row(alloc, grouping, group, key, domain),
    }
}

// adds each row once
fn count_rows<V: Cell>(net: &mut Changes<Row<V>>, rows: Vec<Row<V>>) -> Result<(), AllocError>
    ensures { OnOk result ((q : List (Option V)) → weight (row_eq V.eq) net.new q
        ≡ weight (row_eq V.eq) net.old q +ℤ times (row_eq V.eq) rows.items q) }
{
    for row in rows {
        net.alter(row, 1)?;
    }
    Ok(())
}

/// The change from the one list of rows to the other.
pub(crate) fn difference<V: Cell>(
    alloc: Global,
    befores: Vec<Row<V>>,
    afters: Vec<Row<V>>,
) -> Result<Changes<Row<V>>, AllocError>
    ensures { IfOk result (λ net. (q : List (Option V)) → weight (row_eq V.eq) net q
        ≡ times (row_eq V.eq) afters.items q +ℤ neg_ℤ (times (row_eq V.eq) befores.items q)) }
{
    let mut net = Changes::new(alloc);
    count_rows(&mut net, befores)?;
    net.negate();
    count_rows(&mut net, afters)?;
    Ok(net)
}
