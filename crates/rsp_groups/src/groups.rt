// All groups, by the cells of their keys.
ghost use Rattle.std.specs.Prelude.{◌≡◌, ◌||◌, ◌&&◌, ℕ, [], List, Option, None, Some, cond, nat_lt, length, map, IfOk, OnOk};
ghost use Rattle.std.specs.List.{AllByRecursion};
ghost use Rattle.std.specs.Map.{lookup};
ghost use Rattle.rsp_expr.specs.Groups.{group_of};
ghost use Rattle.rsp_multiset.specs.Rows.{Cells, row_eq};
ghost use Rattle.rsp_multiset.specs.Shown.{shown_row, IsKnown};
ghost use Rattle.rsp_terms.specs.declared.term.Term.{Term};
ghost use Rattle.rsp_groups.specs.Answers.{is_empty_key, group_row};
ghost use Rattle.rsp_groups.specs.Standing.{GroupStands, GroupsStand};

use crate::aggregated::{Aggregated, Grouping, is_keyless};
use crate::group::{Group, has_row};
use indexmap::IndexMap;
use rsp_folds::Fold;
use rsp_multiset::{Cell, Row};
use rsp_terms::{Domain, Term};
use std::alloc::{AllocError, Global};

/// The groups by their keys' cells.
pub(crate) type Groups<V, F> = IndexMap<Row<V>, Group<V, F>>;

// folds of these kinds with nothing in them
fn fresh_folds<C, F: Fold>(
    alloc: Global,
    aggregates: &[Aggregated<C, F>],
) -> Result<Vec<F>, AllocError>
    ensures nothing { IfOk result (λ folds. AllByRecursion (λ fold. F.stands fold []) folds.items) }
    ensures kinds { IfOk result (λ folds. map F.aggregate folds.items ≡ map (λ a. F.aggregate a.fold) aggregates.now) }
{
    let mut folds = Vec::new(alloc);
    for aggregate in aggregates {
        folds.push(aggregate.fold.fresh(alloc)?)?;
    }
    Ok(folds)
}

/// A group of no rows, which has given none.
pub(crate) fn fresh_group<V: Cell, C, F: Fold>(
    alloc: Global,
    aggregates: &[Aggregated<C, F>],
) -> Result<Group<V, F>, AllocError>
    ensures stands { IfOk result (λ group. (arguments : List (Cells Term → Option Term))
        → length arguments ≡ length aggregates.now
        → GroupStands F.stands F.aggregate arguments (map (λ a. F.aggregate a.fold) aggregates.now) group.rows
        group.folds.items []) }
    ensures given { IfOk result (λ group. group.given ≡ None) }
{
    let folds = fresh_folds(alloc, aggregates)?;
    Ok(Group {
        rows: 0,
        folds,
        given: None,
    })
}

/// Takes the key's group out of the others, or makes one of no rows where the key has none.
pub(crate) fn take_group<D: Domain, C, F: Fold>(
    alloc: Global,
    grouping: &Grouping<C, F>,
    groups: &mut Groups<D::Value, F>,
    key: &Row<D::Value>,
) -> Result<Group<D::Value, F>, AllocError>
    ensures others { (q : Cells D.Value) → lookup (row_eq D.Value.eq q) groups.new.entries
        ≡ cond (row_eq D.Value.eq key.now q) None (lookup (row_eq D.Value.eq q) groups.old.entries) }
    ensures group { IfOk result (λ group. (domain : D) (width : ℕ) (keys variables : List ℕ)
        (arguments : List (Cells Term → Option Term)) (rows : List (Cells Term))
        → IsKnown (D.knows domain) key.now → length arguments ≡ length grouping.now.aggregates.items
        → GroupsStand D.Value.eq (D.knows domain) (D.shown domain) width keys (λ g. GroupStands F.stands F.aggregate arguments
        (map (λ a. F.aggregate a.fold) grouping.now.aggregates.items) g.rows g.folds.items) (λ g. g.given)
        (group_row width variables arguments (map (λ a. F.aggregate a.fold) grouping.now.aggregates.items))
        groups.old.entries rows
        → GroupStands F.stands F.aggregate arguments (map (λ a. F.aggregate a.fold) grouping.now.aggregates.items) group.rows
        group.folds.items (group_of width keys rows (shown_row (D.shown domain) key.now))) }
{
    match groups.swap_remove(key) {
        Some(group) => Ok(group),
        None => fresh_group(alloc, grouping.aggregates.as_slice()),
    }
}

/// Puts the key's group back to the others; without a row only where there are no keys.
pub(crate) fn put_group<V: Cell, C, F: Fold>(
    grouping: &Grouping<C, F>,
    groups: &mut Groups<V, F>,
    key: &Row<V>,
    group: Group<V, F>,
) -> Result<(), AllocError>
    ensures { OnOk result ((q : Cells V) → lookup (row_eq V.eq q) groups.new.entries
        ≡ cond ((is_empty_key grouping.now.keys.items || nat_lt 0 group.rows) && row_eq V.eq key.now q) (Some group)
        (lookup (row_eq V.eq q) groups.old.entries)) }
{
    if has_row(group.rows, is_keyless(grouping.keys.as_slice())) {
        groups.insert(key.share()?, group)?;
    }
    Ok(())
}
