// Groups that a change touches.
ghost use Rattle.std.specs.Prelude.{◌≡◌, ◌++◌, ◌+ℤ◌, ℕ, ℤ, List, Option, IfOk, OnOk, IfSome, map};
ghost use Rattle.std.specs.List.{AllByRecursion};
ghost use Rattle.std.specs.Map.{keys_of};
ghost use Rattle.std.specs.Option.{option_map, option_to_list};
ghost use Rattle.rsp_multiset.specs.Rows.{Cells, row_eq};
ghost use Rattle.rsp_multiset.specs.Shown.{shown_row};
ghost use Rattle.rsp_multiset.specs.Weights.{weight, times};
ghost use Rattle.rsp_terms.specs.declared.term.Term.{Term};
ghost use Rattle.rsp_operators.specs.Laws.{IsShownAlike};
ghost use Rattle.rsp_groups.specs.Answers.{group_row, row_over, rows_over, IsRow, MayTouch};
ghost use Rattle.rsp_groups.specs.Standing.{GroupStands, GroupsStand};

use crate::aggregated::Grouping;
use crate::entries::Entry;
use crate::groups::Groups;
use crate::rows::row_of_group;
use rsp_folds::Fold;
use rsp_multiset::{Cell, Changes, Row};
use rsp_terms::{Domain, Term};
use std::alloc::{AllocError, Global};

/// The keys of the changed rows, each as often as there are such.
pub(crate) fn touched_keys<V: Cell>(
    alloc: Global,
    entries: &[Entry<V>],
) -> Result<Changes<Row<V>>, AllocError>
    ensures { IfOk result (λ keys. (q : List (Option V)) → weight (row_eq V.eq) keys q
        ≡ times (row_eq V.eq) (map (λ e. e.key) entries.now) q) }
{
    let mut keys = Changes::new(alloc);
    for entry in entries {
        keys.alter(entry.key.share()?, 1)?;
    }
    Ok(keys)
}

/// The row of the key's group, if it has one; the group keeps it.
pub(crate) fn row_at<D: Domain, C, F: Fold>(
    alloc: Global,
    grouping: &Grouping<C, F>,
    groups: &mut Groups<D::Value, F>,
    key: &Row<D::Value>,
    domain: &mut D,
) -> Result<Option<Row<D::Value>>, AllocError>
    requires { MayTouch (D.knows domain.old) grouping.now.width grouping.now.keys.items key.now }
    ensures law { IfOk result (λ found. (arguments : List (Cells Term → Option Term))
        (aggregates : List (List (Option Term) → Option Term)) (rows : List (Cells Term))
        → GroupsStand D.Value.eq (D.knows domain.old) (D.shown domain.old) grouping.now.width grouping.now.keys.items
        (λ g. GroupStands F.stands F.aggregate arguments aggregates g.rows g.folds.items) (λ g. g.given)
        (group_row grouping.now.width (map (λ a. a.variable) grouping.now.aggregates.items) arguments aggregates)
        groups.old.entries rows
        → GroupsStand D.Value.eq (D.knows domain.new) (D.shown domain.new) grouping.now.width grouping.now.keys.items
        (λ g. GroupStands F.stands F.aggregate arguments aggregates g.rows g.folds.items) (λ g. g.given)
        (group_row grouping.now.width (map (λ a. a.variable) grouping.now.aggregates.items) arguments aggregates)
        groups.new.entries rows
        × (IfSome found (IsRow grouping.now.width (D.knows domain.new))
        × (option_map (shown_row (D.shown domain.new)) found
        ≡ row_over (D.shown domain.old) grouping.now.width grouping.now.keys.items
        (group_row grouping.now.width (map (λ a. a.variable) grouping.now.aggregates.items) arguments aggregates) rows
        key.now))) }
    ensures known { (v : D.Value) → D.knows domain.old v
        → IsShownAlike (D.shown domain.old) (D.knows domain.new) (D.shown domain.new) v }
{
    match groups.get_mut(key) {
        None => Ok(None),
        Some(group) => {
            let row = row_of_group(alloc, grouping, group, key, domain)?;
            Ok(Some(row))
        }
    }
}

/// Puts the row behind the others, if there is one.
pub(crate) fn push_row<V: Cell>(
    rows: &mut Vec<Row<V>>,
    found: Option<Row<V>>,
) -> Result<(), AllocError>
    ensures { OnOk result (rows.new.items ≡ rows.old.items ++ option_to_list found) }
{
    match found {
        None => Ok(()),
        Some(row) => {
            rows.push(row)?;
            Ok(())
        }
    }
}

/// The rows of the groups that these keys have; the groups keep them.
pub(crate) fn touched_rows<D: Domain, C, F: Fold>(
    alloc: Global,
    grouping: &Grouping<C, F>,
    groups: &mut Groups<D::Value, F>,
    touched: &Changes<Row<D::Value>>,
    domain: &mut D,
) -> Result<Vec<Row<D::Value>>, AllocError>
    requires { AllByRecursion (MayTouch (D.knows domain.old) grouping.now.width grouping.now.keys.items) (keys_of touched.now) }
    ensures law { IfOk result (λ made. (arguments : List (Cells Term → Option Term))
        (aggregates : List (List (Option Term) → Option Term)) (rows : List (Cells Term))
        → GroupsStand D.Value.eq (D.knows domain.old) (D.shown domain.old) grouping.now.width grouping.now.keys.items
        (λ g. GroupStands F.stands F.aggregate arguments aggregates g.rows g.folds.items) (λ g. g.given)
        (group_row grouping.now.width (map (λ a. a.variable) grouping.now.aggregates.items) arguments aggregates)
        groups.old.entries rows
        → GroupsStand D.Value.eq (D.knows domain.new) (D.shown domain.new) grouping.now.width grouping.now.keys.items
        (λ g. GroupStands F.stands F.aggregate arguments aggregates g.rows g.folds.items) (λ g. g.given)
        (group_row grouping.now.width (map (λ a. a.variable) grouping.now.aggregates.items) arguments aggregates)
        groups.new.entries rows
        × (AllByRecursion (IsRow grouping.now.width (D.knows domain.new)) made.items
        × (map (shown_row (D.shown domain.new)) made.items
        ≡ rows_over (D.shown domain.old) grouping.now.width grouping.now.keys.items
        (group_row grouping.now.width (map (λ a. a.variable) grouping.now.aggregates.items) arguments aggregates) rows
        (keys_of touched.now)))) }
    ensures known { (v : D.Value) → D.knows domain.old v
        → IsShownAlike (D.shown domain.old) (D.knows domain.new) (D.shown domain.new) v }
{
    let mut rows = Vec::new(alloc);
    for index in 0..touched.distinct() {
        let (key, _times) = touched.counted_at(index);
        let found = row_at(alloc, grouping, groups, key, domain)?;
        push_row(&mut rows, found)?;
    }
    Ok(rows)
}
