// The operator.
ghost use Rattle.std.specs.Prelude.{◌≡◌, ℕ, [], List, Option, length, map, IfOk};
ghost use Rattle.rsp_expr.specs.Groups.{grouped_by};
ghost use Rattle.rsp_multiset.specs.Rows.{Cells};
ghost use Rattle.rsp_terms.specs.declared.term.Term.{Term};
ghost use Rattle.rsp_operators.specs.Laws.{Leads, MayBeGiven, AnswersFit, IsShownAlike};
ghost use Rattle.rsp_groups.specs.Answers.{group_row};
ghost use Rattle.rsp_groups.specs.Standing.{GroupStands, GroupsStand};
ghost use Rattle.rsp_groups.specs.Values.{by_variable};

use crate::aggregated::{Grouping, is_keyless};
use crate::entries::read_entries;
use crate::groups::{Groups, fresh_group};
use crate::rows::difference;
use crate::touching::{push_row, row_at, touched_keys, touched_rows};
use crate::walk::move_all;
use indexmap::IndexMap;
use rsp_folds::Fold;
use rsp_multiset::{Changes, Row};
use rsp_operators::{Computed, Unary};
use rsp_terms::Domain;
use std::alloc::{AllocError, Global};

/// Groups of rows with their aggregates (SPARQL 1.1 Query, section 18.5, Group and AggregateJoin): a row for each group, its
/// cells for the keys, and each aggregate's value for its variable; an error leaves that unbound. Without keys all rows are
/// one group, also where there are none. It keeps how many rows a group has, a fold for each of its aggregates, and the row
/// that it gave last: so a change works out once the row of each group that it touches.
#[derive(Drop)]
pub struct GroupOp<D: Domain, C, F: Fold> {
    grouping: Grouping<C, F>,
    groups: Groups<D::Value, F>,
}

impl<D: Domain, C: Computed<D> + Drop, F: Fold> GroupOp<D, C, F> {
    ghost use Rattle.std.specs.Prelude.{◌≡◌, [], map, IfOk};
    ghost use Rattle.rsp_expr.specs.Groups.{grouped_by};
    ghost use Rattle.rsp_operators.specs.Laws.{Leads, AnswersFit, IsShownAlike};
    ghost use Rattle.rsp_groups.specs.Answers.{group_row};
    ghost use Rattle.rsp_groups.specs.Standing.{GroupStands, GroupsStand};
    ghost use Rattle.rsp_groups.specs.Values.{by_variable};

    /// The operator over no rows. Fails only where memory is refused.
    pub fn new(alloc: Global, grouping: Grouping<C, F>) -> Result<GroupOp<D, C, F>, AllocError>
        ensures grouping { IfOk result (λ made. made.grouping ≡ grouping) }
        ensures stands { IfOk result (λ made. (domain : D)
            → GroupsStand D.Value.eq (D.knows domain) (D.shown domain) made.grouping.width made.grouping.keys.items
            (λ g. GroupStands F.stands F.aggregate (map (λ a. C.of a.argument) made.grouping.aggregates.items)
            (map (λ a. F.aggregate a.fold) made.grouping.aggregates.items) g.rows g.folds.items) (λ g. g.given)
            (group_row made.grouping.width (map (λ a. a.variable) made.grouping.aggregates.items)
            (map (λ a. C.of a.argument) made.grouping.aggregates.items)
            (map (λ a. F.aggregate a.fold) made.grouping.aggregates.items)) made.groups.entries []) }
    {
        let groups = first_groups::<D, C, F>(alloc, &grouping)?;
        Ok(GroupOp { grouping, groups })
    }

    /// The value over no rows, as a change from no row: one row without keys, else none. Fails only where memory is refused.
    pub fn over_nothing(
        &self,
        alloc: Global,
        domain: &mut D,
    ) -> Result<Changes<Row<D::Value>>, AllocError>
        ensures known { (v : D.Value) → D.knows domain.old v
            → IsShownAlike (D.shown domain.old) (D.knows domain.new) (D.shown domain.new) v }
        ensures rows { IfOk result (λ net. AnswersFit D.Value.eq self.now.grouping.width (D.knows domain.new) net) }
        ensures leads { IfOk result (λ net. Leads (D.shown domain.new) [] net
            (grouped_by (λ a group. F.aggregate a.fold (map (C.of a.argument) group)) self.now.grouping.width
            self.now.grouping.keys.items (by_variable (λ a. a.variable) self.now.grouping.aggregates.items) [])) }
    {
        nothing_grouped(alloc, &self.grouping, domain)
    }
}

impl<D: Domain, C: Computed<D>, F: Fold> Unary<D> for GroupOp<D, C, F> {
    ghost use Rattle.std.specs.Prelude.{[], map};
    ghost use Rattle.rsp_expr.specs.Groups.{grouped_by};
    ghost use Rattle.rsp_groups.specs.Answers.{group_row};
    ghost use Rattle.rsp_groups.specs.Carrying.{rows_kept, carried_groups};
    ghost use Rattle.rsp_groups.specs.Standing.{GroupStands, GroupsStand};
    ghost use Rattle.rsp_groups.specs.Values.{by_variable};

    ghost width = { λ operator. operator.grouping.width };

    ghost key = { λ operator. [] };

    ghost value = { λ operator rows. grouped_by (λ a group. F.aggregate a.fold (map (C.of a.argument) group))
        operator.grouping.width operator.grouping.keys.items
        (by_variable (λ a. a.variable) operator.grouping.aggregates.items) rows };

    ghost stands = { λ operator domain rows. GroupsStand D.Value.eq (D.knows domain) (D.shown domain) operator.grouping.width
        operator.grouping.keys.items (λ g. GroupStands F.stands F.aggregate
        (map (λ a. C.of a.argument) operator.grouping.aggregates.items)
        (map (λ a. F.aggregate a.fold) operator.grouping.aggregates.items) g.rows g.folds.items) (λ g. g.given)
        (group_row operator.grouping.width (map (λ a. a.variable) operator.grouping.aggregates.items)
        (map (λ a. C.of a.argument) operator.grouping.aggregates.items)
        (map (λ a. F.aggregate a.fold) operator.grouping.aggregates.items)) operator.groups.entries rows };

    ghost kept = { λ operator. rows_kept (λ g. g.given) operator.groups.entries };

    ghost carried = { λ operator before after rows alike stands. carried_groups D.Value.identical (D.knows before)
        (D.shown before) (D.knows after) (D.shown after) operator.grouping.width operator.grouping.keys.items
        (λ g. GroupStands F.stands F.aggregate (map (λ a. C.of a.argument) operator.grouping.aggregates.items)
        (map (λ a. F.aggregate a.fold) operator.grouping.aggregates.items) g.rows g.folds.items) (λ g. g.given)
        (group_row operator.grouping.width (map (λ a. a.variable) operator.grouping.aggregates.items)
        (map (λ a. C.of a.argument) operator.grouping.aggregates.items)
        (map (λ a. F.aggregate a.fold) operator.grouping.aggregates.items)) operator.groups.entries rows alike stands };

    fn apply(
        &mut self,
        alloc: Global,
        change: &Changes<Row<D::Value>>,
        domain: &mut D,
    ) -> Result<Changes<Row<D::Value>>, AllocError> {
        apply_change(alloc, &self.grouping, &mut self.groups, change, domain)
    }
}

// the groups of no rows: none, or without keys the one
fn first_groups<D: Domain, C, F: Fold>(
    alloc: Global,
    grouping: &Grouping<C, F>,
) -> Result<Groups<D::Value, F>, AllocError>
    ensures { IfOk result (λ groups. (domain : D) (arguments : List (Cells Term → Option Term))
        → length arguments ≡ length grouping.now.aggregates.items
        → GroupsStand D.Value.eq (D.knows domain) (D.shown domain) grouping.now.width grouping.now.keys.items
        (λ g. GroupStands F.stands F.aggregate arguments (map (λ a. F.aggregate a.fold) grouping.now.aggregates.items) g.rows
        g.folds.items) (λ g. g.given) (group_row grouping.now.width (map (λ a. a.variable) grouping.now.aggregates.items)
        arguments (map (λ a. F.aggregate a.fold) grouping.now.aggregates.items)) groups.entries []) }
{
    let mut groups = IndexMap::new(alloc);
    if is_keyless(grouping.keys.as_slice()) {
        let key = Row::unbound(alloc, grouping.width)?;
        let group = fresh_group(alloc, grouping.aggregates.as_slice())?;
        groups.insert(key, group)?;
        return Ok(groups);
    }
    Ok(groups)
}

// the rows of the groups of no rows
fn nothing_grouped<D: Domain, C: Computed<D>, F: Fold>(
    alloc: Global,
    grouping: &Grouping<C, F>,
    domain: &mut D,
) -> Result<Changes<Row<D::Value>>, AllocError>
    ensures known { (v : D.Value) → D.knows domain.old v
        → IsShownAlike (D.shown domain.old) (D.knows domain.new) (D.shown domain.new) v }
    ensures rows { IfOk result (λ net. AnswersFit D.Value.eq grouping.now.width (D.knows domain.new) net) }
    ensures leads { IfOk result (λ net. Leads (D.shown domain.new) [] net
        (grouped_by (λ a group. F.aggregate a.fold (map (C.of a.argument) group)) grouping.now.width grouping.now.keys.items
        (by_variable (λ a. a.variable) grouping.now.aggregates.items) [])) }
{
    let mut groups = first_groups::<D, C, F>(alloc, grouping)?;
    let key = Row::unbound(alloc, grouping.width)?;
    let found = row_at(alloc, grouping, &mut groups, &key, domain)?;
    let mut rows = Vec::new(alloc);
    push_row(&mut rows, found)?;
    let none = Vec::new(alloc);
    difference(alloc, none, rows)
}

fn apply_change<D: Domain, C: Computed<D>, F: Fold>(
    alloc: Global,
    grouping: &Grouping<C, F>,
    groups: &mut Groups<D::Value, F>,
    change: &Changes<Row<D::Value>>,
    domain: &mut D,
) -> Result<Changes<Row<D::Value>>, AllocError>
    requires { MayBeGiven grouping.now.width [] (D.knows domain.old) (D.shown domain.old)
        (λ rows. GroupsStand D.Value.eq (D.knows domain.old) (D.shown domain.old) grouping.now.width grouping.now.keys.items
        (λ g. GroupStands F.stands F.aggregate (map (λ a. C.of a.argument) grouping.now.aggregates.items)
        (map (λ a. F.aggregate a.fold) grouping.now.aggregates.items) g.rows g.folds.items) (λ g. g.given)
        (group_row grouping.now.width (map (λ a. a.variable) grouping.now.aggregates.items)
        (map (λ a. C.of a.argument) grouping.now.aggregates.items)
        (map (λ a. F.aggregate a.fold) grouping.now.aggregates.items)) groups.old.entries rows) change.now }
    ensures known { (v : D.Value) → D.knows domain.old v
        → IsShownAlike (D.shown domain.old) (D.knows domain.new) (D.shown domain.new) v }
    ensures rows { IfOk result (λ net. AnswersFit D.Value.eq grouping.now.width (D.knows domain.new) net) }
    ensures law { IfOk result (λ net. (before after : List (Cells Term))
        → GroupsStand D.Value.eq (D.knows domain.old) (D.shown domain.old) grouping.now.width grouping.now.keys.items
        (λ g. GroupStands F.stands F.aggregate (map (λ a. C.of a.argument) grouping.now.aggregates.items)
        (map (λ a. F.aggregate a.fold) grouping.now.aggregates.items) g.rows g.folds.items) (λ g. g.given)
        (group_row grouping.now.width (map (λ a. a.variable) grouping.now.aggregates.items)
        (map (λ a. C.of a.argument) grouping.now.aggregates.items)
        (map (λ a. F.aggregate a.fold) grouping.now.aggregates.items)) groups.old.entries before
        → Leads (D.shown domain.old) before change.now after
        → GroupsStand D.Value.eq (D.knows domain.new) (D.shown domain.new) grouping.now.width grouping.now.keys.items
        (λ g. GroupStands F.stands F.aggregate (map (λ a. C.of a.argument) grouping.now.aggregates.items)
        (map (λ a. F.aggregate a.fold) grouping.now.aggregates.items) g.rows g.folds.items) (λ g. g.given)
        (group_row grouping.now.width (map (λ a. a.variable) grouping.now.aggregates.items)
        (map (λ a. C.of a.argument) grouping.now.aggregates.items)
        (map (λ a. F.aggregate a.fold) grouping.now.aggregates.items)) groups.new.entries after
        × Leads (D.shown domain.new)
        (grouped_by (λ a group. F.aggregate a.fold (map (C.of a.argument) group)) grouping.now.width grouping.now.keys.items
        (by_variable (λ a. a.variable) grouping.now.aggregates.items) before)
        net
        (grouped_by (λ a group. F.aggregate a.fold (map (C.of a.argument) group)) grouping.now.width grouping.now.keys.items
        (by_variable (λ a. a.variable) grouping.now.aggregates.items) after)) }
{
    let entries = read_entries(alloc, grouping, change, domain)?;
    let touched = touched_keys(alloc, entries.as_slice())?;
    let _touched = touched.distinct();
    let befores = touched_rows(alloc, grouping, groups, &touched, domain)?;
    move_all::<D, C, F>(alloc, grouping, groups, entries.as_slice())?;
    let afters = touched_rows(alloc, grouping, groups, &touched, domain)?;
    difference(alloc, befores, afters)
}
