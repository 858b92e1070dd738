// Changed rows come into their groups, or go out of them.
ghost use Rattle.std.specs.Prelude.{◌≡◌, ℕ, ℤ, List, Option, OnOk, map, length};
ghost use Rattle.std.specs.List.{AllZip};
ghost use Rattle.rsp_multiset.specs.Rows.{Cells};
ghost use Rattle.rsp_terms.specs.declared.term.Term.{Term};
ghost use Rattle.rsp_groups.specs.Answers.{group_row};
ghost use Rattle.rsp_groups.specs.Moves.{Moved, part};
ghost use Rattle.rsp_groups.specs.Standing.{GroupStands, GroupsStand, IsEntry, Steps, MayMoveEntry, MayStep};
ghost use Rattle.rsp_groups.specs.Turns.{Turn, MayTurn};

use crate::aggregated::Grouping;
use crate::entries::Entry;
use crate::group::move_row;
use crate::groups::{Groups, put_group, take_group};
use rsp_folds::Fold;
use rsp_multiset::Count;
use rsp_terms::Domain;
use std::alloc::{AllocError, Global};

// how many come in, or go out
fn part_of(by: Count, out: bool) -> u64
    ensures { result ≡ part out by }
{
    if by.is_negative() == out {
        by.size()
    } else {
        0
    }
}

// takes a changed row into its group where it comes, or gives it back where it goes; the group is there from its first row to
// its last, without keys always
fn move_entry<D: Domain, C, F: Fold>(
    alloc: Global,
    grouping: &Grouping<C, F>,
    groups: &mut Groups<D::Value, F>,
    entry: &Entry<D::Value>,
    out: bool,
) -> Result<(), AllocError>
    requires { (domain : D) × ((arguments : List (Cells Term → Option Term))
        × ((length arguments ≡ length grouping.now.aggregates.items)
        × MayMoveEntry (IsEntry (D.knows domain) (D.shown domain) grouping.now.width grouping.now.keys.items arguments
        entry.now.key entry.now.values.items entry.now.by) (GroupsStand D.Value.eq (D.knows domain) (D.shown domain)
        grouping.now.width grouping.now.keys.items (λ g. GroupStands F.stands F.aggregate arguments
        (map (λ a. F.aggregate a.fold) grouping.now.aggregates.items) g.rows g.folds.items) (λ g. g.given)
        (group_row grouping.now.width (map (λ a. a.variable) grouping.now.aggregates.items) arguments
        (map (λ a. F.aggregate a.fold) grouping.now.aggregates.items)) groups.old.entries) out)) }
    ensures { OnOk result ((domain : D) (arguments : List (Cells Term → Option Term)) (row : Cells Term × ℤ)
        (before after : List (Cells Term)) → length arguments ≡ length grouping.now.aggregates.items
        → IsEntry (D.knows domain) (D.shown domain) grouping.now.width grouping.now.keys.items arguments entry.now.key
        entry.now.values.items entry.now.by row
        → Moved out (part out row.1) row.0 before after
        → GroupsStand D.Value.eq (D.knows domain) (D.shown domain) grouping.now.width grouping.now.keys.items
        (λ g. GroupStands F.stands F.aggregate arguments (map (λ a. F.aggregate a.fold) grouping.now.aggregates.items) g.rows
        g.folds.items) (λ g. g.given) (group_row grouping.now.width (map (λ a. a.variable) grouping.now.aggregates.items)
        arguments (map (λ a. F.aggregate a.fold) grouping.now.aggregates.items)) groups.old.entries before
        → GroupsStand D.Value.eq (D.knows domain) (D.shown domain) grouping.now.width grouping.now.keys.items
        (λ g. GroupStands F.stands F.aggregate arguments (map (λ a. F.aggregate a.fold) grouping.now.aggregates.items) g.rows
        g.folds.items) (λ g. g.given) (group_row grouping.now.width (map (λ a. a.variable) grouping.now.aggregates.items)
        arguments (map (λ a. F.aggregate a.fold) grouping.now.aggregates.items)) groups.new.entries after) }
{
    let times = part_of(entry.by, out);
    if times == 0 {
        return Ok(());
    }
    let mut group = take_group::<D, C, F>(alloc, grouping, groups, &entry.key)?;
    move_row(alloc, &mut group, entry.values.as_slice(), times, out)?;
    put_group(grouping, groups, &entry.key, group)
}

// takes all changed rows in that come, or gives all back that go
fn move_entries<D: Domain, C, F: Fold>(
    alloc: Global,
    grouping: &Grouping<C, F>,
    groups: &mut Groups<D::Value, F>,
    entries: &[Entry<D::Value>],
    out: bool,
) -> Result<(), AllocError>
    requires { (domain : D) × ((arguments : List (Cells Term → Option Term))
        × ((length arguments ≡ length grouping.now.aggregates.items)
        × MayStep (λ entry. IsEntry (D.knows domain) (D.shown domain) grouping.now.width grouping.now.keys.items arguments
        entry.key entry.values.items entry.by) (GroupsStand D.Value.eq (D.knows domain) (D.shown domain) grouping.now.width
        grouping.now.keys.items (λ g. GroupStands F.stands F.aggregate arguments (map (λ a. F.aggregate a.fold)
        grouping.now.aggregates.items) g.rows g.folds.items) (λ g. g.given)
        (group_row grouping.now.width (map (λ a. a.variable) grouping.now.aggregates.items) arguments
        (map (λ a. F.aggregate a.fold) grouping.now.aggregates.items)) groups.old.entries) out entries.now)) }
    ensures { OnOk result ((domain : D) (arguments : List (Cells Term → Option Term)) (rows : List (Cells Term × ℤ))
        (before after : List (Cells Term)) → length arguments ≡ length grouping.now.aggregates.items
        → AllZip (λ entry. IsEntry (D.knows domain) (D.shown domain) grouping.now.width grouping.now.keys.items arguments
        entry.key entry.values.items entry.by) entries.now rows
        → Steps out rows before after
        → GroupsStand D.Value.eq (D.knows domain) (D.shown domain) grouping.now.width grouping.now.keys.items
        (λ g. GroupStands F.stands F.aggregate arguments (map (λ a. F.aggregate a.fold) grouping.now.aggregates.items) g.rows
        g.folds.items) (λ g. g.given) (group_row grouping.now.width (map (λ a. a.variable) grouping.now.aggregates.items)
        arguments (map (λ a. F.aggregate a.fold) grouping.now.aggregates.items)) groups.old.entries before
        → GroupsStand D.Value.eq (D.knows domain) (D.shown domain) grouping.now.width grouping.now.keys.items
        (λ g. GroupStands F.stands F.aggregate arguments (map (λ a. F.aggregate a.fold) grouping.now.aggregates.items) g.rows
        g.folds.items) (λ g. g.given) (group_row grouping.now.width (map (λ a. a.variable) grouping.now.aggregates.items)
        arguments (map (λ a. F.aggregate a.fold) grouping.now.aggregates.items)) groups.new.entries after) }
{
    for entry in entries {
        move_entry::<D, C, F>(alloc, grouping, groups, entry, out)?;
    }
    Ok(())
}

/// Takes all changed rows in that come, then gives all back that go. The groups that they touch keep no row.
pub(crate) fn move_all<D: Domain, C, F: Fold>(
    alloc: Global,
    grouping: &Grouping<C, F>,
    groups: &mut Groups<D::Value, F>,
    entries: &[Entry<D::Value>],
) -> Result<(), AllocError>
    requires { (domain : D) × ((arguments : List (Cells Term → Option Term))
        × ((length arguments ≡ length grouping.now.aggregates.items)
        × MayTurn (λ entry. IsEntry (D.knows domain) (D.shown domain) grouping.now.width grouping.now.keys.items arguments
        entry.key entry.values.items entry.by) (GroupsStand D.Value.eq (D.knows domain) (D.shown domain) grouping.now.width
        grouping.now.keys.items (λ g. GroupStands F.stands F.aggregate arguments (map (λ a. F.aggregate a.fold)
        grouping.now.aggregates.items) g.rows g.folds.items) (λ g. g.given)
        (group_row grouping.now.width (map (λ a. a.variable) grouping.now.aggregates.items) arguments
        (map (λ a. F.aggregate a.fold) grouping.now.aggregates.items)) groups.old.entries) entries.now)) }
    ensures { OnOk result ((domain : D) (arguments : List (Cells Term → Option Term)) (rows : List (Cells Term × ℤ))
        (before after : List (Cells Term)) → length arguments ≡ length grouping.now.aggregates.items
        → AllZip (λ entry. IsEntry (D.knows domain) (D.shown domain) grouping.now.width grouping.now.keys.items arguments
        entry.key entry.values.items entry.by) entries.now rows
        → Turn rows before after
        → GroupsStand D.Value.eq (D.knows domain) (D.shown domain) grouping.now.width grouping.now.keys.items
        (λ g. GroupStands F.stands F.aggregate arguments (map (λ a. F.aggregate a.fold) grouping.now.aggregates.items) g.rows
        g.folds.items) (λ g. g.given) (group_row grouping.now.width (map (λ a. a.variable) grouping.now.aggregates.items)
        arguments (map (λ a. F.aggregate a.fold) grouping.now.aggregates.items)) groups.old.entries before
        → GroupsStand D.Value.eq (D.knows domain) (D.shown domain) grouping.now.width grouping.now.keys.items
        (λ g. GroupStands F.stands F.aggregate arguments (map (λ a. F.aggregate a.fold) grouping.now.aggregates.items) g.rows
        g.folds.items) (λ g. g.given) (group_row grouping.now.width (map (λ a. a.variable) grouping.now.aggregates.items)
        arguments (map (λ a. F.aggregate a.fold) grouping.now.aggregates.items)) groups.new.entries after) }
{
    move_entries::<D, C, F>(alloc, grouping, groups, entries, false)?;
    move_entries::<D, C, F>(alloc, grouping, groups, entries, true)
}
