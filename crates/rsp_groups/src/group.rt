// A group of rows.
ghost use Rattle.std.specs.Prelude.{◌≡◌, ◌≤◌, ◌<◌, ◌||◌, nat_lt, [], ℕ, List, Option, None, length, map, IfOk, OnOk, OnErr};
ghost use Rattle.rsp_spec.specs.Limits.{most_counted};
ghost use Rattle.rsp_multiset.specs.Rows.{Cells};
ghost use Rattle.rsp_terms.specs.declared.term.Term.{Term};
ghost use Rattle.rsp_groups.specs.Moves.{Moved, MovedCount, values_in};
ghost use Rattle.rsp_groups.specs.Standing.{GroupStands};

use crate::folds::move_values;
use rsp_folds::Fold;
use rsp_multiset::{Cell, Row};
use rsp_spec::limits::MOST_COUNTED;
use rsp_terms::Term;
use std::alloc::{AllocError, Global};

/// How many rows a group has, what its aggregates hold of them, and the row that it gave last, until its rows change.
#[derive(Drop)]
pub struct Group<V: Cell, F: Drop> {
    pub(crate) rows: u64,
    pub(crate) folds: Vec<F>,
    pub(crate) given: Option<Row<V>>,
}

/// Whether a group of so many rows is one of the groups, and has a row in the value.
pub(crate) fn has_row(rows: u64, keyless: bool) -> bool
    ensures { result ≡ (keyless || nat_lt 0 rows) }
{
    keyless || rows > 0
}

// so many more, or less, where that is at most 2^32, and refused only where it isn't
fn moved_count(rows: u64, times: u64, out: bool) -> Result<u64, AllocError>
    ensures moved { IfOk result (λ count. MovedCount out times rows count × (count ≤ most_counted)) }
    ensures past { OnErr result ((count : ℕ) → MovedCount out times rows count → most_counted < count) }
{
    let moved = if out {
        rows.checked_sub(times)
    } else {
        rows.checked_add(times)
    };
    match moved {
        Some(count) if count <= MOST_COUNTED => Ok(count),
        _ => Err(AllocError),
    }
}

/// Takes copies of a row with these values of the arguments into the group, or gives them back. What the group gave is then no
/// longer its row. Fails where memory is refused, and past 2^32 rows.
pub(crate) fn move_row<V: Cell, F: Fold>(
    alloc: Global,
    group: &mut Group<V, F>,
    values: &[Option<Term>],
    times: u64,
    out: bool,
) -> Result<(), AllocError>
    requires { (arguments : List (Cells Term → Option Term)) × ((aggregates : List (List (Option Term) → Option Term))
        × ((row : Cells Term) × ((before : List (Cells Term)) × ((after : List (Cells Term))
        × ((values.now ≡ values_in arguments row) × (Moved out times row before after
        × GroupStands F.stands F.aggregate arguments aggregates group.old.rows group.old.folds.items before)))))) }
    ensures given { group.new.given ≡ None }
    ensures law { OnOk result ((arguments : List (Cells Term → Option Term))
        (aggregates : List (List (Option Term) → Option Term)) (row : Cells Term) (before after : List (Cells Term))
        → values.now ≡ values_in arguments row
        → Moved out times row before after
        → GroupStands F.stands F.aggregate arguments aggregates group.old.rows group.old.folds.items before
        → GroupStands F.stands F.aggregate arguments aggregates group.new.rows group.new.folds.items after) }
{
    group.given = None;
    group.rows = moved_count(group.rows, times, out)?;
    move_values(alloc, &mut group.folds, values, times, out)
}
