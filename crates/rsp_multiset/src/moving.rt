// Rows that changes give away.
ghost use Rattle.std.specs.Prelude.{◌≡◌, ◌+◌, ◌+ℤ◌, neg_ℤ, pos, List, Option, IfSome, IfNone, OnOk, IfOk};
ghost use Rattle.rsp_multiset.specs.Rows.{row_eq};
ghost use Rattle.rsp_multiset.specs.Variables.{cells_at};
ghost use Rattle.rsp_multiset.specs.Weights.{only, weight, total, times, above};

use crate::{Cell, Changes, Count, Row};
use std::alloc::{AllocError, Global};

/// The rows that the change brings in, each as often. The last copy of each is the row of the change itself. Fails only where
/// memory is refused.
pub fn incoming_rows<V: Cell>(
    alloc: Global,
    changes: Changes<Row<V>>,
) -> Result<Vec<Row<V>>, AllocError>
    ensures { IfOk result (λ rows. (q : List (Option V)) → times (row_eq V.eq) rows.items q
        ≡ above (weight (row_eq V.eq) changes q)) }
{
    let mut rows = Vec::new(alloc);
    for (row, count) in changes.into_counts() {
        push_incoming(row, count, &mut rows)?;
    }
    Ok(rows)
}

/// The rows that the change takes out, each as often. The last copy of each is the row of the change itself. Fails only where
/// memory is refused.
pub fn outgoing_rows<V: Cell>(
    alloc: Global,
    mut changes: Changes<Row<V>>,
) -> Result<Vec<Row<V>>, AllocError>
    ensures { IfOk result (λ rows. (q : List (Option V)) → times (row_eq V.eq) rows.items q
        ≡ above (neg_ℤ (weight (row_eq V.eq) changes q))) }
{
    changes.negate();
    incoming_rows(alloc, changes)
}

/// The change of the rows with their cells for these variables alone, in the variables' order: where rows fall together, their
/// counts are added. The rows give their cells away. Fails where memory is refused or a sum is past a [`Count`].
pub fn changes_at<V: Cell>(
    alloc: Global,
    changes: Changes<Row<V>>,
    variables: &[usize],
) -> Result<Changes<Row<V>>, AllocError>
    ensures { IfOk result (λ cut. (q : List (Option V)) → weight (row_eq V.eq) cut q
        ≡ total (λ row. only (row_eq V.eq q (cells_at variables.now row)) (pos 1)) changes) }
{
    let mut cut = Changes::new(alloc);
    for (row, count) in changes.into_counts() {
        cut.add(row.into_cells_at(variables)?, count)?;
    }
    Ok(cut)
}

// the row so many times where it comes in: copies of it, and last of all itself
fn push_incoming<V: Cell>(
    row: Row<V>,
    count: Count,
    rows: &mut Vec<Row<V>>,
) -> Result<(), AllocError>
    ensures { OnOk result ((q : List (Option V)) → times (row_eq V.eq) rows.new.items q
        ≡ times (row_eq V.eq) rows.old.items q +ℤ only (row_eq V.eq q row) (above count)) }
{
    let Some(copies) = further_copies(count) else {
        return Ok(());
    };
    push_copies(&row, copies, rows)?;
    rows.push(row)?;
    Ok(())
}

// how many copies stand beside a row that comes in; None where it doesn't
fn further_copies(count: Count) -> Option<u64>
    ensures some { IfSome result (λ copies. above count ≡ pos (copies + 1)) }
    ensures none { IfNone result (above count ≡ pos 0) }
{
    if count.is_negative() {
        return None;
    }
    count.size().checked_sub(1)
}

fn push_copies<V: Cell>(row: &Row<V>, copies: u64, rows: &mut Vec<Row<V>>) -> Result<(), AllocError>
    ensures { OnOk result ((q : List (Option V)) → times (row_eq V.eq) rows.new.items q
        ≡ times (row_eq V.eq) rows.old.items q +ℤ only (row_eq V.eq q row.now) (pos copies)) }
{
    for _ in 0..copies {
        rows.push(row.share()?)?;
    }
    Ok(())
}
