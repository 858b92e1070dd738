// Rows as they are listed.
ghost use Rattle.std.specs.Prelude.{◌≡◌, ◌+◌, ◌≤◌, ◌++◌, List, Option, Some, [], map, length, OnOk, IfOk};
ghost use Rattle.rsp_index.specs.Buckets.{bucket_of, rows_in};
ghost use Rattle.rsp_index.specs.Kept.{counted};

use crate::Entries;
use crate::buckets::Buckets;
use rsp_multiset::{Cell, Row};
use rsp_steps::Steps;
use std::alloc::{AllocError, Global};
use std::sync::ledger::Ledger;

/// The rows of the bucket of these cells.
pub(crate) fn bucket_rows<V: Cell, L: Ledger>(
    alloc: Global,
    buckets: &Buckets<V>,
    key: &[V],
    steps: &mut Steps<L>,
) -> Result<Vec<(Row<V>, u64)>, AllocError>
    ensures rows { IfOk result (λ rows. counted rows.items ≡ bucket_of V.eq buckets.now.entries (map Some key.now)) }
    ensures steps { IfOk result (λ rows. steps.new ≡ steps.old + length rows.items) }
    ensures cost { steps.new ≤ steps.old + length (bucket_of V.eq buckets.now.entries (map Some key.now)) }
{
    let cells = bound_row(alloc, key)?;
    let mut rows = Vec::new(alloc);
    let mut entries = Entries {
        bucket: buckets.get(&cells),
        at: 0,
    };
    list_entries(&mut rows, &mut entries, steps)?;
    Ok(rows)
}

/// The rows of all buckets.
pub(crate) fn all_rows<V: Cell, L: Ledger>(
    alloc: Global,
    buckets: &Buckets<V>,
    steps: &mut Steps<L>,
) -> Result<Vec<(Row<V>, u64)>, AllocError>
    ensures rows { IfOk result (λ rows. counted rows.items ≡ rows_in buckets.now.entries) }
    ensures steps { IfOk result (λ rows. steps.new ≡ steps.old + length rows.items) }
    ensures cost { steps.new ≤ steps.old + length (rows_in buckets.now.entries) }
{
    let mut rows = Vec::new(alloc);
    for (_, bucket) in buckets {
        let mut entries = Entries {
            bucket: Some(bucket),
            at: 0,
        };
        list_entries(&mut rows, &mut entries, steps)?;
    }
    Ok(rows)
}

fn bound_row<V: Cell>(alloc: Global, values: &[V]) -> Result<Row<V>, AllocError>
    ensures { IfOk result (λ row. row ≡ map Some values.now) }
{
    let mut cells = Vec::new(alloc);
    for value in values {
        cells.push(Some(value.share()?))?;
    }
    Ok(Row::new(cells))
}

// the entries, behind the rows so far
fn list_entries<V: Cell, L: Ledger>(
    rows: &mut Vec<(Row<V>, u64)>,
    entries: &mut Entries<'_, V>,
    steps: &mut Steps<L>,
) -> Result<(), AllocError>
    ensures rows { OnOk result (counted rows.new.items ≡ counted rows.old.items ++ entries.old) }
    ensures steps { OnOk result (steps.new ≡ steps.old + length entries.old) }
    ensures cost { steps.new ≤ steps.old + length entries.old }
{
    while let Some((row, times)) = entries.next(steps) {
        rows.push((row.share()?, times))?;
    }
    Ok(())
}
