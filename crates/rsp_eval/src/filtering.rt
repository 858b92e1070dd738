// Rows that pass a condition, and rows without repetition.
ghost use Rattle.std.specs.Prelude.{◌≡◌, IfOk, filter};
ghost use Rattle.rsp_multiset.specs.RowLists.{each_once};
ghost use Rattle.rsp_expr.specs.Meanings.{formula_of};
ghost use Rattle.rsp_expr.specs.Values.{truth as passes};
ghost use Rattle.rsp_algebra.specs.Solutions.{same_row};

use crate::expressions::truth;
use indexmap::IndexSet;
use rsp_expr::Expression;
use rsp_multiset::Row;
use rsp_terms::Term;
use std::alloc::{AllocError, Global};

/// The rows on which the condition is true, in their order.
pub(crate) fn filter_rows(
    alloc: Global,
    condition: &Expression,
    rows: Vec<Row<Term>>,
) -> Result<Vec<Row<Term>>, AllocError>
    ensures { IfOk result (λ kept. kept.items ≡ filter (passes (formula_of condition.now)) rows.items) }
{
    let mut kept = Vec::new(alloc);
    for row in rows {
        if truth(alloc, condition, &row)? {
            kept.push(row)?;
        }
    }
    Ok(kept)
}

// each row once, at its first place
fn set_of_rows(alloc: Global, rows: Vec<Row<Term>>) -> Result<IndexSet<Row<Term>>, AllocError>
    ensures { IfOk result (λ set. set.keys ≡ each_once same_row rows.items) }
{
    let mut set = IndexSet::new(alloc);
    for row in rows {
        set.insert(row)?;
    }
    Ok(set)
}

/// Each row once, at its first place.
pub(crate) fn distinct_rows(
    alloc: Global,
    rows: Vec<Row<Term>>,
) -> Result<Vec<Row<Term>>, AllocError>
    ensures { IfOk result (λ kept. kept.items ≡ each_once same_row rows.items) }
{
    let mut kept = Vec::new(alloc);
    for row in set_of_rows(alloc, rows)? {
        kept.push(row)?;
    }
    Ok(kept)
}
