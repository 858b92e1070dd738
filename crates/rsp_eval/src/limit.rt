// The most rows of a tree.
ghost use Rattle.std.specs.Prelude.{◌≡◌, is_none, IfSome, IfOk, ◌++◌, OnOk};
ghost use Rattle.rsp_algebra.specs.Overfull.{too_many};

use rsp_multiset::{Cell, Row};
pub(crate) use rsp_spec::limits::MOST_ROWS;
use rsp_terms::Term;
use std::alloc::{AllocError, Global};

/// The rows; None exactly where they are too many.
pub(crate) fn within_limit(rows: Vec<Row<Term>>) -> Option<Vec<Row<Term>>>
    ensures none { is_none result ≡ too_many rows.items }
    ensures some { IfSome result (λ kept. kept.items ≡ rows.items) }
{
    if rows.len() > MOST_ROWS {
        return None;
    }
    Some(rows)
}

/// The same rows; None exactly where they are too many.
pub(crate) fn share_within_limit(
    alloc: Global,
    rows: &[Row<Term>],
) -> Result<Option<Vec<Row<Term>>>, AllocError>
    ensures none { IfOk result (λ others. is_none others ≡ too_many rows.now) }
    ensures some { IfOk result (λ others. IfSome others (λ others. others.items ≡ rows.now)) }
{
    if rows.len() > MOST_ROWS {
        return Ok(None);
    }
    let mut others = Vec::new(alloc);
    for row in rows {
        others.push(row.share()?)?;
    }
    Ok(Some(others))
}

fn move_rows(rows: &mut Vec<Row<Term>>, others: Vec<Row<Term>>) -> Result<(), AllocError>
    ensures { OnOk result (rows.new.items ≡ rows.old.items ++ others.items) }
{
    for row in others {
        rows.push(row)?;
    }
    Ok(())
}

/// The rows of both lists; None exactly where they are too many.
pub(crate) fn unite_rows(
    lefts: Vec<Row<Term>>,
    rights: Vec<Row<Term>>,
) -> Result<Option<Vec<Row<Term>>>, AllocError>
    ensures none { IfOk result (λ rows. is_none rows ≡ too_many (lefts.items ++ rights.items)) }
    ensures some { IfOk result (λ rows. IfSome rows (λ rows. rows.items ≡ lefts.items ++ rights.items)) }
{
    let mut rows = lefts;
    move_rows(&mut rows, rights)?;
    Ok(within_limit(rows))
}
