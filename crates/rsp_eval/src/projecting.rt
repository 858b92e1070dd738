// One row without bindings, and rows cut to some of their variables.
ghost use Rattle.std.specs.Prelude.{◌≡◌, None, IfOk, map, ◌∷◌, []};
ghost use Rattle.rsp_algebra.specs.Patterns.{row_by};
ghost use Rattle.rsp_algebra.specs.Solutions.{projection};

use rsp_multiset::Row;
use rsp_terms::Term;
use std::alloc::{AllocError, Global};

/// One row, which binds nothing.
pub(crate) fn unit_rows(alloc: Global, width: usize) -> Result<Vec<Row<Term>>, AllocError>
    ensures { IfOk result (λ rows. rows.items ≡ row_by width (λ _. None) ∷ []) }
{
    let mut rows = Vec::new(alloc);
    rows.push(Row::unbound(alloc, width)?)?;
    Ok(rows)
}

/// The rows with all variables but these unbound, in their order.
pub(crate) fn project_rows(
    alloc: Global,
    width: usize,
    variables: &[usize],
    rows: &[Row<Term>],
) -> Result<Vec<Row<Term>>, AllocError>
    ensures { IfOk result (λ made. made.items ≡ map (projection width variables.now) rows.now) }
{
    let mut projected_rows = Vec::new(alloc);
    for row in rows {
        projected_rows.push(row.projected(width, variables)?)?;
    }
    Ok(projected_rows)
}
