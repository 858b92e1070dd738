// Rows with the value of an expression.
ghost use Rattle.std.specs.Prelude.{◌≡◌, IfOk, map};
ghost use Rattle.rsp_expr.specs.Meanings.{formula_of};
ghost use Rattle.rsp_algebra.specs.Solutions.{extended_by};

use crate::expressions::value;
use rsp_expr::Expression;
use rsp_multiset::Row;
use rsp_terms::Term;
use std::alloc::{AllocError, Global};

// the row with the expression's value for the variable
fn extend_by_value(
    alloc: Global,
    width: usize,
    variable: usize,
    expression: &Expression,
    row: &Row<Term>,
) -> Result<Row<Term>, AllocError>
    ensures { IfOk result (λ made. made ≡ extended_by width variable (formula_of expression.now) row.now) }
{
    let term = value(alloc, expression, row)?;
    row.extended(width, variable, &term)
}

/// The rows with the expression's value for the variable, in their order; an error leaves it unbound.
pub(crate) fn extend_rows(
    alloc: Global,
    width: usize,
    variable: usize,
    expression: &Expression,
    rows: &[Row<Term>],
) -> Result<Vec<Row<Term>>, AllocError>
    ensures { IfOk result (λ made. made.items ≡ map (extended_by width variable (formula_of expression.now)) rows.now) }
{
    let mut extended_rows = Vec::new(alloc);
    for row in rows {
        extended_rows.push(extend_by_value(alloc, width, variable, expression, row)?)?;
    }
    Ok(extended_rows)
}
