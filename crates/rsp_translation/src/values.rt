// The rows of VALUES.
ghost use Rattle.std.specs.Prelude.{◌≡◌, IfOk, map};
ghost use Rattle.rsp_algebra.specs.Nodes as node;
ghost use Rattle.rsp_algebra.specs.Meanings.{node_of};
ghost use Rattle.rsp_translation.specs.Trees as trees;

use rsp_algebra::Tree;
use rsp_multiset::{Cell, Row};
use rsp_terms::{Listed, Term};
use std::alloc::{AllocError, Global};

/// The tree of rows of values for these variables; its rows have that width. Fails only where memory is refused.
pub(crate) fn values_tree(
    alloc: Global,
    width: usize,
    variables: &[usize],
    rows: &[Listed<Option<Term>>],
) -> Result<Tree, AllocError>
    ensures { IfOk result (λ tree. node_of tree ≡ node.values (map (trees.values_row width variables.now) rows.now)) }
{
    let mut made = Vec::new(alloc);
    for row in rows {
        made.push(values_row(alloc, width, variables, row.as_slice())?)?;
    }
    Ok(Tree::Values { rows: made })
}

fn values_row(
    alloc: Global,
    width: usize,
    variables: &[usize],
    cells: &[Option<Term>],
) -> Result<Row<Term>, AllocError>
    ensures { IfOk result (λ row. row ≡ trees.values_row width variables.now cells.now) }
{
    let mut row = Vec::new(alloc);
    for variable in 0..width {
        row.push(value_for(variables, cells, variable)?)?;
    }
    Ok(Row::new(row))
}

fn value_for(
    variables: &[usize],
    cells: &[Option<Term>],
    variable: usize,
) -> Result<Option<Term>, AllocError>
    ensures { IfOk result (λ value. value ≡ trees.value_for variables.now cells.now variable) }
{
    for index in 0..variables.len() {
        let Some(cell) = cells.get(index) else {
            return Ok(None);
        };
        if variable == variables[index] {
            return share_cell(cell);
        }
    }
    Ok(None)
}

fn share_cell(cell: &Option<Term>) -> Result<Option<Term>, AllocError>
    ensures { IfOk result (λ other. other ≡ cell.now) }
{
    match cell {
        Some(term) => Ok(Some(term.share()?)),
        None => Ok(None),
    }
}
