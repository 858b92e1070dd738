// Nodes whose rows are the same over all facts.
ghost use Rattle.std.specs.Prelude.{◌≡◌, ◌∷◌, [], None, List, IfOk};
ghost use Rattle.rsp_algebra.specs.Meanings.{node_of};
ghost use Rattle.rsp_algebra.specs.Solutions.{eval};
ghost use Rattle.rsp_kinds.specs.Made.{IsGiven};
ghost use Rattle.rsp_multiset.specs.Variables.{row_by};
ghost use Rattle.rsp_terms.specs.declared.statement.Fact.{Fact};

use rsp_algebra::Tree;
use rsp_multiset::{Cell, Row};
use rsp_terms::{Listed, Term};
use std::alloc::{AllocError, Global};

/// The rows of the tree over whatever facts, where its root gives them. Fails only where memory is refused.
pub fn given_rows(alloc: Global, tree: &Tree, width: usize) -> Result<Listed<Row<Term>>, AllocError>
    requires { IsGiven (node_of tree.now) }
    ensures { IfOk result (λ rows. (facts : List Fact) → eval width (node_of tree.now) facts ≡ rows) }
{
    match tree {
        Tree::Unit => unit_rows(alloc, width),
        Tree::Values { rows } => shared_rows(alloc, rows),
        _ => unreachable!(),
    }
}

fn unit_rows(alloc: Global, width: usize) -> Result<Listed<Row<Term>>, AllocError>
    ensures { IfOk result (λ rows. rows ≡ row_by width (λ _. None) ∷ []) }
{
    let mut rows = Listed::new(alloc);
    rows.push(Row::unbound(alloc, width)?)?;
    Ok(rows)
}

fn shared_rows(alloc: Global, rows: &[Row<Term>]) -> Result<Listed<Row<Term>>, AllocError>
    ensures { IfOk result (λ others. others ≡ rows.now) }
{
    let mut others = Vec::new(alloc);
    for row in rows {
        others.push(row.share()?)?;
    }
    Ok(Listed::from_vec(others))
}
