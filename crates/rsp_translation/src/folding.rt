// Joins and unions of many trees.
ghost use Rattle.std.specs.Prelude.{◌≡◌, IfOk, map};
ghost use Rattle.rsp_algebra.specs.Nodes as node;
ghost use Rattle.rsp_algebra.specs.Meanings.{node_of};
ghost use Rattle.rsp_translation.specs.Paths.{from_left};

use rsp_algebra::{Tree, nodes};
use std::alloc::{AllocError, Global};

/// The trees joined from the left; the unit where there are none.
pub(crate) fn join_all(alloc: Global, trees: Vec<Tree>) -> Result<Tree, AllocError>
    ensures { IfOk result (λ whole. node_of whole ≡ from_left (node.of_two node.join) (map node_of trees.items)) }
{
    let mut rest = trees.into_iter();
    let Some(mut whole) = rest.next() else {
        return Ok(Tree::Unit);
    };
    for tree in rest {
        whole = nodes::join(alloc, whole, tree)?;
    }
    Ok(whole)
}

/// The union of the trees, from the left; the unit where there are none.
pub(crate) fn unite_all(alloc: Global, trees: Vec<Tree>) -> Result<Tree, AllocError>
    ensures { IfOk result (λ whole. node_of whole ≡ from_left (node.of_two node.union) (map node_of trees.items)) }
{
    let mut rest = trees.into_iter();
    let Some(mut whole) = rest.next() else {
        return Ok(Tree::Unit);
    };
    for tree in rest {
        whole = nodes::union(alloc, whole, tree)?;
    }
    Ok(whole)
}
