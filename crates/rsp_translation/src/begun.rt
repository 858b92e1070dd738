// The tree of a group while its elements are taken.
ghost use Rattle.std.specs.Prelude.{◌≡◌, IfOk, None, cond, map, []};
ghost use Rattle.std.specs.Option.{option_map};
ghost use Rattle.rsp_expr.specs.Meanings.{formula_of};
ghost use Rattle.rsp_query.specs.Groups.{parts_in};
ghost use Rattle.rsp_query.specs.Meanings.{part_of};
ghost use Rattle.rsp_algebra.specs.Nodes as node;
ghost use Rattle.rsp_algebra.specs.Nodes.{Node};
ghost use Rattle.rsp_algebra.specs.Meanings.{node_of};
ghost use Rattle.rsp_translation.specs.Building.{begun_of};
ghost use Rattle.rsp_translation.specs.Begun as trees;

use crate::filters::condition;
use rsp_algebra::{Tree, nodes};
use rsp_query::{Element, Expression};
use std::alloc::{AllocError, Global};

/// A group so far: the tree of the elements before the run of triples at its end, and the join of this run, if one stands there.
#[derive(Drop)]
pub(crate) struct Begun {
    tree: Tree,
    run: Option<Tree>,
}

/// A group without an element.
pub(crate) fn nothing() -> Begun
    ensures { begun_of result ≡ trees.nothing }
{
    Begun {
        tree: Tree::Unit,
        run: None,
    }
}

// a group behind an element that ends the run
fn ended(tree: Tree) -> Begun
    ensures { begun_of result ≡ record { tree = node_of tree; run = None; tests = [] } }
{
    Begun { tree, run: None }
}

fn is_unit(tree: &Tree) -> bool
    ensures { (right : Node) → trees.joined (node_of tree.now) right
        ≡ cond result right (node.of_two node.join (node_of tree.now) right) }
{
    match tree {
        Tree::Unit => true,
        _ => false,
    }
}

// the unit vanishes on the left of a join
fn joined(alloc: Global, left: Tree, right: Tree) -> Result<Tree, AllocError>
    ensures { IfOk result (λ tree. node_of tree ≡ trees.joined (node_of left) (node_of right)) }
{
    if is_unit(&left) {
        return Ok(right);
    }
    nodes::join(alloc, left, right)
}

// at the end of a run
fn with_run(alloc: Global, tree: Tree, run: Option<Tree>) -> Result<Tree, AllocError>
    ensures { IfOk result (λ whole. node_of whole ≡ trees.with_run (node_of tree) (option_map node_of run)) }
{
    match run {
        None => Ok(tree),
        Some(run) => joined(alloc, tree, run),
    }
}

fn longer(alloc: Global, run: Option<Tree>, part: Tree) -> Result<Tree, AllocError>
    ensures { IfOk result (λ longer. node_of longer ≡ trees.longer (option_map node_of run) (node_of part)) }
{
    match run {
        None => Ok(part),
        Some(run) => nodes::join(alloc, run, part),
    }
}

/// The tree of the group so far. Fails only where memory is refused.
pub(crate) fn closed(alloc: Global, group: Begun) -> Result<Tree, AllocError>
    ensures { IfOk result (λ tree. node_of tree ≡ trees.closed (begun_of group)) }
{
    let Begun { tree, run } = group;
    with_run(alloc, tree, run)
}

/// The group with a triple's tree behind it. Fails only where memory is refused.
pub(crate) fn with_triple(alloc: Global, group: Begun, part: Tree) -> Result<Begun, AllocError>
    ensures { IfOk result (λ next. begun_of next ≡ trees.with_triple (begun_of group) (node_of part)) }
{
    let Begun { tree, run } = group;
    let run = longer(alloc, run, part)?;
    Ok(Begun {
        tree,
        run: Some(run),
    })
}

/// The group joined with a tree behind it. Fails only where memory is refused.
pub(crate) fn with_joined(alloc: Global, group: Begun, right: Tree) -> Result<Begun, AllocError>
    ensures { IfOk result (λ next. begun_of next
        ≡ trees.with_tree (begun_of group) (trees.joined (trees.closed (begun_of group)) (node_of right))) }
{
    let left = closed(alloc, group)?;
    Ok(ended(joined(alloc, left, right)?))
}

/// The group with an OPTIONAL behind it, of these elements and of this tree without its filters, which are the condition of
/// the left join. Fails only where memory is refused.
pub(crate) fn with_optional(
    alloc: Global,
    group: Begun,
    right: Tree,
    body: &[Element],
) -> Result<Begun, AllocError>
    ensures { IfOk result (λ next. begun_of next
        ≡ trees.with_tree (begun_of group) (node.of_two (node.left_join (trees.condition_of (parts_in (map part_of body.now))))
        (trees.closed (begun_of group)) (node_of right))) }
{
    let left = closed(alloc, group)?;
    Ok(ended(left_joined(alloc, left, right, body)?))
}

fn left_joined(alloc: Global, left: Tree, right: Tree, body: &[Element]) -> Result<Tree, AllocError>
    ensures { IfOk result (λ tree. node_of tree
        ≡ node.of_two (node.left_join (trees.condition_of (parts_in (map part_of body.now)))) (node_of left) (node_of right)) }
{
    nodes::left_join(alloc, left, right, &condition(alloc, body)?)
}

/// The group without what the tree behind it is compatible with. Fails only where memory is refused.
pub(crate) fn with_minus(alloc: Global, group: Begun, right: Tree) -> Result<Begun, AllocError>
    ensures { IfOk result (λ next. begun_of next
        ≡ trees.with_tree (begun_of group) (node.of_two node.minus (trees.closed (begun_of group)) (node_of right))) }
{
    let left = closed(alloc, group)?;
    Ok(ended(nodes::minus(alloc, left, right)?))
}

/// The group with a BIND behind it. Fails only where memory is refused.
pub(crate) fn with_bind(
    alloc: Global,
    group: Begun,
    variable: usize,
    expression: &Expression,
) -> Result<Begun, AllocError>
    ensures { IfOk result (λ next. begun_of next
        ≡ trees.with_tree (begun_of group)
        (node.over (node.extend variable (formula_of expression.now)) (trees.closed (begun_of group)))) }
{
    let child = closed(alloc, group)?;
    Ok(ended(nodes::extend(alloc, child, variable, expression)?))
}

/// The tree under an EXISTS, or a NOT EXISTS where negated, of a group of these elements, which is `right` without its filters.
/// Fails only where memory is refused.
pub(crate) fn tested(
    alloc: Global,
    left: Tree,
    negated: bool,
    right: Tree,
    body: &[Element],
) -> Result<Tree, AllocError>
    ensures { IfOk result (λ tree. node_of tree ≡ trees.tested (node_of left) (record {
      negated = negated;
      tree = node_of right;
      condition = trees.condition_of (parts_in (map part_of body.now));
    })) }
{
    let condition = condition(alloc, body)?;
    if negated {
        nodes::not_exists(alloc, left, right, &condition)
    } else {
        nodes::exists(alloc, left, right, &condition)
    }
}
