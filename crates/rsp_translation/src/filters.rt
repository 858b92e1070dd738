// A group's own filters.
ghost use Rattle.std.specs.Prelude.{◌≡◌, ◌++◌, IfOk, map};
ghost use Rattle.rsp_expr.specs.Meanings.{formula_of};
ghost use Rattle.rsp_query.specs.Groups.{parts_in};
ghost use Rattle.rsp_query.specs.Meanings.{part_of};
ghost use Rattle.rsp_algebra.specs.Meanings.{node_of};
ghost use Rattle.rsp_translation.specs.Begun as trees;

use rsp_algebra::{Tree, nodes};
use rsp_query::{Element, Expression};
use std::alloc::{AllocError, Global};

// with the condition of the element, if it is a filter
fn with_filter(
    alloc: Global,
    conditions: Vec<Expression>,
    element: &Element,
) -> Result<Vec<Expression>, AllocError>
    ensures { IfOk result (λ longer. map formula_of longer.items
        ≡ map formula_of conditions.items ++ trees.filter_of (part_of element.now)) }
{
    let mut conditions = conditions;
    match element {
        Element::Filter(condition) => {
            conditions.push(condition.share(alloc)?)?;
            Ok(conditions)
        }
        _ => Ok(conditions),
    }
}

// the conditions of a group's own filters
fn filters(alloc: Global, body: &[Element]) -> Result<Vec<Expression>, AllocError>
    ensures { IfOk result (λ conditions. map formula_of conditions.items ≡ trees.filters (parts_in (map part_of body.now))) }
{
    let mut conditions = Vec::new(alloc);
    for element in body {
        conditions = with_filter(alloc, conditions, element)?;
    }
    Ok(conditions)
}

/// The conjunction of a group's own filters; true where there are none. Fails only where memory is refused.
pub(crate) fn condition(alloc: Global, body: &[Element]) -> Result<Expression, AllocError>
    ensures { IfOk result (λ condition. formula_of condition ≡ trees.condition_of (parts_in (map part_of body.now))) }
{
    Ok(Expression::And(filters(alloc, body)?))
}

/// A group's tree under its own filters. Fails only where memory is refused.
pub(crate) fn filtered(alloc: Global, body: &[Element], tree: Tree) -> Result<Tree, AllocError>
    ensures { IfOk result (λ filtered. node_of filtered
        ≡ trees.filtered (trees.filters (parts_in (map part_of body.now))) (node_of tree)) }
{
    let conditions = filters(alloc, body)?;
    if conditions.is_empty() {
        return Ok(tree);
    }
    nodes::filter(alloc, tree, &Expression::And(conditions))
}
