//! Trees of one node over its children. Each call fails only where memory is refused.
ghost use Rattle.std.specs.Prelude.{◌≡◌, IfOk};
ghost use Rattle.rsp_expr.specs.Meanings.{formula_of};
ghost use Rattle.rsp_algebra.specs.Nodes as node;
ghost use Rattle.rsp_algebra.specs.Meanings.{node_of, aggregations_of};

use crate::{Place, Tree};
use rsp_expr::{Aggregate, Expression, Slot};
use rsp_multiset::{Cell, Row};
use rsp_terms::Term;
use std::alloc::{AllocError, Global};

/// A triple pattern at a place.
pub fn pattern(
    place: &Place,
    subject: &Slot,
    predicate: &Slot,
    object: &Slot,
) -> Result<Tree, AllocError>
    ensures { IfOk result (λ tree. node_of tree ≡ node.pattern place.now
        (record { subject = subject.now; predicate = predicate.now; object = object.now })) }
{
    let place = place.share()?;
    let (subject, predicate, object) = shared(subject, predicate, object)?;
    Ok(Tree::Pattern {
        place,
        subject,
        predicate,
        object,
    })
}

fn shared(subject: &Slot, predicate: &Slot, object: &Slot) -> Result<(Slot, Slot, Slot), AllocError>
    ensures subject { IfOk result (λ slots. slots.0 ≡ subject.now) }
    ensures predicate { IfOk result (λ slots. slots.1 ≡ predicate.now) }
    ensures object { IfOk result (λ slots. slots.2 ≡ object.now) }
{
    let subject = subject.share()?;
    let predicate = predicate.share()?;
    Ok((subject, predicate, object.share()?))
}

/// The join of two trees.
pub fn join(alloc: Global, left: Tree, right: Tree) -> Result<Tree, AllocError>
    ensures { IfOk result (λ tree. node_of tree ≡ node.of_two node.join (node_of left) (node_of right)) }
{
    Ok(Tree::Join {
        left: Box::new(alloc, left)?,
        right: Box::new(alloc, right)?,
    })
}

/// The left join of two trees on a condition.
pub fn left_join(
    alloc: Global,
    left: Tree,
    right: Tree,
    condition: &Expression,
) -> Result<Tree, AllocError>
    ensures { IfOk result (λ tree. node_of tree
        ≡ node.of_two (node.left_join (formula_of condition.now)) (node_of left) (node_of right)) }
{
    Ok(Tree::LeftJoin {
        left: Box::new(alloc, left)?,
        right: Box::new(alloc, right)?,
        condition: condition.share(alloc)?,
    })
}

/// The union of two trees.
pub fn union(alloc: Global, left: Tree, right: Tree) -> Result<Tree, AllocError>
    ensures { IfOk result (λ tree. node_of tree ≡ node.of_two node.union (node_of left) (node_of right)) }
{
    Ok(Tree::Union {
        left: Box::new(alloc, left)?,
        right: Box::new(alloc, right)?,
    })
}

/// The left tree without what the right one is compatible with.
pub fn minus(alloc: Global, left: Tree, right: Tree) -> Result<Tree, AllocError>
    ensures { IfOk result (λ tree. node_of tree ≡ node.of_two node.minus (node_of left) (node_of right)) }
{
    Ok(Tree::Minus {
        left: Box::new(alloc, left)?,
        right: Box::new(alloc, right)?,
    })
}

/// The left tree's solutions that the right one confirms on a condition.
pub fn exists(
    alloc: Global,
    left: Tree,
    right: Tree,
    condition: &Expression,
) -> Result<Tree, AllocError>
    ensures { IfOk result (λ tree. node_of tree
        ≡ node.of_two (node.exists (formula_of condition.now)) (node_of left) (node_of right)) }
{
    Ok(Tree::Exists {
        left: Box::new(alloc, left)?,
        right: Box::new(alloc, right)?,
        condition: condition.share(alloc)?,
    })
}

/// The left tree's solutions that the right one doesn't confirm on a condition.
pub fn not_exists(
    alloc: Global,
    left: Tree,
    right: Tree,
    condition: &Expression,
) -> Result<Tree, AllocError>
    ensures { IfOk result (λ tree. node_of tree
        ≡ node.of_two (node.not_exists (formula_of condition.now)) (node_of left) (node_of right)) }
{
    Ok(Tree::NotExists {
        left: Box::new(alloc, left)?,
        right: Box::new(alloc, right)?,
        condition: condition.share(alloc)?,
    })
}

/// The child's solutions on which a condition is true.
pub fn filter(alloc: Global, child: Tree, condition: &Expression) -> Result<Tree, AllocError>
    ensures { IfOk result (λ tree. node_of tree ≡ node.over (node.filter (formula_of condition.now)) (node_of child)) }
{
    Ok(Tree::Filter {
        child: Box::new(alloc, child)?,
        condition: condition.share(alloc)?,
    })
}

/// The child's solutions with the value of an expression at a variable.
pub fn extend(
    alloc: Global,
    child: Tree,
    variable: usize,
    expression: &Expression,
) -> Result<Tree, AllocError>
    ensures { IfOk result (λ tree. node_of tree ≡ node.over (node.extend variable (formula_of expression.now)) (node_of child)) }
{
    Ok(Tree::Extend {
        child: Box::new(alloc, child)?,
        variable,
        expression: expression.share(alloc)?,
    })
}

/// These rows.
pub fn values(alloc: Global, rows: &[Row<Term>]) -> Result<Tree, AllocError>
    ensures { IfOk result (λ tree. node_of tree ≡ node.values rows.now) }
{
    let mut others = Vec::new(alloc);
    for row in rows {
        others.push(row.share()?)?;
    }
    Ok(Tree::Values { rows: others })
}

/// The child's solutions with these variables alone.
pub fn project(alloc: Global, child: Tree, variables: &[usize]) -> Result<Tree, AllocError>
    ensures { IfOk result (λ tree. node_of tree ≡ node.over (node.project variables.now) (node_of child)) }
{
    Ok(Tree::Project {
        child: Box::new(alloc, child)?,
        variables: Vec::from_slice(alloc, variables)?,
    })
}

/// The child's solutions, each once.
pub fn distinct(alloc: Global, child: Tree) -> Result<Tree, AllocError>
    ensures { IfOk result (λ tree. node_of tree ≡ node.over node.distinct (node_of child)) }
{
    Ok(Tree::Distinct {
        child: Box::new(alloc, child)?,
    })
}

fn share_aggregates(
    alloc: Global,
    aggregates: &[(usize, Aggregate)],
) -> Result<Vec<(usize, Aggregate)>, AllocError>
    ensures { IfOk result (λ others. aggregations_of others.items ≡ aggregations_of aggregates.now) }
{
    let mut others = Vec::new(alloc);
    for entry in aggregates {
        let (variable, aggregate) = entry;
        others.push((*variable, aggregate.share(alloc)?))?;
    }
    Ok(others)
}

/// The groups of the child's solutions by keys, with aggregates over them.
pub fn group(
    alloc: Global,
    child: Tree,
    keys: &[usize],
    aggregates: &[(usize, Aggregate)],
) -> Result<Tree, AllocError>
    ensures { IfOk result (λ tree. node_of tree
        ≡ node.over (node.group keys.now (aggregations_of aggregates.now)) (node_of child)) }
{
    Ok(Tree::Group {
        child: Box::new(alloc, child)?,
        keys: Vec::from_slice(alloc, keys)?,
        aggregates: share_aggregates(alloc, aggregates)?,
    })
}
