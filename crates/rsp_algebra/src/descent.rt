// The nodes from a tree down along its first children. They are as many as a union in a text has groups, so nothing may
// recurse along them.
ghost use Rattle.std.specs.Prelude.{◌≡◌, ◌<◌, None, Some, IfOk, IfSome};
ghost use Rattle.std.specs.Option.{option_copied};
ghost use Rattle.rsp_algebra.specs.declared.tree.Tree.{size-Tree};
ghost use Rattle.rsp_algebra.specs.Spines.{first_of, second_of, Leads, AreNoDeeper};

use crate::Tree;
use std::alloc::{AllocError, Global};

/// The left one of two children, or the only one.
pub(crate) fn first_child(tree: &Tree) -> Option<&Tree>
    ensures child { option_copied result ≡ first_of tree.now }
    ensures smaller { IfSome result (λ child. size-Tree child.now < size-Tree tree.now) }
{
    match tree {
        Tree::Unit => None,
        Tree::Pattern { .. } => None,
        Tree::Join { left, .. } => Some(left),
        Tree::LeftJoin { left, .. } => Some(left),
        Tree::Union { left, .. } => Some(left),
        Tree::Minus { left, .. } => Some(left),
        Tree::Exists { left, .. } => Some(left),
        Tree::NotExists { left, .. } => Some(left),
        Tree::Filter { child, .. } => Some(child),
        Tree::Extend { child, .. } => Some(child),
        Tree::Values { .. } => None,
        Tree::Project { child, .. } => Some(child),
        Tree::Distinct { child } => Some(child),
        Tree::Group { child, .. } => Some(child),
    }
}

/// The right one of two children.
pub fn second_child(tree: &Tree) -> Option<&Tree>
    ensures child { option_copied result ≡ second_of tree.now }
    ensures smaller { IfSome result (λ child. size-Tree child.now < size-Tree tree.now) }
{
    match tree {
        Tree::Join { right, .. } => Some(right),
        Tree::LeftJoin { right, .. } => Some(right),
        Tree::Union { right, .. } => Some(right),
        Tree::Minus { right, .. } => Some(right),
        Tree::Exists { right, .. } => Some(right),
        Tree::NotExists { right, .. } => Some(right),
        _ => None,
    }
}

/// The inner nodes from the tree down along first children, the tree itself first, and the leaf at their end. Fails only
/// where memory is refused.
pub fn spine(alloc: Global, tree: &Tree) -> Result<(Vec<&Tree>, &Tree), AllocError>
    ensures way { IfOk result (λ way. Leads (Some tree.now) way.0.items (λ end. end ≡ way.1.now)) }
    ensures deep { IfOk result (λ way. AreNoDeeper (size-Tree tree.now) way.0.items) }
    ensures leaf { IfOk result (λ way. first_of way.1.now ≡ None) }
{
    let mut nodes = Vec::new(alloc);
    let mut end = tree;
    while let Some(child) = first_child(end) {
        nodes.push(end)?;
        end = child;
    }
    Ok((nodes, end))
}
