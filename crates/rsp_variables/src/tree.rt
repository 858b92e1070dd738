// Whether the rows of a whole tree bind a variable.
ghost use Rattle.std.specs.Prelude.{◌≡◌, IfOk};
ghost use Rattle.std.specs.Option.{IsSomeAnd};
ghost use Rattle.rsp_algebra.specs.Meanings.{node_of};
ghost use Rattle.rsp_algebra.specs.Patterns.{among};
ghost use Rattle.rsp_algebra.specs.Spines.{first_of};
ghost use Rattle.rsp_algebra.specs.Work.{certain_variables};
ghost use Rattle.rsp_variables.specs.Binding.{Binds};
ghost use Rattle.rsp_variables.specs.Possible.{possible_variables};

use crate::Binding;
use crate::nodes::{binding_of_pair, binding_over, leaf_binding};
use rsp_algebra::{Tree, second_child, spine};
use std::alloc::{AllocError, Global};

/// What the rows of the tree bind the variable in. Along first children it goes by a loop, since a union in a text has
/// thousands of groups. Fails only where memory is refused.
pub fn binding_of(alloc: Global, tree: &Tree, variable: usize) -> Result<Binding, AllocError>
    ensures certain { IfOk result (λ found. found.certain ≡ among (certain_variables (node_of tree.now)) variable) }
    ensures possible { IfOk result (λ found. found.possible ≡ among (possible_variables (node_of tree.now)) variable) }
{
    found_binding(alloc, tree, variable)
}

#[cycle(bindings)]
fn found_binding(alloc: Global, tree: &Tree, variable: usize) -> Result<Binding, AllocError>
    ensures { IfOk result (λ found. Binds variable found tree.now) }
{
    let (mut nodes, leaf) = spine(alloc, tree)?;
    let mut found = leaf_binding(leaf, variable);
    while let Some(node) = nodes.pop() {
        found = binding_above(alloc, node, variable, found)?;
    }
    Ok(found)
}

// of a tree from its first child
#[cycle(bindings)]
fn binding_above(
    alloc: Global,
    tree: &Tree,
    variable: usize,
    first: Binding,
) -> Result<Binding, AllocError>
    requires { IsSomeAnd (first_of tree.now) (Binds variable first) }
    ensures { IfOk result (λ found. Binds variable found tree.now) }
{
    let Some(right) = second_child(tree) else {
        return Ok(binding_over(tree, variable, first));
    };
    let second = found_binding(alloc, right, variable)?;
    Ok(binding_of_pair(tree, variable, first, second))
}
