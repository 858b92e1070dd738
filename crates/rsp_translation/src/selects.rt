// What the clauses of a SELECT make of the tree of its group.
ghost use Rattle.std.specs.Prelude.{◌≡◌, ◌&&◌, if◌then◌else◌, [], ◌∷◌, ◌++◌, IfOk, OnOk, map};
ghost use Rattle.rsp_expr.specs.Meanings.{maybe_formula};
ghost use Rattle.rsp_query.specs.Groups.{parts_in};
ghost use Rattle.rsp_query.specs.Meanings.{item_of, numbered_aggregation, part_of, selection_of};
ghost use Rattle.rsp_algebra.specs.Meanings.{node_of};
ghost use Rattle.rsp_shapes.specs.Visible as visible;
ghost use Rattle.rsp_translation.specs.Selects as selects;

use rsp_algebra::{Tree, nodes};
use rsp_query::{Aggregate, Element, Expression, Select, SelectItem};
use rsp_shapes::{has_name, is_visible_in};
use rsp_terms::Text;
use std::alloc::{AllocError, Global};

// `*` projects the variable
fn is_shown(names: &[Text], body: &[Element], variable: usize) -> bool
    ensures { result ≡ (visible.is_given (visible.name_of names.now variable)
        && visible.is_visible_in names.now (parts_in (map part_of body.now)) variable) }
{
    if !has_name(names, variable) {
        return false;
    }
    is_visible_in(names, body, variable)
}

// the variables that `*` projects
fn every_variable(alloc: Global, names: &[Text], body: &[Element]) -> Result<Vec<usize>, AllocError>
    ensures { IfOk result (λ variables. variables.items ≡ selects.every_variable names.now (parts_in (map part_of body.now))) }
{
    let mut variables = Vec::new(alloc);
    for variable in 0..names.len() {
        push_where(&mut variables, is_shown(names, body, variable), variable)?;
    }
    Ok(variables)
}

fn push_where(variables: &mut Vec<usize>, wanted: bool, variable: usize) -> Result<(), AllocError>
    ensures { OnOk result (variables.new.items ≡ variables.old.items ++ (if wanted then variable ∷ [] else [])) }
{
    if wanted {
        variables.push(variable)?;
    }
    Ok(())
}

fn variables_of(alloc: Global, items: &[SelectItem]) -> Result<Vec<usize>, AllocError>
    ensures { IfOk result (λ variables. variables.items ≡ visible.variables_of (map item_of items.now)) }
{
    let mut variables = Vec::new(alloc);
    for item in items {
        variables.push(item.variable)?;
    }
    Ok(variables)
}

/// The variables that a SELECT projects, in order. Fails only where memory is refused.
pub(crate) fn projected(
    alloc: Global,
    names: &[Text],
    select: &Select,
) -> Result<Vec<usize>, AllocError>
    ensures { IfOk result (λ variables. variables.items ≡ selects.projected names.now (selection_of select.now)) }
{
    if select.star {
        return every_variable(alloc, names, &select.body);
    }
    variables_of(alloc, &select.items)
}

fn with_item(alloc: Global, tree: Tree, item: &SelectItem) -> Result<Tree, AllocError>
    ensures { IfOk result (λ whole. node_of whole
        ≡ selects.with_item (node_of tree) item.now.variable (maybe_formula item.now.expression)) }
{
    match &item.expression {
        None => Ok(tree),
        Some(expression) => nodes::extend(alloc, tree, item.variable, expression),
    }
}

// with what the items compute
fn with_items(alloc: Global, tree: Tree, items: &[SelectItem]) -> Result<Tree, AllocError>
    ensures { IfOk result (λ whole. node_of whole ≡ selects.with_items (node_of tree) (map item_of items.now)) }
{
    let mut whole = tree;
    for item in items {
        whole = with_item(alloc, whole, item)?;
    }
    Ok(whole)
}

fn with_groups(
    alloc: Global,
    tree: Tree,
    grouped: bool,
    keys: &[SelectItem],
    aggregates: &[(usize, Aggregate)],
) -> Result<Tree, AllocError>
    ensures { IfOk result (λ whole. node_of whole ≡ selects.with_groups grouped (map item_of keys.now)
        (map numbered_aggregation aggregates.now) (node_of tree)) }
{
    if !grouped {
        return Ok(tree);
    }
    let keys = variables_of(alloc, keys)?;
    nodes::group(alloc, tree, &keys, aggregates)
}

fn with_having(alloc: Global, tree: Tree, having: &Option<Expression>) -> Result<Tree, AllocError>
    ensures { IfOk result (λ whole. node_of whole ≡ selects.with_having (maybe_formula having.now) (node_of tree)) }
{
    match having {
        None => Ok(tree),
        Some(condition) => nodes::filter(alloc, tree, condition),
    }
}

fn with_distinct(alloc: Global, tree: Tree, distinct: bool) -> Result<Tree, AllocError>
    ensures { IfOk result (λ whole. node_of whole ≡ selects.with_distinct distinct (node_of tree)) }
{
    if distinct {
        nodes::distinct(alloc, tree)
    } else {
        Ok(tree)
    }
}

// what keys, aggregates and HAVING make of the tree
fn with_keys(alloc: Global, tree: Tree, select: &Select) -> Result<Tree, AllocError>
    ensures { IfOk result (λ whole. node_of whole ≡ selects.with_having (maybe_formula select.now.having)
        (selects.with_groups select.now.grouped (map item_of select.now.keys.items)
        (map numbered_aggregation select.now.aggregates.items)
        (selects.with_items (node_of tree) (map item_of select.now.keys.items)))) }
{
    let keyed = with_items(alloc, tree, &select.keys)?;
    let grouped = with_groups(
        alloc,
        keyed,
        select.grouped,
        &select.keys,
        &select.aggregates,
    )?;
    with_having(alloc, grouped, &select.having)
}

/// What a SELECT makes of its group's tree. Fails only where memory is refused.
pub(crate) fn selected(
    alloc: Global,
    names: &[Text],
    select: &Select,
    tree: Tree,
) -> Result<Tree, AllocError>
    ensures { IfOk result (λ whole. node_of whole ≡ selects.selected names.now (selection_of select.now) (node_of tree)) }
{
    let grouped = with_keys(alloc, tree, select)?;
    let computed = with_items(alloc, grouped, &select.items)?;
    let variables = projected(alloc, names, select)?;
    let shown = nodes::project(alloc, computed, &variables)?;
    with_distinct(alloc, shown, select.distinct)
}
