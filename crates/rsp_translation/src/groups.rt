// The trees of groups and SELECTs.
ghost use Rattle.std.specs.Prelude.{◌≡◌, IfOk, map};
ghost use Rattle.std.specs.List.{fold};
ghost use Rattle.rsp_query.specs.Groups.{groups_in, parts_in};
ghost use Rattle.rsp_query.specs.Meanings.{part_of, selection_of};
ghost use Rattle.rsp_algebra.specs.Meanings.{node_of};
ghost use Rattle.rsp_shapes.specs.Seeing.{branches_of};
ghost use Rattle.rsp_translation.specs.Building.{bare, begun_of, fixed_by, own_node, tests_in, tests_of, with_own};
ghost use Rattle.rsp_translation.specs.Begun as trees;

use crate::begun::{
    Begun, closed, nothing, tested, with_bind, with_joined, with_minus, with_optional, with_triple,
};
use crate::filters::filtered;
use crate::folding::unite_all;
use crate::paths::path_tree;
use crate::places::{graph_place, window_place};
use crate::selects::selected;
use crate::setting::Setting;
use crate::slashes::{slashes_in, slashes_of};
use crate::sums::sum;
use crate::values::values_tree;
use rsp_algebra::{Place, Tree};
use rsp_query::{Element, Select};
use std::alloc::{AllocError, Global};

// what an element has as a tree of its own, the unit where it has none; made apart from its group, which is owned elsewhere
#[cycle(groups)]
fn element_tree(
    element: &Element,
    alloc: Global,
    setting: &Setting<'_>,
    place: &Place,
    fresh: usize,
) -> Result<Tree, AllocError>
    ensures { IfOk result (λ tree. node_of tree ≡ own_node (fixed_by setting.now) place.now fresh (part_of element.now)) }
{
    match element {
        Element::Triple {
            subject,
            verb,
            object,
        } => path_tree(verb, alloc, place, fresh, subject, object),
        Element::Filter(_) => Ok(Tree::Unit),
        Element::Exists { .. } => Ok(Tree::Unit),
        Element::Optional(body) => elements_tree(body, alloc, setting, place, fresh),
        Element::Minus(body) => group_tree(body, alloc, setting, place, fresh),
        Element::Union(branches) => {
            unite_all(alloc, branch_trees(branches, alloc, setting, place, fresh)?)
        }
        Element::Graph { name, body, .. } => {
            group_tree(body, alloc, setting, &graph_place(name)?, fresh)
        }
        Element::Window { name, body, .. } => {
            let place = window_place(setting.windows, name)?;
            group_tree(body, alloc, setting, &place, fresh)
        }
        Element::Bind { .. } => Ok(Tree::Unit),
        Element::Values { variables, rows } => {
            values_tree(alloc, setting.width, variables.as_slice(), rows)
        }
        Element::Sub(select) => select_tree(select, alloc, setting, place, fresh),
    }
}

// the group with one more element, of which this is the tree; its EXISTS are tested at its end
fn with_own(element: &Element, alloc: Global, group: Begun, tree: Tree) -> Result<Begun, AllocError>
    ensures { IfOk result (λ next. begun_of next ≡ with_own (begun_of group) (node_of tree) (part_of element.now)) }
{
    match element {
        Element::Triple { .. } => with_triple(alloc, group, tree),
        Element::Filter(_) => Ok(group),
        Element::Exists { .. } => Ok(group),
        Element::Optional(body) => with_optional(alloc, group, tree, body),
        Element::Minus(_) => with_minus(alloc, group, tree),
        Element::Union(_) => with_joined(alloc, group, tree),
        Element::Graph { .. } => with_joined(alloc, group, tree),
        Element::Window { .. } => with_joined(alloc, group, tree),
        Element::Bind {
            variable,
            expression,
        } => with_bind(alloc, group, *variable, expression),
        Element::Values { .. } => with_joined(alloc, group, tree),
        Element::Sub(_) => with_joined(alloc, group, tree),
    }
}

// the group with one more element
#[cycle(groups)]
fn with_element(
    element: &Element,
    alloc: Global,
    setting: &Setting<'_>,
    place: &Place,
    fresh: usize,
    group: Begun,
) -> Result<Begun, AllocError>
    ensures { IfOk result (λ next. begun_of next
        ≡ bare (trees.with_part (fixed_by setting.now) place.now fresh (begun_of group) (part_of element.now))) }
{
    let tree = element_tree(element, alloc, setting, place, fresh)?;
    with_own(element, alloc, group, tree)
}

#[cycle(groups)]
fn with_elements(
    elements: &[Element],
    alloc: Global,
    setting: &Setting<'_>,
    place: &Place,
    fresh: usize,
) -> Result<Begun, AllocError>
    ensures { IfOk result (λ group. begun_of group
        ≡ bare (trees.with_parts (fixed_by setting.now) place.now fresh trees.nothing (parts_in (map part_of elements.now)))) }
{
    let mut group = nothing();
    let mut next = fresh;
    for element in elements {
        group = with_element(element, alloc, setting, place, next, group)?;
        next = sum(next, slashes_of(element)?)?;
    }
    Ok(group)
}

// a group without its own filters
#[cycle(groups)]
fn elements_tree(
    body: &[Element],
    alloc: Global,
    setting: &Setting<'_>,
    place: &Place,
    fresh: usize,
) -> Result<Tree, AllocError>
    ensures { IfOk result (λ tree. node_of tree
        ≡ trees.elements_node (fixed_by setting.now) place.now fresh (parts_in (map part_of body.now))) }
{
    closed(alloc, with_elements(body, alloc, setting, place, fresh)?)
}

// the tree under the test of an element, if it is an EXISTS
#[cycle(groups)]
fn with_test(
    element: &Element,
    alloc: Global,
    setting: &Setting<'_>,
    place: &Place,
    fresh: usize,
    left: Tree,
) -> Result<Tree, AllocError>
    ensures { IfOk result (λ tree. node_of tree
        ≡ fold trees.tested (node_of left) (tests_of (fixed_by setting.now) place.now fresh (part_of element.now))) }
{
    match element {
        Element::Exists { negated, body, .. } => {
            let right = elements_tree(body, alloc, setting, place, fresh)?;
            tested(alloc, left, *negated, right, body)
        }
        _ => Ok(left),
    }
}

// the tree under the EXISTS of a group
#[cycle(groups)]
fn with_tests(
    elements: &[Element],
    alloc: Global,
    setting: &Setting<'_>,
    place: &Place,
    fresh: usize,
    tree: Tree,
) -> Result<Tree, AllocError>
    ensures { IfOk result (λ whole. node_of whole
        ≡ fold trees.tested (node_of tree)
        (tests_in (fixed_by setting.now) place.now fresh (parts_in (map part_of elements.now)))) }
{
    let mut whole = tree;
    let mut next = fresh;
    for element in elements {
        whole = with_test(element, alloc, setting, place, next, whole)?;
        next = sum(next, slashes_of(element)?)?;
    }
    Ok(whole)
}

// a whole group
#[cycle(groups)]
fn group_tree(
    body: &[Element],
    alloc: Global,
    setting: &Setting<'_>,
    place: &Place,
    fresh: usize,
) -> Result<Tree, AllocError>
    ensures { IfOk result (λ tree. node_of tree
        ≡ trees.group_node (fixed_by setting.now) place.now fresh (parts_in (map part_of body.now))) }
{
    let elements = elements_tree(body, alloc, setting, place, fresh)?;
    let filtered = filtered(alloc, body, elements)?;
    with_tests(body, alloc, setting, place, fresh, filtered)
}

#[cycle(groups)]
fn branch_trees(
    branches: &[Vec<Element>],
    alloc: Global,
    setting: &Setting<'_>,
    place: &Place,
    fresh: usize,
) -> Result<Vec<Tree>, AllocError>
    ensures { IfOk result (λ made. map node_of made.items
        ≡ trees.group_nodes (fixed_by setting.now) place.now fresh (groups_in (branches_of branches.now))) }
{
    let mut made = Vec::new(alloc);
    let mut next = fresh;
    for branch in branches {
        made.push(group_tree(branch, alloc, setting, place, next)?)?;
        next = sum(next, slashes_in(branch)?)?;
    }
    Ok(made)
}

/// The tree of a SELECT at a place. Its `/` have the variables from `fresh` on, in the order of the text. Fails only where memory
/// is refused.
#[cycle(groups)]
pub(crate) fn select_tree(
    select: &Select,
    alloc: Global,
    setting: &Setting<'_>,
    place: &Place,
    fresh: usize,
) -> Result<Tree, AllocError>
    ensures { IfOk result (λ tree. node_of tree
        ≡ trees.select_node (fixed_by setting.now) place.now fresh (selection_of select.now)) }
{
    let group = group_tree(&select.body, alloc, setting, place, fresh)?;
    selected(alloc, setting.names, select, group)
}
