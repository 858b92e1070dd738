// Groups and SELECTs with numbers in place of names.
ghost use Rattle.std.specs.Prelude.{◌≡◌, ◌++◌, ◌∷◌, [], IfOk, OnOk, map};
ghost use Rattle.rsp_query.specs.Meanings as query;
ghost use Rattle.rsp_written.specs.Building.{elements_in, groups_in};
ghost use Rattle.rsp_written.specs.GroupMeanings as written;
ghost use Rattle.rsp_written.specs.Meanings.{expr_of};
ghost use Rattle.rsp_written.specs.Trees as trees;
ghost use Rattle.rsp_numbering.specs.Naming as naming;
ghost use Rattle.rsp_numbering.specs.Seeing.{branches_of, scopes_of, written_branches_of};
ghost use Rattle.rsp_numbering.specs.SelectionSteps as numbered;

use crate::Before;
use crate::items::{
    graph_of, having_of, is_grouped, keys_of, numbers_of, plain, projected, rows_of,
};
use crate::scopes::{Scope, is_every, number_of, within};
use crate::triples::put_triples;
use rsp_query::{Element, Select};
use rsp_terms::Text;
use rsp_written::{Element as Written, Expression, GraphName, Values};
use std::alloc::{AllocError, Global};

// puts an element's parts behind those that are there
#[cycle(groups)]
fn put_element(
    alloc: Global,
    at: &[Scope],
    before: &mut Before,
    element: &Written,
    parts: &mut Vec<Element>,
) -> Result<(), AllocError>
    ensures parts { OnOk result (map query.part_of parts.new.items
        ≡ numbered.with_element (scopes_of at.now) before.old (map query.part_of parts.old.items)
        (written.element_of element.now)) }
    ensures behind { OnOk result (before.new
        ≡ numbered.behind_element (scopes_of at.now) before.old (written.element_of element.now)) }
{
    match element {
        Written::Triples(subject) => put_triples(alloc, at, before, subject, parts),
        Written::Optional(body) => put_optional(alloc, at, before, body, parts),
        Written::Minus(body) => put_minus(alloc, at, before, body, parts),
        Written::Union(branches) => put_union(alloc, at, before, branches, parts),
        Written::Graph {
            name,
            at: place,
            body,
        } => put_graph(alloc, at, before, name, *place, body, parts),
        Written::Window {
            name,
            at: place,
            body,
        } => put_window(alloc, at, before, name, *place, body, parts),
        Written::Filter(expression) => put_filter(alloc, at, before, expression, parts),
        Written::Exists {
            negated,
            at: place,
            body,
        } => put_exists(alloc, at, before, *negated, *place, body, parts),
        Written::Bind { expression, name } => {
            put_bind(alloc, at, before, expression, name, parts)
        }
        Written::Values(block) => put_values(alloc, at, before, block, parts),
        Written::Sub(inner) => put_sub(alloc, at, before, inner, parts),
    }
}

#[cycle(groups)]
fn put_optional(
    alloc: Global,
    at: &[Scope],
    before: &mut Before,
    body: &[Written],
    parts: &mut Vec<Element>,
) -> Result<(), AllocError>
    ensures parts { OnOk result (map query.part_of parts.new.items
        ≡ numbered.with_element (scopes_of at.now) before.old (map query.part_of parts.old.items)
        (trees.optional_group (elements_in (map written.element_of body.now)))) }
    ensures behind { OnOk result (before.new
        ≡ numbered.behind_element (scopes_of at.now) before.old
        (trees.optional_group (elements_in (map written.element_of body.now)))) }
{
    let body = group(alloc, at, before, body)?;
    put(parts, Element::Optional(body))
}

#[cycle(groups)]
fn put_minus(
    alloc: Global,
    at: &[Scope],
    before: &mut Before,
    body: &[Written],
    parts: &mut Vec<Element>,
) -> Result<(), AllocError>
    ensures parts { OnOk result (map query.part_of parts.new.items
        ≡ numbered.with_element (scopes_of at.now) before.old (map query.part_of parts.old.items)
        (trees.minus_group (elements_in (map written.element_of body.now)))) }
    ensures behind { OnOk result (before.new
        ≡ numbered.behind_element (scopes_of at.now) before.old
        (trees.minus_group (elements_in (map written.element_of body.now)))) }
{
    let body = group(alloc, at, before, body)?;
    put(parts, Element::Minus(body))
}

#[cycle(groups)]
fn put_union(
    alloc: Global,
    at: &[Scope],
    before: &mut Before,
    branches: &[Vec<Written>],
    parts: &mut Vec<Element>,
) -> Result<(), AllocError>
    ensures parts { OnOk result (map query.part_of parts.new.items
        ≡ numbered.with_element (scopes_of at.now) before.old (map query.part_of parts.old.items)
        (trees.union_of (groups_in (written_branches_of branches.now)))) }
    ensures behind { OnOk result (before.new
        ≡ numbered.behind_element (scopes_of at.now) before.old
        (trees.union_of (groups_in (written_branches_of branches.now)))) }
{
    let branches = groups(alloc, at, before, branches)?;
    put(parts, Element::Union(branches))
}

#[cycle(groups)]
fn put_sub(
    alloc: Global,
    at: &[Scope],
    before: &mut Before,
    inner: &rsp_written::Select,
    parts: &mut Vec<Element>,
) -> Result<(), AllocError>
    ensures parts { OnOk result (map query.part_of parts.new.items
        ≡ numbered.with_element (scopes_of at.now) before.old (map query.part_of parts.old.items)
        (trees.sub_select (written.select_of inner.now))) }
    ensures behind { OnOk result (before.new
        ≡ numbered.behind_element (scopes_of at.now) before.old (trees.sub_select (written.select_of inner.now))) }
{
    let inner = select(alloc, at, before, inner)?;
    put(parts, Element::Sub(Box::new(alloc, inner)?))
}

#[cycle(groups)]
fn put_graph(
    alloc: Global,
    at: &[Scope],
    before: &mut Before,
    name: &GraphName,
    place: usize,
    body: &[Written],
    parts: &mut Vec<Element>,
) -> Result<(), AllocError>
    ensures parts { OnOk result (map query.part_of parts.new.items
        ≡ numbered.with_element (scopes_of at.now) before.old (map query.part_of parts.old.items)
        (trees.graph_group (written.graph_of name.now) place (elements_in (map written.element_of body.now)))) }
    ensures behind { OnOk result (before.new
        ≡ numbered.behind_element (scopes_of at.now) before.old
        (trees.graph_group (written.graph_of name.now) place (elements_in (map written.element_of body.now)))) }
{
    let name = graph_of(at, before, name)?;
    let body = group(alloc, at, before, body)?;
    let at = place;
    put(parts, Element::Graph { name, at, body })
}

#[cycle(groups)]
fn put_window(
    alloc: Global,
    at: &[Scope],
    before: &mut Before,
    name: &Text,
    place: usize,
    body: &[Written],
    parts: &mut Vec<Element>,
) -> Result<(), AllocError>
    ensures parts { OnOk result (map query.part_of parts.new.items
        ≡ numbered.with_element (scopes_of at.now) before.old (map query.part_of parts.old.items)
        (trees.window_group name.now place (elements_in (map written.element_of body.now)))) }
    ensures behind { OnOk result (before.new
        ≡ numbered.behind_element (scopes_of at.now) before.old
        (trees.window_group name.now place (elements_in (map written.element_of body.now)))) }
{
    let body = group(alloc, at, before, body)?;
    let name = name.share()?;
    let at = place;
    put(parts, Element::Window { name, at, body })
}

#[cycle(groups)]
fn put_exists(
    alloc: Global,
    at: &[Scope],
    before: &mut Before,
    negated: bool,
    place: usize,
    body: &[Written],
    parts: &mut Vec<Element>,
) -> Result<(), AllocError>
    ensures parts { OnOk result (map query.part_of parts.new.items
        ≡ numbered.with_element (scopes_of at.now) before.old (map query.part_of parts.old.items)
        (trees.exists negated place (elements_in (map written.element_of body.now)))) }
    ensures behind { OnOk result (before.new
        ≡ numbered.behind_element (scopes_of at.now) before.old
        (trees.exists negated place (elements_in (map written.element_of body.now)))) }
{
    let body = group(alloc, at, before, body)?;
    let at = place;
    put(parts, Element::Exists { negated, at, body })
}

fn put_filter(
    alloc: Global,
    at: &[Scope],
    before: &mut Before,
    expression: &Expression,
    parts: &mut Vec<Element>,
) -> Result<(), AllocError>
    ensures parts { OnOk result (map query.part_of parts.new.items
        ≡ numbered.with_element (scopes_of at.now) before.old (map query.part_of parts.old.items)
        (trees.filter (expr_of expression.now))) }
    ensures behind { OnOk result (before.new
        ≡ numbered.behind_element (scopes_of at.now) before.old (trees.filter (expr_of expression.now))) }
{
    let expression = plain(alloc, at, before, expression)?;
    put(parts, Element::Filter(expression))
}

fn put_bind(
    alloc: Global,
    at: &[Scope],
    before: &mut Before,
    expression: &Expression,
    name: &Text,
    parts: &mut Vec<Element>,
) -> Result<(), AllocError>
    ensures parts { OnOk result (map query.part_of parts.new.items
        ≡ numbered.with_element (scopes_of at.now) before.old (map query.part_of parts.old.items)
        (trees.bind (expr_of expression.now) name.now)) }
    ensures behind { OnOk result (before.new
        ≡ numbered.behind_element (scopes_of at.now) before.old (trees.bind (expr_of expression.now) name.now)) }
{
    let expression = plain(alloc, at, before, expression)?;
    let variable = number_of(at, before, name)?;
    let bound = Element::Bind {
        variable,
        expression,
    };
    put(parts, bound)
}

fn put(parts: &mut Vec<Element>, part: Element) -> Result<(), AllocError>
    ensures { OnOk result (map query.part_of parts.new.items ≡ map query.part_of parts.old.items ++ (query.part_of part ∷ [])) }
{
    parts.push(part)?;
    Ok(())
}

fn put_values(
    alloc: Global,
    at: &[Scope],
    before: &mut Before,
    block: &Values,
    parts: &mut Vec<Element>,
) -> Result<(), AllocError>
    ensures parts { OnOk result (map query.part_of parts.new.items
        ≡ numbered.with_element (scopes_of at.now) before.old (map query.part_of parts.old.items) (written.values_of block.now)) }
    ensures behind { OnOk result (before.new
        ≡ numbered.behind_element (scopes_of at.now) before.old (written.values_of block.now)) }
{
    let variables = numbers_of(alloc, at, before, &block.variables)?;
    let rows = rows_of(alloc, &block.rows)?;
    put(parts, Element::Values { variables, rows })
}

#[cycle(groups)]
fn put_elements(
    alloc: Global,
    at: &[Scope],
    before: &mut Before,
    elements: &[Written],
    parts: &mut Vec<Element>,
) -> Result<(), AllocError>
    ensures parts { OnOk result (map query.part_of parts.new.items
        ≡ numbered.with_elements (scopes_of at.now) before.old (map query.part_of parts.old.items)
        (elements_in (map written.element_of elements.now))) }
    ensures behind { OnOk result (before.new
        ≡ numbered.behind_elements (scopes_of at.now) before.old (elements_in (map written.element_of elements.now))) }
{
    for element in elements {
        put_element(alloc, at, before, element, parts)?;
    }
    Ok(())
}

#[cycle(groups)]
fn group(
    alloc: Global,
    at: &[Scope],
    before: &mut Before,
    elements: &[Written],
) -> Result<Vec<Element>, AllocError>
    ensures parts { IfOk result (λ parts. map query.part_of parts.items
        ≡ numbered.with_elements (scopes_of at.now) before.old [] (elements_in (map written.element_of elements.now))) }
    ensures behind { OnOk result (before.new
        ≡ numbered.behind_elements (scopes_of at.now) before.old (elements_in (map written.element_of elements.now))) }
{
    let mut parts = Vec::new(alloc);
    put_elements(alloc, at, before, elements, &mut parts)?;
    Ok(parts)
}

#[cycle(groups)]
fn groups(
    alloc: Global,
    at: &[Scope],
    before: &mut Before,
    branches: &[Vec<Written>],
) -> Result<Vec<Vec<Element>>, AllocError>
    ensures groups { IfOk result (λ made. branches_of made.items
        ≡ numbered.groups_of (scopes_of at.now) before.old (groups_in (written_branches_of branches.now))) }
    ensures behind { OnOk result (before.new
        ≡ numbered.behind_groups (scopes_of at.now) before.old (groups_in (written_branches_of branches.now))) }
{
    let mut made = Vec::new(alloc);
    for branch in branches {
        made.push(group(alloc, at, before, branch)?)?;
    }
    Ok(made)
}

/// A SELECT with numbers in place of names. Fails only where memory is refused.
#[cycle(groups)]
pub(crate) fn select(
    alloc: Global,
    at: &[Scope],
    before: &mut Before,
    select: &rsp_written::Select,
) -> Result<Select, AllocError>
    ensures selection { IfOk result (λ made. query.selection_of made
        ≡ numbered.selected_of (scopes_of at.now) before.old (written.select_of select.now)) }
    ensures behind { OnOk result (before.new
        ≡ numbered.behind_selected (scopes_of at.now) before.old (written.select_of select.now)) }
{
    let number = before.select()?;
    let inside = within(alloc, number, &select.projection, at)?;
    select_within(alloc, &inside, before, select)
}

// behind the word SELECT, with its scope among the others
#[cycle(groups)]
fn select_within(
    alloc: Global,
    at: &[Scope],
    before: &mut Before,
    select: &rsp_written::Select,
) -> Result<Select, AllocError>
    ensures selection { IfOk result (λ made. query.selection_of made
        ≡ numbered.selected_within (scopes_of at.now) before.old (written.select_of select.now)) }
    ensures behind { OnOk result (before.new
        ≡ numbered.behind_within (scopes_of at.now) before.old (written.select_of select.now)) }
{
    let mut aggregates = Vec::new(alloc);
    let items = projected(alloc, at, before, &mut aggregates, &select.projection)?;
    let body = group(alloc, at, before, &select.body)?;
    let keys = keys_of(alloc, at, before, &select.keys)?;
    let having = having_of(alloc, at, before, &mut aggregates, &select.having)?;
    let grouped = is_grouped(&keys, &having, &aggregates);
    Ok(Select {
        distinct: select.distinct,
        star: is_every(&select.projection),
        items,
        body,
        grouped,
        keys,
        having,
        aggregates,
    })
}
