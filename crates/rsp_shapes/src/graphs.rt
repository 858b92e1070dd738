// Windows and graphs that are of no shape that can be translated.
ghost use Rattle.std.specs.Prelude.{◌≡◌, not, [], map};
ghost use Rattle.std.specs.Bool.{then_some};
ghost use Rattle.rsp_expr.specs.Errors.{first_value};
ghost use Rattle.rsp_query.specs.Walks.{below};
ghost use Rattle.rsp_query.specs.Groups.{sub, groups_in, parts_in};
ghost use Rattle.rsp_query.specs.Meanings.{part_of, selection_of, registered};
ghost use Rattle.rsp_shapes.specs.Seeing.{branches_of};
ghost use Rattle.rsp_shapes.specs.Shapes as shapes;
ghost use Rattle.rsp_shapes.specs.Walking as walking;

use rsp_query::{Element, Query, Select, Slot, WindowClause};
use rsp_terms::Text;

/// One of the windows has this name.
fn is_declared(windows: &[WindowClause], name: &Text) -> bool
    ensures { result ≡ shapes.is_among (shapes.declared windows.now) name.now }
{
    for clause in windows {
        if name.as_str() == clause.name.as_str() {
            return true;
        }
    }
    false
}

/// The place of the first window whose name is declared before it.
fn repeated_window(windows: &[WindowClause]) -> Option<usize>
    ensures { result ≡ shapes.repeated_window [] windows.now }
{
    for index in 0..windows.len() {
        let clause = &windows[index];
        if is_declared(&windows[..index], &clause.name) {
            return Some(clause.at);
        }
    }
    None
}

fn is_triple(element: &Element) -> bool
    ensures { result ≡ shapes.is_triple (part_of element.now) }
{
    match element {
        Element::Triple { .. } => true,
        _ => false,
    }
}

fn are_triples(elements: &[Element]) -> bool
    ensures { result ≡ walking.are_triples (parts_in (map part_of elements.now)) }
{
    for element in elements {
        if !is_triple(element) {
            return false;
        }
    }
    true
}

fn has_just_triples(elements: &[Element]) -> bool
    ensures { result ≡ walking.has_just_triples (parts_in (map part_of elements.now)) }
{
    match elements {
        [] => false,
        [first, rest @ ..] => {
            if is_triple(first) {
                are_triples(rest)
            } else {
                false
            }
        }
    }
}

#[cycle(graphs)]
fn fault_at(windows: &[WindowClause], element: &Element) -> Option<usize>
    ensures { result ≡ walking.graph_fault (shapes.declared windows.now) (part_of element.now) }
{
    match element {
        Element::Triple { .. } => None,
        Element::Optional(body) => fault_in(windows, body),
        Element::Minus(body) => fault_in(windows, body),
        Element::Union(branches) => fault_among(windows, branches),
        Element::Graph {
            name: Slot::Variable(_),
            at,
            body,
        } => unless(has_just_triples(body), *at),
        Element::Graph {
            name: Slot::Constant(_),
            body,
            ..
        } => fault_in(windows, body),
        Element::Window { name, at, body } => {
            if is_declared(windows, name) {
                fault_in(windows, body)
            } else {
                Some(*at)
            }
        }
        Element::Filter(_) => None,
        Element::Exists { body, .. } => fault_in(windows, body),
        Element::Bind { .. } => None,
        Element::Values { .. } => None,
        Element::Sub(select) => fault_of(windows, select),
    }
}

fn unless(test: bool, at: usize) -> Option<usize>
    ensures { result ≡ then_some (not test) at }
{
    if test { None } else { Some(at) }
}

#[cycle(graphs)]
fn fault_in(windows: &[WindowClause], elements: &[Element]) -> Option<usize>
    ensures { result ≡ walking.graph_fault_in (shapes.declared windows.now) (parts_in (map part_of elements.now)) }
{
    for element in elements {
        if let Some(at) = fault_at(windows, element) {
            return Some(at);
        }
    }
    None
}

#[cycle(graphs)]
fn fault_among(windows: &[WindowClause], branches: &[Vec<Element>]) -> Option<usize>
    ensures { result ≡ walking.graph_fault_among (shapes.declared windows.now) (groups_in (branches_of branches.now)) }
{
    for branch in branches {
        if let Some(at) = fault_in(windows, branch) {
            return Some(at);
        }
    }
    None
}

/// The first place of a SELECT where WINDOW or GRAPH is of no shape that can be translated.
#[cycle(graphs)]
fn fault_of(windows: &[WindowClause], select: &Select) -> Option<usize>
    ensures { result ≡ walking.graph_fault_of (shapes.declared windows.now) (selection_of select.now) }
{
    fault_in(windows, &select.body)
}

fn first_fault(windows: &[WindowClause], select: &Select) -> Option<usize>
    ensures { result ≡ first_value (map (λ p. shapes.graph_fault (shapes.declared windows.now) p.1)
        (below (sub (selection_of select.now)))) }
{
    fault_of(windows, select)
}

/// The first place in a query's text where WINDOW, GRAPH or a window's name is of no shape that can be translated, in bytes.
pub fn graph_shape(query: &Query) -> Option<usize>
    ensures { result ≡ shapes.graph_shape (registered query.now) }
{
    if let Some(at) = repeated_window(&query.windows) {
        return Some(at);
    }
    first_fault(&query.windows, &query.select)
}
