// EXISTS that are of no shape that can be translated.
ghost use Rattle.std.specs.Prelude.{◌≡◌, ◌||◌, not, map};
ghost use Rattle.std.specs.Bool.{then_some};
ghost use Rattle.rsp_query.specs.Groups.{groups_in, parts_in};
ghost use Rattle.rsp_query.specs.Meanings.{part_of, selection_of, registered};
ghost use Rattle.rsp_shapes.specs.Seeing.{branches_of};
ghost use Rattle.rsp_shapes.specs.Shapes as shapes;
ghost use Rattle.rsp_shapes.specs.Walking as walking;

use rsp_query::{Element, Query, Select, Slot};

#[cycle(plain)]
fn is_plain(element: &Element) -> bool
    ensures { result ≡ walking.is_plain (part_of element.now) }
{
    match element {
        Element::Triple { .. } => true,
        Element::Union(branches) => are_plain_groups(branches),
        Element::Graph {
            name: Slot::Variable(_),
            ..
        } => false,
        Element::Graph {
            name: Slot::Constant(_),
            body,
            ..
        } => are_plain(body),
        Element::Window { body, .. } => are_plain(body),
        Element::Optional(_) => false,
        Element::Minus(_) => false,
        Element::Filter(_) => false,
        Element::Exists { .. } => false,
        Element::Bind { .. } => false,
        Element::Values { .. } => false,
        Element::Sub(_) => false,
    }
}

#[cycle(plain)]
fn are_plain(elements: &[Element]) -> bool
    ensures { result ≡ walking.are_plain (parts_in (map part_of elements.now)) }
{
    for element in elements {
        if !is_plain(element) {
            return false;
        }
    }
    true
}

#[cycle(plain)]
fn are_plain_groups(branches: &[Vec<Element>]) -> bool
    ensures { result ≡ walking.are_plain_groups (groups_in (branches_of branches.now)) }
{
    for branch in branches {
        if !are_plain(branch) {
            return false;
        }
    }
    true
}

// what may stand at the top of an EXISTS' group
fn is_allowed(element: &Element) -> bool
    ensures { result ≡ (walking.is_filter (part_of element.now) || walking.is_plain (part_of element.now)) }
{
    match element {
        Element::Filter(_) => true,
        _ => is_plain(element),
    }
}

fn can_be_tested(elements: &[Element]) -> bool
    ensures { result ≡ walking.can_be_tested (parts_in (map part_of elements.now)) }
{
    for element in elements {
        if !is_allowed(element) {
            return false;
        }
    }
    true
}

fn fault_of_test(in_optional: bool, at: usize, body: &[Element]) -> Option<usize>
    ensures { result ≡ then_some (in_optional || not (walking.can_be_tested (parts_in (map part_of body.now)))) at }
{
    if in_optional {
        return Some(at);
    }
    if can_be_tested(body) { None } else { Some(at) }
}

#[cycle(exists)]
fn fault_at(in_optional: bool, element: &Element) -> Option<usize>
    ensures { result ≡ walking.exists_fault in_optional (part_of element.now) }
{
    match element {
        Element::Triple { .. } => None,
        Element::Optional(body) => fault_in(true, body),
        Element::Minus(body) => fault_in(false, body),
        Element::Union(branches) => fault_among(branches),
        Element::Graph { body, .. } => fault_in(false, body),
        Element::Window { body, .. } => fault_in(false, body),
        Element::Filter(_) => None,
        Element::Exists { at, body, .. } => fault_of_test(in_optional, *at, body),
        Element::Bind { .. } => None,
        Element::Values { .. } => None,
        Element::Sub(select) => fault_of(select),
    }
}

#[cycle(exists)]
fn fault_in(in_optional: bool, elements: &[Element]) -> Option<usize>
    ensures { result ≡ walking.exists_fault_in in_optional (parts_in (map part_of elements.now)) }
{
    for element in elements {
        if let Some(at) = fault_at(in_optional, element) {
            return Some(at);
        }
    }
    None
}

#[cycle(exists)]
fn fault_among(branches: &[Vec<Element>]) -> Option<usize>
    ensures { result ≡ walking.exists_fault_among (groups_in (branches_of branches.now)) }
{
    for branch in branches {
        if let Some(at) = fault_in(false, branch) {
            return Some(at);
        }
    }
    None
}

/// The first place of a SELECT where EXISTS is of no shape that can be translated.
#[cycle(exists)]
fn fault_of(select: &Select) -> Option<usize>
    ensures { result ≡ walking.exists_fault_of (selection_of select.now) }
{
    fault_in(false, &select.body)
}

/// The first place in a query's text where EXISTS is of no shape that can be translated, in bytes.
pub fn exists_shape(query: &Query) -> Option<usize>
    ensures { result ≡ shapes.exists_shape (registered query.now) }
{
    fault_of(&query.select)
}
