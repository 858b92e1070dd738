// The variables that are in scope behind an element or a group.
ghost use Rattle.std.specs.Prelude.{◌≡◌, ◌||◌, ◌&&◌, map};
ghost use Rattle.rsp_query.specs.Groups.{groups_in, parts_in};
ghost use Rattle.rsp_query.specs.Meanings.{item_of, part_of, selection_of, way_of};
ghost use Rattle.rsp_query.specs.Paths.{ways_in};
ghost use Rattle.rsp_algebra.specs.Patterns.{among};
ghost use Rattle.rsp_shapes.specs.Seeing.{branches_of};
ghost use Rattle.rsp_shapes.specs.Visible as visible;

use rsp_query::{Element, Path, Select, SelectItem, Slot};
use rsp_terms::Text;

/// The name is one that the text gives.
fn is_given(name: &str) -> bool
    ensures { result ≡ visible.is_given name.now }
{
    if name.starts_with("_:") {
        return false;
    }
    if name == "[]" {
        return false;
    }
    name != "()"
}

/// The variable has a name in the text.
pub fn has_name(names: &[Text], variable: usize) -> bool
    ensures { result ≡ visible.is_given (visible.name_of names.now variable) }
{
    match names.get(variable) {
        Some(name) => is_given(name.as_str()),
        None => true,
    }
}

/// One of the items has this variable.
pub(crate) fn is_listed(items: &[SelectItem], variable: usize) -> bool
    ensures { result ≡ among (visible.variables_of (map item_of items.now)) variable }
{
    for item in items {
        if variable == item.variable {
            return true;
        }
    }
    false
}

fn is_variable(slot: &Slot, variable: usize) -> bool
    ensures { result ≡ visible.is_variable slot.now variable }
{
    match slot {
        Slot::Variable(number) => variable == *number,
        Slot::Constant(_) => false,
    }
}

#[cycle(ways)]
fn is_in_path(path: &Path, variable: usize) -> bool
    ensures { result ≡ visible.is_in_way (way_of path.now) variable }
{
    match path {
        Path::Step(slot) => is_variable(slot, variable),
        Path::Inverse(part) => is_in_path(part, variable),
        Path::Sequence(parts) => is_in_paths(parts, variable),
        Path::Choice(parts) => is_in_paths(parts, variable),
    }
}

#[cycle(ways)]
fn is_in_paths(paths: &[Path], variable: usize) -> bool
    ensures { result ≡ visible.is_in_ways (ways_in (map way_of paths.now)) variable }
{
    for path in paths {
        if is_in_path(path, variable) {
            return true;
        }
    }
    false
}

fn is_in_triple(subject: &Slot, verb: &Path, object: &Slot, variable: usize) -> bool
    ensures { result ≡ (visible.is_variable subject.now variable
        || (visible.is_in_way (way_of verb.now) variable || visible.is_variable object.now variable)) }
{
    if is_variable(subject, variable) {
        return true;
    }
    if is_in_path(verb, variable) {
        return true;
    }
    is_variable(object, variable)
}

#[cycle(visible)]
fn is_visible(names: &[Text], element: &Element, variable: usize) -> bool
    ensures { result ≡ visible.is_visible names.now (part_of element.now) variable }
{
    match element {
        Element::Triple {
            subject,
            verb,
            object,
        } => is_in_triple(subject, verb, object, variable),
        Element::Optional(body) => is_visible_in(names, body, variable),
        Element::Minus(_) => false,
        Element::Union(branches) => is_visible_among(names, branches, variable),
        Element::Graph { name, body, .. } => is_visible_at(names, name, body, variable),
        Element::Window { body, .. } => is_visible_in(names, body, variable),
        Element::Filter(_) => false,
        Element::Exists { .. } => false,
        Element::Bind {
            variable: number,
            ..
        } => variable == *number,
        Element::Values { variables, .. } => variables.as_slice().contains(&variable),
        Element::Sub(select) => is_projected(names, select, variable),
    }
}

#[cycle(visible)]
fn is_visible_at(names: &[Text], name: &Slot, body: &[Element], variable: usize) -> bool
    ensures { result ≡ (visible.is_variable name.now variable
        || visible.is_visible_in names.now (parts_in (map part_of body.now)) variable) }
{
    if is_variable(name, variable) {
        return true;
    }
    is_visible_in(names, body, variable)
}

/// The variable is in scope behind these elements of a group.
#[cycle(visible)]
pub fn is_visible_in(names: &[Text], elements: &[Element], variable: usize) -> bool
    ensures { result ≡ visible.is_visible_in names.now (parts_in (map part_of elements.now)) variable }
{
    for element in elements {
        if is_visible(names, element, variable) {
            return true;
        }
    }
    false
}

#[cycle(visible)]
fn is_visible_among(names: &[Text], branches: &[Vec<Element>], variable: usize) -> bool
    ensures { result ≡ visible.is_visible_among names.now (groups_in (branches_of branches.now)) variable }
{
    for branch in branches {
        if is_visible_in(names, branch, variable) {
            return true;
        }
    }
    false
}

#[cycle(visible)]
fn is_projected(names: &[Text], select: &Select, variable: usize) -> bool
    ensures { result ≡ visible.is_projected names.now (selection_of select.now) variable }
{
    if !select.star {
        return is_listed(&select.items, variable);
    }
    if !has_name(names, variable) {
        return false;
    }
    is_visible_in(names, &select.body, variable)
}
