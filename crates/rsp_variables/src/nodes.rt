// Whether the rows of a node bind a variable.
ghost use Rattle.std.specs.Prelude.{◌≡◌, ◌||◌, ◌&&◌, not, None, is_some};
ghost use Rattle.std.specs.List.{flat_map, list_all, list_any};
ghost use Rattle.std.specs.Option.{IsSomeAnd};
ghost use Rattle.rsp_algebra.specs.Meanings.{aggregations_of};
ghost use Rattle.rsp_algebra.specs.Nodes.{slot_variables, place_variables};
ghost use Rattle.rsp_algebra.specs.Patterns.{cell as cell_of, among};
ghost use Rattle.rsp_algebra.specs.Spines.{first_of, second_of};
ghost use Rattle.rsp_algebra.specs.Work.{bound_in_all, group_variables};
ghost use Rattle.rsp_variables.specs.Binding.{Binds};
ghost use Rattle.rsp_variables.specs.Possible.{bound_variables};

use rsp_algebra::{Place, Tree};
use rsp_expr::{Aggregate, Slot};
use rsp_multiset::Row;
use rsp_terms::Term;

/// Whether each row of a tree binds a variable, and whether some may.
#[derive(Clone, Copy)]
pub struct Binding {
    /// Each row binds it, whatever the facts.
    pub certain: bool,
    /// No row binds it, whatever the facts, where this is false.
    pub possible: bool,
}

fn slot_has(slot: &Slot, variable: usize) -> bool
    ensures { result ≡ among (slot_variables slot.now) variable }
{
    match slot {
        Slot::Variable(v) => variable == *v,
        Slot::Constant(_) => false,
    }
}

fn place_has(place: &Place, variable: usize) -> bool
    ensures { result ≡ among (place_variables place.now) variable }
{
    match place {
        Place::AnyNamed(v) => variable == *v,
        _ => false,
    }
}

fn pattern_has(
    place: &Place,
    subject: &Slot,
    predicate: &Slot,
    object: &Slot,
    variable: usize,
) -> bool
    ensures { result ≡ (among (place_variables place.now) variable
        || (among (slot_variables subject.now) variable
        || (among (slot_variables predicate.now) variable || among (slot_variables object.now) variable))) }
{
    place_has(place, variable)
        || slot_has(subject, variable)
        || slot_has(predicate, variable)
        || slot_has(object, variable)
}

fn row_binds(row: &Row<Term>, variable: usize) -> bool
    ensures { result ≡ is_some (cell_of row.now variable) }
{
    match row.cells().get(variable) {
        Some(cell) => cell.is_some(),
        None => false,
    }
}

fn all_bind(rows: &[Row<Term>], variable: usize) -> bool
    ensures { result ≡ list_all (λ row. is_some (cell_of row variable)) rows.now }
{
    for row in rows {
        if !row_binds(row, variable) {
            return false;
        }
    }
    true
}

// whether each of the rows binds the variable, and there are rows
fn given_certain(rows: &[Row<Term>], variable: usize) -> bool
    ensures { result ≡ among (bound_in_all rows.now) variable }
{
    if rows.is_empty() {
        return false;
    }
    all_bind(rows, variable)
}

// whether some row binds the variable
fn given_possible(rows: &[Row<Term>], variable: usize) -> bool
    ensures { result ≡ among (flat_map bound_variables rows.now) variable }
{
    some_binds(rows, variable)
}

fn some_binds(rows: &[Row<Term>], variable: usize) -> bool
    ensures { result ≡ list_any (λ row. is_some (cell_of row variable)) rows.now }
{
    for row in rows {
        if row_binds(row, variable) {
            return true;
        }
    }
    false
}

fn is_aggregate(aggregates: &[(usize, Aggregate)], variable: usize) -> bool
    ensures { result ≡ among (group_variables (aggregations_of aggregates.now)) variable }
{
    for entry in aggregates {
        if variable == entry.0 {
            return true;
        }
    }
    false
}

fn in_group(
    keys: &[usize],
    aggregates: &[(usize, Aggregate)],
    variable: usize,
    child: Binding,
) -> Binding
    ensures certain { result.certain ≡ (among keys.now variable
        && (child.certain && not (among (group_variables (aggregations_of aggregates.now)) variable))) }
    ensures possible { result.possible ≡ ((among keys.now variable && child.possible)
        || among (group_variables (aggregations_of aggregates.now)) variable) }
{
    let is_key = keys.contains(&variable);
    let is_aggregate = is_aggregate(aggregates, variable);
    Binding {
        certain: is_key && child.certain && !is_aggregate,
        possible: is_key && child.possible || is_aggregate,
    }
}

fn among_shown(variables: &[usize], variable: usize, child: Binding) -> Binding
    ensures certain { result.certain ≡ (child.certain && among variables.now variable) }
    ensures possible { result.possible ≡ (child.possible && among variables.now variable) }
{
    let is_shown = variables.contains(&variable);
    Binding {
        certain: child.certain && is_shown,
        possible: child.possible && is_shown,
    }
}

/// What the rows of a tree without children bind the variable in.
pub(crate) fn leaf_binding(leaf: &Tree, variable: usize) -> Binding
    requires { first_of leaf.now ≡ None }
    ensures { Binds variable result leaf.now }
{
    match leaf {
        Tree::Pattern {
            place,
            subject,
            predicate,
            object,
        } => {
            let bound = pattern_has(place, subject, predicate, object, variable);
            Binding {
                certain: bound,
                possible: bound,
            }
        }
        Tree::Values { rows } => Binding {
            certain: given_certain(rows, variable),
            possible: given_possible(rows, variable),
        },
        _ => Binding {
            certain: false,
            possible: false,
        },
    }
}

/// What the rows of a tree with one child bind the variable in.
pub(crate) fn binding_over(tree: &Tree, variable: usize, child: Binding) -> Binding
    requires one { second_of tree.now ≡ None }
    requires child { IsSomeAnd (first_of tree.now) (Binds variable child) }
    ensures { Binds variable result tree.now }
{
    match tree {
        Tree::Extend { variable: made, .. } => Binding {
            certain: child.certain && variable != *made,
            possible: variable == *made || child.possible,
        },
        Tree::Project { variables, .. } => among_shown(variables, variable, child),
        Tree::Group {
            keys,
            aggregates,
            ..
        } => in_group(keys, aggregates, variable, child),
        _ => child,
    }
}

/// What the rows of a tree with two children bind the variable in.
pub(crate) fn binding_of_pair(
    tree: &Tree,
    variable: usize,
    left: Binding,
    right: Binding,
) -> Binding
    requires left { IsSomeAnd (first_of tree.now) (Binds variable left) }
    requires right { IsSomeAnd (second_of tree.now) (Binds variable right) }
    ensures { Binds variable result tree.now }
{
    match tree {
        Tree::Join { .. } => Binding {
            certain: left.certain || right.certain,
            possible: left.possible || right.possible,
        },
        Tree::LeftJoin { .. } => Binding {
            certain: left.certain,
            possible: left.possible || right.possible,
        },
        Tree::Union { .. } => Binding {
            certain: left.certain && right.certain,
            possible: left.possible || right.possible,
        },
        _ => left,
    }
}
