// Variables that stand where the scope of their names doesn't allow it.
ghost use Rattle.std.specs.Prelude.{◌≡◌, ◌||◌, ◌&&◌, not, Some, [], map};
ghost use Rattle.std.specs.Option.{option_or};
ghost use Rattle.rsp_expr.specs.Meanings.{formula_of, maybe_formula};
ghost use Rattle.rsp_query.specs.Groups.{groups_in, parts_in};
ghost use Rattle.rsp_query.specs.Meanings.{item_of, numbered_aggregation, part_of, selection_of, registered};
ghost use Rattle.rsp_algebra.specs.Patterns.{among};
ghost use Rattle.rsp_shapes.specs.Scopes as scopes;
ghost use Rattle.rsp_shapes.specs.Seeing.{branches_of};
ghost use Rattle.rsp_shapes.specs.Visible as visible;

use crate::Unscoped;
use crate::known::{Known, is_computed, unknown};
use crate::visible::{is_listed, is_visible_in};
use rsp_query::{Aggregate, Element, Expression, Query, Select, SelectItem};
use rsp_terms::Text;

/// What a SELECT fixes for its items.
#[derive(Clone, Copy)]
struct Clauses<'q> {
    names: &'q [Text],
    body: &'q [Element],
    grouped: bool,
    keys: &'q [SelectItem],
    aggregates: &'q [(usize, Aggregate)],
}

fn unless(test: bool, variable: usize) -> Option<Unscoped>
    ensures { result ≡ scopes.where_true (not test) variable }
{
    if test {
        None
    } else {
        Some(Unscoped::Variable(variable))
    }
}

fn unknown_in(grouped: bool, known: &Known<'_>, expression: &Expression) -> Option<Unscoped>
    ensures { result ≡ scopes.unknown_in grouped (map item_of known.now.keys.now) (map item_of known.now.before.now)
        (map numbered_aggregation known.now.aggregates.now) (formula_of expression.now) }
{
    if !grouped {
        return None;
    }
    match unknown(known, expression) {
        None => None,
        Some(variable) => Some(Unscoped::Variable(variable)),
    }
}

fn is_known_key(keys: &[SelectItem], before: &[SelectItem], variable: usize) -> bool
    ensures { result ≡ (among (visible.variables_of (map item_of keys.now)) variable
        || scopes.is_computed (map item_of before.now) variable) }
{
    if is_listed(keys, variable) {
        return true;
    }
    is_computed(before, variable)
}

fn shown_fault(clauses: &Clauses<'_>, before: &[SelectItem], variable: usize) -> Option<Unscoped>
    ensures { result ≡ scopes.where_true (among (visible.variables_of (map item_of before.now)) variable
        || (clauses.now.grouped && not (among (visible.variables_of (map item_of clauses.now.keys.now)) variable
        || scopes.is_computed (map item_of before.now) variable))) variable }
{
    if is_listed(before, variable) {
        return Some(Unscoped::Variable(variable));
    }
    if !clauses.grouped {
        return None;
    }
    unless(is_known_key(clauses.keys, before, variable), variable)
}

fn taken_fault(
    names: &[Text],
    body: &[Element],
    before: &[SelectItem],
    keys: &[SelectItem],
    variable: usize,
) -> Option<Unscoped>
    ensures { result ≡ scopes.where_true (visible.is_visible_in names.now (parts_in (map part_of body.now)) variable
        || (among (visible.variables_of (map item_of before.now)) variable
        || among (visible.variables_of (map item_of keys.now)) variable)) variable }
{
    if is_visible_in(names, body, variable) {
        return Some(Unscoped::Variable(variable));
    }
    if is_listed(before, variable) {
        return Some(Unscoped::Variable(variable));
    }
    if is_listed(keys, variable) {
        return Some(Unscoped::Variable(variable));
    }
    None
}

fn computed_fault(
    clauses: &Clauses<'_>,
    before: &[SelectItem],
    variable: usize,
    expression: &Expression,
) -> Option<Unscoped>
    ensures { result ≡ scopes.item_fault clauses.now.names.now (parts_in (map part_of clauses.now.body.now)) clauses.now.grouped
        (map item_of clauses.now.keys.now) (map numbered_aggregation clauses.now.aggregates.now) (map item_of before.now)
        variable (Some (formula_of expression.now)) }
{
    let known = Known {
        keys: clauses.keys,
        before,
        aggregates: clauses.aggregates,
    };
    if let Some(fault) = unknown_in(clauses.grouped, &known, expression) {
        return Some(fault);
    }
    taken_fault(clauses.names, clauses.body, before, clauses.keys, variable)
}

fn item_fault(clauses: &Clauses<'_>, before: &[SelectItem], item: &SelectItem) -> Option<Unscoped>
    ensures { result ≡ scopes.item_fault clauses.now.names.now (parts_in (map part_of clauses.now.body.now)) clauses.now.grouped
        (map item_of clauses.now.keys.now) (map numbered_aggregation clauses.now.aggregates.now) (map item_of before.now)
        item.now.variable (maybe_formula item.now.expression) }
{
    match &item.expression {
        None => shown_fault(clauses, before, item.variable),
        Some(expression) => computed_fault(clauses, before, item.variable, expression),
    }
}

fn items_fault(clauses: &Clauses<'_>, items: &[SelectItem]) -> Option<Unscoped>
    ensures { result ≡ scopes.items_fault clauses.now.names.now (parts_in (map part_of clauses.now.body.now)) clauses.now.grouped
        (map item_of clauses.now.keys.now) (map numbered_aggregation clauses.now.aggregates.now) [] (map item_of items.now) }
{
    for index in 0..items.len() {
        if let Some(fault) = item_fault(clauses, &items[..index], &items[index]) {
            return Some(fault);
        }
    }
    None
}

fn key_fault(
    names: &[Text],
    body: &[Element],
    before: &[SelectItem],
    key: &SelectItem,
) -> Option<Unscoped>
    ensures { result ≡ scopes.key_fault names.now (parts_in (map part_of body.now)) (map item_of before.now)
        key.now.variable (maybe_formula key.now.expression) }
{
    match &key.expression {
        None => None,
        Some(_) => computed_key_fault(names, body, before, key.variable),
    }
}

fn computed_key_fault(
    names: &[Text],
    body: &[Element],
    before: &[SelectItem],
    variable: usize,
) -> Option<Unscoped>
    ensures { result ≡ scopes.where_true (visible.is_visible_in names.now (parts_in (map part_of body.now)) variable
        || among (visible.variables_of (map item_of before.now)) variable) variable }
{
    if is_visible_in(names, body, variable) {
        return Some(Unscoped::Variable(variable));
    }
    if is_listed(before, variable) {
        return Some(Unscoped::Variable(variable));
    }
    None
}

fn keys_fault(names: &[Text], body: &[Element], keys: &[SelectItem]) -> Option<Unscoped>
    ensures { result ≡ scopes.keys_fault names.now (parts_in (map part_of body.now)) [] (map item_of keys.now) }
{
    for index in 0..keys.len() {
        if let Some(fault) = key_fault(names, body, &keys[..index], &keys[index]) {
            return Some(fault);
        }
    }
    None
}

fn having_fault(grouped: bool, known: &Known<'_>, having: &Option<Expression>) -> Option<Unscoped>
    ensures { result ≡ scopes.having_fault grouped (map item_of known.now.keys.now) (map item_of known.now.before.now)
        (map numbered_aggregation known.now.aggregates.now) (maybe_formula having.now) }
{
    match having {
        None => None,
        Some(condition) => unknown_in(grouped, known, condition),
    }
}

fn bind_fault(names: &[Text], before: &[Element], variable: usize) -> Option<Unscoped>
    ensures { result ≡ scopes.where_true (visible.is_visible_in names.now (parts_in (map part_of before.now)) variable) variable }
{
    if is_visible_in(names, before, variable) {
        Some(Unscoped::Variable(variable))
    } else {
        None
    }
}

#[cycle(scopes)]
fn fault_at(names: &[Text], element: &Element, before: &[Element]) -> Option<Unscoped>
    ensures { result ≡ scopes.scope_fault names.now (map part_of before.now) (part_of element.now) }
{
    match element {
        Element::Triple { .. } => None,
        Element::Optional(body) => fault_in(names, body),
        Element::Minus(body) => fault_in(names, body),
        Element::Union(branches) => fault_among(names, branches),
        Element::Graph { body, .. } => fault_in(names, body),
        Element::Window { body, .. } => fault_in(names, body),
        Element::Filter(_) => None,
        Element::Exists { body, .. } => fault_in(names, body),
        Element::Bind { variable, .. } => bind_fault(names, before, *variable),
        Element::Values { .. } => None,
        Element::Sub(select) => fault_of(names, select),
    }
}

#[cycle(scopes)]
fn fault_in(names: &[Text], elements: &[Element]) -> Option<Unscoped>
    ensures { result ≡ scopes.scope_fault_in names.now [] (parts_in (map part_of elements.now)) }
{
    for index in 0..elements.len() {
        if let Some(fault) = fault_at(names, &elements[index], &elements[..index]) {
            return Some(fault);
        }
    }
    None
}

#[cycle(scopes)]
fn fault_among(names: &[Text], branches: &[Vec<Element>]) -> Option<Unscoped>
    ensures { result ≡ scopes.scope_fault_among names.now (groups_in (branches_of branches.now)) }
{
    for branch in branches {
        if let Some(fault) = fault_in(names, branch) {
            return Some(fault);
        }
    }
    None
}

/// The first variable of a SELECT, or its `*`, that stands where its scope doesn't allow it.
#[cycle(scopes)]
fn fault_of(names: &[Text], select: &Select) -> Option<Unscoped>
    ensures { result ≡ scopes.scope_fault_of names.now (selection_of select.now) }
{
    if select.star && select.grouped {
        return Some(Unscoped::Star);
    }
    let clauses = Clauses {
        names,
        body: &select.body,
        grouped: select.grouped,
        keys: &select.keys,
        aggregates: &select.aggregates,
    };
    if let Some(fault) = items_fault(&clauses, &select.items) {
        return Some(fault);
    }
    if let Some(fault) = fault_in(names, &select.body) {
        return Some(fault);
    }
    tail_fault(&clauses, &select.items, &select.having)
}

// of the keys and HAVING
fn tail_fault(
    clauses: &Clauses<'_>,
    items: &[SelectItem],
    having: &Option<Expression>,
) -> Option<Unscoped>
    ensures { result ≡ option_or
        (scopes.keys_fault clauses.now.names.now (parts_in (map part_of clauses.now.body.now)) []
        (map item_of clauses.now.keys.now))
        (scopes.having_fault clauses.now.grouped (map item_of clauses.now.keys.now) (map item_of items.now)
        (map numbered_aggregation clauses.now.aggregates.now) (maybe_formula having.now)) }
{
    if let Some(fault) = keys_fault(clauses.names, clauses.body, clauses.keys) {
        return Some(fault);
    }
    let known = Known {
        keys: clauses.keys,
        before: items,
        aggregates: clauses.aggregates,
    };
    having_fault(clauses.grouped, &known, having)
}

/// The first variable of a query's text, or the first `*`, that stands where its scope doesn't allow it.
pub fn scope(query: &Query) -> Option<Unscoped>
    ensures { result ≡ scopes.scope (registered query.now) }
{
    fault_of(&query.variables, &query.select)
}
