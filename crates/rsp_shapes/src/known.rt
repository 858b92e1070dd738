// What a grouped SELECT may name outside aggregates.
ghost use Rattle.std.specs.Prelude.{◌≡◌, ◌&&◌, cond, not, is_some, map, nat_eq, None, Some};
ghost use Rattle.std.specs.List.{find, list_any};
ghost use Rattle.rsp_expr.specs.Formulas.{formulas_in};
ghost use Rattle.rsp_expr.specs.Meanings.{formula_of, maybe_formula};
ghost use Rattle.rsp_query.specs.Meanings.{item_of, numbered_aggregation};
ghost use Rattle.rsp_algebra.specs.Nodes.{formula_variables};
ghost use Rattle.rsp_shapes.specs.Groups.{stranger};
ghost use Rattle.rsp_shapes.specs.Scopes as scopes;
ghost use Rattle.rsp_shapes.specs.Seeing.{first_among, first_in};

use crate::visible::is_listed;
use rsp_query::{Aggregate, Expression, SelectItem};

/// The keys of a SELECT, the items before a place, and the aggregates with their variables.
#[derive(Clone, Copy)]
pub(crate) struct Known<'q> {
    pub(crate) keys: &'q [SelectItem],
    pub(crate) before: &'q [SelectItem],
    pub(crate) aggregates: &'q [(usize, Aggregate)],
}

fn computes(item: &SelectItem, variable: usize) -> bool
    ensures { result ≡ (is_some (maybe_formula item.now.expression) && nat_eq variable item.now.variable) }
{
    match &item.expression {
        None => false,
        Some(_) => variable == item.variable,
    }
}

/// One of the items computes the variable.
pub(crate) fn is_computed(items: &[SelectItem], variable: usize) -> bool
    ensures { result ≡ scopes.is_computed (map item_of items.now) variable }
{
    for item in items {
        if computes(item, variable) {
            return true;
        }
    }
    false
}

fn is_aggregate(aggregates: &[(usize, Aggregate)], variable: usize) -> bool
    ensures { result ≡ list_any (λ entry. nat_eq variable entry.0) (map numbered_aggregation aggregates.now) }
{
    for aggregate in aggregates {
        if variable == aggregate.0 {
            return true;
        }
    }
    false
}

fn is_known(known: &Known<'_>, variable: usize) -> bool
    ensures { not result ≡ stranger known.now variable }
{
    if is_listed(known.keys, variable) {
        return true;
    }
    if is_computed(known.before, variable) {
        return true;
    }
    is_aggregate(known.aggregates, variable)
}

fn unless_known(known: &Known<'_>, variable: usize) -> Option<usize>
    ensures { result ≡ cond (stranger known.now variable) (Some variable) None }
{
    if is_known(known, variable) {
        None
    } else {
        Some(variable)
    }
}

#[cycle(unknown)]
fn first_unknown(known: &Known<'_>, expression: &Expression) -> Option<usize>
    ensures { result ≡ first_in (stranger known.now) (formula_of expression.now) }
{
    match expression {
        Expression::Variable(variable) => unless_known(known, *variable),
        Expression::Constant(_) => None,
        Expression::Or(parts) => first_unknown_among(known, parts),
        Expression::And(parts) => first_unknown_among(known, parts),
        Expression::Not(part) => first_unknown(known, part),
        Expression::Compare { left, right, .. } => {
            if let Some(variable) = first_unknown(known, left) {
                return Some(variable);
            }
            first_unknown(known, right)
        }
        Expression::Member { item, list, .. } => {
            if let Some(variable) = first_unknown(known, item) {
                return Some(variable);
            }
            first_unknown_among(known, list)
        }
        Expression::Arithmetic { left, right, .. } => {
            if let Some(variable) = first_unknown(known, left) {
                return Some(variable);
            }
            first_unknown(known, right)
        }
        Expression::Negate(part) => first_unknown(known, part),
        Expression::Plus(part) => first_unknown(known, part),
        Expression::Bound(variable) => unless_known(known, *variable),
        Expression::Call { arguments, .. } => first_unknown_among(known, arguments),
    }
}

#[cycle(unknown)]
fn first_unknown_among(known: &Known<'_>, expressions: &[Expression]) -> Option<usize>
    ensures { result ≡ first_among (stranger known.now) (formulas_in (map formula_of expressions.now)) }
{
    for expression in expressions {
        if let Some(variable) = first_unknown(known, expression) {
            return Some(variable);
        }
    }
    None
}

/// The first variable of the expression that isn't known.
pub(crate) fn unknown(known: &Known<'_>, expression: &Expression) -> Option<usize>
    ensures { result ≡ find (stranger known.now) (formula_variables (formula_of expression.now)) }
{
    first_unknown(known, expression)
}
