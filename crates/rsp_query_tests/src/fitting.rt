// Whether trees fit a width, which evaluation asks for.
ghost use Rattle.std.specs.Prelude.{◌≡◌, true, length, ◌++◌};
ghost use Rattle.std.specs.List.{AllByRecursion};
ghost use Rattle.rsp_expr.specs.Meanings.{formula_of, maybe_formula, aggregation_of};
ghost use Rattle.rsp_algebra.specs.Nodes.{place_variables, slot_variables, formula_variables};
ghost use Rattle.rsp_algebra.specs.Meanings.{node_of};
ghost use Rattle.rsp_algebra.specs.Fitting.{Fits, AreBelow};
ghost use Rattle.rsp_algebra.specs.Meanings.{aggregations_of};
ghost use Rattle.rsp_algebra.specs.Fitting.{argument_variables, has_form, AggregateFits};

use rsp_algebra::{Place, Tree};
use rsp_expr::{Aggregate, Expression, Kind, Slot};
use rsp_multiset::Row;
use rsp_terms::Term;

fn slot_fits(slot: &Slot, width: usize) -> bool
    ensures { result ≡ true → AreBelow width (slot_variables slot.now) }
{
    match slot {
        Slot::Variable(variable) => *variable < width,
        Slot::Constant(_) => true,
    }
}

#[tactic(auto, using(crate::proofs::Below::below_append))]
fn slots_fit(subject: &Slot, predicate: &Slot, object: &Slot, width: usize) -> bool
    ensures { result ≡ true → AreBelow width
        (slot_variables subject.now ++ (slot_variables predicate.now ++ slot_variables object.now)) }
{
    if !slot_fits(subject, width) {
        return false;
    }
    if !slot_fits(predicate, width) {
        return false;
    }
    slot_fits(object, width)
}

fn place_fits(place: &Place, width: usize) -> bool
    ensures { result ≡ true → AreBelow width (place_variables place.now) }
{
    match place {
        Place::Default => true,
        Place::Named(_) => true,
        Place::AnyNamed(variable) => *variable < width,
        Place::Window(_) => true,
    }
}

#[tactic(auto, using(crate::proofs::Below::below_append))]
fn pattern_fits(
    place: &Place,
    subject: &Slot,
    predicate: &Slot,
    object: &Slot,
    width: usize,
) -> bool
    ensures { result ≡ true → AreBelow width (place_variables place.now
        ++ (slot_variables subject.now ++ (slot_variables predicate.now ++ slot_variables object.now))) }
{
    if !place_fits(place, width) {
        return false;
    }
    slots_fit(subject, predicate, object, width)
}

fn are_below(variables: &[usize], width: usize) -> bool
    ensures { result ≡ true → AreBelow width variables.now }
{
    for variable in variables {
        if *variable >= width {
            return false;
        }
    }
    true
}

fn have_width(rows: &[Row<Term>], width: usize) -> bool
    ensures { result ≡ true → AllByRecursion (λ row. length row ≡ width) rows.now }
{
    for row in rows {
        if row.cells().len() != width {
            return false;
        }
    }
    true
}

// of the expressions that the tests write; it says no of each other
#[tactic(auto, using(crate::proofs::Below::below_append))]
fn expression_fits(expression: &Expression, width: usize) -> bool
    ensures { result ≡ true → AreBelow width (formula_variables (formula_of expression.now)) }
{
    match expression {
        Expression::Variable(variable) => *variable < width,
        Expression::Constant(_) => true,
        Expression::Bound(variable) => *variable < width,
        Expression::Not(part) => expression_fits(part, width),
        Expression::Compare { left, right, .. } => {
            if !expression_fits(left, width) {
                return false;
            }
            expression_fits(right, width)
        }
        _ => false,
    }
}

fn argument_fits(argument: &Option<Expression>, width: usize) -> bool
    ensures { result ≡ true → AreBelow width (argument_variables (maybe_formula argument.now)) }
{
    match argument {
        Some(expression) => expression_fits(expression, width),
        None => true,
    }
}

// an aggregate without argument counts rows
fn is_formed(aggregate: &Aggregate) -> bool
    ensures { result ≡ true
        → has_form aggregate.now.kind aggregate.now.distinct (maybe_formula aggregate.now.argument) ≡ true }
{
    if aggregate.argument.is_some() {
        return true;
    }
    if aggregate.distinct {
        return false;
    }
    matches!(aggregate.kind, Kind::Count)
}

fn aggregate_fits(variable: usize, aggregate: &Aggregate, width: usize) -> bool
    ensures { result ≡ true → AggregateFits width (variable, aggregation_of aggregate.now) }
{
    if variable >= width {
        return false;
    }
    if !argument_fits(&aggregate.argument, width) {
        return false;
    }
    is_formed(aggregate)
}

fn aggregates_fit(aggregates: &[(usize, Aggregate)], width: usize) -> bool
    ensures { result ≡ true → AllByRecursion (AggregateFits width) (aggregations_of aggregates.now) }
{
    for entry in aggregates {
        let (variable, aggregate) = entry;
        if !aggregate_fits(*variable, aggregate, width) {
            return false;
        }
    }
    true
}

/// Whether the tree fits the width.
pub(crate) fn fits(tree: &Tree, width: usize) -> bool
    ensures { result ≡ true → Fits width (node_of tree.now) }
{
    match tree {
        Tree::Unit => true,
        Tree::Pattern {
            place,
            subject,
            predicate,
            object,
        } => pattern_fits(place, subject, predicate, object, width),
        Tree::Join { left, right } => fits(left, width) && fits(right, width),
        Tree::LeftJoin {
            left,
            right,
            condition,
        } => expression_fits(condition, width) && fits(left, width) && fits(right, width),
        Tree::Union { left, right } => fits(left, width) && fits(right, width),
        Tree::Minus { left, right } => fits(left, width) && fits(right, width),
        Tree::Exists {
            left,
            right,
            condition,
        } => expression_fits(condition, width) && fits(left, width) && fits(right, width),
        Tree::NotExists {
            left,
            right,
            condition,
        } => expression_fits(condition, width) && fits(left, width) && fits(right, width),
        Tree::Filter { child, condition } => {
            expression_fits(condition, width) && fits(child, width)
        }
        Tree::Extend {
            child,
            variable,
            expression,
        } => *variable < width && expression_fits(expression, width) && fits(child, width),
        Tree::Values { rows } => have_width(rows, width),
        Tree::Project { child, variables } => are_below(variables, width) && fits(child, width),
        Tree::Distinct { child } => fits(child, width),
        Tree::Group {
            child,
            keys,
            aggregates,
        } => are_below(keys, width) && aggregates_fit(aggregates, width) && fits(child, width),
    }
}
