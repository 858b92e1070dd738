// Operators, calls and aggregates of a query, counted on the tree as it is written. A count that 64 bits don't hold is
// answered as want of memory.
ghost use Rattle.std.specs.Prelude.{◌≡◌, ◌+◌, IfOk, map, option_to_list, sum_by};
ghost use Rattle.rsp_written.specs.Building.{elements_in, exprs_in, groups_in, operands_in};
ghost use Rattle.rsp_written.specs.GroupMeanings as written;
ghost use Rattle.rsp_written.specs.Meanings.{expr_of, operand_of};
ghost use Rattle.rsp_numbering.specs.Operators as counted;
ghost use Rattle.rsp_numbering.specs.Seeing.{written_branches_of};
ghost use Rattle.rsp_numbering.specs.Selections.{items_in};

use rsp_written::{Element, Expression, Item, Operand, Projection, Select};
use std::alloc::AllocError;

pub(crate) fn plus(first: usize, second: usize) -> Result<usize, AllocError>
    ensures { IfOk result (λ n. n ≡ first + second) }
{
    first.checked_add(second).ok_or(AllocError)
}

// ---- of expressions

#[cycle(operators)]
fn operators(expression: &Expression) -> Result<usize, AllocError>
    ensures { IfOk result (λ n. n ≡ counted.operators (expr_of expression.now)) }
{
    match expression {
        Expression::Variable(_) => Ok(0),
        Expression::Iri(_) => Ok(0),
        Expression::Constant(_) => Ok(0),
        Expression::AnyOf(parts) => Ok(operators_among(1, parts)?.saturating_sub(1)),
        Expression::AllOf(parts) => Ok(operators_among(1, parts)?.saturating_sub(1)),
        Expression::Compared { left, right, .. } => {
            let left = operators(left)?;
            plus(1, plus(left, operators(right)?)?)
        }
        Expression::Member { item, list, .. } => {
            let item = operators(item)?;
            plus(1, plus(item, operators_among(0, list)?)?)
        }
        Expression::Sum { first, rest } => {
            let first = operators(first)?;
            plus(first, operators_behind(rest)?)
        }
        Expression::Product { first, rest } => {
            let first = operators(first)?;
            plus(first, operators_behind(rest)?)
        }
        Expression::Signed { part, .. } => plus(1, operators(part)?),
        Expression::Bound(_) => Ok(1),
        Expression::Call { arguments, .. } => plus(1, operators_among(0, arguments)?),
        Expression::CountRows => Ok(1),
        Expression::Aggregate { argument, .. } => plus(1, operators(argument)?),
    }
}

// each with so many signs before it
#[cycle(operators)]
fn operators_among(signs: usize, expressions: &[Expression]) -> Result<usize, AllocError>
    ensures { IfOk result (λ n. n ≡ counted.operators_among signs (exprs_in (map expr_of expressions.now))) }
{
    let mut count = 0;
    for expression in expressions {
        count = plus(count, plus(signs, operators(expression)?)?)?;
    }
    Ok(count)
}

#[cycle(operators)]
fn operators_behind(operands: &[Operand]) -> Result<usize, AllocError>
    ensures { IfOk result (λ n. n ≡ counted.operators_behind (operands_in (map operand_of operands.now))) }
{
    let mut count = 0;
    for operand in operands {
        count = plus(count, plus(1, operators(&operand.part)?)?)?;
    }
    Ok(count)
}

// ---- of items and HAVING

fn of_item(item: &Item) -> Result<usize, AllocError>
    ensures { IfOk result (λ n. n ≡ counted.item_operators (written.item_of item.now)) }
{
    match item {
        Item::Shown(_) => Ok(0),
        Item::Computed { expression, .. } => operators(expression),
    }
}

fn of_items(items: &[Item]) -> Result<usize, AllocError>
    ensures { IfOk result (λ n. n ≡ sum_by counted.item_operators (map written.item_of items.now)) }
{
    let mut count = 0;
    for item in items {
        count = plus(count, of_item(item)?)?;
    }
    Ok(count)
}

fn of_projection(projection: &Projection) -> Result<usize, AllocError>
    ensures { IfOk result (λ n. n ≡ sum_by counted.item_operators (items_in (written.projection_of projection.now))) }
{
    match projection {
        Projection::Every => Ok(0),
        Projection::These(items) => of_items(items),
    }
}

fn of_having(having: &Option<Expression>) -> Result<usize, AllocError>
    ensures { IfOk result (λ n. n ≡ sum_by counted.operators (option_to_list (written.maybe_expr having.now))) }
{
    match having {
        None => Ok(0),
        Some(expression) => operators(expression),
    }
}

// ---- of groups

#[cycle(group_operators)]
fn of_element(element: &Element) -> Result<usize, AllocError>
    ensures { IfOk result (λ n. n ≡ counted.element_operators (written.element_of element.now)) }
{
    match element {
        Element::Triples(_) => Ok(0),
        Element::Optional(body) => of_group(body),
        Element::Minus(body) => of_group(body),
        Element::Union(branches) => of_groups(branches),
        Element::Graph { body, .. } => of_group(body),
        Element::Window { body, .. } => of_group(body),
        Element::Filter(expression) => operators(expression),
        Element::Exists { body, .. } => of_group(body),
        Element::Bind { expression, .. } => operators(expression),
        Element::Values(_) => Ok(0),
        Element::Sub(select) => of_select(select),
    }
}

#[cycle(group_operators)]
fn of_group(elements: &[Element]) -> Result<usize, AllocError>
    ensures { IfOk result (λ n. n ≡ counted.group_operators (elements_in (map written.element_of elements.now))) }
{
    let mut count = 0;
    for element in elements {
        count = plus(count, of_element(element)?)?;
    }
    Ok(count)
}

#[cycle(group_operators)]
fn of_groups(branches: &[Vec<Element>]) -> Result<usize, AllocError>
    ensures { IfOk result (λ n. n ≡ counted.groups_operators (groups_in (written_branches_of branches.now))) }
{
    let mut count = 0;
    for branch in branches {
        count = plus(count, of_group(branch)?)?;
    }
    Ok(count)
}

/// The operators, calls and aggregates of a SELECT.
#[cycle(group_operators)]
pub(crate) fn of_select(select: &Select) -> Result<usize, AllocError>
    ensures { IfOk result (λ n. n ≡ counted.select_operators (written.select_of select.now)) }
{
    let items = of_projection(&select.projection)?;
    let body = of_group(&select.body)?;
    let keys = of_items(&select.keys)?;
    let having = of_having(&select.having)?;
    plus(plus(items, body)?, plus(keys, having)?)
}
