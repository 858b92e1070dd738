// Items of SELECTs, keys, HAVING, names of GRAPH and the columns of VALUES.
ghost use Rattle.std.specs.Prelude.{◌≡◌, IfOk, OnOk, map};
ghost use Rattle.rsp_expr.specs.Meanings.{formula_of, maybe_formula};
ghost use Rattle.rsp_query.specs.Meanings as query;
ghost use Rattle.rsp_written.specs.GroupMeanings as written;
ghost use Rattle.rsp_written.specs.Meanings.{expr_of};
ghost use Rattle.rsp_numbering.specs.ExpressionSteps as expressions;
ghost use Rattle.rsp_numbering.specs.Naming as naming;
ghost use Rattle.rsp_numbering.specs.Seeing.{aggregations_of, scopes_of};
ghost use Rattle.rsp_numbering.specs.Selections as defined;
ghost use Rattle.rsp_numbering.specs.SelectionSteps as numbered;

use crate::Before;
use crate::expressions::numbered;
use crate::scopes::{Scope, number_of};
use rsp_expr::{Aggregate, Expression, Slot};
use rsp_query::SelectItem;
use rsp_terms::{Listed, Term, Text};
use rsp_written::{GraphName, Item, Projection};
use std::alloc::{AllocError, Global};

/// An expression in which no aggregate may stand.
pub(crate) fn plain(
    alloc: Global,
    at: &[Scope],
    before: &mut Before,
    expression: &rsp_written::Expression,
) -> Result<Expression, AllocError>
    ensures formula { IfOk result (λ e. formula_of e
        ≡ expressions.numbered_expr (scopes_of at.now) before.old (expr_of expression.now)) }
    ensures behind { OnOk result (before.new ≡ expressions.behind_expr (scopes_of at.now) before.old (expr_of expression.now)) }
{
    let mut aggregates = Vec::new(alloc);
    numbered(alloc, at, before, &mut aggregates, expression)
}

fn item_of(
    alloc: Global,
    at: &[Scope],
    before: &mut Before,
    aggregates: &mut Vec<(usize, Aggregate)>,
    item: &Item,
) -> Result<SelectItem, AllocError>
    ensures item { IfOk result (λ made. query.item_of made
        ≡ numbered.item_of (scopes_of at.now) before.old (written.item_of item.now)) }
    ensures behind { OnOk result (before.new ≡ numbered.behind_item (scopes_of at.now) before.old (written.item_of item.now)) }
    ensures aggregates { OnOk result (aggregations_of aggregates.new.items
        ≡ numbered.with_item_aggregates (scopes_of at.now) before.old (aggregations_of aggregates.old.items)
        (written.item_of item.now)) }
{
    match item {
        Item::Shown(name) => Ok(SelectItem {
            variable: number_of(at, before, name)?,
            expression: None,
        }),
        Item::Computed { expression, name } => {
            let expression = numbered(alloc, at, before, aggregates, expression)?;
            let variable = number_of(at, before, name)?;
            Ok(SelectItem {
                variable,
                expression: Some(expression),
            })
        }
    }
}

fn items_of(
    alloc: Global,
    at: &[Scope],
    before: &mut Before,
    aggregates: &mut Vec<(usize, Aggregate)>,
    items: &[Item],
) -> Result<Vec<SelectItem>, AllocError>
    ensures items { IfOk result (λ made. map query.item_of made.items
        ≡ numbered.items_of (scopes_of at.now) before.old (map written.item_of items.now)) }
    ensures behind { OnOk result (before.new
        ≡ numbered.behind_items (scopes_of at.now) before.old (map written.item_of items.now)) }
    ensures aggregates { OnOk result (aggregations_of aggregates.new.items
        ≡ numbered.with_items_aggregates (scopes_of at.now) before.old (aggregations_of aggregates.old.items)
        (map written.item_of items.now)) }
{
    let mut made = Vec::new(alloc);
    for item in items {
        made.push(item_of(alloc, at, before, aggregates, item)?)?;
    }
    Ok(made)
}

/// The items of a SELECT, none under `*`; their aggregates are put behind those that are there.
pub(crate) fn projected(
    alloc: Global,
    at: &[Scope],
    before: &mut Before,
    aggregates: &mut Vec<(usize, Aggregate)>,
    projection: &Projection,
) -> Result<Vec<SelectItem>, AllocError>
    ensures items { IfOk result (λ made. map query.item_of made.items
        ≡ numbered.items_of (scopes_of at.now) before.old (defined.items_in (written.projection_of projection.now))) }
    ensures behind { OnOk result (before.new
        ≡ numbered.behind_items (scopes_of at.now) before.old (defined.items_in (written.projection_of projection.now))) }
    ensures aggregates { OnOk result (aggregations_of aggregates.new.items
        ≡ numbered.with_items_aggregates (scopes_of at.now) before.old (aggregations_of aggregates.old.items)
        (defined.items_in (written.projection_of projection.now))) }
{
    match projection {
        Projection::Every => Ok(Vec::new(alloc)),
        Projection::These(items) => items_of(alloc, at, before, aggregates, items),
    }
}

/// The keys of GROUP BY, in which no aggregate may stand.
pub(crate) fn keys_of(
    alloc: Global,
    at: &[Scope],
    before: &mut Before,
    keys: &[Item],
) -> Result<Vec<SelectItem>, AllocError>
    ensures items { IfOk result (λ made. map query.item_of made.items
        ≡ numbered.items_of (scopes_of at.now) before.old (map written.item_of keys.now)) }
    ensures behind { OnOk result (before.new
        ≡ numbered.behind_items (scopes_of at.now) before.old (map written.item_of keys.now)) }
{
    let mut aggregates = Vec::new(alloc);
    items_of(alloc, at, before, &mut aggregates, keys)
}

/// The condition of HAVING.
pub(crate) fn having_of(
    alloc: Global,
    at: &[Scope],
    before: &mut Before,
    aggregates: &mut Vec<(usize, Aggregate)>,
    having: &Option<rsp_written::Expression>,
) -> Result<Option<Expression>, AllocError>
    ensures formula { IfOk result (λ made. maybe_formula made
        ≡ numbered.having_of (scopes_of at.now) before.old (written.maybe_expr having.now)) }
    ensures behind { OnOk result (before.new
        ≡ numbered.behind_having (scopes_of at.now) before.old (written.maybe_expr having.now)) }
    ensures aggregates { OnOk result (aggregations_of aggregates.new.items
        ≡ numbered.with_having_aggregates (scopes_of at.now) before.old (aggregations_of aggregates.old.items)
        (written.maybe_expr having.now)) }
{
    match having {
        None => Ok(None),
        Some(expression) => Ok(Some(numbered(alloc, at, before, aggregates, expression)?)),
    }
}

/// Whether the SELECT is grouped.
pub(crate) fn is_grouped(
    keys: &[SelectItem],
    having: &Option<Expression>,
    aggregates: &[(usize, Aggregate)],
) -> bool
    ensures { result
        ≡ defined.is_grouped (map query.item_of keys.now) (maybe_formula having.now) (aggregations_of aggregates.now) }
{
    match (keys, having, aggregates) {
        ([], None, []) => false,
        _ => true,
    }
}

pub(crate) fn graph_of(
    at: &[Scope],
    before: &mut Before,
    name: &GraphName,
) -> Result<Slot, AllocError>
    ensures slot { IfOk result (λ slot. slot ≡ numbered.graph_of (scopes_of at.now) before.old (written.graph_of name.now)) }
    ensures behind { OnOk result (before.new ≡ numbered.behind_graph (scopes_of at.now) before.old (written.graph_of name.now)) }
{
    match name {
        GraphName::Variable(name) => Ok(Slot::Variable(number_of(at, before, name)?)),
        GraphName::Iri(name) => Ok(Slot::Constant(Term::Iri(name.share()?))),
    }
}

/// The numbers of names.
pub(crate) fn numbers_of(
    alloc: Global,
    at: &[Scope],
    before: &mut Before,
    names: &[Text],
) -> Result<Listed<usize>, AllocError>
    ensures numbers { IfOk result (λ made. made ≡ numbered.numbers_of (scopes_of at.now) before.old names.now) }
    ensures behind { OnOk result (before.new ≡ numbered.behind_names (scopes_of at.now) before.old names.now) }
{
    let mut made = Listed::new(alloc);
    for name in names {
        made.push(number_of(at, before, name)?)?;
    }
    Ok(made)
}

/// The same rows of values.
pub(crate) fn rows_of(
    alloc: Global,
    rows: &[Vec<Option<Term>>],
) -> Result<Vec<Listed<Option<Term>>>, AllocError>
    ensures { IfOk result (λ made. made.items ≡ map (λ row. row.items) rows.now) }
{
    let mut made = Vec::new(alloc);
    for row in rows {
        made.push(row_of(alloc, row)?)?;
    }
    Ok(made)
}

fn row_of(alloc: Global, row: &[Option<Term>]) -> Result<Listed<Option<Term>>, AllocError>
    ensures { IfOk result (λ made. made ≡ row.now) }
{
    let mut made = Listed::new(alloc);
    for value in row {
        made.push(value_of(value)?)?;
    }
    Ok(made)
}

fn value_of(value: &Option<Term>) -> Result<Option<Term>, AllocError>
    ensures { IfOk result (λ made. made ≡ value.now) }
{
    match value {
        None => Ok(None),
        Some(term) => Ok(Some(term.share()?)),
    }
}
