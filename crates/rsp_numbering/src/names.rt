// The variables of a query by their numbers, in a pass that builds no tree: limits count them before anything is built.
ghost use Rattle.std.specs.Prelude.{◌≡◌, IfOk, OnOk, map};
ghost use Rattle.rsp_written.specs.Building.{elements_in, exprs_in, groups_in, nodes_in, operands_in};
ghost use Rattle.rsp_written.specs.GroupMeanings as written;
ghost use Rattle.rsp_written.specs.Meanings as meanings;
ghost use Rattle.rsp_numbering.specs.Counting as counting;
ghost use Rattle.rsp_numbering.specs.ExpressionSteps as expressions;
ghost use Rattle.rsp_numbering.specs.Naming as naming;
ghost use Rattle.rsp_numbering.specs.Same as same;
ghost use Rattle.rsp_numbering.specs.Seeing.{scopes_of, written_branches_of};
ghost use Rattle.rsp_numbering.specs.Selections as defined;
ghost use Rattle.rsp_numbering.specs.SelectionSteps as numbered;
ghost use Rattle.rsp_numbering.specs.TripleSteps as triples;

use crate::Before;
use crate::scopes::{Scope, number_of, within};
use rsp_terms::Text;
use rsp_written::{
    Element, Expression, GraphName, Item, Node, Operand, Projection, Property, Select, Subject,
    Verb,
};
use std::alloc::{AllocError, Global};

fn of_name(at: &[Scope], before: &mut Before, name: &Text) -> Result<(), AllocError>
    ensures { OnOk result (before.new ≡ naming.behind before.old (naming.named (scopes_of at.now) name.now)) }
{
    number_of(at, before, name)?;
    Ok(())
}

fn of_names(at: &[Scope], before: &mut Before, names: &[Text]) -> Result<(), AllocError>
    ensures { OnOk result (before.new ≡ numbered.behind_names (scopes_of at.now) before.old names.now) }
{
    for each in names {
        of_name(at, before, each)?;
    }
    Ok(())
}

// ---- expressions

fn aggregate(before: &mut Before) -> Result<(), AllocError>
    ensures { OnOk result (before.new ≡ naming.behind before.old (naming.aggregate before.old)) }
{
    before.aggregate()?;
    Ok(())
}

#[cycle(names)]
fn of_expression(
    at: &[Scope],
    before: &mut Before,
    expression: &Expression,
) -> Result<(), AllocError>
    ensures { OnOk result (before.new
        ≡ expressions.behind_expr (scopes_of at.now) before.old (meanings.expr_of expression.now)) }
{
    match expression {
        Expression::Variable(variable) => of_name(at, before, variable),
        Expression::Iri(_) => Ok(()),
        Expression::Constant(_) => Ok(()),
        Expression::AnyOf(parts) => of_expressions(at, before, parts),
        Expression::AllOf(parts) => of_expressions(at, before, parts),
        Expression::Compared { left, right, .. } => {
            of_expression(at, before, left)?;
            of_expression(at, before, right)
        }
        Expression::Member { item, list, .. } => {
            of_expression(at, before, item)?;
            of_expressions(at, before, list)
        }
        Expression::Sum { first, rest } => {
            of_expression(at, before, first)?;
            of_operands(at, before, rest)
        }
        Expression::Product { first, rest } => {
            of_expression(at, before, first)?;
            of_operands(at, before, rest)
        }
        Expression::Signed { part, .. } => of_expression(at, before, part),
        Expression::Bound(variable) => of_name(at, before, variable),
        Expression::Call { arguments, .. } => of_expressions(at, before, arguments),
        Expression::CountRows => aggregate(before),
        Expression::Aggregate { argument, .. } => {
            aggregate(before)?;
            of_expression(at, before, argument)
        }
    }
}

#[cycle(names)]
fn of_expressions(at: &[Scope], before: &mut Before, parts: &[Expression]) -> Result<(), AllocError>
    ensures { OnOk result (before.new
        ≡ expressions.behind_exprs (scopes_of at.now) before.old (exprs_in (map meanings.expr_of parts.now))) }
{
    for part in parts {
        of_expression(at, before, part)?;
    }
    Ok(())
}

#[cycle(names)]
fn of_operands(at: &[Scope], before: &mut Before, operands: &[Operand]) -> Result<(), AllocError>
    ensures { OnOk result (before.new
        ≡ expressions.behind_operands (scopes_of at.now) before.old (operands_in (map meanings.operand_of operands.now))) }
{
    for operand in operands {
        of_expression(at, before, &operand.part)?;
    }
    Ok(())
}

// ---- triples

fn of_verb(at: &[Scope], before: &mut Before, verb: &Verb) -> Result<(), AllocError>
    ensures { OnOk result (before.new
        ≡ triples.behind_verb (scopes_of at.now) before.old (meanings.verb_of verb.now)) }
{
    match verb {
        Verb::Named(variable) => of_name(at, before, variable),
        Verb::Along(_) => Ok(()),
    }
}

fn label(before: &mut Before, label: &Text) -> Result<(), AllocError>
    ensures { OnOk result (before.new ≡ naming.behind before.old (same.label label.now)) }
{
    before.label(label)?;
    Ok(())
}

fn bracket(before: &mut Before) -> Result<(), AllocError>
    ensures { OnOk result (before.new ≡ naming.behind before.old (naming.bracket before.old)) }
{
    before.bracket()?;
    Ok(())
}

// a node, or the bracket that opens it
fn of_node(at: &[Scope], before: &mut Before, node: &Node) -> Result<(), AllocError>
    ensures { OnOk result (before.new
        ≡ triples.behind_slot (scopes_of at.now) before.old (meanings.node_of node.now)) }
{
    match node {
        Node::Variable(variable) => of_name(at, before, variable),
        Node::Iri(_) => Ok(()),
        Node::Constant(_) => Ok(()),
        Node::Label(text) => label(before, text),
        Node::Blank => bracket(before),
        Node::Described(_) => bracket(before),
    }
}

// what stands in a node's brackets
#[cycle(node_names)]
fn in_node(at: &[Scope], before: &mut Before, node: &Node) -> Result<(), AllocError>
    ensures { OnOk result (before.new
        ≡ triples.behind_inner (scopes_of at.now) before.old (meanings.node_of node.now)) }
{
    match node {
        Node::Described(properties) => of_properties(at, before, properties),
        _ => Ok(()),
    }
}

#[cycle(node_names)]
fn of_nodes(at: &[Scope], before: &mut Before, nodes: &[Node]) -> Result<(), AllocError>
    ensures { OnOk result (before.new
        ≡ triples.behind_nodes (scopes_of at.now) before.old (nodes_in (map meanings.node_of nodes.now))) }
{
    for node in nodes {
        of_node(at, before, node)?;
        in_node(at, before, node)?;
    }
    Ok(())
}

#[cycle(node_names)]
fn of_properties(
    at: &[Scope],
    before: &mut Before,
    properties: &[Property],
) -> Result<(), AllocError>
    ensures { OnOk result (before.new
        ≡ triples.behind_properties (scopes_of at.now) before.old (meanings.properties_of properties.now)) }
{
    for property in properties {
        of_verb(at, before, &property.verb)?;
        of_nodes(at, before, &property.objects)?;
    }
    Ok(())
}

fn of_triples(at: &[Scope], before: &mut Before, subject: &Subject) -> Result<(), AllocError>
    ensures { OnOk result (before.new
        ≡ triples.behind_triples (scopes_of at.now) before.old (meanings.subject_of subject.now).0
        (meanings.subject_of subject.now).1) }
{
    of_node(at, before, &subject.node)?;
    in_node(at, before, &subject.node)?;
    of_properties(at, before, &subject.properties)
}

// ---- items, keys, HAVING and GRAPH

fn of_item(at: &[Scope], before: &mut Before, item: &Item) -> Result<(), AllocError>
    ensures { OnOk result (before.new
        ≡ numbered.behind_item (scopes_of at.now) before.old (written.item_of item.now)) }
{
    match item {
        Item::Shown(variable) => of_name(at, before, variable),
        Item::Computed {
            expression,
            name: variable,
        } => {
            of_expression(at, before, expression)?;
            of_name(at, before, variable)
        }
    }
}

fn of_items(at: &[Scope], before: &mut Before, items: &[Item]) -> Result<(), AllocError>
    ensures { OnOk result (before.new
        ≡ numbered.behind_items (scopes_of at.now) before.old (map written.item_of items.now)) }
{
    for item in items {
        of_item(at, before, item)?;
    }
    Ok(())
}

fn of_projection(
    at: &[Scope],
    before: &mut Before,
    projection: &Projection,
) -> Result<(), AllocError>
    ensures { OnOk result (before.new
        ≡ numbered.behind_items (scopes_of at.now) before.old (defined.items_in (written.projection_of projection.now))) }
{
    match projection {
        Projection::Every => Ok(()),
        Projection::These(items) => of_items(at, before, items),
    }
}

fn of_having(
    at: &[Scope],
    before: &mut Before,
    having: &Option<Expression>,
) -> Result<(), AllocError>
    ensures { OnOk result (before.new
        ≡ numbered.behind_having (scopes_of at.now) before.old (written.maybe_expr having.now)) }
{
    match having {
        None => Ok(()),
        Some(expression) => of_expression(at, before, expression),
    }
}

fn of_graph(at: &[Scope], before: &mut Before, graph: &GraphName) -> Result<(), AllocError>
    ensures { OnOk result (before.new
        ≡ numbered.behind_graph (scopes_of at.now) before.old (written.graph_of graph.now)) }
{
    match graph {
        GraphName::Variable(variable) => of_name(at, before, variable),
        GraphName::Iri(_) => Ok(()),
    }
}

// ---- groups

#[cycle(group_names)]
fn of_element(
    alloc: Global,
    at: &[Scope],
    before: &mut Before,
    element: &Element,
) -> Result<(), AllocError>
    ensures { OnOk result (before.new
        ≡ numbered.behind_element (scopes_of at.now) before.old (written.element_of element.now)) }
{
    match element {
        Element::Triples(subject) => of_triples(at, before, subject),
        Element::Optional(body) => of_group(alloc, at, before, body),
        Element::Minus(body) => of_group(alloc, at, before, body),
        Element::Union(branches) => of_groups(alloc, at, before, branches),
        Element::Graph { name, body, .. } => {
            of_graph(at, before, name)?;
            of_group(alloc, at, before, body)
        }
        Element::Window { body, .. } => of_group(alloc, at, before, body),
        Element::Filter(expression) => of_expression(at, before, expression),
        Element::Exists { body, .. } => of_group(alloc, at, before, body),
        Element::Bind {
            expression,
            name: variable,
        } => {
            of_expression(at, before, expression)?;
            of_name(at, before, variable)
        }
        Element::Values(block) => of_names(at, before, &block.variables),
        Element::Sub(inner) => of_select(alloc, at, before, inner),
    }
}

#[cycle(group_names)]
fn of_group(
    alloc: Global,
    at: &[Scope],
    before: &mut Before,
    elements: &[Element],
) -> Result<(), AllocError>
    ensures { OnOk result (before.new
        ≡ numbered.behind_elements (scopes_of at.now) before.old (elements_in (map written.element_of elements.now))) }
{
    for element in elements {
        of_element(alloc, at, before, element)?;
    }
    Ok(())
}

#[cycle(group_names)]
fn of_groups(
    alloc: Global,
    at: &[Scope],
    before: &mut Before,
    branches: &[Vec<Element>],
) -> Result<(), AllocError>
    ensures { OnOk result (before.new
        ≡ numbered.behind_groups (scopes_of at.now) before.old (groups_in (written_branches_of branches.now))) }
{
    for branch in branches {
        of_group(alloc, at, before, branch)?;
    }
    Ok(())
}

// behind the word SELECT, with its scope among the others
#[cycle(group_names)]
fn in_select(
    alloc: Global,
    at: &[Scope],
    before: &mut Before,
    select: &Select,
) -> Result<(), AllocError>
    ensures { OnOk result (before.new
        ≡ numbered.behind_within (scopes_of at.now) before.old (written.select_of select.now)) }
{
    of_projection(at, before, &select.projection)?;
    of_group(alloc, at, before, &select.body)?;
    of_items(at, before, &select.keys)?;
    of_having(at, before, &select.having)
}

#[cycle(group_names)]
fn of_select(
    alloc: Global,
    at: &[Scope],
    before: &mut Before,
    select: &Select,
) -> Result<(), AllocError>
    ensures { OnOk result (before.new
        ≡ numbered.behind_selected (scopes_of at.now) before.old (written.select_of select.now)) }
{
    let number = before.select()?;
    let inside = within(alloc, number, &select.projection, at)?;
    in_select(alloc, &inside, before, select)
}

/// How many variables a query with this SELECT has. Fails only where memory is refused.
pub(crate) fn variables_of(alloc: Global, select: &Select) -> Result<usize, AllocError>
    ensures { IfOk result (λ n. n ≡ counting.variables_of (written.select_of select.now)) }
{
    let mut before = Before::new(alloc);
    of_select(alloc, &[], &mut before, select)?;
    Ok(before.len())
}
