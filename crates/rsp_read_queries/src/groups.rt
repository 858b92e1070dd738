// Reading groups. The functions of the cycle go down: each reads what stands in a group that is nested more deeply, and the
// depth falls at each brace.
ghost use Rattle.std.specs.Prelude.{◌≡◌, ◌∷◌, [], IfOk, map};
ghost use Rattle.std.specs.formers.vec.Vec.{mapped};
ghost use Rattle.rsp_phrases.specs.Gathering.{gathered, as_read, single};
ghost use Rattle.rsp_phrases.specs.Readers.{second_read};
ghost use Rattle.rsp_read_queries.specs.Inside.{found_together, inside_read, opened_read};
ghost use Rattle.rsp_written.specs.Building.{elements_in};
ghost use Rattle.rsp_written.specs.Gives.{Gives};
ghost use Rattle.rsp_written.specs.GroupMeanings.{element_of, item_of, maybe_expr, projection_of};
ghost use Rattle.rsp_written.specs.GroupReadings as readings;
ghost use Rattle.rsp_written.specs.Readings.{repeated_read, word_kinds, word_read};
ghost use Rattle.rsp_written.specs.Trees.{selected, sub_select};
ghost use Rattle.rsp_written.specs.declared.said.Keyword.TheVariants as keyword;

use crate::elements::{
    begins_other, bound_element, graph_name, maybe_dot, values_element, with_triples,
};
use crate::selects::{Clause, Tail, modifiers, select_clause};
use rsp_read_expressions::{begins_call, call, in_parens, maybe_word};
use rsp_written::{Element, Halt, Keyword, Kind, Said, Select, Symbol, first_is, iri, sign, word};
use std::alloc::{AllocError, Global};

/// A word that opens an element with a group.
#[derive(Clone, Copy, Drop)]
pub(crate) enum Opening {
    Optional,
    Minus,
    Graph,
    Window,
}

// a group that holds groups at most so deep
#[cycle(groups)]
#[tactic(auto, unfolding(crate::specs::Inside::inside_read, rsp_phrases::specs::Readers::nested_read, rsp_written::specs::GroupReadings::group_rule_read))]
fn group_at(depth: usize, alloc: Global, tokens: &[Said]) -> Result<(Vec<Element>, &[Said]), Halt>
    ensures { Gives (λ x. (map element_of x.0.items, x.1.now)) result (readings.group_of_read (inside_read depth) tokens.now) }
{
    let (_, rest) = sign(Symbol::OpenBrace, tokens)?;
    if depth == 0 {
        return Err(Halt::Wrong(rest.len()));
    }
    if first_is(Kind::Word(Keyword::Select), rest) {
        let (elements, rest) = sub_select(depth - 1, alloc, rest)?;
        let (_, rest) = sign(Symbol::CloseBrace, rest)?;
        return Ok((elements, rest));
    }
    let (elements, rest) = body(depth - 1, alloc, rest)?;
    let (_, rest) = sign(Symbol::CloseBrace, rest)?;
    Ok((elements, rest))
}

#[cycle(groups)]
#[tactic(auto, unfolding(rsp_written::specs::GroupReadings::sub_select_read, rsp_written::specs::GroupReadings::maybe_where_read))]
fn sub_select(depth: usize, alloc: Global, tokens: &[Said]) -> Result<(Vec<Element>, &[Said]), Halt>
    ensures { Gives (λ x. (map element_of x.0.items, x.1.now)) result (readings.sub_select_read (inside_read depth) tokens.now) }
{
    let (clause, rest) = select_clause(alloc, tokens)?;
    let (_, rest) = maybe_word(Keyword::Where, rest)?;
    let (body, rest) = group_at(depth, alloc, rest)?;
    let (tail, rest) = modifiers(alloc, rest)?;
    Ok((sub_select_of(alloc, clause, body, tail)?, rest))
}

fn sub_select_of(
    alloc: Global,
    clause: Clause,
    body: Vec<Element>,
    tail: Tail,
) -> Result<Vec<Element>, AllocError>
    ensures { IfOk result (λ elements. map element_of elements.items
        ≡ sub_select (selected clause.distinct (projection_of clause.projection)
        (elements_in (map element_of body.items)) (map item_of tail.keys.items) (maybe_expr tail.having)) ∷ []) }
{
    let Clause {
        distinct,
        projection,
    } = clause;
    let Tail { keys, having } = tail;
    let select = Select {
        distinct,
        projection,
        body,
        keys,
        having,
    };
    let mut elements = Vec::new(alloc);
    elements.push(Element::Sub(Box::new(alloc, select)?))?;
    Ok(elements)
}

// triples, and elements with triples between
#[cycle(groups)]
#[tactic(auto, unfolding(rsp_written::specs::GroupReadings::body_read))]
fn body(depth: usize, alloc: Global, tokens: &[Said]) -> Result<(Vec<Element>, &[Said]), Halt>
    ensures { Gives (λ x. (map element_of x.0.items, x.1.now)) result (readings.body_read (inside_read depth) tokens.now) }
{
    let (first, behind) = with_triples(alloc, Vec::new(alloc), tokens)?;
    let mut elements = first;
    let mut rest = behind;
    for _ in 0..behind.len() {
        if !begins_other(rest) {
            return Ok((elements, rest));
        }
        let (more, behind) = piece(depth, alloc, elements, rest)?;
        elements = more;
        rest = behind;
    }
    Ok((elements, rest))
}

// an element, maybe `.`, and the triples behind it
#[cycle(groups)]
#[tactic(auto, unfolding(rsp_written::specs::GroupReadings::piece_read))]
fn piece(
    depth: usize,
    alloc: Global,
    before: Vec<Element>,
    tokens: &[Said],
) -> Result<(Vec<Element>, &[Said]), Halt>
    ensures { Gives (λ x. (map element_of x.0.items, x.1.now)) result
        (gathered found_together (map element_of before.items) (readings.piece_read (inside_read depth) tokens.now)) }
{
    let (element, rest) = other(depth, alloc, tokens)?;
    let mut elements = before;
    elements.push(element)?;
    let (_, rest) = maybe_dot(rest)?;
    with_triples(alloc, elements, rest)
}

#[cycle(groups)]
#[tactic(auto, unfolding(rsp_written::specs::GroupReadings::other_read))]
fn other(depth: usize, alloc: Global, tokens: &[Said]) -> Result<(Element, &[Said]), Halt>
    ensures { Gives (λ x. (element_of x.0, x.1.now)) result (readings.other_read (inside_read depth) tokens.now) }
{
    if first_is(Kind::Word(Keyword::Optional), tokens) {
        opened(Opening::Optional, depth, alloc, tokens)
    } else if first_is(Kind::Word(Keyword::Minus), tokens) {
        opened(Opening::Minus, depth, alloc, tokens)
    } else if first_is(Kind::Symbol(Symbol::OpenBrace), tokens) {
        union(depth, alloc, tokens)
    } else if first_is(Kind::Word(Keyword::Graph), tokens) {
        opened(Opening::Graph, depth, alloc, tokens)
    } else if first_is(Kind::Word(Keyword::Window), tokens) {
        opened(Opening::Window, depth, alloc, tokens)
    } else if first_is(Kind::Word(Keyword::Filter), tokens) {
        filter(depth, alloc, tokens)
    } else if first_is(Kind::Word(Keyword::Bind), tokens) {
        bound_element(alloc, tokens)
    } else {
        values_element(alloc, tokens)
    }
}

#[cycle(groups)]
#[tactic(auto, unfolding(rsp_written::specs::GroupReadings::optional_rule_read, rsp_written::specs::GroupReadings::minus_rule_read, rsp_written::specs::GroupReadings::graph_rule_read, rsp_written::specs::GroupReadings::window_rule_read))]
fn opened(
    opening: Opening,
    depth: usize,
    alloc: Global,
    tokens: &[Said],
) -> Result<(Element, &[Said]), Halt>
    ensures { Gives (λ x. (element_of x.0, x.1.now)) result (opened_read opening (inside_read depth) tokens.now) }
{
    match opening {
        Opening::Optional => {
            let (_, rest) = word(Keyword::Optional, tokens)?;
            let (body, rest) = group_at(depth, alloc, rest)?;
            Ok((Element::Optional(body), rest))
        }
        Opening::Minus => {
            let (_, rest) = word(Keyword::Minus, tokens)?;
            let (body, rest) = group_at(depth, alloc, rest)?;
            Ok((Element::Minus(body), rest))
        }
        Opening::Graph => {
            let (said, rest) = word(Keyword::Graph, tokens)?;
            let at = said.at;
            let (name, rest) = graph_name(rest)?;
            let (body, rest) = group_at(depth, alloc, rest)?;
            Ok((Element::Graph { name, at, body }, rest))
        }
        Opening::Window => {
            let (said, rest) = word(Keyword::Window, tokens)?;
            let at = said.at;
            let (name, rest) = iri(rest)?;
            let (body, rest) = group_at(depth, alloc, rest)?;
            Ok((Element::Window { name, at, body }, rest))
        }
    }
}

#[cycle(groups)]
#[tactic(auto, unfolding(rsp_written::specs::GroupReadings::filter_rule_read, rsp_written::specs::GroupReadings::exists_rule_read))]
fn filter(depth: usize, alloc: Global, tokens: &[Said]) -> Result<(Element, &[Said]), Halt>
    ensures { Gives (λ x. (element_of x.0, x.1.now)) result (readings.filter_rule_read (inside_read depth) tokens.now) }
{
    let (_, rest) = word(Keyword::Filter, tokens)?;
    if first_is(Kind::Symbol(Symbol::OpenParen), rest) {
        let (expression, rest) = in_parens(alloc, rest)?;
        return Ok((Element::Filter(expression), rest));
    }
    if begins_call(rest) {
        let (expression, rest) = call(alloc, rest)?;
        return Ok((Element::Filter(expression), rest));
    }
    let (negated, rest) = maybe_word(Keyword::Not, rest)?;
    let (said, rest) = word(Keyword::Exists, rest)?;
    let at = said.at;
    let (body, rest) = group_at(depth, alloc, rest)?;
    Ok((Element::Exists { negated, at, body }, rest))
}

// groups with UNION between
#[cycle(groups)]
#[tactic(auto, unfolding(rsp_written::specs::GroupReadings::union_rule_read))]
fn union(depth: usize, alloc: Global, tokens: &[Said]) -> Result<(Element, &[Said]), Halt>
    ensures { Gives (λ x. (element_of x.0, x.1.now)) result (readings.union_rule_read (inside_read depth) tokens.now) }
{
    let (first, rest) = group_at(depth, alloc, tokens)?;
    let mut groups = Vec::new(alloc);
    groups.push(first)?;
    let (groups, rest) = more_groups(depth, alloc, groups, rest)?;
    Ok((Element::Union(groups), rest))
}

#[cycle(groups)]
fn more_groups(
    depth: usize,
    alloc: Global,
    before: Vec<Vec<Element>>,
    tokens: &[Said],
) -> Result<(Vec<Vec<Element>>, &[Said]), Halt>
    ensures { Gives (λ x. (map (λ branch. branch.items) (map (mapped element_of) x.0.items), x.1.now)) result
        (gathered as_read (map (λ branch. branch.items) (map (mapped element_of) before.items))
        (repeated_read (word_kinds keyword.Union)
        (second_read (word_read keyword.Union) (readings.group_of_read (inside_read depth))) tokens.now)) }
{
    let mut groups = before;
    let mut rest = tokens;
    for _ in 0..tokens.len() {
        if !first_is(Kind::Word(Keyword::Union), rest) {
            return Ok((groups, rest));
        }
        let (more, behind) = another_group(depth, alloc, groups, rest)?;
        groups = more;
        rest = behind;
    }
    Ok((groups, rest))
}

#[cycle(groups)]
fn another_group(
    depth: usize,
    alloc: Global,
    before: Vec<Vec<Element>>,
    tokens: &[Said],
) -> Result<(Vec<Vec<Element>>, &[Said]), Halt>
    ensures { Gives (λ x. (map (λ branch. branch.items) (map (mapped element_of) x.0.items), x.1.now)) result
        (gathered single (map (λ branch. branch.items) (map (mapped element_of) before.items))
        (second_read (word_read keyword.Union) (readings.group_of_read (inside_read depth)) tokens.now)) }
{
    let (_, rest) = word(Keyword::Union, tokens)?;
    let (group, rest) = group_at(depth, alloc, rest)?;
    let mut groups = before;
    groups.push(group)?;
    Ok((groups, rest))
}

/// A group, with its braces.
#[tactic(auto, unfolding(rsp_written::specs::GroupReadings::group_read))]
pub fn group(alloc: Global, tokens: &[Said]) -> Result<(Vec<Element>, &[Said]), Halt>
    ensures { Gives (λ x. (map element_of x.0.items, x.1.now)) result (readings.group_read tokens.now) }
{
    group_at(tokens.len(), alloc, tokens)
}
