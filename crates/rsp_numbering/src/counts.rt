// Triple patterns, `/`, elements and rows of VALUES, counted on the tree as it is written, so that nothing is built of a
// text that has too many. A path counts for each of its objects. A count that 64 bits don't hold is answered as want of memory.
ghost use Rattle.std.specs.Prelude.{◌≡◌, IfOk, map};
ghost use Rattle.rsp_query.specs.Paths as paths;
ghost use Rattle.rsp_written.specs.Building.{elements_in, groups_in, nodes_in, ways_in};
ghost use Rattle.rsp_written.specs.GroupMeanings as written;
ghost use Rattle.rsp_written.specs.Meanings as meanings;
ghost use Rattle.rsp_numbering.specs.Counting as counting;
ghost use Rattle.rsp_numbering.specs.Limits as limits;
ghost use Rattle.rsp_numbering.specs.Seeing.{written_branches_of};
ghost use Rattle.rsp_numbering.specs.Triples.{path_of, paths_of};

use crate::operators::plus;
use rsp_written::{Element, Node, Path, Property, Select, Subject, Verb};
use std::alloc::AllocError;

/// What is counted.
#[derive(Clone, Copy)]
pub(crate) enum Count {
    /// The steps of a triple's path.
    Steps,
    /// The `/` of a triple's path.
    Slashes,
    /// Elements that aren't triples.
    Elements,
    /// Rows of VALUES.
    Rows,
}

// ---- paths

#[cycle(steps)]
fn steps(path: &Path) -> Result<usize, AllocError>
    ensures { IfOk result (λ n. n ≡ limits.steps (path_of (meanings.way_of path.now))) }
{
    match path {
        Path::Step(_) => Ok(1),
        Path::Inverse(part) => steps(part),
        Path::Sequence(parts) => steps_among(parts),
        Path::Choice(parts) => steps_among(parts),
    }
}

#[cycle(steps)]
fn steps_among(paths: &[Path]) -> Result<usize, AllocError>
    ensures { IfOk result (λ n. n ≡ counting.steps_among (ways_in (map meanings.way_of paths.now))) }
{
    let mut count = 0;
    for path in paths {
        count = plus(count, steps(path)?)?;
    }
    Ok(count)
}

#[cycle(slashes)]
fn slashes(path: &Path) -> Result<usize, AllocError>
    ensures { IfOk result (λ n. n ≡ paths.slashes (path_of (meanings.way_of path.now))) }
{
    match path {
        Path::Step(_) => Ok(0),
        Path::Inverse(part) => slashes(part),
        Path::Sequence(parts) => Ok(slashes_following(parts)?.saturating_sub(1)),
        Path::Choice(parts) => slashes_among(parts),
    }
}

#[cycle(slashes)]
fn slashes_among(paths: &[Path]) -> Result<usize, AllocError>
    ensures { IfOk result (λ n. n ≡ counting.slashes_among (ways_in (map meanings.way_of paths.now))) }
{
    let mut count = 0;
    for path in paths {
        count = plus(count, slashes(path)?)?;
    }
    Ok(count)
}

// each with a `/` before it
#[cycle(slashes)]
fn slashes_following(paths: &[Path]) -> Result<usize, AllocError>
    ensures { IfOk result (λ n. n ≡ counting.slashes_following (ways_in (map meanings.way_of paths.now))) }
{
    let mut count = 0;
    for path in paths {
        count = plus(count, plus(1, slashes(path)?)?)?;
    }
    Ok(count)
}

// ---- triples

// for each object
fn of_verb(count: Count, verb: &Verb) -> Result<usize, AllocError>
    ensures { IfOk result (λ n. n ≡ counting.verb_count count (meanings.verb_of verb.now)) }
{
    match (count, verb) {
        (Count::Steps, Verb::Named(_)) => Ok(1),
        (Count::Steps, Verb::Along(path)) => steps(path),
        (Count::Slashes, Verb::Along(path)) => slashes(path),
        _ => Ok(0),
    }
}

// what stands in a node's brackets
#[cycle(brackets)]
fn in_node(count: Count, node: &Node) -> Result<usize, AllocError>
    ensures { IfOk result (λ n. n ≡ counting.node_count count (meanings.node_of node.now)) }
{
    match node {
        Node::Described(properties) => in_properties(count, properties),
        _ => Ok(0),
    }
}

#[cycle(brackets)]
fn in_objects(count: Count, each: usize, nodes: &[Node]) -> Result<usize, AllocError>
    ensures { IfOk result (λ n. n ≡ counting.objects_count count each (nodes_in (map meanings.node_of nodes.now))) }
{
    let mut total = 0;
    for node in nodes {
        total = plus(total, plus(each, in_node(count, node)?)?)?;
    }
    Ok(total)
}

#[cycle(brackets)]
fn in_properties(count: Count, properties: &[Property]) -> Result<usize, AllocError>
    ensures { IfOk result (λ n. n ≡ counting.properties_count count (meanings.properties_of properties.now)) }
{
    let mut total = 0;
    for property in properties {
        let each = of_verb(count, &property.verb)?;
        total = plus(total, in_objects(count, each, &property.objects)?)?;
    }
    Ok(total)
}

fn in_triples(count: Count, subject: &Subject) -> Result<usize, AllocError>
    ensures { IfOk result (λ n. n ≡ counting.element_count count (counting.triples_of (meanings.subject_of subject.now))) }
{
    let node = in_node(count, &subject.node)?;
    plus(node, in_properties(count, &subject.properties)?)
}

// ---- groups

// an element that is no triples, nor VALUES, by itself
fn one(count: Count) -> usize
    ensures { result ≡ counting.element_one count }
{
    match count {
        Count::Elements => 1,
        _ => 0,
    }
}

fn of_values(count: Count, rows: usize) -> usize
    ensures { result ≡ counting.values_count count rows }
{
    match count {
        Count::Elements => 1,
        Count::Rows => rows,
        _ => 0,
    }
}

#[cycle(counting)]
fn in_element(count: Count, element: &Element) -> Result<usize, AllocError>
    ensures { IfOk result (λ n. n ≡ counting.element_count count (written.element_of element.now)) }
{
    match element {
        Element::Triples(subject) => in_triples(count, subject),
        Element::Optional(body) => plus(one(count), in_group(count, body)?),
        Element::Minus(body) => plus(one(count), in_group(count, body)?),
        Element::Union(branches) => plus(one(count), in_groups(count, branches)?),
        Element::Graph { body, .. } => plus(one(count), in_group(count, body)?),
        Element::Window { body, .. } => plus(one(count), in_group(count, body)?),
        Element::Filter(_) => Ok(one(count)),
        Element::Exists { body, .. } => plus(one(count), in_group(count, body)?),
        Element::Bind { .. } => Ok(one(count)),
        Element::Values(block) => Ok(of_values(count, block.rows.len())),
        Element::Sub(select) => plus(one(count), in_select(count, select)?),
    }
}

#[cycle(counting)]
fn in_group(count: Count, elements: &[Element]) -> Result<usize, AllocError>
    ensures { IfOk result (λ n. n ≡ counting.group_count count (elements_in (map written.element_of elements.now))) }
{
    let mut total = 0;
    for element in elements {
        total = plus(total, in_element(count, element)?)?;
    }
    Ok(total)
}

#[cycle(counting)]
fn in_groups(count: Count, branches: &[Vec<Element>]) -> Result<usize, AllocError>
    ensures { IfOk result (λ n. n ≡ counting.groups_count count (groups_in (written_branches_of branches.now))) }
{
    let mut total = 0;
    for branch in branches {
        total = plus(total, in_group(count, branch)?)?;
    }
    Ok(total)
}

/// How many of these a SELECT has, at every depth.
#[cycle(counting)]
pub(crate) fn in_select(count: Count, select: &Select) -> Result<usize, AllocError>
    ensures { IfOk result (λ n. n ≡ counting.select_count count (written.select_of select.now)) }
{
    in_group(count, &select.body)
}
