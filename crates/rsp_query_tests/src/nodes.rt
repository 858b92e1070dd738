// The rows of each node of the algebra (SPARQL 1.1 Query, section 18.5), worked out by hand.
use crate::fitting::fits;
use crate::notation::constant;
use rsp_algebra::Tree;
use rsp_eval::evaluate;
use rsp_expr::{Aggregate, Expression, Kind, Sign};
use rsp_multiset::Row;
use rsp_terms::{Term, Text};
use std::alloc::{AllocError, Global};
use std::test::Fail;

// variables are numbered from 0 and rows have three; numbers are integers and other words IRIs, which have no order, so that
// `<` of two is an error
#[derive(Clone, Copy, Debug)]
enum Node {
    Join,
    /// on ?1 = ?2
    LeftJoin,
    /// on ?0 < ?1
    LeftJoinError,
    Union,
    Minus,
    /// with ?1 = ?2
    Exists,
    /// with ?0 < ?1
    ExistsError,
    /// with ?1 = ?2
    NotExists,
    /// with ?0 < ?1
    NotExistsError,
    /// where ?1 = ?2
    FilterEqual,
    /// where ?0 < ?1
    FilterError,
    /// where ?1 isn't bound
    FilterUnbound,
    /// the value of ?0 as ?2
    Extend,
    /// the value of ?0 < ?1 as ?2
    ExtendError,
    Project,
    Distinct,
    /// by ?0, how many rows as ?1 and the sum of ?2 as ?2
    Group,
    /// the same without keys
    GroupAll,
    /// the same by ?0, where ?1 = ?2
    Having,
}

// a node, the rows of its left child, or of its only one, those of its right child, and its rows
const NODES: [(Node, &str, &str, &str); 56] = [
    (
        Node::Join,
        "a - -|b - -",
        "b c -|b d -|e - -",
        "b c -|b d -",
    ),
    (Node::Join, "- x -", "b x -|- - z", "b x -|- x z"),
    (Node::Join, "", "b x -", ""),
    (
        Node::Union,
        "a - -|a - -",
        "a - -|- b -",
        "a - -|a - -|a - -|- b -",
    ),
    (Node::Union, "", "- - -", "- - -"),
    // the bare row isn't kept beside a partner
    (
        Node::LeftJoin,
        "a - -|b - -",
        "a c c|a c d|a d d",
        "a c c|a d d|b - -",
    ),
    // a condition on a variable of the left side alone
    (Node::LeftJoin, "a b b|a b c", "a - -", "a b b|a b c"),
    (Node::LeftJoin, "a b -|a c -", "a - b", "a b b|a c -"),
    // an unbound cell fits each term
    (
        Node::LeftJoin,
        "- b -|a - -",
        "c - b|a b b",
        "c b b|a b b|a b b",
    ),
    (
        Node::LeftJoin,
        "a - -|a - -",
        "a b b|a b b",
        "a b b|a b b|a b b|a b b",
    ),
    (Node::LeftJoin, "a - -|a - -", "", "a - -|a - -"),
    (Node::LeftJoin, "", "a b b", ""),
    // an error is false
    (Node::LeftJoinError, "a - -|b - -", "a b -", "a - -|b - -"),
    // a left row goes once, however many take it away
    (Node::Minus, "a - -|b - -|a - c", "a b -|a c -", "b - -"),
    // nothing is bound on both sides
    (Node::Minus, "a - -|b - -", "- c -", "a - -|b - -"),
    (Node::Minus, "a - -|b - -", "- - -", "a - -|b - -"),
    // a variable is bound on both sides, but not in each pair
    (Node::Minus, "a - -|- b -", "- b -|- c d", "a - -"),
    (Node::Minus, "a b -|a - c", "a c d|a b d", "a - c"),
    (Node::Minus, "a - -|a - -", "", "a - -|a - -"),
    (Node::Minus, "", "a - -", ""),
    // a partner that fails the condition doesn't count
    (
        Node::Exists,
        "a - -|b - -|c - -",
        "a b c|a b b|b c d",
        "a - -",
    ),
    (Node::Exists, "a b -|a c -", "a - b", "a b -"),
    (Node::Exists, "- b -|a - -", "c - b", "- b -"),
    // each left row as often as it stands
    (Node::Exists, "a - -|a - -", "a b b|a c c", "a - -|a - -"),
    (Node::Exists, "a b b", "", ""),
    (Node::Exists, "", "a b b", ""),
    (Node::ExistsError, "a - -|b - -", "a b -", ""),
    (
        Node::NotExists,
        "a - -|b - -|c - -",
        "a b c|a b b|b c d",
        "b - -|c - -",
    ),
    (Node::NotExists, "a b -|a c -", "a - b", "a c -"),
    (Node::NotExists, "- b -|a - -", "c - b", "a - -"),
    (Node::NotExists, "a b b|a b b", "", "a b b|a b b"),
    (Node::NotExists, "", "a b b", ""),
    (Node::NotExistsError, "a - -|b - -", "a b -", "a - -|b - -"),
    (Node::FilterEqual, "a b b|a b c|a b b", "", "a b b|a b b"),
    (Node::FilterEqual, "a b -|a - -", "", ""),
    (Node::FilterError, "a b -|a a -", "", ""),
    (Node::FilterUnbound, "a - -|a b -|- - c", "", "a - -|- - c"),
    (Node::Extend, "a b -|c - -", "", "a b a|c - c"),
    (Node::Extend, "- b -|a - z", "", "- b -|a - a"),
    (Node::ExtendError, "a b -|a b z", "", "a b -|a b -"),
    (Node::Project, "a b c|a d c", "", "a - -|a - -"),
    (Node::Project, "- b c", "", "- - -"),
    (
        Node::Distinct,
        "a - -|b - -|a - -|c - -|b - -",
        "",
        "a - -|b - -|c - -",
    ),
    (Node::Distinct, "- a -|a - -|- a -", "", "- a -|a - -"),
    (Node::Distinct, "- - -|- - -", "", "- - -"),
    (Node::Distinct, "", "", ""),
    (Node::Project, "", "", ""),
    (Node::Group, "a - 1|b - 2|a - 3", "", "a 2 4|b 1 2"),
    // rows that don't bind the key are a group too
    (Node::Group, "- - 1|a - 2|- - 3", "", "- 2 4|a 1 2"),
    // an error leaves a sum unbound, and the rest of the row as it is
    (Node::Group, "a - b|a - 1|b - 2", "", "a 2 -|b 1 2"),
    (Node::Group, "", "", ""),
    // without keys there is one group, also of no rows
    (Node::GroupAll, "", "", "- 0 0"),
    (Node::GroupAll, "a - 1|b - 2|- - 3", "", "- 3 6"),
    (Node::Having, "a - 1|b - 3|a - 1", "", "a 2 2"),
    (Node::Having, "b - 3", "", ""),
    (Node::Having, "", "", ""),
];

fn cell(alloc: Global, word: &str) -> Result<Option<Term>, AllocError> {
    if word == "-" {
        return Ok(None);
    }
    if word.bytes().all(|byte| byte.is_ascii_digit()) {
        return constant(alloc, word);
    }
    Ok(Some(Term::Iri(Text::new(alloc, word)?)))
}

fn row(alloc: Global, text: &str) -> Result<Row<Term>, AllocError> {
    let mut cells = Vec::new(alloc);
    for word in text.split(' ') {
        cells.push(cell(alloc, word)?)?;
    }
    Ok(Row::new(cells))
}

fn rows(alloc: Global, text: &str) -> Result<Vec<Row<Term>>, AllocError> {
    let mut rows = Vec::new(alloc);
    if !text.is_empty() {
        for line in text.split('|') {
            rows.push(row(alloc, line)?)?;
        }
    }
    Ok(rows)
}

// the child of a node, whose rows these are
fn child(alloc: Global, text: &str) -> Result<Box<Tree>, AllocError> {
    let rows = rows(alloc, text)?;
    Ok(Box::new(alloc, Tree::Values { rows })?)
}

fn variable(alloc: Global, number: usize) -> Result<Box<Expression>, AllocError> {
    Ok(Box::new(alloc, Expression::Variable(number))?)
}

fn compare(alloc: Global, sign: Sign, left: usize, right: usize) -> Result<Expression, AllocError> {
    let left = variable(alloc, left)?;
    let right = variable(alloc, right)?;
    Ok(Expression::Compare { sign, left, right })
}

fn unbound(alloc: Global, number: usize) -> Result<Expression, AllocError> {
    Ok(Expression::Not(Box::new(alloc, Expression::Bound(number))?))
}

fn filter(alloc: Global, condition: Expression, text: &str) -> Result<Tree, AllocError> {
    let child = child(alloc, text)?;
    Ok(Tree::Filter { child, condition })
}

fn extend(alloc: Global, expression: Expression, text: &str) -> Result<Tree, AllocError> {
    let child = child(alloc, text)?;
    Ok(Tree::Extend {
        child,
        variable: 2,
        expression,
    })
}

fn project(alloc: Global, text: &str) -> Result<Tree, AllocError> {
    let variables = Vec::from_slice(alloc, &[0])?;
    let child = child(alloc, text)?;
    Ok(Tree::Project { child, variables })
}

fn aggregate(kind: Kind, argument: Option<Expression>) -> Aggregate {
    Aggregate {
        kind,
        distinct: false,
        argument,
    }
}

// how many rows there are as ?1, and the sum of ?2 as ?2
fn aggregates(alloc: Global) -> Result<Vec<(usize, Aggregate)>, AllocError> {
    let mut aggregates = Vec::new(alloc);
    aggregates.push((1, aggregate(Kind::Count, None)))?;
    aggregates.push((2, aggregate(Kind::Sum, Some(Expression::Variable(2)))))?;
    Ok(aggregates)
}

fn group(alloc: Global, keys: &[usize], text: &str) -> Result<Tree, AllocError> {
    let aggregates = aggregates(alloc)?;
    let keys = Vec::from_slice(alloc, keys)?;
    let child = child(alloc, text)?;
    Ok(Tree::Group {
        child,
        keys,
        aggregates,
    })
}

fn having(alloc: Global, text: &str) -> Result<Tree, AllocError> {
    let condition = compare(alloc, Sign::Equal, 1, 2)?;
    let child = Box::new(alloc, group(alloc, &[0], text)?)?;
    Ok(Tree::Filter { child, condition })
}

fn join(alloc: Global, left: &str, right: &str) -> Result<Tree, AllocError> {
    let left = child(alloc, left)?;
    let right = child(alloc, right)?;
    Ok(Tree::Join { left, right })
}

fn union(alloc: Global, left: &str, right: &str) -> Result<Tree, AllocError> {
    let left = child(alloc, left)?;
    let right = child(alloc, right)?;
    Ok(Tree::Union { left, right })
}

// the condition of a node
fn condition(alloc: Global, node: Node) -> Result<Expression, AllocError> {
    match node {
        Node::LeftJoinError | Node::ExistsError | Node::NotExistsError => {
            compare(alloc, Sign::Less, 0, 1)
        }
        _ => compare(alloc, Sign::Equal, 1, 2),
    }
}

fn left_join(alloc: Global, node: Node, left: &str, right: &str) -> Result<Tree, AllocError> {
    let condition = condition(alloc, node)?;
    let left = child(alloc, left)?;
    let right = child(alloc, right)?;
    Ok(Tree::LeftJoin {
        left,
        right,
        condition,
    })
}

fn minus(alloc: Global, left: &str, right: &str) -> Result<Tree, AllocError> {
    let left = child(alloc, left)?;
    let right = child(alloc, right)?;
    Ok(Tree::Minus { left, right })
}

fn exists(alloc: Global, node: Node, left: &str, right: &str) -> Result<Tree, AllocError> {
    let condition = condition(alloc, node)?;
    let left = child(alloc, left)?;
    let right = child(alloc, right)?;
    Ok(Tree::Exists {
        left,
        right,
        condition,
    })
}

fn not_exists(alloc: Global, node: Node, left: &str, right: &str) -> Result<Tree, AllocError> {
    let condition = condition(alloc, node)?;
    let left = child(alloc, left)?;
    let right = child(alloc, right)?;
    Ok(Tree::NotExists {
        left,
        right,
        condition,
    })
}

// a node with two children
fn binary(alloc: Global, node: Node, left: &str, right: &str) -> Result<Tree, AllocError> {
    match node {
        Node::Join => join(alloc, left, right),
        Node::LeftJoin | Node::LeftJoinError => left_join(alloc, node, left, right),
        Node::Minus => minus(alloc, left, right),
        Node::Exists | Node::ExistsError => exists(alloc, node, left, right),
        Node::NotExists | Node::NotExistsError => not_exists(alloc, node, left, right),
        _ => union(alloc, left, right),
    }
}

fn tree(alloc: Global, node: Node, left: &str, right: &str) -> Result<Tree, AllocError> {
    match node {
        Node::FilterEqual => filter(alloc, compare(alloc, Sign::Equal, 1, 2)?, left),
        Node::FilterError => filter(alloc, compare(alloc, Sign::Less, 0, 1)?, left),
        Node::FilterUnbound => filter(alloc, unbound(alloc, 1)?, left),
        Node::Extend => extend(alloc, Expression::Variable(0), left),
        Node::ExtendError => extend(alloc, compare(alloc, Sign::Less, 0, 1)?, left),
        Node::Project => project(alloc, left),
        Node::Distinct => Ok(Tree::Distinct {
            child: child(alloc, left)?,
        }),
        Node::Group => group(alloc, &[0], left),
        Node::GroupAll => group(alloc, &[], left),
        Node::Having => having(alloc, left),
        _ => binary(alloc, node, left, right),
    }
}

fn write_cell(out: &mut String, cell: &Option<Term>) -> Result<(), AllocError> {
    match cell {
        Some(Term::Iri(text)) => out.push_str(text.as_str()),
        Some(Term::Literal { lexical, .. }) => out.push_str(lexical.as_str()),
        Some(_) => out.push_str("?"),
        None => out.push_str("-"),
    }
}

fn write_row(out: &mut String, row: &Row<Term>) -> Result<(), AllocError> {
    for (place, cell) in row.cells().iter().enumerate() {
        if place > 0 {
            out.push_str(" ")?;
        }
        write_cell(out, cell)?;
    }
    Ok(())
}

/// The rows, with `|` between two.
pub(crate) fn written(alloc: Global, rows: &[Row<Term>]) -> Result<String, AllocError> {
    let mut out = String::new(alloc);
    for (place, row) in rows.iter().enumerate() {
        if place > 0 {
            out.push_str("|")?;
        }
        write_row(&mut out, row)?;
    }
    Ok(out)
}

fn evaluated(alloc: Global, tree: &Tree) -> Result<String, Fail> {
    if !fits(tree, 3) {
        return Err("the tree doesn't fit".into());
    }
    let rows = evaluate(alloc, tree, 3, &[])?.ok_or("overfull")?;
    Ok(written(alloc, &rows)?)
}

// the rows of a node, written
fn found(alloc: Global, node: Node, left: &str, right: &str) -> Result<String, Fail> {
    let tree = tree(alloc, node, left, right)?;
    evaluated(alloc, &tree)
}

#[test]
fn rows_of_nodes(rt: HostRuntime) -> Result<(), Fail> {
    let alloc = rt.alloc();
    for (node, left, right, wanted) in &NODES {
        let found = found(alloc, *node, left, right)?;
        assert_eq!(rt; found.as_str(), *wanted, "{node:?} of {left} and {right}");
    }
    Ok(())
}
