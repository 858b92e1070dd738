// Groups and selects as they are written.
use crate::{Expression, Subject};
use rsp_terms::{Term, Text};

/// An item of a SELECT, or a key of GROUP BY.
#[derive(Drop)]
pub enum Item {
    /// A variable, by its name.
    Shown(Text),
    /// `(expression AS ?name)`
    Computed { expression: Expression, name: Text },
}

/// What a SELECT shows.
#[derive(Drop)]
pub enum Projection {
    /// `*`
    Every,
    These(Vec<Item>),
}

/// What stands behind GRAPH.
#[derive(Drop)]
pub enum GraphName {
    Variable(Text),
    Iri(Text),
}

/// VALUES: rows with one value for each variable. UNDEF is None.
#[derive(Drop)]
pub struct Values {
    pub variables: Vec<Text>,
    pub rows: Vec<Vec<Option<Term>>>,
}

/// What stands in a group, in the order of the text. A body is a group's elements; `at` is the place of the element's word
/// in the text, in bytes.
#[cycle(group)]
#[derive(Drop)]
pub enum Element {
    Triples(Subject),
    Optional(Vec<Element>),
    Minus(Vec<Element>),
    /// The groups of a UNION; a plain nested group is a UNION of one.
    Union(Vec<Vec<Element>>),
    Graph {
        name: GraphName,
        at: usize,
        body: Vec<Element>,
    },
    Window {
        name: Text,
        at: usize,
        body: Vec<Element>,
    },
    Filter(Expression),
    /// FILTER EXISTS, and FILTER NOT EXISTS where negated.
    Exists {
        negated: bool,
        at: usize,
        body: Vec<Element>,
    },
    Bind {
        expression: Expression,
        name: Text,
    },
    Values(Values),
    Sub(Box<Select>),
}

/// A SELECT with its group and its modifiers.
#[cycle(group)]
#[derive(Drop)]
pub struct Select {
    pub distinct: bool,
    pub projection: Projection,
    pub body: Vec<Element>,
    /// The keys of GROUP BY; there are none without it.
    pub keys: Vec<Item>,
    pub having: Option<Expression>,
}
