// Selects and the elements of groups, which hold each other.
use crate::Path;
use rsp_expr::{Aggregate, Expression, Slot};
use rsp_terms::{Listed, Term, Text};

/// What stands in a group, in the order of the text (SPARQL 1.1 Query, section 18.2.2). A body is a group's elements;
/// variables are numbers; `at` is the place of the element's word in the text, in bytes.
#[cycle(query)]
#[derive(Drop)]
pub enum Element {
    Triple {
        subject: Slot,
        verb: Path,
        object: Slot,
    },
    Optional(Vec<Element>),
    Minus(Vec<Element>),
    /// The groups of a UNION; a plain nested group is a UNION of one.
    Union(Vec<Vec<Element>>),
    Graph {
        name: Slot,
        at: usize,
        body: Vec<Element>,
    },
    Window {
        name: Text,
        at: usize,
        body: Vec<Element>,
    },
    Filter(Expression),
    /// FILTER EXISTS, and FILTER NOT EXISTS where negated.
    Exists {
        negated: bool,
        at: usize,
        body: Vec<Element>,
    },
    Bind {
        variable: usize,
        expression: Expression,
    },
    /// Rows with one value for each variable; UNDEF is None.
    Values {
        variables: Listed<usize>,
        rows: Vec<Listed<Option<Term>>>,
    },
    Sub(Box<Select>),
}

/// A SELECT with its group and its modifiers (SPARQL 1.1 Query, sections 11, 12 and 16.1).
#[cycle(query)]
#[derive(Drop)]
pub struct Select {
    pub distinct: bool,
    /// `SELECT *`; there are no items then.
    pub star: bool,
    pub items: Vec<SelectItem>,
    pub body: Vec<Element>,
    /// Whether there is a GROUP BY, a HAVING or an aggregate.
    pub grouped: bool,
    pub keys: Vec<SelectItem>,
    pub having: Option<Expression>,
    /// The aggregates of items and HAVING, each with the variable that stands for it in them.
    pub aggregates: Vec<(usize, Aggregate)>,
}

/// `?v`, or `(expression AS ?v)`.
#[derive(Drop)]
pub struct SelectItem {
    pub variable: usize,
    pub expression: Option<Expression>,
}
