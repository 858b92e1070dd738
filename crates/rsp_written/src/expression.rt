// Expressions as they are written.
use crate::Kind;
use rsp_terms::{Term, Text};

/// An expression as it is written. A row of signs is one list, so that its length is no depth. Signs, functions and
/// aggregates are named by the kind of their token.
#[cycle(expression)]
#[derive(Drop)]
pub enum Expression {
    Variable(Text),
    Iri(Text),
    Constant(Term),
    /// Parts with `||` between.
    AnyOf(Vec<Expression>),
    /// Parts with `&&` between.
    AllOf(Vec<Expression>),
    Compared {
        sign: Kind,
        left: Box<Expression>,
        right: Box<Expression>,
    },
    Member {
        negated: bool,
        item: Box<Expression>,
        list: Vec<Expression>,
    },
    /// Parts with `+` and `-` between.
    Sum {
        first: Box<Expression>,
        rest: Vec<Operand>,
    },
    /// Parts with `*` and `/` between.
    Product {
        first: Box<Expression>,
        rest: Vec<Operand>,
    },
    /// `!`, `-` or `+` before a part.
    Signed {
        sign: Kind,
        part: Box<Expression>,
    },
    Bound(Text),
    Call {
        function: Kind,
        arguments: Vec<Expression>,
    },
    /// COUNT(*).
    CountRows,
    Aggregate {
        kind: Kind,
        distinct: bool,
        argument: Box<Expression>,
    },
}

/// A sign and the part behind it.
#[cycle(expression)]
#[derive(Drop)]
pub struct Operand {
    pub sign: Kind,
    pub part: Expression,
}
