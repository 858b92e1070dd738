// Expressions.
ghost use Rattle.std.specs.Prelude.{◌≡◌, IfOk, map};
ghost use Rattle.rsp_expr.specs.Meanings.{formula_of};

use crate::{Function, Sign};
use rsp_terms::Term;
use std::alloc::{AllocError, Global};

/// An expression (SPARQL 1.1 Query, section 17). Variables are places of a row.
pub enum Expression {
    Variable(usize),
    Constant(Term),
    /// `||` of all parts; of none it is false.
    Or(Vec<Expression>),
    /// `&&` of all parts; of none it is true.
    And(Vec<Expression>),
    Not(Box<Expression>),
    /// An error where the sign is one of arithmetic.
    Compare {
        sign: Sign,
        left: Box<Expression>,
        right: Box<Expression>,
    },
    /// `IN`, and `NOT IN` where negated.
    Member {
        negated: bool,
        item: Box<Expression>,
        list: Vec<Expression>,
    },
    /// An error where the sign is one that compares.
    Arithmetic {
        sign: Sign,
        left: Box<Expression>,
        right: Box<Expression>,
    },
    /// `-` of one operand.
    Negate(Box<Expression>),
    /// `+` of one operand.
    Plus(Box<Expression>),
    /// Whether the variable is bound.
    Bound(usize),
    Call {
        function: Function,
        arguments: Vec<Expression>,
    },
}

// A row of signs is as deep on its left as it is long, so that goes by a loop; the others go by a recursion.
impl Drop for Expression {
    fn drop(mut self) {
        'left: loop {
            match self {
                Expression::Variable(_) => return,
                Expression::Constant(_) => return,
                Expression::Or(_) => return,
                Expression::And(_) => return,
                Expression::Not(part) => self = Box::into_inner(part),
                Expression::Compare {
                    sign: _,
                    left,
                    right: _,
                } => self = Box::into_inner(left),
                Expression::Member {
                    negated: _,
                    item,
                    list: _,
                } => self = Box::into_inner(item),
                Expression::Arithmetic {
                    sign: _,
                    left,
                    right: _,
                } => self = Box::into_inner(left),
                Expression::Negate(part) => self = Box::into_inner(part),
                Expression::Plus(part) => self = Box::into_inner(part),
                Expression::Bound(_) => return,
                Expression::Call {
                    function: _,
                    arguments: _,
                } => return,
            }
        }
    }
}

impl Expression {
    /// An expression of the same formula. Fails only where memory is refused.
    #[cycle(sharing)]
    pub fn share(&self, alloc: Global) -> Result<Expression, AllocError>
        ensures { IfOk result (λ other. formula_of other ≡ formula_of self.now) }
    {
        match self {
            Expression::Variable(variable) => Ok(Expression::Variable(*variable)),
            Expression::Constant(term) => Ok(Expression::Constant(term.share()?)),
            Expression::Or(parts) => Ok(Expression::Or(share_all(parts, alloc)?)),
            Expression::And(parts) => Ok(Expression::And(share_all(parts, alloc)?)),
            Expression::Not(part) => Ok(Expression::Not(Box::new(alloc, part.share(alloc)?)?)),
            Expression::Compare { sign, left, right } => {
                let left = left.share(alloc)?;
                let right = right.share(alloc)?;
                Ok(Expression::Compare {
                    sign: *sign,
                    left: Box::new(alloc, left)?,
                    right: Box::new(alloc, right)?,
                })
            }
            Expression::Member {
                negated,
                item,
                list,
            } => {
                let item = item.share(alloc)?;
                Ok(Expression::Member {
                    negated: *negated,
                    item: Box::new(alloc, item)?,
                    list: share_all(list, alloc)?,
                })
            }
            Expression::Arithmetic { sign, left, right } => {
                let left = left.share(alloc)?;
                let right = right.share(alloc)?;
                Ok(Expression::Arithmetic {
                    sign: *sign,
                    left: Box::new(alloc, left)?,
                    right: Box::new(alloc, right)?,
                })
            }
            Expression::Negate(part) => {
                Ok(Expression::Negate(Box::new(alloc, part.share(alloc)?)?))
            }
            Expression::Plus(part) => Ok(Expression::Plus(Box::new(alloc, part.share(alloc)?)?)),
            Expression::Bound(variable) => Ok(Expression::Bound(*variable)),
            Expression::Call {
                function,
                arguments,
            } => Ok(Expression::Call {
                function: *function,
                arguments: share_all(arguments, alloc)?,
            }),
        }
    }
}

#[cycle(sharing)]
fn share_all(parts: &[Expression], alloc: Global) -> Result<Vec<Expression>, AllocError>
    ensures { IfOk result (λ others. map formula_of others.items ≡ map formula_of parts.now) }
{
    let mut others = Vec::new(alloc);
    for part in parts {
        others.push(part.share(alloc)?)?;
    }
    Ok(others)
}
