//! What a node of an expression makes of the values of its parts (SPARQL 1.1 Query, section 17): operators that compare
//! or calculate, and functions; and the order of terms.
//!
//! A value between two steps is an [`Operand`], which stands for a term and makes none where only a number, a truth or
//! a text is asked for. Each call is exact: what it gives is the definition of `rsp_expr` for the terms that its
//! operands stand for.
#![tactic(auto)]

mod comparing;
mod functions;
mod joining;
mod key;
mod literals;
mod operand;
mod order;
mod same;
mod texts;

pub use comparing::{comparison, equality};
pub use functions::{
    arithmetic, binary_value, ternary_value, unary_minus, unary_plus, unary_value,
};
pub use joining::concatenation;
pub use key::TermKey;
pub use operand::Operand;
pub use order::compare_terms;
