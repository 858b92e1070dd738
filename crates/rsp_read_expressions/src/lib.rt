//! Reading expressions: exactly what the grammar's rules of expressions read.
//!
//! Each call takes the tokens from an expression's first one on and gives the expression as written with the tokens
//! behind it, or how many tokens are left from the first one that can't stand. Rows of signs are lists, and only
//! brackets are read by recursion, at most as deep as there are tokens.
#![tactic(auto)]

mod aggregates;
mod expressions;
mod leaves;
mod level;
mod nodes;
mod primaries;
mod rows;

pub use aggregates::{aggregate_expression, aggregate_in_parens};
pub use expressions::{call, expression, in_parens};
pub use leaves::{begins_call, maybe_word};
