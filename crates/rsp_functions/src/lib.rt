//! The signs, the functions and the kinds of aggregates of expressions, one list of each. The tokens of a query's text hold
//! them, and its expressions too, so that nothing has to turn one list into another.
//!
//! Its specs have the one table of the functions: each with its word and its number of arguments. This crate stands on nothing
//! but std. `rsp_expr` gives its types on.
#![tactic(auto)]

mod aggregate;
mod function;

pub use aggregate::Kind;
pub use function::{Arity, Function, Sign};
