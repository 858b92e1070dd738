//! Maintained operators as the steps of a plan.
//!
//! An [`Operator`] is a node of a tree laid flat: given rows, a scan, or an operator on the rows of one child or of
//! two. It takes the changes of its children from the stack, and answers as the operator does; at the start an operator
//! on one child answers with what is there over no row too.
#![tactic(auto)]

mod leaves;
mod nodes;
mod operator;
mod over;
mod pair;

pub use leaves::Given;
pub use operator::Operator;
