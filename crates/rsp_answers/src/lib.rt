//! The answer of the program: a plan on the operators of all kinds of nodes, over terms as they are.
//!
//! [`Maintained`] gives its parts the types that the program runs on, and hands each call on, so that nobody above
//! names them.
#![tactic(auto)]

mod maintained;

pub use maintained::Maintained;
