//! What a query's text is: the query that the algebra takes, or the named reason why it is none.
//!
//! [`parse`] is exactly the defined function on the text alone: its tokens, what they say, the tree that the grammar
//! has of them, and that tree with numbers in place of names, within the limits. Each variable of such a query is one
//! that it has, which its translation needs, and its EVERY asks at least 1 ms, which its reports need.
#![tactic(auto)]

mod fault;
mod left_out;
mod parsing;
mod saying;

pub use fault::SyntaxFault;
pub use parsing::parse;
pub use rsp_numbering::LimitName;
