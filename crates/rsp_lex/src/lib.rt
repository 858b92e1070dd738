//! The tokens of a query's text (SPARQL 1.1, section 19.8, and spans of time).
//!
//! `tokens` gives at each place behind white space and comments the longest token, of equally long ones that whose kind
//! stands first in [`TokenKind`], or else the first place at which none begins. A kind is a test of a whole text, in
//! the words of the grammar; the longest front that passes is found by an automaton on code points. Places count bytes.
//! Each byte is looked at a bounded number of times; no clause says it.
#![tactic(auto)]

mod lexing;
mod machine;
mod names;
mod numbers;
mod quoted;
mod symbols;
mod token;

pub use lexing::tokens;
pub use token::{LexFault, Token, TokenKind};
