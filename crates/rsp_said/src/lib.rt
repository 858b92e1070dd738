//! What the text of a token says: its word as a keyword in any case, its IRI or string with escapes replaced, its prefix
//! and local part, its symbol.
//!
//! `said` is exactly the defined word on the text alone; what can stand nowhere in a query has a kind of its own.
#![tactic(auto)]

mod escapes;
mod parts;
mod saying;
mod tables;

pub use saying::said;
