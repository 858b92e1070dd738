//! That groups which are kept up are the algebra's: the fold of an aggregate of the algebra, and the value of groups whose
//! aggregates are the algebra's (SPARQL 1.1 Query, section 18.5, Group and AggregateJoin).
//!
//! It stands where both are seen.
#![tactic(auto)]

mod laws;

pub use laws::{folding_of, value_is_grouped};
