//! Expressions of queries (SPARQL 1.1 Query, section 17): what stands in FILTER, BIND, HAVING and behind SELECT, the
//! slots of triple patterns, and aggregates; and the definitions of what they mean.
//!
//! Contracts see an [`Expression`] by its formula, a plain tree of the specs. The calls that find values stand in
//! crates of their own, so that the grammar and the algebra, which stand on this one, don't wait for them.
#![tactic(auto)]

mod aggregate;
mod datatypes;
mod expression;
mod slot;

pub use aggregate::Aggregate;
pub use datatypes::{Datatype, WholeType};
pub use expression::Expression;
pub use rsp_functions::{Function, Kind, Sign};
pub use slot::Slot;
