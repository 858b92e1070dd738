//! Groups of rows and their aggregates, kept up while rows come and go (SPARQL 1.1 Query, section 18.5, Group and
//! AggregateJoin).
//!
//! A group is its number of rows, a fold for each aggregate, and the row that it gave last, found by the rows' cells at
//! the keys; of the rows that come and go none is kept. The value is the algebra's definition of groups, for every fold
//! and every computed argument.
#![tactic(auto)]

mod aggregated;
mod entries;
mod folds;
mod group;
mod groups;
mod operator;
mod rows;
mod touching;
mod walk;

pub use aggregated::{Aggregated, Grouping};
pub use operator::GroupOp;
