//! From a query to its algebra tree (SPARQL 1.1 Query, section 18.2).
#![tactic(auto)]

mod begun;
mod faults;
mod filters;
mod folding;
mod groups;
mod paths;
mod places;
mod selects;
mod setting;
mod shape;
mod slashes;
mod sums;
mod translation;
mod values;

pub use shape::Shape;
pub use translation::translate;
