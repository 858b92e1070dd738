//! Definitions that have no type of their own: window arithmetic, words on what was written and on counts of
//! faults, and the product's limits. This crate has no code but these numbers. Every other crate may cite it; it stands
//! on nothing but std.
#![tactic(auto)]

pub mod limits;
