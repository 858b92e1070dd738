//! When a query reports (SECRET's report strategies): what a query's text says of it, and at which instants it is so.
//!
//! A policy is written as one of two profiles, or as a list of [`Strategy`]s with a tick; [`PolicyWords`] is what was
//! written, and [`policy`] the [`Chosen`] that it asks for. [`due`], [`due_on_item`] and [`next_due`] answer over the
//! windows of a query with the times of the items that it may see. [`Operator`] is written beside the policy, and says
//! which rows a report gives.
#![tactic(auto)]

mod chosen;
mod contents;
mod instants;
mod jumps;
mod leaps;
mod operator;
mod words;

pub use chosen::{Chosen, PolicyMix, policy};
pub use contents::Watched;
pub use instants::{due, due_on_item};
pub use leaps::next_due;
pub use operator::Operator;
pub use words::{PolicyWords, Strategy};
