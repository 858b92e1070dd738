//! What a fold is: an aggregate of values of which some come and others go, kept up without the values' rows.
//!
//! A fold's aggregate is a function of a list of values, and its state stands for each list, in any order, of the
//! values taken and not given back. A law says that how often each value stands in the list is all that matters.
#![tactic(auto)]

mod fold;

pub use fold::Fold;
