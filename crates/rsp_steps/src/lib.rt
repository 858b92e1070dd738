//! The counter of steps, by which a contract bounds a cost. It takes no bytes, and its calls have no code.
//!
//! A step stands for an entry that an index hands out: whoever hands one out ticks. A function
//! that takes `steps: &mut Steps<L>` says its cost as a clause on `steps.new` and `steps.old`.
#![tactic(auto)]

mod counter;

pub use counter::Steps;
