//! Answers that are kept up to date by maintained operators.
//!
//! A [`Plan`] keeps a tree laid flat, and for each of its nodes a step of the plan's core. At the start, and at each
//! change of the facts, the nodes take their turns, and what is left is how the tree's solutions change. So it answers
//! as the algebra's `Answer` wants it, in no more steps than a change may take.
#![tactic(auto)]

mod beginning;
mod facts;
mod passing;
mod plan;
mod rows;
mod turning;

pub use plan::Plan;
