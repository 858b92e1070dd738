//! The turns of a plan: a tree laid flat, whose nodes take their turns on a stack of changes.
//!
//! The nodes stand in one vector, children before parents ([`laid_flat`], [`made_of`]). A [`Step`] takes the changes of
//! its children from the stack and answers exactly how its rows change; its `stands` says which part of the flat tree
//! it is, and for the rows of which trees, on top of a stack of trees, its state stands: before the start for none, and
//! then for those over facts. [`take_turns`] goes once over the vector, for every kind of step, at the start as at each
//! change of the facts: behind it each node stands for the facts after the change, what is left on the stack is how the
//! rows of the whole tree differ, and it stops exactly at the first node that has more than 1,000,000 rows. It takes no
//! more steps than the parts may, added up. Nothing recurses.
#![tactic(auto)]

mod laid;
mod made;
mod pending;
mod step;
mod turns;

pub use laid::laid_flat;
pub use made::{FromTree, made_of};
pub use pending::Stack;
pub use step::Step;
pub use turns::{Counted, take_turns};
