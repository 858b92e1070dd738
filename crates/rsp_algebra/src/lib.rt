//! The algebra of queries (SPARQL 1.1 Query, section 18): trees, their solutions over a set of facts, and what keeps an
//! answer.
//!
//! `eval` of the specs gives the rows of a [`Tree`] over facts, one case per node; `overfull` says when a subtree has
//! more than a million rows. An [`Answer`] stands for a tree and a set of facts and takes changes of the facts: it
//! answers how the solutions change, or exactly where the definition says so that the tree is overfull.
#![tactic(auto)]

mod answer;
mod building;
mod descent;
pub mod nodes;
mod reading;
mod tree;

pub use answer::{Answer, Turn};
pub use building::basic_pattern;
pub use descent::{second_child, spine};
pub use tree::{Place, Translated, Tree, TriplePattern};
