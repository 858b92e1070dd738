//! Evaluation of algebra trees (SPARQL 1.1 Query, section 18.5), the plain way.
//!
//! [`evaluate`] gives exactly the rows of a tree over a set of facts, or None exactly where some subtree has more than
//! 1,000,000 rows. The partners of a row are looked for among the rows of its key, and pairs are counted before memory
//! is taken for them; groups are found by their keys: time and memory, of which no clause says anything. [`Plain`] is
//! an `Answer` that keeps its facts and evaluates its tree anew at each change; it takes no step.
#![tactic(auto)]

mod changing;
mod evaluation;
mod expressions;
mod extending;
mod facts;
mod filtering;
mod grouping;
mod joining;
mod keys;
mod limit;
mod nodes;
mod pairing;
mod partners;
mod patterns;
mod plain;
mod projecting;

pub use evaluation::evaluate;
pub use plain::Plain;
