//! Operators on rows one by one: union, filter, projection, a computed value, and each row once (SPARQL 1.1 Query,
//! section 18.5); and the scan, whose rows are the solutions of a triple pattern over facts (section 18.3.1).
//!
//! Each takes the changes of its inputs and answers exactly how its value changes; its `value` is the definition of the
//! algebra, over rows of terms. All but one keep nothing, so each stands for every input; `Deduping` keeps how often
//! each row is there.
#![tactic(auto)]

mod deduping;
mod extending;
mod joining;
mod pattern;
mod projecting;
mod scan;
mod select;

pub use deduping::Deduping;
pub use extending::Extending;
pub use joining::Joining;
pub use pattern::{Graph, Part, Pattern};
pub use projecting::Projecting;
pub use scan::Scan;
pub use select::Select;
