//! Which variables the rows of a tree bind, whatever the facts: those that each row binds, and those outside of which no row
//! binds any.
//!
//! Of the first are made the keys by which partners are looked up. Of both it is told where a key decides alone which
//! rows are compatible.
#![tactic(auto)]

mod nodes;
mod tree;
mod variables;

pub use nodes::Binding;
pub use tree::binding_of;
pub use variables::{certain, key, key_decides, possible};
