//! What a query owes before it can be translated: the places of windows, graphs and EXISTS, and the scopes of its variables.
//!
//! Each call finds the first fault of its kind in the text.
#![tactic(auto)]

mod exists;
mod graphs;
mod known;
mod scopes;
mod unscoped;
mod visible;

pub use exists::exists_shape;
pub use graphs::graph_shape;
pub use scopes::scope;
pub use unscoped::Unscoped;
pub use visible::{has_name, is_visible_in};
