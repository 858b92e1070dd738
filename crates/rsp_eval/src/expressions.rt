// What evaluation takes of expressions, named in this one place.
pub use rsp_values::{aggregate_value, truth, value};
