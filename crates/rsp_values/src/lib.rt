//! The values of expressions (SPARQL 1.1 Query, section 17): the value in a row, and whether a row passes a filter; and
//! the values of aggregates in a group of rows (section 18.5.1).
//!
//! All are exactly what `rsp_expr` defines. Parts that can't matter aren't valued, and where only the truth is asked
//! tests make no term (no clause says so: it is time). A row is whatever tells its cells ([`ReadRow`]): a row of terms,
//! one with the domain that shows its cells ([`ShownRow`]), or two such as their merge ([`MergedRows`]). They are read
//! where they stand, and no row is made.
#![tactic(auto)]

mod aggregates;
mod evaluation;
mod extremes;
mod nodes;
mod reading;
mod sums;

pub use aggregates::aggregate_value;
pub use evaluation::{truth, value};
pub use reading::{MergedRows, ReadRow, ShownRow};
