//! Functions of SPARQL on texts alone (SPARQL 1.1, section 17.4.3): how many characters a text has, the part at given
//! places, where one text stands in another, which language range matches a tag, and the order by code points.
//!
//! Each call is exact: what it gives is the definition in specs/. Parts are slices of the argument, and no call takes
//! memory.
#![tactic(auto)]

mod code_points;
mod occurrences;
mod ranges;
mod substrings;

pub use code_points::compare;
pub use occurrences::{contains, ends_with, starts_with, text_after, text_before};
pub use ranges::is_matched_by;
pub use substrings::{character_count, substring, substring_from};
