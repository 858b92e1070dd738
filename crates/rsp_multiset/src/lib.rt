//! Multisets of rows and their changes (SPARQL 1.1 Query, section 18.3): cells, rows, bags, and changes with signs.
//!
//! Contracts see a [`Row`] as the list of its cells, and a bag or a change as a list of entries with counts. What an
//! operation does is said by weights: how often each value is held before and after. Everything is for any [`Cell`].
#![tactic(auto)]

mod bag;
mod cell;
mod changes;
mod count;
mod moving;
mod parts;
mod renaming;
mod row;
mod variables;

pub use bag::Bag;
pub use cell::Cell;
pub use changes::Changes;
pub use count::Count;
pub use moving::{changes_at, incoming_rows, outgoing_rows};
pub use parts::{apply, negative, positive};
pub use renaming::transport;
pub use row::Row;
