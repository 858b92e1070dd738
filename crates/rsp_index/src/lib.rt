//! Rows kept by a key, and facts kept as a set.
//!
//! Contracts see an [`Index`] as its key and how often it holds each row, and no map. A look-up hashes the cells of a
//! lent row where they stand, so it makes no row and takes no memory; a bucket is changed in its place. Each entry that
//! is handed out is one step.
#![tactic(auto)]

mod buckets;
mod entries;
mod facts;
mod index;
mod key;
mod listing;

pub use entries::Entries;
pub use facts::FactStore;
pub use index::Index;
