//! What the engine keeps: the items that some window may still need, what each window's graph was, and the stored quads.
//!
//! Contracts see [`Streams`] as the list of kept items and the number of accepted ones; each call is a filter, an
//! append or a sum of that list. A move of [`Contents`] gives the facts by which the window's graph then differs,
//! whatever the order of the items' times. They see [`Stored`] as the list of the stored quads, each once, as facts. Of
//! these and of their changes a [`Reader`] is given what it reads. The definitions say which accepted items are needed,
//! and laws that to keep these alone, up to their ends, loses nothing that a window sees.
#![tactic(auto)]

mod contents;
mod counting;
mod ends;
mod gate;
mod item;
mod lanes;
mod peaks;
mod pieces;
mod queue;
mod reader;
mod removal;
mod room;
mod runs;
mod shared;
mod store_log;
mod stored;
mod streams;
mod tally;
mod times;

pub use contents::Contents;
pub use item::{Item, later};
pub use reader::{Reader, part_read};
pub use shared::Shared;
pub use store_log::StoreLog;
pub use stored::{Stored, StoredFault};
pub use streams::Streams;
pub use times::forget_times;
