//! What the program does in each of its modes, over a source, a shelf and a sink that are handed in.
//!
//! [`events`] works off a log, [`replay`] plays recorded streams, [`check`] reads a query, [`generate`] works off
//! events that it makes itself; each writes what it says and answers a [`Status`].
#![tactic(auto)]

mod blocks;
mod checking;
mod drive;
mod faults;
mod feed;
mod generator;
mod log;
mod modes;
mod reading;
mod refusals;
mod reports;
mod run;
mod status;
mod stop;
mod voice;
mod writing;

pub use checking::check;
pub use modes::{events, generate, replay};
pub use status::Status;
pub use writing::write_whole;
