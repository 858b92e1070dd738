//! The event log: the blocks of a text of directives, and the events that they are.
//!
//! [`Blocks`] reads the text in pieces. Its contract is over the whole text: the blocks that `feed` has given so far
//! are exactly the whole blocks of the bytes so far, and with `finish` they are the blocks of the text, for every
//! cutting. A block is an event, or has its first fault: too many bytes, no directive, or a bad line of its body by its
//! number.
#![tactic(auto)]

mod begun;
mod blocks;
mod bodies;
mod buffers;
mod contents;
mod directives;
mod event;
mod fields;
mod files;
mod lines;
mod loading;
mod merging;
mod recording;
mod refused;

pub use blocks::Blocks;
pub use event::{Block, BlockFault, Content, Event};
pub use loading::{LoadedQuads, loaded};
pub use merging::merge;
pub use recording::{RecordedItems, recorded};
pub use refused::{LineRefused, RefusedAs};
