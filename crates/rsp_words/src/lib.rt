//! The words of the program: what a command line asks for.
//!
//! `mode_of` answers exactly the mode of the table of words, or None where the words are none of its rows; it takes no
//! memory, and what it answers borrows the names from the words. `words_behind_name` makes the words of the program's
//! own, and `name_at` the files that `run` reads, in their order.
#![tactic(auto)]

mod form;
mod log;
mod options;
mod replay;
mod valued;
mod words;

pub use form::Form;
pub use log::Log;
pub use replay::{Replay, Stream, name_at};
pub use words::{Mode, mode_of, words_behind_name};
