//! The call `rsp`: all that the program does, over a source, a shelf and a sink that are handed in.
//!
//! Its contract is the headline: what it writes for a log is exactly the defined output of the log's bytes, so it is
//! with a query that is checked and with the generator's events, and every other answer has its cause.
#![tactic(auto)]

mod top;

pub use rsp_modes::Status;
pub use rsp_words::words_behind_name;
pub use top::rsp;
