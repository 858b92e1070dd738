//! Reading VALUES: exactly what the grammar's rules for it read.
//!
//! [`values`] takes the tokens behind the word and gives what is written with the tokens behind it, or how many tokens
//! are left from the first one that can't stand. Rows and variables are read by loops.
#![tactic(auto)]

mod value_blocks;

pub use value_blocks::values;
