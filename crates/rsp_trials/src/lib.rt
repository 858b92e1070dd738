//! Operators on trial: an operator with the rows that its inputs hold, so that a test gives changes one after another and owes
//! nothing. What a change must be is looked at when it comes; the law of the operator then says that its state stands for the
//! rows held.
//!
//! Beside that: rows and changes from short texts, and numbers that look random and are the same in each run.
#![tactic(auto)]

mod binary;
mod numbers;
mod refused;
mod rows;
mod side;
mod unary;

pub use binary::BinaryTrial;
pub use numbers::Numbers;
pub use refused::Refused;
pub use rows::{Line, are_same, cell, change, count, is_change, numbered, row, term};
pub use side::Side;
pub use unary::UnaryTrial;
