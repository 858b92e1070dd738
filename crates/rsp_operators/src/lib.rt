//! What an operator is that takes the changes of its inputs, and answers exactly how its value changes.
//!
//! An operator's value is a function of lists of rows of terms. Its state, of rows of cells, stands for a list by what
//! the cells show. The law of `apply`: for every input that the state stands for, and every one to which the change
//! leads, it stands for that afterwards, and the answer leads from the one value to the other. So no law needs to keep
//! cells apart. For example, let a filter pass the rows whose `?x` is above 1, and its state stand for the list `1`,
//! `1`, `2`, whose value is `2`. Given the change by which a `1` goes and two `3` come, `apply` answers that two `3`
//! come: that leads from the value before, `2`, to the value of `1`, `2`, `3`, `3`, for which the state stands from
//! then on.
#![tactic(auto)]

mod binary;
mod condition;
mod pairing;
mod unary;

pub use binary::Binary;
pub use condition::{Computed, Condition};
pub use pairing::Pairing;
pub use unary::Unary;
