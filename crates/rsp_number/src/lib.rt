//! Exact numbers: integers of at most 2^63 - 1 in size, and decimals whose coefficient is as large and has at most
//! 18 digits after the point. Each operation gives the exact value, cut toward zero where it is a decimal that has
//! too many digits, and None exactly where no number holds it; readings accept exactly the written forms.
//!
//! The definitions stand in specs/: a number is a fraction of whole numbers, and `fit` cuts one to a decimal. No call
//! takes memory. This crate stands on nothing but std; expressions and aggregates stand on it.
#![tactic(auto)]

mod arithmetic;
mod decimals;
mod digits;
mod fit;
mod integers;
mod number;
mod order;
mod reading;
mod rounding;
mod sum;
mod total;
mod wide;
mod written;

pub use arithmetic::{add, div, mul, sub};
pub use decimals::{DecimalNumber, MOST_DIGITS};
pub use integers::{IntegerNumber, LARGEST};
pub use number::Number;
pub use order::compare;
pub use reading::{Reading, decimal, integer};
pub use rounding::{abs, ceil, floor, neg, round};
pub use total::Total;
