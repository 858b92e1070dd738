//! Numbers, instants and spans as they are written, from bytes.
//!
//! Each call answers None exactly where the text hasn't the written form or its value is out of range, and else the
//! value that the definitions in specs/ give: days are counted by jiff's calendar, all times are in milliseconds. No
//! call takes memory.
#![tactic(auto)]

mod cursor;
mod digits;
mod fronts;
mod instants;
mod spans;

pub use cursor::Cursor;
pub use digits::read_u64;
pub use fronts::{behind_blanks, is_blank, leading_digits};
pub use instants::instant;
pub use spans::span;
