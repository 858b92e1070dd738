//! Reading what stands before and behind a query's SELECT: prefixes, the registration with its policy, and windows. Exactly
//! what the grammar's rules for them read.
//!
//! Each call takes the tokens from its first one on and gives what is written with the tokens behind it, or how many
//! tokens are left from the first one that can't stand. No call goes deep.
#![tactic(auto)]

mod origins;
mod policies;
mod prefixes;
mod registered;
mod windows;

pub use prefixes::{Prefix, prefixes_of, resolve};
pub use registered::{Registered, registered_as};
pub use windows::all_windows;
