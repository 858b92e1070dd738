//! Grammars over tokens, and what an exact reader of one is. This crate has no code.
//!
//! A rule is a language: which rows of tokens are an expansion of it, with which value, and which rows some leftmost
//! expansion passes. Rules are written with combinators; each combinator has a reader of the same shape, and laws that
//! the reader gives the one value of an expansion or stops at exactly the first token that can't stand. It stands on
//! nothing but std.
#![tactic(auto)]
