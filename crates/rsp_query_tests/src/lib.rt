//! Tests of the parts of queries by tables of cases: expressions, aggregates, tokens, how far a text is read as an
//! expression, whole texts of queries, the variables that their rows bind, and the rows of the nodes of the algebra; laws of every
//! answer, from its contract alone; and the answer on maintained operators beside the plain one: both are given the same changes
//! of facts, and tell the same.
//!
//! The values were taken from the standards and worked out by hand, and not from the program. Nothing stands on this
//! crate.
#![tactic(auto)]

#[cfg(test)]
mod aggregates;
#[cfg(test)]
mod answers;
#[cfg(test)]
mod beside;
#[cfg(test)]
mod evaluation;
#[cfg(test)]
mod expressions;
#[cfg(test)]
mod facts;
#[cfg(test)]
mod fitting;
#[cfg(test)]
mod graphs;
#[cfg(test)]
mod nodes;
#[cfg(test)]
mod notation;
#[cfg(test)]
mod plans;
#[cfg(test)]
mod queries;
#[cfg(test)]
mod texts;
#[cfg(test)]
mod tokens;
#[cfg(test)]
mod translations;
#[cfg(test)]
mod trial;
#[cfg(test)]
mod variables;
#[cfg(test)]
mod written;
