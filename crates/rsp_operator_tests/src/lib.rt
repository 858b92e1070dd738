//! The tests of the index, of the set of facts, and of operators over terms that show themselves, groups among them: small cases
//! whose answers come from outside, random changes against values made anew, and large inputs.
//!
//! They stand here and in no layer, since a crate that has tests is proved twice.
#![tactic(auto)]

#[cfg(test)]
mod anew;
#[cfg(test)]
mod bounded;
#[cfg(test)]
mod conditions;
#[cfg(test)]
mod costs;
#[cfg(test)]
mod facts;
#[cfg(test)]
mod groups;
#[cfg(test)]
mod joins;
#[cfg(test)]
mod left_joins;
#[cfg(test)]
mod negation;
#[cfg(test)]
mod notation;
#[cfg(test)]
mod operators;
#[cfg(test)]
mod random;
#[cfg(test)]
mod rows;
#[cfg(test)]
mod scans;
#[cfg(test)]
mod trials;
