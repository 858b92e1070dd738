//! Statements of RDF 1.1 N-Quads (section 4): what a line says, and a quad as a line.
//!
//! A line says a quad, nothing, or has a fault with its column: `statement_of` is a function of the line, and the
//! grammar, as relations, says the same of every line. `absolute_iri` reads a field that is an IRI and nothing else.
//! What `write` appends of a quad without blank nodes says that quad.
#![tactic(auto)]

mod fault;
mod fields;
mod statements;
mod terms;
mod writing;

pub use fault::LineFault;
pub use fields::{absolute_iri, absolute_iri_among};
pub use statements::{statement, statement_among};
pub use writing::write;
