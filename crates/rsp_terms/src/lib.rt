//! RDF terms (RDF 1.1 Concepts, section 3): shared texts, terms, triples, quads, facts, and how a term is printed.
//!
//! Contracts see a [`Text`] as its bytes and a [`Listed`] as the list of its items; terms and what is said with them
//! are plain data over these. `print` appends exactly the defined text of a term, and different terms have different
//! texts. `is_iri`, `is_label` and `is_tag` test a text exactly. Terms and facts are cells of rows and changes.
#![tactic(auto)]

mod cells;
pub mod characters;
mod domain;
mod listed;
mod printing;
mod statement;
mod term;
mod text;
mod texts;

pub use characters::{is_iri, is_label, is_tag};
pub use domain::{Domain, Same};
pub use listed::Listed;
pub use printing::{XSD_STRING, print};
pub use statement::{Fact, Quad, Spot, Triple};
pub use term::Term;
pub use text::{Text, ascii_text};
pub use texts::Texts;
