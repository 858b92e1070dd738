//! Literals as values: which datatype an IRI names, what a literal of a numeric type reads as, its number and the
//! literal of a number, booleans and the boolean value of a term (XML Schema 1.1 Part 2; SPARQL 1.1, section 17.2).
//!
//! Each call is exact: what it gives is the definition of `rsp_expr`. The range of each type of whole numbers belongs
//! to its form, so a number is Beyond exactly where its type has it and no exact number holds it. What makes a term
//! takes memory, and nothing else does.
#![tactic(auto)]

mod booleans;
mod counts;
mod datatypes;
mod forms;
mod numerals;
mod same;
mod strings;

pub use booleans::{boolean_of, boolean_term, boolean_value};
pub use counts::{integer_of, literal_of, quotient_of};
pub use datatypes::{RDF_LANG_STRING, XSD_BOOLEAN, XSD_DECIMAL, XSD_INTEGER, datatype_of};
pub use forms::number_of;
pub use numerals::term_of;
pub use same::{is_boolean_term, is_string_term, is_term_of};
pub use strings::{is_inexact, string_of};
