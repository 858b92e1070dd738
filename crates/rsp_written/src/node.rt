// Triples as they are written.
use crate::Path;
use rsp_terms::{Term, Text};

/// What stands between a subject and its objects.
#[derive(Drop)]
pub enum Verb {
    /// A variable, by its name.
    Named(Text),
    Along(Path),
}

/// A subject or an object as it is written.
#[cycle(node)]
#[derive(Drop)]
pub enum Node {
    Variable(Text),
    Iri(Text),
    Constant(Term),
    /// A blank node label, without `_:`.
    Label(Text),
    /// `[ ]`
    Blank,
    /// `[ .. ]` with the properties between the brackets.
    Described(Vec<Property>),
}

/// A verb and its objects.
#[cycle(node)]
#[derive(Drop)]
pub struct Property {
    pub verb: Verb,
    pub objects: Vec<Node>,
}

/// A subject with its properties; there are none where `[ .. ]` stands alone.
#[derive(Drop)]
pub struct Subject {
    pub node: Node,
    pub properties: Vec<Property>,
}
