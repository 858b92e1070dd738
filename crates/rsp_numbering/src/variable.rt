// The variables of a query.
use rsp_terms::Text;

/// What is a variable in a query's text (SPARQL 1.1 Query, sections 4.1.3, 4.1.4, 11 and 12).
#[derive(PartialEq, Eq, Hash, Drop)]
pub enum Variable {
    /// A name of one SELECT, which is known by how many SELECTs begin before it.
    Name { select: usize, name: Text },
    /// A blank node's label, which is one in the whole text.
    Label(Text),
    /// A blank node in brackets, known by its own number.
    Bracket(usize),
    /// An aggregate, known by its own number.
    Aggregate(usize),
}
