// The kinds of aggregates.

/// What an aggregate makes of the values of a group (SPARQL 1.1 Query, section 18.5.1).
#[derive(Clone, Copy, PartialEq, Eq, Debug)]
pub enum Kind {
    Count,
    Sum,
    Avg,
    Min,
    Max,
}
