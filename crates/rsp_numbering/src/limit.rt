// Limits of a query's text.

/// What a query's text has too much of. The tokens have the first two, the tree as it is written the others; of several
/// the first counts.
#[derive(Clone, Copy, PartialEq, Eq, Debug)]
pub enum LimitName {
    /// More than 65,536 bytes.
    Text,
    /// More than 32 opening signs that aren't closed, at some token.
    Nesting,
    /// More than 16 windows.
    Windows,
    /// A width, a step or a period that isn't from 1 ms to 253402300799999 ms.
    Span,
    /// More than 64 variables, the `/` of paths among them.
    Variables,
    /// More than 64 triple patterns, one for each step of a path.
    Patterns,
    /// More than 512 operators, calls and aggregates.
    Operators,
    /// More than 256 elements of groups that aren't triples.
    Elements,
    /// More than 4,096 rows of VALUES.
    Rows,
}
