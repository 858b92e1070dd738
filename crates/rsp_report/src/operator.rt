// Stream operators.

/// Which rows a report gives (RSP-QL, the operators RStream, IStream and DStream).
#[derive(Clone, Copy, PartialEq, Eq, Drop)]
pub enum Operator {
    /// All solutions.
    Rstream,
    /// The solutions that the preceding report hadn't.
    Istream,
    /// The solutions of the preceding report that are gone.
    Dstream,
}
