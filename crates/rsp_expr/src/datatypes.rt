// The datatypes that expressions know (XML Schema Definition Language 1.1 Part 2, section 3).

/// A type of whole numbers: `xsd:integer`, or one of the twelve that are derived from it.
#[derive(Clone, Copy, PartialEq, Eq, Debug)]
pub enum WholeType {
    Integer,
    NonPositiveInteger,
    NegativeInteger,
    Long,
    Int,
    Short,
    Byte,
    NonNegativeInteger,
    UnsignedLong,
    UnsignedInt,
    UnsignedShort,
    UnsignedByte,
    PositiveInteger,
}

/// A datatype that expressions know, or another.
#[derive(Clone, Copy, PartialEq, Eq, Debug)]
pub enum Datatype {
    /// A type of whole numbers.
    Whole(WholeType),
    /// `xsd:decimal`.
    Decimal,
    /// `xsd:double`, whose numbers aren't exact.
    Double,
    /// `xsd:float`, whose numbers aren't exact.
    Float,
    /// `xsd:boolean`.
    Boolean,
    /// `xsd:string`.
    String,
    /// `rdf:langString`.
    LangString,
    /// Any other.
    Other,
}
