// The datatypes that expressions know.
ghost use Rattle.std.specs.Prelude.{◌≡◌};
ghost use Rattle.rsp_expr.specs.CodeTypes.{type_in, unsigned_types, known_whole_types, other_types, datatype_of, bounds_of};

use rsp_expr::{Datatype, WholeType};
use rsp_terms::XSD_STRING;

/// The datatype of an integer's literal.
pub const XSD_INTEGER: &str = "http://www.w3.org/2001/XMLSchema#integer";

/// The datatype of a decimal's literal.
pub const XSD_DECIMAL: &str = "http://www.w3.org/2001/XMLSchema#decimal";

/// The datatype of a boolean's literal.
pub const XSD_BOOLEAN: &str = "http://www.w3.org/2001/XMLSchema#boolean";

/// The datatype of a literal with a language tag.
pub const RDF_LANG_STRING: &str = "http://www.w3.org/1999/02/22-rdf-syntax-ns#langString";

const XSD_DOUBLE: &str = "http://www.w3.org/2001/XMLSchema#double";

const XSD_FLOAT: &str = "http://www.w3.org/2001/XMLSchema#float";

const XSD_LONG: &str = "http://www.w3.org/2001/XMLSchema#long";

const XSD_INT: &str = "http://www.w3.org/2001/XMLSchema#int";

const XSD_SHORT: &str = "http://www.w3.org/2001/XMLSchema#short";

const XSD_BYTE: &str = "http://www.w3.org/2001/XMLSchema#byte";

const XSD_NON_POSITIVE: &str = "http://www.w3.org/2001/XMLSchema#nonPositiveInteger";

const XSD_NEGATIVE: &str = "http://www.w3.org/2001/XMLSchema#negativeInteger";

const XSD_NON_NEGATIVE: &str = "http://www.w3.org/2001/XMLSchema#nonNegativeInteger";

const XSD_POSITIVE: &str = "http://www.w3.org/2001/XMLSchema#positiveInteger";

const XSD_UNSIGNED_LONG: &str = "http://www.w3.org/2001/XMLSchema#unsignedLong";

const XSD_UNSIGNED_INT: &str = "http://www.w3.org/2001/XMLSchema#unsignedInt";

const XSD_UNSIGNED_SHORT: &str = "http://www.w3.org/2001/XMLSchema#unsignedShort";

const XSD_UNSIGNED_BYTE: &str = "http://www.w3.org/2001/XMLSchema#unsignedByte";

/// The least number of the type, where it has one.
pub(crate) fn least_of(whole_type: WholeType) -> Option<i128>
    ensures { result ≡ (bounds_of whole_type).0 }
{
    match whole_type {
        WholeType::Integer | WholeType::NonPositiveInteger | WholeType::NegativeInteger => None,
        WholeType::Long => Some(i64::MIN as i128),
        WholeType::Int => Some(i32::MIN as i128),
        WholeType::Short => Some(i16::MIN as i128),
        WholeType::Byte => Some(i8::MIN as i128),
        WholeType::NonNegativeInteger
        | WholeType::UnsignedLong
        | WholeType::UnsignedInt
        | WholeType::UnsignedShort
        | WholeType::UnsignedByte => Some(0),
        WholeType::PositiveInteger => Some(1),
    }
}

/// The greatest number of the type, where it has one.
pub(crate) fn greatest_of(whole_type: WholeType) -> Option<i128>
    ensures { result ≡ (bounds_of whole_type).1 }
{
    match whole_type {
        WholeType::Integer | WholeType::NonNegativeInteger | WholeType::PositiveInteger => None,
        WholeType::NonPositiveInteger => Some(0),
        WholeType::NegativeInteger => Some(-1),
        WholeType::Long => Some(i64::MAX as i128),
        WholeType::Int => Some(i32::MAX as i128),
        WholeType::Short => Some(i16::MAX as i128),
        WholeType::Byte => Some(i8::MAX as i128),
        WholeType::UnsignedLong => Some(u64::MAX as i128),
        WholeType::UnsignedInt => Some(u32::MAX as i128),
        WholeType::UnsignedShort => Some(u16::MAX as i128),
        WholeType::UnsignedByte => Some(u8::MAX as i128),
    }
}

/// The datatype that the IRI names.
pub fn datatype_of(iri: &str) -> Datatype
    ensures { result ≡ datatype_of iri.now }
{
    match whole_type(iri) {
        Some(whole) => Datatype::Whole(whole),
        None => match other_type(iri) {
            Some(other) => other,
            None => Datatype::Other,
        },
    }
}

/// The type of whole numbers that the IRI names, if it names one.
fn whole_type(iri: &str) -> Option<WholeType>
    ensures { result ≡ type_in known_whole_types iri.now }
{
    match iri {
        XSD_INTEGER => Some(WholeType::Integer),
        XSD_LONG => Some(WholeType::Long),
        XSD_INT => Some(WholeType::Int),
        XSD_SHORT => Some(WholeType::Short),
        XSD_BYTE => Some(WholeType::Byte),
        XSD_NON_POSITIVE => Some(WholeType::NonPositiveInteger),
        XSD_NEGATIVE => Some(WholeType::NegativeInteger),
        _ => unsigned_type(iri),
    }
}

/// The type of whole numbers without one below 0 that the IRI names, if it names one.
fn unsigned_type(iri: &str) -> Option<WholeType>
    ensures { result ≡ type_in unsigned_types iri.now }
{
    match iri {
        XSD_NON_NEGATIVE => Some(WholeType::NonNegativeInteger),
        XSD_POSITIVE => Some(WholeType::PositiveInteger),
        XSD_UNSIGNED_LONG => Some(WholeType::UnsignedLong),
        XSD_UNSIGNED_INT => Some(WholeType::UnsignedInt),
        XSD_UNSIGNED_SHORT => Some(WholeType::UnsignedShort),
        XSD_UNSIGNED_BYTE => Some(WholeType::UnsignedByte),
        _ => None,
    }
}

/// Another datatype that is known, if the IRI names one.
fn other_type(iri: &str) -> Option<Datatype>
    ensures { result ≡ type_in other_types iri.now }
{
    match iri {
        XSD_STRING => Some(Datatype::String),
        XSD_DECIMAL => Some(Datatype::Decimal),
        XSD_BOOLEAN => Some(Datatype::Boolean),
        XSD_DOUBLE => Some(Datatype::Double),
        XSD_FLOAT => Some(Datatype::Float),
        RDF_LANG_STRING => Some(Datatype::LangString),
        _ => None,
    }
}
