// The signs and the functions of expressions.
ghost use Rattle.std.specs.Prelude.{◌≡◌};
ghost use Rattle.std.specs.List.{Contains};
ghost use Rattle.rsp_functions.specs.Functions.{functions, row_of};

/// An operator between two expressions (SPARQL 1.1 Query, section 17.3). The first six compare, the others are of
/// arithmetic.
#[derive(Clone, Copy, PartialEq, Eq, Debug)]
pub enum Sign {
    Equal,
    NotEqual,
    Less,
    Greater,
    LessEqual,
    GreaterEqual,
    Add,
    Subtract,
    Multiply,
    Divide,
}

/// A function that is called by its name (SPARQL 1.1 Query, section 17.4). BOUND is none of these: it looks at a variable
/// and not at a value.
#[derive(Clone, Copy, PartialEq, Eq, Debug)]
pub enum Function {
    If,
    Coalesce,
    SameTerm,
    IsIri,
    IsUri,
    IsBlank,
    IsLiteral,
    IsNumeric,
    Str,
    Lang,
    Datatype,
    Iri,
    Uri,
    StrDt,
    StrLang,
    StrLen,
    Substr,
    Contains,
    StrStarts,
    StrEnds,
    StrBefore,
    StrAfter,
    Concat,
    LangMatches,
    Abs,
    Ceil,
    Floor,
    Round,
}

/// How many arguments a call has.
#[derive(Clone, Copy, PartialEq, Eq, Debug)]
pub enum Arity {
    One,
    Two,
    Three,
    TwoOrThree,
    /// None, too.
    Any,
}

impl Function {
    /// How many arguments a call of it has.
    #[tactic(auto, using(crate::proofs::Listed::listed))]
    pub fn arity(self) -> Arity
        ensures arity { result ≡ (row_of self).1 }
        ensures listed { (f : Function) → Contains functions f }
    {
        match self {
            Function::IsIri
            | Function::IsUri
            | Function::IsBlank
            | Function::IsLiteral
            | Function::IsNumeric
            | Function::Str
            | Function::Lang
            | Function::Datatype
            | Function::Iri
            | Function::Uri
            | Function::StrLen
            | Function::Abs
            | Function::Ceil
            | Function::Floor
            | Function::Round => Arity::One,
            Function::SameTerm
            | Function::StrDt
            | Function::StrLang
            | Function::Contains
            | Function::StrStarts
            | Function::StrEnds
            | Function::StrBefore
            | Function::StrAfter
            | Function::LangMatches => Arity::Two,
            Function::If => Arity::Three,
            Function::Substr => Arity::TwoOrThree,
            Function::Coalesce | Function::Concat => Arity::Any,
        }
    }
}
