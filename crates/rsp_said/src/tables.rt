// The words and the symbols of the grammar.
ghost use Rattle.std.specs.Prelude.{◌≡◌, map};
ghost use Rattle.std.specs.Str.{str_eq_ignore_ascii_case};
ghost use Rattle.rsp_said.specs.Tables as tables;

use rsp_functions::{Function, Kind as Fold, Sign};
use rsp_written::{Keyword, Kind, Symbol};

const KEYWORDS: [(&str, Kind); 78] = [
    ("PREFIX", Kind::Word(Keyword::Prefix)),
    ("REGISTER", Kind::Word(Keyword::Register)),
    ("RSTREAM", Kind::Word(Keyword::Rstream)),
    ("ISTREAM", Kind::Word(Keyword::Istream)),
    ("DSTREAM", Kind::Word(Keyword::Dstream)),
    ("UNDER", Kind::Word(Keyword::Under)),
    ("CSPARQL", Kind::Word(Keyword::Csparql)),
    ("CQELS", Kind::Word(Keyword::Cqels)),
    ("REPORT", Kind::Word(Keyword::Report)),
    ("AND", Kind::Word(Keyword::And)),
    ("TICK", Kind::Word(Keyword::Tick)),
    ("TIME", Kind::Word(Keyword::Time)),
    ("TUPLE", Kind::Word(Keyword::Tuple)),
    ("CLOSE", Kind::Word(Keyword::Close)),
    ("CHANGE", Kind::Word(Keyword::Change)),
    ("NONEMPTY", Kind::Word(Keyword::NonEmpty)),
    ("EVERY", Kind::Word(Keyword::Every)),
    ("FROM", Kind::Word(Keyword::From)),
    ("NAMED", Kind::Word(Keyword::Named)),
    ("WINDOW", Kind::Word(Keyword::Window)),
    ("ON", Kind::Word(Keyword::On)),
    ("RANGE", Kind::Word(Keyword::Range)),
    ("STEP", Kind::Word(Keyword::Step)),
    ("START", Kind::Word(Keyword::Start)),
    ("AS", Kind::Word(Keyword::As)),
    ("SELECT", Kind::Word(Keyword::Select)),
    ("DISTINCT", Kind::Word(Keyword::Distinct)),
    ("WHERE", Kind::Word(Keyword::Where)),
    ("GROUP", Kind::Word(Keyword::Group)),
    ("BY", Kind::Word(Keyword::By)),
    ("HAVING", Kind::Word(Keyword::Having)),
    ("OPTIONAL", Kind::Word(Keyword::Optional)),
    ("MINUS", Kind::Word(Keyword::Minus)),
    ("UNION", Kind::Word(Keyword::Union)),
    ("GRAPH", Kind::Word(Keyword::Graph)),
    ("FILTER", Kind::Word(Keyword::Filter)),
    ("NOT", Kind::Word(Keyword::Not)),
    ("EXISTS", Kind::Word(Keyword::Exists)),
    ("BIND", Kind::Word(Keyword::Bind)),
    ("VALUES", Kind::Word(Keyword::Values)),
    ("UNDEF", Kind::Word(Keyword::Undef)),
    ("TRUE", Kind::Word(Keyword::True)),
    ("FALSE", Kind::Word(Keyword::False)),
    ("IN", Kind::Word(Keyword::In)),
    ("BOUND", Kind::Word(Keyword::Bound)),
    ("COUNT", Kind::Word(Keyword::Fold(Fold::Count))),
    ("SUM", Kind::Word(Keyword::Fold(Fold::Sum))),
    ("AVG", Kind::Word(Keyword::Fold(Fold::Avg))),
    ("MIN", Kind::Word(Keyword::Fold(Fold::Min))),
    ("MAX", Kind::Word(Keyword::Fold(Fold::Max))),
    ("IF", Kind::Word(Keyword::Call(Function::If))),
    ("COALESCE", Kind::Word(Keyword::Call(Function::Coalesce))),
    ("SAMETERM", Kind::Word(Keyword::Call(Function::SameTerm))),
    ("ISIRI", Kind::Word(Keyword::Call(Function::IsIri))),
    ("ISURI", Kind::Word(Keyword::Call(Function::IsUri))),
    ("ISBLANK", Kind::Word(Keyword::Call(Function::IsBlank))),
    ("ISLITERAL", Kind::Word(Keyword::Call(Function::IsLiteral))),
    ("ISNUMERIC", Kind::Word(Keyword::Call(Function::IsNumeric))),
    ("STR", Kind::Word(Keyword::Call(Function::Str))),
    ("LANG", Kind::Word(Keyword::Call(Function::Lang))),
    ("DATATYPE", Kind::Word(Keyword::Call(Function::Datatype))),
    ("IRI", Kind::Word(Keyword::Call(Function::Iri))),
    ("URI", Kind::Word(Keyword::Call(Function::Uri))),
    ("STRDT", Kind::Word(Keyword::Call(Function::StrDt))),
    ("STRLANG", Kind::Word(Keyword::Call(Function::StrLang))),
    ("STRLEN", Kind::Word(Keyword::Call(Function::StrLen))),
    ("SUBSTR", Kind::Word(Keyword::Call(Function::Substr))),
    ("CONTAINS", Kind::Word(Keyword::Call(Function::Contains))),
    ("STRSTARTS", Kind::Word(Keyword::Call(Function::StrStarts))),
    ("STRENDS", Kind::Word(Keyword::Call(Function::StrEnds))),
    ("STRBEFORE", Kind::Word(Keyword::Call(Function::StrBefore))),
    ("STRAFTER", Kind::Word(Keyword::Call(Function::StrAfter))),
    ("CONCAT", Kind::Word(Keyword::Call(Function::Concat))),
    (
        "LANGMATCHES",
        Kind::Word(Keyword::Call(Function::LangMatches)),
    ),
    ("ABS", Kind::Word(Keyword::Call(Function::Abs))),
    ("CEIL", Kind::Word(Keyword::Call(Function::Ceil))),
    ("FLOOR", Kind::Word(Keyword::Call(Function::Floor))),
    ("ROUND", Kind::Word(Keyword::Call(Function::Round))),
];

const SYMBOLS: [(&str, Kind); 26] = [
    ("{", Kind::Symbol(Symbol::OpenBrace)),
    ("}", Kind::Symbol(Symbol::CloseBrace)),
    ("(", Kind::Symbol(Symbol::OpenParen)),
    (")", Kind::Symbol(Symbol::CloseParen)),
    ("[", Kind::Symbol(Symbol::OpenBracket)),
    ("]", Kind::Symbol(Symbol::CloseBracket)),
    (".", Kind::Symbol(Symbol::Dot)),
    (";", Kind::Symbol(Symbol::Semicolon)),
    (",", Kind::Symbol(Symbol::Comma)),
    ("|", Kind::Symbol(Symbol::Bar)),
    ("||", Kind::Symbol(Symbol::Or)),
    ("&&", Kind::Symbol(Symbol::And)),
    ("!", Kind::Symbol(Symbol::Not)),
    ("=", Kind::Symbol(Symbol::Sign(Sign::Equal))),
    ("!=", Kind::Symbol(Symbol::Sign(Sign::NotEqual))),
    ("<", Kind::Symbol(Symbol::Sign(Sign::Less))),
    (">", Kind::Symbol(Symbol::Sign(Sign::Greater))),
    ("<=", Kind::Symbol(Symbol::Sign(Sign::LessEqual))),
    (">=", Kind::Symbol(Symbol::Sign(Sign::GreaterEqual))),
    ("+", Kind::Symbol(Symbol::Sign(Sign::Add))),
    ("-", Kind::Symbol(Symbol::Sign(Sign::Subtract))),
    ("*", Kind::Symbol(Symbol::Sign(Sign::Multiply))),
    ("/", Kind::Symbol(Symbol::Sign(Sign::Divide))),
    ("^", Kind::Symbol(Symbol::Caret)),
    ("^^", Kind::Symbol(Symbol::Carets)),
    ("?", Kind::Symbol(Symbol::Question)),
];

// the kind beside this text in any case
fn kind_in(table: &[(&str, Kind)], text: &str) -> Kind
    ensures { result ≡ tables.kind_in (map (λ entry. (entry.0.now, entry.1)) table.now) text.now }
{
    for (name, kind) in table {
        if is_in_any_case(name, text) {
            return *kind;
        }
    }
    Kind::Nowhere
}

fn is_in_any_case(name: &str, text: &str) -> bool
    ensures { result ≡ str_eq_ignore_ascii_case name.now text.now }
{
    name.eq_ignore_ascii_case(text)
}

/// The kind of a word.
#[tactic(auto, unfolding(crate::specs::Tables::word_kind))]
pub(crate) fn word_kind(text: &str) -> Kind
    ensures { result ≡ tables.word_kind text.now }
{
    if text == "a" {
        Kind::Word(Keyword::A)
    } else {
        kind_in(&KEYWORDS, text)
    }
}

/// The kind of a symbol.
#[tactic(auto, unfolding(crate::specs::Tables::symbol_kind))]
pub(crate) fn symbol_kind(text: &str) -> Kind
    ensures { result ≡ tables.symbol_kind text.now }
{
    kind_in(&SYMBOLS, text)
}
