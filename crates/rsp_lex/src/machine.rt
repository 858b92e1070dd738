// How far a token of any kind is read.
ghost use Rattle.std.specs.Prelude.{◌≡◌, ◌≤◌, length, if◌then◌else◌};
ghost use Rattle.std.specs.Str.{chars};
ghost use Rattle.rsp_scan.specs.Scans.{scanned_bytes};
ghost use Rattle.rsp_lex.specs.declared.token.TokenKind.TheVariants.{Prefixed};
ghost use Rattle.rsp_lex.specs.Forms.{front_bytes};
ghost use Rattle.rsp_lex.specs.Kinds as kinds;
ghost use Rattle.rsp_lex.specs.Reach.{read_bytes, NoPrefixed};

use crate::TokenKind;
use crate::names::{
    LabelState, PrefixedState, TagState, VariableState, WordState, label_ends, label_step,
    prefixed_ends, prefixed_step, tag_ends, tag_step, variable_ends, variable_step, word_ends,
    word_step,
};
use crate::numbers::{
    DecimalState, DoubleState, IntegerState, SpanState, decimal_ends, decimal_step, double_ends,
    double_step, integer_ends, integer_step, span_ends, span_step,
};
use crate::quoted::{IriState, StringState, iri_ends, iri_step, string_ends, string_step};
use crate::symbols::{SymbolState, symbol_ends, symbol_step};

/// How far a token is read.
#[derive(Clone, Copy)]
pub(crate) enum State {
    Iri(IriState),
    Prefixed(PrefixedState),
    Label(LabelState),
    Variable(VariableState),
    Span(SpanState),
    Word(WordState),
    Tag(TagState),
    Double(DoubleState),
    Decimal(DecimalState),
    Integer(IntegerState),
    String(StringState),
    Symbol(SymbolState),
}

fn start(kind: TokenKind) -> State
    ensures { result ≡ kinds.start kind }
{
    match kind {
        TokenKind::Iri => State::Iri(IriState::Start),
        TokenKind::Prefixed => State::Prefixed(PrefixedState::Start),
        TokenKind::Label => State::Label(LabelState::Start),
        TokenKind::Variable => State::Variable(VariableState::Start),
        TokenKind::Span => State::Span(SpanState::Start),
        TokenKind::Word => State::Word(WordState::Start),
        TokenKind::Tag => State::Tag(TagState::Start),
        TokenKind::Double => State::Double(DoubleState::Start),
        TokenKind::Decimal => State::Decimal(DecimalState::Start),
        TokenKind::Integer => State::Integer(IntegerState::Start),
        TokenKind::String => State::String(StringState::Start),
        TokenKind::Symbol => State::Symbol(SymbolState::Start),
    }
}

fn step(state: State, c: char) -> Option<State>
    ensures { result ≡ kinds.step state c }
{
    match state {
        State::Iri(inner) => Some(State::Iri(iri_step(inner, c)?)),
        State::Prefixed(inner) => Some(State::Prefixed(prefixed_step(inner, c)?)),
        State::Label(inner) => Some(State::Label(label_step(inner, c)?)),
        State::Variable(inner) => Some(State::Variable(variable_step(inner, c)?)),
        State::Span(inner) => Some(State::Span(span_step(inner, c)?)),
        State::Word(inner) => Some(State::Word(word_step(inner, c)?)),
        State::Tag(inner) => Some(State::Tag(tag_step(inner, c)?)),
        State::Double(inner) => Some(State::Double(double_step(inner, c)?)),
        State::Decimal(inner) => Some(State::Decimal(decimal_step(inner, c)?)),
        State::Integer(_) => Some(State::Integer(integer_step(c)?)),
        State::String(inner) => Some(State::String(string_step(inner, c)?)),
        State::Symbol(inner) => Some(State::Symbol(symbol_step(inner, c)?)),
    }
}

fn ends(state: State) -> bool
    ensures { result ≡ kinds.ends state }
{
    match state {
        State::Iri(inner) => iri_ends(inner),
        State::Prefixed(inner) => prefixed_ends(inner),
        State::Label(inner) => label_ends(inner),
        State::Variable(inner) => variable_ends(inner),
        State::Span(inner) => span_ends(inner),
        State::Word(inner) => word_ends(inner),
        State::Tag(inner) => tag_ends(inner),
        State::Double(inner) => double_ends(inner),
        State::Decimal(inner) => decimal_ends(inner),
        State::Integer(inner) => integer_ends(inner),
        State::String(inner) => string_ends(inner),
        State::Symbol(inner) => symbol_ends(inner),
    }
}

/// How many bytes of a text the longest token has, and how many were read to find it.
#[derive(Clone, Copy)]
pub(crate) struct Reached {
    pub len: usize,
    pub read: usize,
}

/// How many bytes the longest token of this kind has that a text begins with; 0 where it begins with none.
pub(crate) fn front_len(kind: TokenKind, text: &str) -> usize
    ensures value { result ≡ front_bytes kind text.now }
    ensures bound { result ≤ length text.now }
{
    scanned(start(kind), text).len
}

/// The longest prefixed name that a text begins with. Where there is none, none begins behind any shorter front than
/// what was read either.
pub(crate) fn prefixed_front(text: &str) -> Reached
    ensures len { result.len ≡ front_bytes Prefixed text.now }
    ensures none { result.len ≡ 0 → NoPrefixed text.now result.read }
{
    scanned(start(TokenKind::Prefixed), text)
}

fn scanned(begun: State, text: &str) -> Reached
    ensures len { result.len ≡ scanned_bytes kinds.token_machine begun (chars text.now) }
    ensures read { result.read ≡ read_bytes kinds.token_machine begun (chars text.now) }
    ensures bound { result.len ≤ length text.now }
{
    let mut state = begun;
    let mut read = 0;
    let mut len = 0;
    for character in text.chars() {
        let Some(next) = step(state, character) else {
            return Reached { len, read };
        };
        state = next;
        read += character.len_utf8();
        len = furthest(ends(next), read, len);
    }
    Reached { len, read }
}

fn furthest(ends: bool, place: usize, end: usize) -> usize
    ensures { result ≡ (if ends then place else end) }
{
    if ends { place } else { end }
}
