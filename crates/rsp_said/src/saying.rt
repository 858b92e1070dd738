// What the text of a token says.
ghost use Rattle.std.specs.Prelude.{◌≡◌, IfOk, MatchOption, Some, None};
ghost use Rattle.std.specs.Option.{option_and_then, option_or};
ghost use Rattle.std.specs.Str.{byte};
ghost use Rattle.rsp_scan.specs.Enclosed.{sign};
ghost use Rattle.rsp_said.specs.Saying as saying;

use crate::escapes::{State, unescaped};
use crate::parts::{behind, enclosed, prefix_and_local, quoted};
use crate::tables::{symbol_kind, word_kind};
use rsp_lex::TokenKind;
use rsp_terms::Text;
use rsp_terms::characters::is_absolute;
use rsp_written::{Kind, Said};
use std::alloc::{AllocError, Global};

fn says(alloc: Global, kind: Kind, text: &str, at: usize) -> Result<Said, AllocError>
    ensures { IfOk result (λ said. said ≡ saying.says kind text.now at) }
{
    let text = Text::new(alloc, text)?;
    let local = Text::new(alloc, "")?;
    Ok(Said {
        kind,
        text,
        local,
        at,
    })
}

fn iri(alloc: Global, text: &str, at: usize) -> Result<Said, AllocError>
    ensures { IfOk result (λ said. said ≡ saying.says_iri text.now at (saying.name_of_iri text.now)) }
{
    let Some(inner) = enclosed('<', '>', text) else {
        return says(alloc, Kind::Nowhere, text, at);
    };
    let name = unescaped(alloc, State::Plain, inner)?;
    if is_absolute(name.as_str()) {
        says(alloc, Kind::Iri, name.as_str(), at)
    } else {
        says(alloc, Kind::Nowhere, text, at)
    }
}

fn prefixed(alloc: Global, text: &str, at: usize) -> Result<Said, AllocError>
    ensures { IfOk result (λ said. said ≡ saying.says_prefixed text.now at) }
{
    let (prefix, local) = prefix_and_local(text);
    let text = Text::new(alloc, prefix)?;
    let local = unescaped(alloc, State::Local, local)?;
    Ok(Said {
        kind: Kind::Prefixed,
        text,
        local,
        at,
    })
}

fn string(alloc: Global, text: &str, at: usize) -> Result<Said, AllocError>
    ensures { IfOk result (λ said. said ≡ saying.says_string text.now at (saying.inside_quotes text.now)) }
{
    match inside_quotes(text) {
        None => says(alloc, Kind::Nowhere, text, at),
        Some(inner) => {
            let characters = unescaped(alloc, State::Plain, inner)?;
            says(alloc, Kind::String, characters.as_str(), at)
        }
    }
}

fn inside_quotes(text: &str) -> Option<&str>
    ensures { MatchOption result (saying.inside_quotes text.now ≡ None)
        (λ inner. saying.inside_quotes text.now ≡ Some inner.now) }
{
    match quoted('"', text) {
        Some(inner) => Some(inner),
        None => quoted('\'', text),
    }
}

fn label(text: &str) -> Option<&str>
    ensures { MatchOption result (saying.label_of text.now ≡ None) (λ label. saying.label_of text.now ≡ Some label.now) }
{
    behind(':', behind('_', text)?)
}

fn variable(text: &str) -> Option<&str>
    ensures { MatchOption result (saying.variable_of text.now ≡ None) (λ name. saying.variable_of text.now ≡ Some name.now) }
{
    match behind('?', text) {
        Some(name) => Some(name),
        None => behind('$', text),
    }
}

// the part of the text that counts, or what can stand nowhere
fn part(
    alloc: Global,
    kind: Kind,
    text: &str,
    part: Option<&str>,
    at: usize,
) -> Result<Said, AllocError>
    ensures { IfOk result (λ said. MatchOption part.entry (said ≡ saying.says_part kind text.now at None)
        (λ p. said ≡ saying.says_part kind text.now at (Some p.now))) }
{
    match part {
        None => says(alloc, Kind::Nowhere, text, at),
        Some(part) => says(alloc, kind, part, at),
    }
}

/// What a token of this form with this text says; `at` is the place of its first byte. Fails only where memory is refused.
#[tactic(auto, unfolding(crate::specs::Saying::said_of))]
pub fn said(alloc: Global, form: TokenKind, text: &str, at: usize) -> Result<Said, AllocError>
    ensures { IfOk result (λ said. said ≡ saying.said_of form text.now at) }
{
    match form {
        TokenKind::Iri => iri(alloc, text, at),
        TokenKind::Prefixed => prefixed(alloc, text, at),
        TokenKind::Label => part(alloc, Kind::Label, text, label(text), at),
        TokenKind::Variable => part(alloc, Kind::Variable, text, variable(text), at),
        TokenKind::Span => says(alloc, Kind::Span, text, at),
        TokenKind::Word => says(alloc, word_kind(text), text, at),
        TokenKind::Tag => part(alloc, Kind::Tag, text, behind('@', text), at),
        TokenKind::Double => says(alloc, Kind::Double, text, at),
        TokenKind::Decimal => says(alloc, Kind::Decimal, text, at),
        TokenKind::Integer => says(alloc, Kind::Integer, text, at),
        TokenKind::String => string(alloc, text, at),
        TokenKind::Symbol => says(alloc, symbol_kind(text), text, at),
    }
}
