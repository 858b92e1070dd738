// Texts with their escapes replaced.
ghost use Rattle.std.specs.Prelude.{◌≡◌, ◌++◌, IfOk, OnOk};
ghost use Rattle.std.specs.Str.{encode_utf8_all};
ghost use Rattle.std.specs.String.{string_bytes};
ghost use Rattle.rsp_said.specs.Escapes as escapes;

use rsp_scan::{Escape, Escaped, escape_step};
use rsp_terms::Text;
use std::alloc::{AllocError, Global};

/// How far an escape is read.
#[derive(Clone, Copy, Drop)]
pub(crate) enum State {
    /// In none.
    Plain,
    /// Behind a `\`.
    Within(Escape),
    /// In the local part of a prefixed name.
    Local,
}

fn behind(escaped: Option<Escaped>) -> (State, Option<char>)
    ensures { result ≡ escapes.behind escaped }
{
    match escaped {
        None => (State::Plain, None),
        Some(Escaped::More(escape)) => (State::Within(escape), None),
        Some(Escaped::Whole(character)) => (State::Plain, Some(character)),
    }
}

fn step(state: State, c: char) -> (State, Option<char>)
    ensures { result ≡ escapes.step state c }
{
    match state {
        State::Plain => if c == '\\' {
            (State::Within(Escape::Begun), None)
        } else {
            (State::Plain, Some(c))
        },
        State::Within(escape) => behind(escape_step(escape, c)),
        State::Local => if c == '\\' {
            (State::Local, None)
        } else {
            (State::Local, Some(c))
        },
    }
}

fn push_some(text: &mut String, character: Option<char>) -> Result<(), AllocError>
    ensures { OnOk result (string_bytes text.new ≡ string_bytes text.old ++ encode_utf8_all (escapes.only character)) }
{
    match character {
        None => Ok(()),
        Some(character) => text.push(character),
    }
}

/// The text with its escapes replaced, read from this state on.
pub(crate) fn unescaped(alloc: Global, from: State, text: &str) -> Result<Text, AllocError>
    ensures { IfOk result (λ plain. plain ≡ escapes.unescaped_text from text.now) }
{
    let mut plain = String::new(alloc);
    let mut state = from;
    for c in text.chars() {
        let (next, character) = step(state, c);
        push_some(&mut plain, character)?;
        state = next;
    }
    Text::new(alloc, plain.as_str())
}
