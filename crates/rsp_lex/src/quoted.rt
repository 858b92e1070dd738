// IRIs in brackets and strings, character by character.
ghost use Rattle.std.specs.Prelude.{◌≡◌};
ghost use Rattle.rsp_lex.specs.Quoted as words;

use rsp_scan::{Escape, Escaped, escape_step, uchar_step};
use rsp_terms::characters::is_iri_character;

/// How far an IRI is read.
#[derive(Clone, Copy)]
pub(crate) enum IriState {
    Start,
    Inside,
    Escape(Escape),
    Closed,
}

/// The sign that a string stands between.
#[derive(Clone, Copy)]
pub enum Quote {
    /// `"`
    Double,
    /// `'`
    Single,
}

/// How far a string is read.
#[derive(Clone, Copy)]
pub(crate) enum StringState {
    Start,
    /// One quote.
    Opened(Quote),
    /// Two quotes.
    Empty(Quote),
    Short(Quote),
    ShortEscape(Quote, Escape),
    /// A long string, and how many quotes were read last.
    Long(Quote, u8),
    LongEscape(Quote, Escape),
    Closed,
}

/// The state of an IRI with one character more; None where no IRI goes on so.
pub(crate) fn iri_step(state: IriState, c: char) -> Option<IriState>
    ensures { result ≡ words.iri_step state c }
{
    match state {
        IriState::Start => if c == '<' {
            Some(IriState::Inside)
        } else {
            None
        },
        IriState::Inside => iri_inside(c),
        IriState::Escape(escape) => match uchar_step(escape, c) {
            None => None,
            Some(escaped) => iri_behind(escaped),
        },
        IriState::Closed => None,
    }
}

fn iri_inside(c: char) -> Option<IriState>
    ensures { result ≡ words.iri_inside c }
{
    if c == '>' {
        return Some(IriState::Closed);
    }
    if c == '\\' {
        return Some(IriState::Escape(Escape::Begun));
    }
    if is_iri_character(c) {
        Some(IriState::Inside)
    } else {
        None
    }
}

fn iri_behind(escaped: Escaped) -> Option<IriState>
    ensures { result ≡ words.iri_behind escaped }
{
    match escaped {
        Escaped::More(escape) => Some(IriState::Escape(escape)),
        Escaped::Whole(character) => {
            if is_iri_character(character) {
                Some(IriState::Inside)
            } else {
                None
            }
        }
    }
}

/// Whether an IRI may end in this state.
pub(crate) fn iri_ends(state: IriState) -> bool
    ensures { result ≡ words.iri_ends state }
{
    matches!(state, IriState::Closed)
}

/// The state of a string with one character more; None where no string goes on so.
pub(crate) fn string_step(state: StringState, c: char) -> Option<StringState>
    ensures { result ≡ words.string_step state c }
{
    match state {
        StringState::Start => string_start(c),
        StringState::Opened(quote) => {
            if is_quote(quote, c) {
                Some(StringState::Empty(quote))
            } else {
                short_step(quote, c)
            }
        }
        StringState::Empty(quote) => {
            if is_quote(quote, c) {
                Some(StringState::Long(quote, 0))
            } else {
                None
            }
        }
        StringState::Short(quote) => {
            if is_quote(quote, c) {
                Some(StringState::Closed)
            } else {
                short_step(quote, c)
            }
        }
        StringState::ShortEscape(quote, escape) => match escape_step(escape, c) {
            None => None,
            Some(Escaped::More(more)) => Some(StringState::ShortEscape(quote, more)),
            Some(Escaped::Whole(_)) => Some(StringState::Short(quote)),
        },
        StringState::Long(quote, quotes) => Some(long_step(quote, quotes, c)),
        StringState::LongEscape(quote, escape) => match escape_step(escape, c) {
            None => None,
            Some(Escaped::More(more)) => Some(StringState::LongEscape(quote, more)),
            Some(Escaped::Whole(_)) => Some(StringState::Long(quote, 0)),
        },
        StringState::Closed => None,
    }
}

fn string_start(c: char) -> Option<StringState>
    ensures { result ≡ words.string_start c }
{
    match c {
        '"' => Some(StringState::Opened(Quote::Double)),
        '\'' => Some(StringState::Opened(Quote::Single)),
        _ => None,
    }
}

fn is_quote(quote: Quote, c: char) -> bool
    ensures { result ≡ words.is_quote quote c }
{
    match quote {
        Quote::Double => c == '"',
        Quote::Single => c == '\'',
    }
}

fn short_step(quote: Quote, c: char) -> Option<StringState>
    ensures { result ≡ words.short_step quote c }
{
    match c {
        '\\' => Some(StringState::ShortEscape(quote, Escape::Begun)),
        '\n' | '\r' => None,
        _ => Some(StringState::Short(quote)),
    }
}

fn long_step(quote: Quote, quotes: u8, c: char) -> StringState
    ensures { result ≡ words.long_step quote quotes c }
{
    if is_quote(quote, c) {
        return if quotes < 2 {
            StringState::Long(quote, quotes + 1)
        } else {
            StringState::Closed
        };
    }
    if c == '\\' {
        StringState::LongEscape(quote, Escape::Begun)
    } else {
        StringState::Long(quote, 0)
    }
}

/// Whether a string may end in this state.
pub(crate) fn string_ends(state: StringState) -> bool
    ensures { result ≡ words.string_ends state }
{
    matches!(state, StringState::Empty(_) | StringState::Closed)
}
