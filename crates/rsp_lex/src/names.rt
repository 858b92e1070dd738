// Words, names, labels and tags, character by character.
ghost use Rattle.std.specs.Prelude.{◌≡◌};
ghost use Rattle.std.specs.Char.{is_ascii_alphabetic, is_ascii_alphanumeric, is_ascii_digit, is_ascii_hexdigit};
ghost use Rattle.rsp_lex.specs.Forms as forms;
ghost use Rattle.rsp_lex.specs.Names as words;

use rsp_terms::characters::{is_base, is_name_character};

/// How far a word is read.
#[derive(Clone, Copy)]
pub(crate) enum WordState {
    Start,
    Inside,
}

/// How far a variable is read.
#[derive(Clone, Copy)]
pub(crate) enum VariableState {
    Start,
    /// Its sign.
    Sign,
    Inside,
}

/// How far a label is read.
#[derive(Clone, Copy)]
pub(crate) enum LabelState {
    Start,
    /// `_`
    Underscore,
    /// `_:`
    Begun,
    Inside,
    /// A `.` came last.
    Dot,
}

/// How far a prefixed name is read.
#[derive(Clone, Copy)]
pub(crate) enum PrefixedState {
    Start,
    Prefix,
    /// A `.` came last in the prefix.
    PrefixDot,
    Colon,
    Local,
    /// A `.` came last in the local part.
    LocalDot,
    /// `%`
    Percent,
    /// `%` and a digit
    PercentDigit,
    /// `\`
    Backslash,
}

/// How far a tag is read.
#[derive(Clone, Copy)]
pub(crate) enum TagState {
    Start,
    /// `@`
    At,
    First,
    Hyphen,
    Further,
}

fn is_letter(c: char) -> bool
    ensures { result ≡ is_ascii_alphabetic c }
{
    c.is_ascii_alphabetic()
}

fn is_digit(c: char) -> bool
    ensures { result ≡ is_ascii_digit c }
{
    c.is_ascii_digit()
}

fn is_letter_or_digit(c: char) -> bool
    ensures { result ≡ is_ascii_alphanumeric c }
{
    c.is_ascii_alphanumeric()
}

fn is_hexadecimal(c: char) -> bool
    ensures { result ≡ is_ascii_hexdigit c }
{
    c.is_ascii_hexdigit()
}

fn is_word_character(c: char) -> bool
    ensures { result ≡ forms.is_word_character c }
{
    is_letter_or_digit(c) || c == '_'
}

/// PN_CHARS_U, which has no `:` here.
fn starts_name(c: char) -> bool
    ensures { result ≡ forms.starts_name c }
{
    is_base(c) || c == '_'
}

/// PN_CHARS.
fn continues_name(c: char) -> bool
    ensures { result ≡ forms.continues_name c }
{
    is_name_character(c) && c != ':'
}

/// The state of a word with one character more; None where no word goes on so.
pub(crate) fn word_step(state: WordState, c: char) -> Option<WordState>
    ensures { result ≡ words.word_step state c }
{
    match state {
        WordState::Start => if is_letter(c) {
            Some(WordState::Inside)
        } else {
            None
        },
        WordState::Inside => if is_word_character(c) {
            Some(WordState::Inside)
        } else {
            None
        },
    }
}

/// Whether a word may end in this state.
pub(crate) fn word_ends(state: WordState) -> bool
    ensures { result ≡ words.word_ends state }
{
    matches!(state, WordState::Inside)
}

/// The state of a variable with one character more; None where no variable goes on so.
pub(crate) fn variable_step(state: VariableState, c: char) -> Option<VariableState>
    ensures { result ≡ words.variable_step state c }
{
    match state {
        VariableState::Start => {
            if c == '?' || c == '$' {
                Some(VariableState::Sign)
            } else {
                None
            }
        }
        VariableState::Sign => {
            if starts_name(c) || is_digit(c) {
                Some(VariableState::Inside)
            } else {
                None
            }
        }
        VariableState::Inside => {
            if continues_name(c) && c != '-' {
                Some(VariableState::Inside)
            } else {
                None
            }
        }
    }
}

/// Whether a variable may end in this state.
pub(crate) fn variable_ends(state: VariableState) -> bool
    ensures { result ≡ words.variable_ends state }
{
    matches!(state, VariableState::Inside)
}

/// The state of a label with one character more; None where no label goes on so.
pub(crate) fn label_step(state: LabelState, c: char) -> Option<LabelState>
    ensures { result ≡ words.label_step state c }
{
    match state {
        LabelState::Start => if c == '_' {
            Some(LabelState::Underscore)
        } else {
            None
        },
        LabelState::Underscore => if c == ':' {
            Some(LabelState::Begun)
        } else {
            None
        },
        LabelState::Begun => {
            if starts_name(c) || is_digit(c) {
                Some(LabelState::Inside)
            } else {
                None
            }
        }
        LabelState::Inside => label_inside(c),
        LabelState::Dot => label_inside(c),
    }
}

fn label_inside(c: char) -> Option<LabelState>
    ensures { result ≡ words.label_inside c }
{
    if c == '.' {
        return Some(LabelState::Dot);
    }
    if continues_name(c) {
        Some(LabelState::Inside)
    } else {
        None
    }
}

/// Whether a label may end in this state.
pub(crate) fn label_ends(state: LabelState) -> bool
    ensures { result ≡ words.label_ends state }
{
    matches!(state, LabelState::Inside)
}

/// The state of a prefixed name with one character more; None where no prefixed name goes on so.
pub(crate) fn prefixed_step(state: PrefixedState, c: char) -> Option<PrefixedState>
    ensures { result ≡ words.prefixed_step state c }
{
    match state {
        PrefixedState::Start => prefix_start(c),
        PrefixedState::Prefix => {
            if c == ':' {
                Some(PrefixedState::Colon)
            } else {
                prefix_inside(c)
            }
        }
        PrefixedState::PrefixDot => prefix_inside(c),
        PrefixedState::Colon => local_start(c),
        PrefixedState::Local => local_inside(c),
        PrefixedState::LocalDot => local_inside(c),
        PrefixedState::Percent => {
            if is_hexadecimal(c) {
                Some(PrefixedState::PercentDigit)
            } else {
                None
            }
        }
        PrefixedState::PercentDigit => {
            if is_hexadecimal(c) {
                Some(PrefixedState::Local)
            } else {
                None
            }
        }
        PrefixedState::Backslash => {
            if is_escaped(c) {
                Some(PrefixedState::Local)
            } else {
                None
            }
        }
    }
}

fn prefix_start(c: char) -> Option<PrefixedState>
    ensures { result ≡ words.prefix_start c }
{
    if c == ':' {
        return Some(PrefixedState::Colon);
    }
    if is_base(c) {
        Some(PrefixedState::Prefix)
    } else {
        None
    }
}

fn prefix_inside(c: char) -> Option<PrefixedState>
    ensures { result ≡ words.prefix_inside c }
{
    if c == '.' {
        return Some(PrefixedState::PrefixDot);
    }
    if continues_name(c) {
        Some(PrefixedState::Prefix)
    } else {
        None
    }
}

fn local_start(c: char) -> Option<PrefixedState>
    ensures { result ≡ words.local_start c }
{
    if starts_name(c) || c == ':' || is_digit(c) {
        return Some(PrefixedState::Local);
    }
    escape_start(c)
}

fn local_inside(c: char) -> Option<PrefixedState>
    ensures { result ≡ words.local_inside c }
{
    if c == '.' {
        return Some(PrefixedState::LocalDot);
    }
    if continues_name(c) || c == ':' {
        return Some(PrefixedState::Local);
    }
    escape_start(c)
}

fn escape_start(c: char) -> Option<PrefixedState>
    ensures { result ≡ words.escape_start c }
{
    match c {
        '%' => Some(PrefixedState::Percent),
        '\\' => Some(PrefixedState::Backslash),
        _ => None,
    }
}

// PN_LOCAL_ESC, behind its `\`
fn is_escaped(c: char) -> bool
    ensures { result ≡ forms.is_escaped c }
{
    matches!(
        c,
        '_' | '~'
            | '.'
            | '-'
            | '!'
            | '$'
            | '&'
            | '\''
            | '('
            | ')'
            | '*'
            | '+'
            | ','
            | ';'
            | '='
            | '/'
            | '?'
            | '#'
            | '@'
            | '%'
    )
}

/// Whether a prefixed name may end in this state.
pub(crate) fn prefixed_ends(state: PrefixedState) -> bool
    ensures { result ≡ words.prefixed_ends state }
{
    matches!(state, PrefixedState::Colon | PrefixedState::Local)
}

/// The state of a tag with one character more; None where no tag goes on so.
pub(crate) fn tag_step(state: TagState, c: char) -> Option<TagState>
    ensures { result ≡ words.tag_step state c }
{
    match state {
        TagState::Start => if c == '@' { Some(TagState::At) } else { None },
        TagState::At => if is_letter(c) {
            Some(TagState::First)
        } else {
            None
        },
        TagState::First => {
            if c == '-' {
                return Some(TagState::Hyphen);
            }
            if is_letter(c) {
                Some(TagState::First)
            } else {
                None
            }
        }
        TagState::Hyphen => if is_letter_or_digit(c) {
            Some(TagState::Further)
        } else {
            None
        },
        TagState::Further => {
            if c == '-' {
                return Some(TagState::Hyphen);
            }
            if is_letter_or_digit(c) {
                Some(TagState::Further)
            } else {
                None
            }
        }
    }
}

/// Whether a tag may end in this state.
pub(crate) fn tag_ends(state: TagState) -> bool
    ensures { result ≡ words.tag_ends state }
{
    matches!(state, TagState::First | TagState::Further)
}
