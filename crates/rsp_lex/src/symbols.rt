// Symbols, character by character.
ghost use Rattle.std.specs.Prelude.{◌≡◌};
ghost use Rattle.rsp_lex.specs.Forms as forms;
ghost use Rattle.rsp_lex.specs.Symbols as words;

/// How far a symbol is read.
#[derive(Clone, Copy)]
pub(crate) enum SymbolState {
    Start,
    /// `&`
    Ampersand,
    /// `|`
    Bar,
    /// `^`
    Caret,
    /// `!`, `<` or `>`
    BeforeEqual,
    /// A symbol that no other begins with.
    Whole,
}

/// The state of a symbol with one character more; None where no symbol goes on so.
pub(crate) fn symbol_step(state: SymbolState, c: char) -> Option<SymbolState>
    ensures { result ≡ words.symbol_step state c }
{
    match state {
        SymbolState::Start => symbol_start(c),
        SymbolState::Ampersand => if c == '&' {
            Some(SymbolState::Whole)
        } else {
            None
        },
        SymbolState::Bar => if c == '|' {
            Some(SymbolState::Whole)
        } else {
            None
        },
        SymbolState::Caret => if c == '^' {
            Some(SymbolState::Whole)
        } else {
            None
        },
        SymbolState::BeforeEqual => if c == '=' {
            Some(SymbolState::Whole)
        } else {
            None
        },
        SymbolState::Whole => None,
    }
}

fn symbol_start(c: char) -> Option<SymbolState>
    ensures { result ≡ words.symbol_start c }
{
    match c {
        '&' => Some(SymbolState::Ampersand),
        '|' => Some(SymbolState::Bar),
        '^' => Some(SymbolState::Caret),
        '!' | '<' | '>' => Some(SymbolState::BeforeEqual),
        _ => if is_single(c) {
            Some(SymbolState::Whole)
        } else {
            None
        },
    }
}

fn is_single(c: char) -> bool
    ensures { result ≡ forms.is_single c }
{
    matches!(
        c,
        '{' | '}' | '(' | ')' | '[' | ']' | '.' | ';' | ',' | '=' | '+' | '-' | '*' | '/' | '?'
    )
}

/// Whether a symbol may end in this state.
pub(crate) fn symbol_ends(state: SymbolState) -> bool
    ensures { result ≡ words.symbol_ends state }
{
    matches!(
        state,
        SymbolState::Bar | SymbolState::Caret | SymbolState::BeforeEqual | SymbolState::Whole
    )
}
