// The tokens of a text.
ghost use Rattle.std.specs.Prelude.{◌≡◌, ℕ, ◌+◌, ◌≤◌, ◌<◌, IfOk, List, length, drop, ◌++◌, ◌∷◌, [], nat_lt, if◌then◌else◌};
ghost use Rattle.rsp_lex.specs.declared.token.TokenKind.TheVariants.{Prefixed};
ghost use Rattle.rsp_lex.specs.Forms.{front_bytes, is_token};
ghost use Rattle.rsp_lex.specs.Kinds.{accepted};
ghost use Rattle.rsp_lex.specs.Reach.{NoPrefixed};
ghost use Rattle.rsp_lex.specs.Forms as forms;
ghost use Rattle.rsp_lex.specs.Gaps as gaps;
ghost use Rattle.rsp_lex.specs.Tokens as words;
ghost use Rattle.rsp_lex.specs.Results.{IsLexed};

use crate::machine::{Reached, front_len, prefixed_front};
use crate::{LexFault, Token, TokenKind};
use rsp_terms::Listed;
use std::alloc::{AllocError, Global};

/// A kind, and how many bytes of a text's front are a token of it.
#[derive(Clone, Copy)]
pub(crate) struct Front {
    pub kind: TokenKind,
    pub len: usize,
}

/// The tokens of a text, in order: at each place behind white space and comments the longest token, and of equally long
/// ones the kind that [`TokenKind`] names first. A text that has a place where none begins is refused with it.
///
/// `tokens(alloc, "?a<1 # note")` are a Variable from 0 to 2, a Symbol from 2 to 3 and an Integer from 3 to 4;
/// `tokens(alloc, "é")` is `Err(LexFault::BadToken { at: 0 })`.
pub fn tokens(alloc: Global, text: &str) -> Result<Listed<Token>, LexFault>
    ensures tokens { IsLexed result (words.tokens text.now) }
    // the definition's bound is none: any larger one gives the same
    ensures bound { (most : ℕ) → length text.now < most → words.tokens_from most 0 text.now ≡ words.tokens text.now }
    // the automata by which they are found accept what the kinds are
    ensures forms { (kind : TokenKind) (cs : List ℕ) → accepted kind cs ≡ is_token kind cs }
{
    all_tokens(alloc, text)
}

fn all_tokens(alloc: Global, text: &str) -> Result<Listed<Token>, LexFault>
    ensures { IsLexed result (words.tokens text.now) }
{
    let mut tokens = Vec::new(alloc);
    let mut rest = text;
    let mut at = 0;
    // no prefixed name begins in so many bytes of the rest: so a run of name characters is looked through once
    let mut bare: usize = 0;
    let most = text.len() + 1;
    for _ in 0..most {
        let (gap, behind) = behind_gap(rest);
        let start = at + gap;
        if behind.is_empty() {
            return Ok(Listed::from_vec(tokens));
        }
        let (front, further, after) = first_token(behind, bare.saturating_sub(gap));
        if front.len == 0 {
            return Err(LexFault::BadToken { at: start });
        }
        at = start + front.len;
        let token = Token {
            kind: front.kind,
            start,
            end: at,
        };
        tokens = pushed(tokens, token)?;
        rest = after;
        bare = further;
    }
    Err(LexFault::BadToken { at })
}

fn pushed(tokens: Vec<Token>, token: Token) -> Result<Vec<Token>, AllocError>
    ensures { IfOk result (λ all. all.items ≡ tokens.items ++ (token ∷ [])) }
{
    let mut all = tokens;
    all.push(token)?;
    Ok(all)
}

impl From<AllocError> for LexFault {
    ghost use Rattle.std.specs.Prelude.{◌≡◌};
    ghost use Rattle.rsp_lex.specs.declared.token.LexFault.TheVariants.{OutOfMemory};

    ghost from_gives = { λ _ fault. fault ≡ OutOfMemory };

    fn from(_refused: AllocError) -> LexFault {
        LexFault::OutOfMemory
    }
}

// ---- white space and comments

// how many bytes of them stand at the front, and the text behind them
fn behind_gap(text: &str) -> (usize, &str)
    ensures gap { result.0 ≡ words.gap_bytes text.now }
    ensures rest { result.1.now ≡ drop (words.gap_bytes text.now) text.now }
    ensures bound { result.0 + length result.1.now ≡ length text.now }
{
    let gap = gap_len(text);
    (gap, &text[gap..])
}

fn gap_len(text: &str) -> usize
    ensures value { result ≡ words.gap_bytes text.now }
    ensures bound { result ≤ length text.now }
{
    let mut is_comment = false;
    let mut read = 0;
    for character in text.chars() {
        let Some(next) = gap_step(is_comment, character) else {
            return read;
        };
        is_comment = next;
        read += character.len_utf8();
    }
    read
}

fn gap_step(is_comment: bool, c: char) -> Option<bool>
    ensures { result ≡ gaps.gap_step is_comment c }
{
    if is_comment {
        return Some(c != '\n');
    }
    if is_white(c) {
        return Some(false);
    }
    if c == '#' { Some(true) } else { None }
}

fn is_white(c: char) -> bool
    ensures { result ≡ forms.is_white c }
{
    matches!(c, ' ' | '\t' | '\n' | '\r')
}

// ---- the longest token

// it, and the text behind it, in so many bytes of which no prefixed name begins
fn first_token(text: &str, bare: usize) -> (Front, usize, &str)
    requires { NoPrefixed text.now bare }
    ensures token { result.0 ≡ words.token_at text.now }
    ensures bare { NoPrefixed result.2.now result.1 }
    ensures rest { result.2.now ≡ drop result.0.len text.now }
    ensures bound { result.0.len + length result.2.now ≡ length text.now }
{
    let prefixed = bare_or_prefixed(text, bare);
    let front = longest(text, prefixed.len);
    let after = &text[front.len..];
    (front, prefixed.read.saturating_sub(front.len), after)
}

// the longest prefixed name at the front, and how many bytes there are in which none begins
fn bare_or_prefixed(text: &str, bare: usize) -> Reached
    requires { NoPrefixed text.now bare }
    ensures len { result.len ≡ front_bytes Prefixed text.now }
    ensures bare { NoPrefixed text.now result.read }
{
    if 0 < bare {
        return Reached { len: 0, read: bare };
    }
    let prefixed = prefixed_front(text);
    if prefixed.len == 0 {
        return prefixed;
    }
    Reached {
        len: prefixed.len,
        read: 0,
    }
}

#[tactic(auto, unfolding(crate::specs::Tokens::token_at))]
fn longest(text: &str, prefixed: usize) -> Front
    requires { prefixed ≡ front_bytes Prefixed text.now }
    ensures { result ≡ words.token_at text.now }
{
    let best = Front {
        kind: TokenKind::Iri,
        len: front_len(TokenKind::Iri, text),
    };
    let best = better(best, TokenKind::Prefixed, prefixed);
    let best = longer(best, TokenKind::Label, text);
    let best = longer(best, TokenKind::Variable, text);
    let best = longer(best, TokenKind::Span, text);
    let best = longer(best, TokenKind::Word, text);
    let best = longer(best, TokenKind::Tag, text);
    let best = longer(best, TokenKind::Double, text);
    let best = longer(best, TokenKind::Decimal, text);
    let best = longer(best, TokenKind::Integer, text);
    let best = longer(best, TokenKind::String, text);
    longer(best, TokenKind::Symbol, text)
}

// a longer token of this kind, or else the best so far
fn longer(best: Front, kind: TokenKind, text: &str) -> Front
    ensures { result ≡ words.longer best kind text.now }
{
    better(best, kind, front_len(kind, text))
}

fn better(best: Front, kind: TokenKind, len: usize) -> Front
    ensures { result ≡ (if nat_lt best.len len then record { kind = kind; len = len } else best) }
{
    if best.len < len {
        Front { kind, len }
    } else {
        best
    }
}
