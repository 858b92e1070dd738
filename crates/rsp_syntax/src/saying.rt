// What the tokens of a text say.
ghost use Rattle.std.specs.Prelude.{◌≡◌, ◌≤◌, IfOk, map};
ghost use Rattle.rsp_spec.specs.Limits.{most_open};
ghost use Rattle.rsp_syntax.specs.Parsing as parsing;

use rsp_lex::Token;
use rsp_said::said;
use rsp_spec::limits::MOST_OPEN;
use rsp_written::{Kind, Said, Symbol};
use std::alloc::{AllocError, Global};
use std::str;

/// The text of a token. A token that lies outside the text or within a character, which no text has, is answered as want
/// of memory.
pub(crate) fn text_of(text: &str, token: Token) -> Result<&str, AllocError>
    ensures { IfOk result (λ found. found.now ≡ parsing.text_of text.now token) }
{
    match text.as_bytes().get(token.start..token.end) {
        None => Err(AllocError),
        Some(bytes) => match str::from_utf8(bytes) {
            Ok(found) => Ok(found),
            Err(_) => Err(AllocError),
        },
    }
}

fn said_of(alloc: Global, text: &str, token: Token) -> Result<Said, AllocError>
    ensures { IfOk result (λ said. said ≡ parsing.said_token text.now token) }
{
    let found = text_of(text, token)?;
    said(alloc, token.kind, found, token.start)
}

/// What each token says. Fails only where memory is refused.
pub(crate) fn all_said(alloc: Global, text: &str, tokens: &[Token]) -> Result<Vec<Said>, AllocError>
    ensures { IfOk result (λ all. all.items ≡ map (parsing.said_token text.now) tokens.now) }
{
    let mut all = Vec::new(alloc);
    for token in tokens {
        all.push(said_of(alloc, text, *token)?)?;
    }
    Ok(all)
}

/// Whether more opening signs than may be are unclosed at some token.
pub(crate) fn is_too_deep(said: &[Said]) -> bool
    ensures { result ≡ parsing.is_too_deep 0 said.now }
{
    let mut depth = 0;
    for token in said {
        depth = depth_behind(depth, token.kind);
        if MOST_OPEN < depth {
            return true;
        }
    }
    false
}

fn depth_behind(depth: usize, kind: Kind) -> usize
    requires { depth ≤ most_open }
    ensures { result ≡ parsing.depth_behind depth kind }
{
    match kind {
        Kind::Symbol(Symbol::OpenBrace | Symbol::OpenParen | Symbol::OpenBracket) => depth + 1,
        Kind::Symbol(Symbol::CloseBrace | Symbol::CloseParen | Symbol::CloseBracket) => {
            depth.saturating_sub(1)
        }
        _ => depth,
    }
}
