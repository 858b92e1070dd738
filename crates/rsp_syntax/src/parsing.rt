// The query that a text is.
ghost use Rattle.std.specs.Prelude.{◌≡◌, ◌↔◌, ℕ, List, Result, Ok, Err, IfOk, map};
ghost use Rattle.rsp_written.specs.GroupMeanings.{written_of};
ghost use Rattle.rsp_syntax.specs.Deciding as deciding;
ghost use Rattle.rsp_syntax.specs.Deciding.{IsFault, IsRegistered};
ghost use Rattle.rsp_syntax.specs.Parsing as parsing;
ghost use Rattle.rsp_query.specs.Queries.{Registered};
ghost use Rattle.rsp_query.specs.Meanings.{registered};
ghost use Rattle.rsp_shapes.specs.Sound.{IsSound};
ghost use Rattle.rsp_syntax.specs.Answers.{IsParsed};
ghost use Rattle.rsp_syntax.specs.Texts.{IsText};
ghost use Rattle.rsp_syntax.specs.Periods.{HasPeriods};
ghost use Rattle.rsp_syntax.specs.declared.fault.SyntaxFault as fault;
ghost use Rattle.rsp_syntax.specs.declared.fault.SyntaxFault.TheVariants.{OutOfMemory};

use crate::SyntaxFault;
use crate::left_out::is_left_out;
use crate::saying::{all_said, is_too_deep, text_of};
use rsp_lex::{LexFault, Token, tokens};
use rsp_numbering::{LimitName, query_of};
use rsp_query::Query;
use rsp_read_queries::read_query;
use rsp_spec::limits::MOST_TEXT_BYTES;
use rsp_terms::Text;
use rsp_written::{Halt, Registration, Said};
use std::alloc::Global;

/// The query that a text is (SPARQL 1.1 Query, section 19, with the windows and policies of RSP-QL). A text is refused by
/// the first of these that holds: it is longer than 65,536 bytes; no token begins at a place; its brackets are nested more
/// than 32 deep; a token can't stand, or the text is unfinished; it passes a further limit, in the order of [`LimitName`].
///
/// `parse(alloc, "ASK")` is LeftOut at 0; `parse(alloc, "REGISTER RSTREAM <q:o> AS")` is Syntax at 25.
pub fn parse(alloc: Global, text: &str) -> Result<Query, SyntaxFault>
    ensures value { IsParsed result (deciding.parse text.now) }
    ensures grammar { (text : List ℕ) (answer : Result Registered fault.SyntaxFault)
        → (deciding.parse text ≡ answer) ↔ IsText text answer }
    ensures causes { (text : List ℕ) → deciding.parse text ≡ Err OutOfMemory → ⊥ }
    ensures sound { IfOk result (λ query. IsSound (registered query)) }
    ensures periods { IfOk result (λ query. HasPeriods (registered query).policy) }
{
    parsed(alloc, text)
}

// the same, apart from the clause in the grammar's words
#[tactic(auto, unfolding(crate::specs::Deciding::parse))]
fn parsed(alloc: Global, text: &str) -> Result<Query, SyntaxFault>
    ensures { IsParsed result (deciding.parse text.now) }
{
    if MOST_TEXT_BYTES < text.len() {
        let what = LimitName::Text;
        return Err(SyntaxFault::Limit { what });
    }
    match tokens(alloc, text) {
        Ok(tokens) => parse_tokens(alloc, text, tokens.as_slice()),
        Err(LexFault::BadToken { at }) => Err(SyntaxFault::BadToken { at }),
        Err(LexFault::OutOfMemory) => Err(SyntaxFault::OutOfMemory),
    }
}

fn parse_tokens(alloc: Global, text: &str, tokens: &[Token]) -> Result<Query, SyntaxFault>
    ensures { IsParsed result (deciding.parse_said text.now tokens.now (map (parsing.said_token text.now) tokens.now)) }
{
    let said = all_said(alloc, text, tokens)?;
    if is_too_deep(&said) {
        let what = LimitName::Nesting;
        return Err(SyntaxFault::Limit { what });
    }
    let registration = registration_of(alloc, text, tokens, &said)?;
    numbered(alloc, &registration)
}

fn numbered(alloc: Global, registration: &Registration) -> Result<Query, SyntaxFault>
    ensures { IsParsed result (deciding.parse_written (written_of registration.now)) }
{
    match query_of(alloc, registration)? {
        Ok(query) => Ok(query),
        Err(what) => Err(SyntaxFault::Limit { what }),
    }
}

// what is written, where the grammar takes all tokens
fn registration_of(
    alloc: Global,
    text: &str,
    tokens: &[Token],
    said: &[Said],
) -> Result<Registration, SyntaxFault>
    ensures { IsRegistered result (deciding.registration_of text.now tokens.now said.now) }
{
    match read_query(alloc, said) {
        Ok((registration, rest)) => whole(alloc, text, tokens, registration, rest),
        Err(Halt::Wrong(left)) => Err(wrong(alloc, text, tokens, left)),
        Err(Halt::OutOfMemory) => Err(SyntaxFault::OutOfMemory),
    }
}

fn whole(
    alloc: Global,
    text: &str,
    tokens: &[Token],
    registration: Registration,
    rest: &[Said],
) -> Result<Registration, SyntaxFault>
    ensures { IsRegistered result (deciding.whole text.now tokens.now (Ok (written_of registration, rest.now))) }
{
    match rest {
        [] => Ok(registration),
        [_, behind @ ..] => Err(wrong(alloc, text, tokens, behind.len() + 1)),
    }
}

// the fault where so many tokens are left from the first wrong one
fn wrong(alloc: Global, text: &str, tokens: &[Token], left: usize) -> SyntaxFault
    ensures { IsFault result (parsing.wrong text.now tokens.now left) }
{
    let (_, rest) = tokens.split_at(tokens.len().saturating_sub(left));
    match rest.first() {
        None => SyntaxFault::Syntax { at: text.len() },
        Some(token) => wrong_token(alloc, text, *token),
    }
}

fn wrong_token(alloc: Global, text: &str, token: Token) -> SyntaxFault
    ensures { IsFault result (parsing.wrong_token text.now token) }
{
    let at = token.start;
    let Ok(found) = text_of(text, token) else {
        return SyntaxFault::OutOfMemory;
    };
    if !is_left_out(token.kind, found) {
        return SyntaxFault::Syntax { at };
    }
    match Text::new(alloc, found) {
        Ok(what) => SyntaxFault::LeftOut { at, what },
        Err(_) => SyntaxFault::OutOfMemory,
    }
}
