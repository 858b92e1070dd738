// Reading prefixes, and what tokens say under them.
ghost use Rattle.std.specs.Prelude.{◌≡◌, ℕ, List, ◌++◌, IfOk, None, Some, cond, map};
ghost use Rattle.std.specs.Str.{bytes_eq};
ghost use Rattle.indexmap.specs.IndexMap.{get};
ghost use Rattle.rsp_phrases.specs.Gathering.{gathered, single};
ghost use Rattle.rsp_phrases.specs.Readers.{token_read};
ghost use Rattle.rsp_read_registrations.specs.Heads.{declared_as, resolved_with};
ghost use Rattle.rsp_written.specs.Gives.{Gives};
ghost use Rattle.rsp_written.specs.Grammar.{declared_iri, prefix_of_kind, resolved, resolved_as};
ghost use Rattle.rsp_written.specs.Readings.{repeated_read, word_kinds};
ghost use Rattle.rsp_written.specs.GroupReadings as readings;
ghost use Rattle.rsp_written.specs.declared.said.Keyword.TheVariants as keyword;

use indexmap::IndexMap;
use rsp_terms::Text;
use rsp_written::{Halt, Keyword, Kind, Said, first_is, iri, word};
use std::alloc::{AllocError, Global};

/// A declared prefix and the IRI that stands for it.
#[derive(Drop)]
pub struct Prefix {
    pub name: Text,
    pub iri: Text,
}

// whether a token is a prefix alone
fn is_prefix(said: &Said) -> bool
    ensures { prefix_of_kind said.now.kind said.now ≡ cond result (Some said.now.text) None }
{
    match said.kind {
        Kind::Prefixed => said.local.as_str().is_empty(),
        _ => false,
    }
}

fn prefix_name(tokens: &[Said]) -> Result<(Text, &[Said]), Halt>
    ensures { Gives (λ x. (x.0, x.1.now)) result (token_read (λ said. prefix_of_kind said.kind said) tokens.now) }
{
    let Some((said, rest)) = tokens.split_first() else {
        return Err(Halt::Wrong(0));
    };
    if !is_prefix(said) {
        return Err(Halt::Wrong(tokens.len()));
    }
    Ok((said.text.share()?, rest))
}

#[tactic(auto, unfolding(rsp_written::specs::GroupReadings::prefix_read))]
fn declaration(tokens: &[Said]) -> Result<(Prefix, &[Said]), Halt>
    ensures { Gives (λ x. (declared_as x.0, x.1.now)) result (readings.prefix_read tokens.now) }
{
    let (_, rest) = word(Keyword::Prefix, tokens)?;
    let (name, rest) = prefix_name(rest)?;
    let (iri, rest) = iri(rest)?;
    Ok((Prefix { name, iri }, rest))
}

fn another_prefix(before: Vec<Prefix>, tokens: &[Said]) -> Result<(Vec<Prefix>, &[Said]), Halt>
    ensures { Gives (λ x. (map declared_as x.0.items, x.1.now)) result
        (gathered single (map declared_as before.items) (readings.prefix_read tokens.now)) }
{
    let (prefix, rest) = declaration(tokens)?;
    let mut prefixes = before;
    prefixes.push(prefix)?;
    Ok((prefixes, rest))
}

/// The prefixes, in the order of the text.
pub fn prefixes_of(alloc: Global, tokens: &[Said]) -> Result<(Vec<Prefix>, &[Said]), Halt>
    ensures { Gives (λ x. (map declared_as x.0.items, x.1.now)) result
        (repeated_read (word_kinds keyword.Prefix) readings.prefix_read tokens.now) }
{
    let mut prefixes = Vec::new(alloc);
    let mut rest = tokens;
    for _ in 0..tokens.len() {
        if !first_is(Kind::Word(Keyword::Prefix), rest) {
            return Ok((prefixes, rest));
        }
        let (more, behind) = another_prefix(prefixes, rest)?;
        prefixes = more;
        rest = behind;
    }
    Ok((prefixes, rest))
}

// the IRIs that stand for prefixes by their names, of which the last one counts
fn by_name(alloc: Global, prefixes: &[Prefix]) -> Result<IndexMap<Text, Text>, AllocError>
    ensures { IfOk result (λ iris. (x : List ℕ) → get bytes_eq iris x ≡ declared_iri (map declared_as prefixes.now) x) }
{
    let mut iris = IndexMap::new(alloc);
    for prefix in prefixes {
        let name = prefix.name.share()?;
        let iri = prefix.iri.share()?;
        iris.insert(name, iri)?;
    }
    Ok(iris)
}

// the whole IRI of a prefixed name
fn joined(alloc: Global, iri: &Text, local: &Text) -> Result<Text, AllocError>
    ensures { IfOk result (λ whole. whole ≡ iri.now ++ local.now) }
{
    let whole = format!(in alloc; "{}{}", iri.as_str(), local.as_str())?;
    Text::new(alloc, whole.as_str())
}

fn said_again(said: &Said, kind: Kind) -> Result<Said, AllocError>
    ensures { IfOk result (λ other. other
        ≡ record { kind = kind; text = said.now.text; local = said.now.local; at = said.now.at }) }
{
    let text = said.text.share()?;
    let local = said.local.share()?;
    Ok(Said {
        kind,
        text,
        local,
        at: said.at,
    })
}

fn resolved_name(
    alloc: Global,
    iris: &IndexMap<Text, Text>,
    said: &Said,
) -> Result<Said, AllocError>
    ensures { IfOk result (λ other. other ≡ resolved_as said.now (get bytes_eq iris.now said.now.text)) }
{
    match iris.get(&said.text) {
        None => said_again(said, Kind::Nowhere),
        Some(iri) => {
            let text = joined(alloc, iri, &said.local)?;
            let local = Text::new(alloc, "")?;
            Ok(Said {
                kind: Kind::Iri,
                text,
                local,
                at: said.at,
            })
        }
    }
}

fn resolved_token(
    alloc: Global,
    iris: &IndexMap<Text, Text>,
    said: &Said,
) -> Result<Said, AllocError>
    ensures { IfOk result (λ other. other ≡ resolved_with (get bytes_eq iris.now) said.now.kind said.now) }
{
    match said.kind {
        Kind::Prefixed => resolved_name(alloc, iris, said),
        _ => said_again(said, said.kind),
    }
}

fn resolved_tokens(
    alloc: Global,
    iris: &IndexMap<Text, Text>,
    tokens: &[Said],
) -> Result<Vec<Said>, AllocError>
    ensures { IfOk result (λ others. others.items
        ≡ map (λ said. resolved_with (get bytes_eq iris.now) said.kind said) tokens.now) }
{
    let mut others = Vec::new(alloc);
    for said in tokens {
        others.push(resolved_token(alloc, iris, said)?)?;
    }
    Ok(others)
}

/// The tokens with what they say under these prefixes.
pub fn resolve(alloc: Global, prefixes: &[Prefix], tokens: &[Said]) -> Result<Vec<Said>, AllocError>
    ensures { IfOk result (λ others. others.items ≡ map (resolved (map declared_as prefixes.now)) tokens.now) }
{
    let iris = by_name(alloc, prefixes)?;
    resolved_tokens(alloc, &iris, tokens)
}
