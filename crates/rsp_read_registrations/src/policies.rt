// Reading policies.
ghost use Rattle.std.specs.Prelude.{◌≡◌, map};
ghost use Rattle.rsp_phrases.specs.Gathering.{as_read, gathered, single};
ghost use Rattle.rsp_phrases.specs.Readers.{second_read, starts};
ghost use Rattle.rsp_written.specs.Gives.{Gives};
ghost use Rattle.rsp_written.specs.Grammar.{kind_number, numbers, plain_strategies, profiles, ticks};
ghost use Rattle.rsp_written.specs.GroupMeanings.{policy_of, strategy_of};
ghost use Rattle.rsp_written.specs.Readings.{one_read, repeated_read, word_kinds, word_read};
ghost use Rattle.rsp_written.specs.GroupReadings as readings;
ghost use Rattle.rsp_written.specs.declared.said.Keyword.TheVariants as keyword;

use crate::windows::span;
use rsp_written::{
    Halt, Keyword, Kind, Policy, Said, Strategy, first_is, first_is_among, one, word,
};
use std::alloc::Global;

fn begins_plain_strategy(tokens: &[Said]) -> bool
    ensures { result ≡ starts kind_number (numbers plain_strategies) tokens.now }
{
    let close = Kind::Word(Keyword::Close);
    let change = Kind::Word(Keyword::Change);
    first_is_among(&[close, change, Kind::Word(Keyword::NonEmpty)], tokens)
}

fn plain_strategy(tokens: &[Said]) -> Result<(&Said, &[Said]), Halt>
    ensures { Gives (λ x. (x.0.now, x.1.now)) result (one_read plain_strategies tokens.now) }
{
    let close = Kind::Word(Keyword::Close);
    let change = Kind::Word(Keyword::Change);
    one(&[close, change, Kind::Word(Keyword::NonEmpty)], tokens)
}

#[tactic(auto, unfolding(rsp_written::specs::GroupReadings::strategy_read))]
fn strategy(tokens: &[Said]) -> Result<(Strategy, &[Said]), Halt>
    ensures { Gives (λ x. (strategy_of x.0, x.1.now)) result (readings.strategy_read tokens.now) }
{
    if begins_plain_strategy(tokens) {
        let (said, rest) = plain_strategy(tokens)?;
        let strategy = Strategy {
            kind: said.kind,
            period: None,
        };
        return Ok((strategy, rest));
    }
    let (_, rest) = word(Keyword::Every, tokens)?;
    let (period, rest) = span(rest)?;
    let strategy = Strategy {
        kind: Kind::Word(Keyword::Every),
        period: Some(period),
    };
    Ok((strategy, rest))
}

fn another_strategy(
    before: Vec<Strategy>,
    tokens: &[Said],
) -> Result<(Vec<Strategy>, &[Said]), Halt>
    ensures { Gives (λ x. (map strategy_of x.0.items, x.1.now)) result
        (gathered single (map strategy_of before.items) (second_read (word_read keyword.And) readings.strategy_read tokens.now)) }
{
    let (_, rest) = word(Keyword::And, tokens)?;
    let (strategy, rest) = strategy(rest)?;
    let mut strategies = before;
    strategies.push(strategy)?;
    Ok((strategies, rest))
}

// AND and a strategy, as often as they stand here
fn more_strategies(before: Vec<Strategy>, tokens: &[Said]) -> Result<(Vec<Strategy>, &[Said]), Halt>
    ensures { Gives (λ x. (map strategy_of x.0.items, x.1.now)) result
        (gathered as_read (map strategy_of before.items)
        (repeated_read (word_kinds keyword.And) (second_read (word_read keyword.And) readings.strategy_read) tokens.now)) }
{
    let mut strategies = before;
    let mut rest = tokens;
    for _ in 0..tokens.len() {
        if !first_is(Kind::Word(Keyword::And), rest) {
            return Ok((strategies, rest));
        }
        let (more, behind) = another_strategy(strategies, rest)?;
        strategies = more;
        rest = behind;
    }
    Ok((strategies, rest))
}

fn tick(tokens: &[Said]) -> Result<(&Said, &[Said]), Halt>
    ensures { Gives (λ x. (x.0.now, x.1.now)) result (one_read ticks tokens.now) }
{
    one(
        &[Kind::Word(Keyword::Time), Kind::Word(Keyword::Tuple)],
        tokens,
    )
}

#[tactic(auto, unfolding(rsp_written::specs::GroupReadings::reported_read))]
fn reported(alloc: Global, tokens: &[Said]) -> Result<(Policy, &[Said]), Halt>
    ensures { Gives (λ x. (policy_of x.0, x.1.now)) result (readings.reported_read tokens.now) }
{
    let (_, rest) = word(Keyword::Report, tokens)?;
    let (first, rest) = strategy(rest)?;
    let mut strategies = Vec::new(alloc);
    strategies.push(first)?;
    let (strategies, rest) = more_strategies(strategies, rest)?;
    let (_, rest) = word(Keyword::Tick, rest)?;
    let (tick, rest) = tick(rest)?;
    let policy = Policy::Reporting {
        strategies,
        tick: tick.kind,
    };
    Ok((policy, rest))
}

fn profile(tokens: &[Said]) -> Result<(&Said, &[Said]), Halt>
    ensures { Gives (λ x. (x.0.now, x.1.now)) result (one_read profiles tokens.now) }
{
    one(
        &[Kind::Word(Keyword::Csparql), Kind::Word(Keyword::Cqels)],
        tokens,
    )
}

/// A policy.
#[tactic(auto, unfolding(rsp_written::specs::GroupReadings::policy_read))]
pub(crate) fn policy(alloc: Global, tokens: &[Said]) -> Result<(Policy, &[Said]), Halt>
    ensures { Gives (λ x. (policy_of x.0, x.1.now)) result (readings.policy_read tokens.now) }
{
    if !first_is(Kind::Word(Keyword::Under), tokens) {
        return reported(alloc, tokens);
    }
    let (_, rest) = word(Keyword::Under, tokens)?;
    let (said, rest) = profile(rest)?;
    Ok((Policy::Profile(said.kind), rest))
}

/// Whether a policy begins here.
pub(crate) fn begins_policy(tokens: &[Said]) -> bool
    ensures { result ≡ starts kind_number (numbers readings.policy_first) tokens.now }
{
    first_is_among(
        &[Kind::Word(Keyword::Under), Kind::Word(Keyword::Report)],
        tokens,
    )
}
