// Reading the head of a registration.
ghost use Rattle.std.specs.Prelude.{◌≡◌};
ghost use Rattle.std.specs.Option.{option_map};
ghost use Rattle.rsp_phrases.specs.Readers.{mapped_read};
ghost use Rattle.rsp_written.specs.Gives.{Gives};
ghost use Rattle.rsp_written.specs.Grammar.{operators};
ghost use Rattle.rsp_written.specs.GroupMeanings.{policy_of};
ghost use Rattle.rsp_written.specs.Readings.{maybe_read, one_read};
ghost use Rattle.rsp_written.specs.GroupReadings as readings;
ghost use Rattle.rsp_read_registrations.specs.Heads.{head_of};

use crate::policies::{begins_policy, policy};
use rsp_terms::Text;
use rsp_written::{Halt, Keyword, Kind, Policy, Said, iri, one, word};
use std::alloc::Global;

/// What stands before a SELECT.
#[derive(Drop)]
pub struct Registered {
    /// The kind of the stream operator's word.
    pub operator: Kind,
    /// The stream that the query writes to.
    pub output: Text,
    pub policy: Option<Policy>,
}

fn operator(tokens: &[Said]) -> Result<(&Said, &[Said]), Halt>
    ensures { Gives (λ x. (x.0.now, x.1.now)) result (one_read operators tokens.now) }
{
    let rstream = Kind::Word(Keyword::Rstream);
    let istream = Kind::Word(Keyword::Istream);
    one(&[rstream, istream, Kind::Word(Keyword::Dstream)], tokens)
}

fn maybe_policy(alloc: Global, tokens: &[Said]) -> Result<(Option<Policy>, &[Said]), Halt>
    ensures { Gives (λ x. (option_map policy_of x.0, x.1.now)) result
        (maybe_read readings.policy_first readings.policy_read tokens.now) }
{
    if !begins_policy(tokens) {
        return Ok((None, tokens));
    }
    let (policy, rest) = policy(alloc, tokens)?;
    Ok((Some(policy), rest))
}

/// REGISTER, up to AS.
#[tactic(auto, unfolding(rsp_written::specs::GroupReadings::registered_read))]
pub fn registered_as(alloc: Global, tokens: &[Said]) -> Result<(Registered, &[Said]), Halt>
    ensures { Gives (λ x. ((x.0.operator, (x.0.output, option_map policy_of x.0.policy)), x.1.now)) result
        (mapped_read head_of readings.registered_read tokens.now) }
{
    let (_, rest) = word(Keyword::Register, tokens)?;
    let (operator, rest) = operator(rest)?;
    let operator = operator.kind;
    let (output, rest) = iri(rest)?;
    let (policy, rest) = maybe_policy(alloc, rest)?;
    let (_, rest) = word(Keyword::As, rest)?;
    let registered = Registered {
        operator,
        output,
        policy,
    };
    Ok((registered, rest))
}
