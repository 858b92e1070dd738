// Reading whole queries.
ghost use Rattle.std.specs.Prelude.{◌≡◌, ◌++◌, List};
ghost use Rattle.rsp_read_queries.specs.Says.{Says};
ghost use Rattle.rsp_written.specs.Gives.{Gives};
ghost use Rattle.rsp_written.specs.declared.said.Said as said;
ghost use Rattle.rsp_written.specs.Grammar.{query};
ghost use Rattle.rsp_written.specs.GroupMeanings.{written_of};
ghost use Rattle.rsp_written.specs.GroupReadings as readings;

use crate::groups::group;
use crate::selects::{Clause, Tail, modifiers, select_clause};
use rsp_read_expressions::maybe_word;
use rsp_read_registrations::{Registered, all_windows, prefixes_of, registered_as, resolve};
use rsp_written::{Halt, Keyword, Registration, Said, Select};
use std::alloc::Global;

// what stands behind the prefixes
#[tactic(auto, unfolding(rsp_written::specs::GroupReadings::query_body_read, rsp_written::specs::GroupReadings::maybe_where_read))]
fn registration(alloc: Global, tokens: &[Said]) -> Result<(Registration, &[Said]), Halt>
    ensures { Gives (λ x. (written_of x.0, x.1.now)) result (readings.query_body_read tokens.now) }
{
    let (registered, rest) = registered_as(alloc, tokens)?;
    let (clause, rest) = select_clause(alloc, rest)?;
    let (windows, rest) = all_windows(alloc, rest)?;
    let (_, rest) = maybe_word(Keyword::Where, rest)?;
    let (body, rest) = group(alloc, rest)?;
    let (tail, rest) = modifiers(alloc, rest)?;
    let Registered {
        operator,
        output,
        policy,
    } = registered;
    let Clause {
        distinct,
        projection,
    } = clause;
    let Tail { keys, having } = tail;
    let select = Select {
        distinct,
        projection,
        body,
        keys,
        having,
    };
    let registration = Registration {
        operator,
        output,
        policy,
        windows,
        select,
    };
    Ok((registration, rest))
}

// a query, and the tokens behind it
#[tactic(auto, unfolding(rsp_written::specs::GroupReadings::query_read))]
fn exact_query(alloc: Global, tokens: &[Said]) -> Result<(Registration, &[Said]), Halt>
    ensures { Gives (λ x. (written_of x.0, x.1.now)) result (readings.query_read tokens.now) }
{
    let (prefixes, rest) = prefixes_of(alloc, tokens)?;
    let said = resolve(alloc, &prefixes, rest)?;
    let (registration, behind) = registration(alloc, &said)?;
    let (_, left) = rest.split_at(rest.len().saturating_sub(behind.len()));
    Ok((registration, left))
}

/// The query that begins the tokens, as it is written, and the tokens behind it. Where no query begins them, how many tokens
/// are left from the first one that can't stand; none where the text is unfinished.
pub fn read_query(alloc: Global, tokens: &[Said]) -> Result<(Registration, &[Said]), Halt>
    ensures grammar { Says (λ x. (written_of x.0, x.1.now)) query tokens.now result }
    ensures value { Gives (λ x. (written_of x.0, x.1.now)) result (readings.query_read tokens.now) }
    // what some expansion passes, it passes from the first token on
    ensures fronts { (ts us : List said.Said) → query.front (ts ++ us) → query.front ts }
{
    exact_query(alloc, tokens)
}
