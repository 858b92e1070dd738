// From the words of a policy to what is asked.
ghost use Rattle.std.specs.Prelude.{◌≡◌, ◌↔◌, IfOk, IsErr, IsTrue};
ghost use Rattle.rsp_report.specs.Policies.{choice_of, is_mixed, same_kind};
ghost use Rattle.rsp_report.specs.Named.{asked_by, mixed_by, count_of, first_period, csparql, is_mixed_list};

use crate::words::{PolicyWords, Strategy};

/// When a query reports: all strategies that are asked for have to hold.
#[derive(Clone, Copy, PartialEq, Eq, Drop)]
pub struct Chosen {
    /// A window closes.
    pub close: bool,
    /// A content has changed.
    pub change: bool,
    /// A content isn't empty.
    pub nonempty: bool,
    /// This number of milliseconds divides the instant.
    pub period: Option<u64>,
    /// On each accepted item, in place of each instant.
    pub tuple: bool,
}

/// A strategy is named twice, or the tick is TUPLE beside CLOSE or EVERY.
#[derive(Clone, Copy, PartialEq, Eq, Debug, Drop)]
pub struct PolicyMix;

/// What the words ask. Takes no memory. `PolicyMix` exactly where a strategy is named twice, EVERY with two periods
/// too, or the tick is TUPLE beside CLOSE or EVERY.
pub fn policy(words: &PolicyWords) -> Result<Chosen, PolicyMix>
    ensures choice { IfOk result (λ chosen. chosen ≡ choice_of words.now) }
    ensures mix { IsErr result ↔ IsTrue (is_mixed words.now) }
{
    asked(words)
}

fn asked(words: &PolicyWords) -> Result<Chosen, PolicyMix>
    ensures choice { IfOk result (λ chosen. chosen ≡ asked_by words.now) }
    ensures mix { IsErr result ↔ IsTrue (mixed_by words.now) }
{
    match words {
        PolicyWords::Absent => Ok(csparql()),
        PolicyWords::Csparql => Ok(csparql()),
        PolicyWords::Cqels => Ok(Chosen {
            close: false,
            change: true,
            nonempty: false,
            period: None,
            tuple: true,
        }),
        PolicyWords::Listed { strategies, tuple } => {
            let listed = strategies.as_slice();
            if is_mixed(listed, *tuple) {
                return Err(PolicyMix);
            }
            Ok(Chosen {
                close: count_of(listed, &Strategy::Close) > 0,
                change: count_of(listed, &Strategy::Change) > 0,
                nonempty: count_of(listed, &Strategy::NonEmpty) > 0,
                period: first_period(listed),
                tuple: *tuple,
            })
        }
    }
}

fn csparql() -> Chosen
    ensures { result ≡ csparql }
{
    Chosen {
        close: true,
        change: false,
        nonempty: true,
        period: None,
        tuple: false,
    }
}

fn is_mixed(strategies: &[Strategy], tuple: bool) -> bool
    ensures { result ≡ is_mixed_list strategies.now tuple }
{
    if tuple
        && (count_of(strategies, &Strategy::Close) > 0
            || count_of(strategies, &Strategy::Every(0)) > 0)
    {
        return true;
    }
    count_of(strategies, &Strategy::Close) > 1
        || count_of(strategies, &Strategy::Change) > 1
        || count_of(strategies, &Strategy::NonEmpty) > 1
        || count_of(strategies, &Strategy::Every(0)) > 1
}

// how often a strategy is named, EVERY with any period
fn count_of(strategies: &[Strategy], kind: &Strategy) -> usize
    ensures { result ≡ count_of kind.now strategies.now }
{
    let mut count = 0;
    for strategy in strategies {
        if same_kind(kind, strategy) {
            count += 1;
        }
    }
    count
}

fn same_kind(a: &Strategy, b: &Strategy) -> bool
    ensures { result ≡ same_kind a.now b.now }
{
    match (a, b) {
        (Strategy::Close, Strategy::Close) => true,
        (Strategy::Change, Strategy::Change) => true,
        (Strategy::NonEmpty, Strategy::NonEmpty) => true,
        (Strategy::Every(_), Strategy::Every(_)) => true,
        _ => false,
    }
}

fn first_period(strategies: &[Strategy]) -> Option<u64>
    ensures { result ≡ first_period strategies.now }
{
    for strategy in strategies {
        if let Strategy::Every(period) = strategy {
            return Some(*period);
        }
    }
    None
}
