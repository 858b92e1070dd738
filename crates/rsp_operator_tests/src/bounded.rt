// Operators with a bound.
ghost use Rattle.std.specs.Prelude.{◌≡◌, Some, IfOk};

use crate::conditions::Always;
use crate::notation::{Told, answers, goes_on, turns_out};
use crate::trials::{bounded_join, bounded_left_join};
use rsp_joins::{Compatible, JoinOp};
use rsp_multiset::{Changes, Row};
use rsp_operators::{Binary, Pairing};
use rsp_outer::{CompatibleWhere, LeftJoinOp};
use rsp_steps::Steps;
use rsp_terms::{Same, Term};
use rsp_trials::{BinaryTrial, Refused};
use std::alloc::{AllocError, Global};
use std::sync::ledger::Ledger;
use std::test::Fail;

/// An operator that gives up where more rows come than may, and says so.
#[derive(Drop)]
pub(crate) struct Bounded<B> {
    pub(crate) operator: B,
    pub(crate) most: u64,
    pub(crate) full: bool,
}

/// An operator that tells whether it gave up.
pub(crate) trait GivesUp: Binary<Same> + Drop {
    /// Whether more rows came than may.
    fn has_given_up(&self) -> bool;
}

impl GivesUp for Bounded<JoinOp<Same, Compatible>> {
    fn has_given_up(&self) -> bool {
        self.full
    }
}

impl<P: Pairing<Same> + Drop> GivesUp for Bounded<LeftJoinOp<Same, P>> {
    fn has_given_up(&self) -> bool {
        self.full
    }
}

// the answer, or that there is none
fn told(
    answer: Option<Changes<Row<Term>>>,
    full: &mut bool,
) -> Result<Changes<Row<Term>>, AllocError>
    ensures { IfOk result (λ net. answer ≡ Some net) }
{
    if let Some(net) = answer {
        return Ok(net);
    }
    *full = true;
    Err(AllocError)
}

impl Binary<Same> for Bounded<JoinOp<Same, Compatible>> {
    ghost width = { λ bounded. ⟦<JoinOp<Same, Compatible> as Binary<Same>>⟧.width bounded.operator };

    ghost key = { λ bounded. ⟦<JoinOp<Same, Compatible> as Binary<Same>>⟧.key bounded.operator };

    ghost factor = { λ bounded. ⟦<JoinOp<Same, Compatible> as Binary<Same>>⟧.factor bounded.operator };

    ghost value = { λ bounded. ⟦<JoinOp<Same, Compatible> as Binary<Same>>⟧.value bounded.operator };

    ghost stands = { λ bounded. ⟦<JoinOp<Same, Compatible> as Binary<Same>>⟧.stands bounded.operator };

    ghost kept = { λ bounded. ⟦<JoinOp<Same, Compatible> as Binary<Same>>⟧.kept bounded.operator };

    ghost carried = { λ bounded before after lefts rights alike stands. stands };

    fn apply<L: Ledger>(
        &mut self,
        alloc: Global,
        left: &Changes<Row<Term>>,
        right: &Changes<Row<Term>>,
        domain: &mut Same,
        steps: &mut Steps<L>,
    ) -> Result<Changes<Row<Term>>, AllocError> {
        let answer = self
            .operator
            .apply_within(alloc, left, right, domain, steps, self.most)?;
        told(answer, &mut self.full)
    }
}

impl<P: Pairing<Same>> Binary<Same> for Bounded<LeftJoinOp<Same, P>> {
    ghost width = { λ bounded. ⟦<LeftJoinOp<Same, P> as Binary<Same>>⟧.width bounded.operator };

    ghost key = { λ bounded. ⟦<LeftJoinOp<Same, P> as Binary<Same>>⟧.key bounded.operator };

    ghost factor = { λ bounded. ⟦<LeftJoinOp<Same, P> as Binary<Same>>⟧.factor bounded.operator };

    ghost value = { λ bounded. ⟦<LeftJoinOp<Same, P> as Binary<Same>>⟧.value bounded.operator };

    ghost stands = { λ bounded. ⟦<LeftJoinOp<Same, P> as Binary<Same>>⟧.stands bounded.operator };

    ghost kept = { λ bounded. ⟦<LeftJoinOp<Same, P> as Binary<Same>>⟧.kept bounded.operator };

    ghost carried = { λ bounded before after lefts rights alike stands. stands };

    fn apply<L: Ledger>(
        &mut self,
        alloc: Global,
        left: &Changes<Row<Term>>,
        right: &Changes<Row<Term>>,
        domain: &mut Same,
        steps: &mut Steps<L>,
    ) -> Result<Changes<Row<Term>>, AllocError> {
        let answer = self
            .operator
            .apply_within(alloc, left, right, domain, steps, self.most)?;
        told(answer, &mut self.full)
    }
}

// whether it answers as the turns tell, and gives up at the last one, since more pairs came than may
fn gives_up<O: GivesUp>(
    alloc: Global,
    mut trial: BinaryTrial<O>,
    turns: &str,
    last: &str,
) -> Result<bool, Refused> {
    gives_up_at(alloc, &mut trial, turns, last)
}

fn gives_up_at<O: GivesUp>(
    alloc: Global,
    trial: &mut BinaryTrial<O>,
    turns: &str,
    last: &str,
) -> Result<bool, Refused> {
    if !goes_on(alloc, trial, Told::Answered, turns)? {
        return Ok(false);
    }
    let given_up = answers(alloc, trial, Told::Answered, last).is_err();
    Ok(given_up && trial.operator().has_given_up())
}

// two rows against two without a key make four pairs, of which two fall together
const FOUR: &str = "1__ ___|12_ 13_|2*12_ 2*13_";

// pairs that stay are not counted, and those that go make no room: it is what comes in a call
const ONE_A_CALL: &str = "12_|1__|12_
22_|2__|22_
-1*12_|3__|-1*12_";

const TWO_IN_A_CALL: &str = "-1*22_ 31_ 32_||";

// rows without a partner are no pairs
const BARE: &str = "12_ 22_||12_ 22_";

fn join_goes_on(alloc: Global, key: &[usize], most: u64, turns: &str) -> Result<bool, Refused> {
    turns_out(
        alloc,
        bounded_join(alloc, key, most)?,
        Told::Answered,
        turns,
    )
}

fn join_gives_up(
    alloc: Global,
    key: &[usize],
    most: u64,
    turns: &str,
    last: &str,
) -> Result<bool, Refused> {
    gives_up(alloc, bounded_join(alloc, key, most)?, turns, last)
}

#[test]
fn a_join_gives_up_where_more_pairs_come(rt: HostRuntime) -> Result<(), Fail> {
    assert!(rt; join_goes_on(rt.alloc(), &[], 4, FOUR)?);
    assert!(rt; join_gives_up(rt.alloc(), &[], 3, "", FOUR)?);
    assert!(rt; join_goes_on(rt.alloc(), &[0], 1, ONE_A_CALL)?);
    assert!(rt; join_gives_up(rt.alloc(), &[0], 1, ONE_A_CALL, TWO_IN_A_CALL)?);
    Ok(())
}

fn compatible(alloc: Global, key: &[usize]) -> Result<CompatibleWhere<Always>, AllocError> {
    Ok(CompatibleWhere::new(Vec::from_slice(alloc, key)?, Always {}))
}

fn left_join_goes_on(
    alloc: Global,
    key: &[usize],
    most: u64,
    turns: &str,
) -> Result<bool, Refused> {
    let trial = bounded_left_join(alloc, compatible(alloc, key)?, most)?;
    turns_out(alloc, trial, Told::Answered, turns)
}

fn left_join_gives_up(
    alloc: Global,
    key: &[usize],
    most: u64,
    turns: &str,
    last: &str,
) -> Result<bool, Refused> {
    let trial = bounded_left_join(alloc, compatible(alloc, key)?, most)?;
    gives_up(alloc, trial, turns, last)
}

#[test]
fn an_outer_join_gives_up_where_more_pairs_come(rt: HostRuntime) -> Result<(), Fail> {
    assert!(rt; left_join_goes_on(rt.alloc(), &[], 4, FOUR)?);
    assert!(rt; left_join_gives_up(rt.alloc(), &[], 3, "", FOUR)?);
    assert!(rt; left_join_goes_on(rt.alloc(), &[0], 1, ONE_A_CALL)?);
    assert!(rt; left_join_gives_up(rt.alloc(), &[0], 1, ONE_A_CALL, TWO_IN_A_CALL)?);
    assert!(rt; left_join_goes_on(rt.alloc(), &[0], 1, BARE)?);
    Ok(())
}
