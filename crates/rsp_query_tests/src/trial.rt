// Answers on trial.
ghost use Rattle.std.specs.Prelude.{◌≡◌, ◌⊎◌, ◌<◌, true, not, pos, negsuc, [], IfOk, IfSome, OnOk};
ghost use Rattle.rsp_multiset.specs.Weights.{weight};
ghost use Rattle.rsp_terms.specs.declared.statement.Fact.{Fact};
ghost use Rattle.rsp_terms.specs.Same.{fact_eq};
ghost use Rattle.rsp_algebra.specs.Changing.{is_overfull};
ghost use Rattle.rsp_algebra.specs.Fitting.{IsPlaced};
ghost use Rattle.rsp_query_tests.specs.Followed.{MayTurn};

use rsp_algebra::{Answer, Translated, Turn};
use rsp_multiset::{Bag, Changes, Count};
use rsp_steps::Steps;
use rsp_terms::{Fact, Term};
use rsp_trials::Refused;
use std::alloc::{AllocError, Global};
use std::marker::Model;
use std::sync::ledger::Ledger;

/// An answer, and the sum of the changes that it was given: each fact that is there, once.
#[derive(Drop)]
pub(crate) struct Trial<A: Answer> {
    answer: A,
    facts: Changes<Fact>,
    ready: bool,
}

impl<A: Answer> Model for Trial<A> {
    ghost use Rattle.std.specs.Prelude.{◌≡◌, true, List, ℤ};
    ghost use Rattle.rsp_terms.specs.declared.statement.Fact.{Fact};
    ghost use Rattle.rsp_query_tests.specs.Followed.{Follows};

    ghost Value = { List (Fact × ℤ) };

    ghost view = { λ t. t.facts };

    ghost invariant = { λ t. t.ready ≡ true → Follows (A.spent t.answer) (A.facts t.answer) t.facts };
}

impl<A: Answer> Trial<A> {
    /// The answer of this query over no facts; None where it is overfull.
    pub(crate) fn start(alloc: Global, query: &Translated) -> Result<Option<Trial<A>>, AllocError>
        requires { IsPlaced query.now }
        ensures { IfOk result (λ trial. IfSome trial (λ trial. trial ≡ [])) }
    {
        let Some(answer) = A::start(alloc, query)? else {
            return Ok(None);
        };
        Ok(Some(Trial {
            answer,
            facts: Changes::new(alloc),
            ready: true,
        }))
    }

    /// Gives the answer the changes, and tells what it makes of them. Refuses a fact that comes where it is, or goes where it
    /// isn't, and each change after the answer was overfull.
    pub(crate) fn change<L: Ledger>(
        &mut self,
        changes: &Changes<Fact>,
        steps: &mut Steps<L>,
    ) -> Result<Turn, Refused> {
        if !self.ready {
            return Err(Refused::GaveUp);
        }
        check(&self.facts, changes)?;
        self.ready = false;
        self.facts.add_changes(changes)?;
        let turn = self.answer.change(changes, steps)?;
        self.ready = is_net(&turn);
        Ok(turn)
    }

    /// The solutions.
    pub(crate) fn solutions(&self) -> Result<Bag<Term>, Refused> {
        if !self.ready {
            return Err(Refused::GaveUp);
        }
        Ok(self.answer.solutions()?)
    }

    /// The facts that are there.
    pub(crate) fn facts(&self) -> &Changes<Fact> {
        &self.facts
    }
}

fn is_net(turn: &Turn) -> bool
    ensures { result ≡ not (is_overfull turn.now) }
{
    match turn {
        Turn::Net(_) => true,
        Turn::Overfull => false,
    }
}

// looks whether each fact comes where it isn't, or goes where it is
fn check(facts: &Changes<Fact>, changes: &Changes<Fact>) -> Result<(), Refused>
    ensures { OnOk result (MayTurn facts.now changes.now) }
{
    for index in 0..changes.distinct() {
        let (fact, _) = changes.counted_at(index);
        if !turns(facts.count(fact), changes.count(fact)) {
            return Err(Refused::Missing);
        }
    }
    Ok(())
}

fn turns(held: Count, by: Count) -> bool
    ensures { result ≡ true → ((by ≡ pos 1) × (held ≡ pos 0)) ⊎ ((by ≡ negsuc 0) × (held ≡ pos 1)) }
{
    match by.value() {
        1 => held.value() == 0,
        -1 => held.value() == 1,
        _ => false,
    }
}
