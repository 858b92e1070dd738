// Two answers beside each other.
ghost use Rattle.std.specs.Prelude.{◌≡◌, ◌<◌};
ghost use Rattle.rsp_algebra.specs.Fitting.{IsPlaced};

use crate::facts::next_changes;
use crate::trial::Trial;
use rsp_algebra::{Answer, Translated, Turn};
use rsp_multiset::{Bag, Changes, Row};
use rsp_steps::Steps;
use rsp_terms::{Fact, Term};
use rsp_trials::{Numbers, Refused, are_same};
use std::alloc::{AllocError, Global};
use std::sync::ledger::{Blank, Ledger};

/// What two answers told of the same changes.
#[derive(Debug, PartialEq, Drop)]
pub(crate) enum Told {
    /// The same change of the solutions, of so many rows, and then the same solutions.
    Alike(usize),
    /// Each that it is overfull.
    Overfull,
    /// Not the same.
    Apart,
}

/// How far two answers went together.
#[derive(Debug, PartialEq, Drop)]
pub(crate) struct Run {
    /// How many changes they answered alike.
    pub(crate) changes: usize,
    /// How many rows their answers had in all.
    pub(crate) rows: usize,
    /// What they told at last.
    pub(crate) last: Told,
}

fn are_same_rows(first: &Bag<Term>, second: &Bag<Term>) -> bool {
    for index in 0..first.distinct() {
        let (row, times) = first.entry_at(index);
        if second.count(row) != times {
            return false;
        }
    }
    first.distinct() == second.distinct()
}

fn told_of_nets(
    alloc: Global,
    first: &Changes<Row<Term>>,
    second: &Changes<Row<Term>>,
) -> Result<Told, Refused> {
    if !are_same(alloc, first, second)? {
        return Ok(Told::Apart);
    }
    Ok(Told::Alike(first.distinct()))
}

fn told_of_turns(alloc: Global, first: &Turn, second: &Turn) -> Result<Told, Refused> {
    match (first, second) {
        (Turn::Net(first), Turn::Net(second)) => told_of_nets(alloc, first, second),
        (Turn::Overfull, Turn::Overfull) => Ok(Told::Overfull),
        _ => Ok(Told::Apart),
    }
}

/// Two answers of one query.
#[derive(Drop)]
struct Both<A: Answer, B: Answer> {
    first: Trial<A>,
    second: Trial<B>,
}

impl<A: Answer, B: Answer> Both<A, B> {
    // over no facts; None where one is overfull
    fn start(alloc: Global, query: &Translated) -> Result<Option<Both<A, B>>, AllocError>
        requires { IsPlaced query.now }
    {
        let Some(first) = Trial::start(alloc, query)? else {
            return Ok(None);
        };
        let Some(second) = Trial::start(alloc, query)? else {
            return Ok(None);
        };
        Ok(Some(Both { first, second }))
    }

    fn have_same_solutions(&self) -> Result<bool, Refused> {
        let first = self.first.solutions()?;
        let second = self.second.solutions()?;
        Ok(are_same_rows(&first, &second))
    }

    // the same where the solutions are the same too
    fn with_solutions(&self, told: Told) -> Result<Told, Refused> {
        match told {
            Told::Alike(rows) => {
                if self.have_same_solutions()? {
                    Ok(Told::Alike(rows))
                } else {
                    Ok(Told::Apart)
                }
            }
            _ => Ok(told),
        }
    }

    // what both tell of the changes
    fn told<L: Ledger>(
        &mut self,
        alloc: Global,
        changes: &Changes<Fact>,
        steps: &mut Steps<L>,
    ) -> Result<Told, Refused> {
        let turn = self.first.change(changes, steps)?;
        let other = self.second.change(changes, steps)?;
        let told = told_of_turns(alloc, &turn, &other)?;
        self.with_solutions(told)
    }

    fn told_next<L: Ledger>(
        &mut self,
        alloc: Global,
        numbers: &mut Numbers,
        steps: &mut Steps<L>,
    ) -> Result<Told, Refused> {
        let changes = next_changes(alloc, numbers, self.first.facts())?;
        self.told(alloc, &changes, steps)
    }

    // gives both so many changes, as long as they tell the same
    fn go_together<L: Ledger>(
        &mut self,
        alloc: Global,
        many: usize,
        steps: &mut Steps<L>,
    ) -> Result<Run, Refused> {
        let mut numbers = Numbers::new(1);
        let mut rows = 0usize;
        for done in 0..many {
            match self.told_next(alloc, &mut numbers, steps)? {
                Told::Alike(more) => rows = rows.saturating_add(more),
                last => {
                    return Ok(Run {
                        changes: done,
                        rows,
                        last,
                    });
                }
            }
        }
        Ok(Run {
            changes: many,
            rows,
            last: Told::Alike(0),
        })
    }
}

/// What the two answers of this query tell of these changes, which are their first.
pub(crate) fn first_told<A: Answer, B: Answer, L: Ledger>(
    alloc: Global,
    query: &Translated,
    changes: &Changes<Fact>,
    blank: Blank,
) -> Result<Option<Told>, Refused>
    requires query { IsPlaced query.now }
    requires name { blank.name ≡ L.name }
    requires parts { blank.parts ≡ L.parts }
    requires some { 0 < blank.parts }
{
    let Some(mut both) = Both::<A, B>::start(alloc, query)? else {
        return Ok(None);
    };
    let mut steps: Steps<L> = Steps::new(blank);
    Ok(Some(both.told(alloc, changes, &mut steps)?))
}

/// How far the two answers of this query go together, in so many changes at most.
pub(crate) fn run_beside<A: Answer, B: Answer, L: Ledger>(
    alloc: Global,
    query: &Translated,
    many: usize,
    blank: Blank,
) -> Result<Option<Run>, Refused>
    requires query { IsPlaced query.now }
    requires name { blank.name ≡ L.name }
    requires parts { blank.parts ≡ L.parts }
    requires some { 0 < blank.parts }
{
    let Some(mut both) = Both::<A, B>::start(alloc, query)? else {
        return Ok(None);
    };
    let mut steps: Steps<L> = Steps::new(blank);
    Ok(Some(both.go_together(alloc, many, &mut steps)?))
}
