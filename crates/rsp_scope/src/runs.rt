// Runs of endings: an ending goes behind one that isn't later, so what goes first stands in front of its run. The ends of
// one stream's items don't fall while its times rise, so there are about as many runs as streams with windows of their own.
// Where times fall, as in a buffer that is sent newest first, an ending goes in front of one that isn't earlier. A run for an
// ending is looked for by halving.
ghost use Rattle.std.specs.Prelude.{◌≡◌, ◌==◌, ◌+◌, ◌≤◌, ℕ, cond, not, IfOk, OnOk, OnErr, length};
ghost use Rattle.rsp_scope.specs.Kept.{triples_of};
ghost use Rattle.rsp_scope.specs.Runs.{from, one, over, over_items, reaching, triples};
ghost use Rattle.rsp_scope.specs.declared.ends.Ending.{Ending};
ghost use Rattle.rsp_scope.specs.declared.item.Item.{Item};

use crate::Item;
use crate::ends::{Ending, Run};
use std::alloc::{AllocError, Global};
use std::collections::VecDeque;

/// Puts the ending into a run that takes it, or else into a new one. Where memory is refused the endings stay.
pub(crate) fn put(
    alloc: Global,
    runs: &mut Vec<Run, Global>,
    ending: Ending,
) -> Result<(), AllocError>
    ensures ok { OnOk result ((f : Ending → ℕ) → over f runs.new.items ≡ over f runs.old.items + f ending) }
    ensures err { OnErr result ((f : Ending → ℕ) → over f runs.new.items ≡ over f runs.old.items) }
{
    let behind = first_ended_by(runs.as_slice(), ending.end);
    if put_at(runs, behind, ending)? {
        return Ok(());
    }
    let before = first_begun_from(runs.as_slice(), ending.end);
    if put_at(runs, before, ending)? {
        return Ok(());
    }
    runs.push(Run::starting(alloc, ending)?)?;
    Ok(())
}

// puts the ending into the run of this index, and gives whether there is one that takes it
fn put_at(runs: &mut Vec<Run, Global>, at: usize, ending: Ending) -> Result<bool, AllocError>
    ensures ok { IfOk result (λ done. (f : Ending → ℕ)
        → over f runs.new.items ≡ over f runs.old.items + cond done (f ending) 0) }
    ensures err { OnErr result ((f : Ending → ℕ) → over f runs.new.items ≡ over f runs.old.items) }
{
    if runs.len() <= at {
        return Ok(false);
    }
    runs[at].put(ending)
}

// The first run that has no ending after `end`. The last ends fall from run to run, as an ending goes behind the first one
// that isn't later and a new run ends before all others, but for runs that were filled anew: what is found is tested.
fn first_ended_by(runs: &[Run], end: u64) -> usize
    ensures { result ≤ length runs.now }
{
    runs.partition_point(|run| !run.ends_by(end))
}

// The first run that has no ending before `end`. The first ends rise from run to run, as a new run begins after all others,
// but for runs that lost some or were filled anew: what is found is tested.
fn first_begun_from(runs: &[Run], end: u64) -> usize
    ensures { result ≤ length runs.now }
{
    runs.partition_point(|run| !run.begins_from(end))
}

/// Lets go of the endings before `next`, and of the runs where none is left.
pub(crate) fn drop_before(runs: &mut Vec<Run, Global>, next: u64)
    ensures { (f : Ending → ℕ) → over f runs.new.items ≡ over (from next f) runs.old.items }
{
    runs.retain_mut(
        |run| -> bool
            ensures { (run.new ≡ reaching next run.old) × (result ≡ not (length run.new == 0)) }
        {
            run.drop_before(next);
            !run.is_empty()
        },
    );
}

/// The triples of the endings at `next` or later. All endings have at most `most`.
pub(crate) fn triples_from(runs: &[Run], next: u64, most: u64) -> u64
    requires { over triples runs.now ≤ most }
    ensures { result ≡ over (from next triples) runs.now }
{
    let mut sum = 0;
    for run in runs {
        sum += run.triples_from(next);
    }
    sum
}

/// How many endings there are, which are at most `most`.
pub(crate) fn count(runs: &[Run], most: usize) -> usize
    requires { over one runs.now ≤ most }
    ensures { result ≡ over one runs.now }
{
    let mut count = 0;
    for run in runs {
        count += run.len();
    }
    count
}

/// Holds the endings of the items in place of those that it held, which are as many at least. Takes no memory. All items
/// together have at most `most` triples.
pub(crate) fn refill(runs: &mut Vec<Run, Global>, items: &VecDeque<Item, Global>, most: u64)
    requires few { length items.now.items ≤ over one runs.old.items }
    requires light { triples_of items.now.items ≤ most }
    ensures { (f : Ending → ℕ) → over f runs.new.items ≡ over_items f items.now.items }
{
    let mut start = 0;
    for at in 0..runs.len() {
        start = runs[at].refill(items, start, most);
    }
}
