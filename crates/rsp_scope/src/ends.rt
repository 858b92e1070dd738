// When the kept items end.
ghost use Rattle.std.specs.Prelude.{◌≡◌, ◌-◌, ◌<◌, ◌≤◌, true, length, slice_index_or};
ghost use Rattle.rsp_scope.specs.Runs.{ending_of};
ghost use Rattle.rsp_scope.specs.declared.ends.Ending.{Ending};

use crate::Item;
use std::alloc::{AllocError, Global};
use std::collections::VecDeque;
use std::marker::Model;

/// The end of an item, and how many triples it has, as listed.
#[derive(Clone, Copy)]
pub(crate) struct Ending {
    pub end: u64,
    pub triples: u64,
}

/// Endings, each not before the one in front of it. It grows at both ends.
#[derive(Drop)]
pub(crate) struct Run {
    triples: u64,
    rising: VecDeque<Ending, Global>,
}

impl Model for Run {
    ghost use Rattle.std.specs.Prelude.{List};
    ghost use Rattle.rsp_scope.specs.Runs.{IsRun, run_of};
    ghost use Rattle.rsp_scope.specs.declared.ends.Ending.{Ending};

    ghost Value = { List Ending };

    ghost view = { run_of };

    ghost invariant = { IsRun };
}

impl Run {
    ghost use Rattle.std.specs.Prelude.{◌≡◌, ◌==◌, ◌+◌, ◌-◌, ◌++◌, ◌∷◌, ◌<◌, ◌≤◌, ℕ, [], true, cond, IfOk, OnErr, OnOk, drop};
    ghost use Rattle.std.specs.Prelude.{length, min, slice_index_or, sum_by};
    ghost use Rattle.rsp_scope.specs.Kept.{triples_of};
    ghost use Rattle.rsp_scope.specs.Runs.{ending_of, over_items, reaching, triples_in};
    ghost use Rattle.rsp_scope.specs.declared.ends.Ending.{Ending};
    ghost use Rattle.rsp_scope.specs.declared.item.Item.{Item};

    /// The run of one ending. Fails only where memory is refused.
    pub(crate) fn starting(alloc: Global, ending: Ending) -> Result<Run, AllocError>
        ensures { IfOk result (λ run. run ≡ ending ∷ []) }
    {
        let mut rising = VecDeque::new(alloc);
        rising.push_back(ending)?;
        Ok(Run {
            triples: ending.triples,
            rising,
        })
    }

    /// Puts the ending last, unless the last one is later, and else first, unless the first one is earlier. Gives whether it
    /// did either. Fails only where memory is refused.
    pub(crate) fn put(&mut self, ending: Ending) -> Result<bool, AllocError>
        ensures ok { IfOk result (λ done. (f : Ending → ℕ) → sum_by f self.new ≡ sum_by f self.old + cond done (f ending) 0) }
        ensures err { OnErr result (self.new ≡ self.old) }
    {
        if self.ends_by(ending.end) {
            self.put_last(ending)?;
            return Ok(true);
        }
        if self.begins_from(ending.end) {
            self.put_first(ending)?;
            return Ok(true);
        }
        Ok(false)
    }

    fn put_last(&mut self, ending: Ending) -> Result<(), AllocError>
        requires { (d : Ending) → 0 < length self.old → (slice_index_or self.old (length self.old - 1) d).end ≤ ending.end }
        ensures ok { OnOk result (self.new ≡ self.old ++ ending ∷ []) }
        ensures err { OnErr result (self.new ≡ self.old) }
    {
        let Some(triples) = self.triples.checked_add(ending.triples) else {
            return Err(AllocError);
        };
        self.rising.push_back(ending)?;
        self.triples = triples;
        Ok(())
    }

    fn put_first(&mut self, ending: Ending) -> Result<(), AllocError>
        requires { (d : Ending) → 0 < length self.old → ending.end ≤ (slice_index_or self.old 0 d).end }
        ensures ok { OnOk result (self.new ≡ ending ∷ self.old) }
        ensures err { OnErr result (self.new ≡ self.old) }
    {
        let Some(triples) = self.triples.checked_add(ending.triples) else {
            return Err(AllocError);
        };
        self.rising.push_front(ending)?;
        self.triples = triples;
        Ok(())
    }

    /// Whether no ending is after `end`.
    pub(crate) fn ends_by(&self, end: u64) -> bool
        ensures { result ≡ true → (d : Ending) → 0 < length self.now
            → (slice_index_or self.now (length self.now - 1) d).end ≤ end }
    {
        ends_by(&self.rising, end)
    }

    /// Whether no ending is before `end`.
    pub(crate) fn begins_from(&self, end: u64) -> bool
        ensures { result ≡ true → (d : Ending) → 0 < length self.now → end ≤ (slice_index_or self.now 0 d).end }
    {
        begins_from(&self.rising, end)
    }

    /// Lets go of the endings before `next`. They stand in front.
    pub(crate) fn drop_before(&mut self, next: u64)
        ensures { self.new ≡ reaching next self.old }
    {
        while let Some(front) = self.rising.front() {
            if next <= front.end {
                break;
            }
            self.triples -= front.triples;
            let _ = self.rising.pop_front();
        }
    }

    /// The triples of the endings at `next` or later. Looks at the others alone.
    pub(crate) fn triples_from(&self, next: u64) -> u64
        ensures { result ≡ triples_in (reaching next self.now) }
    {
        let mut triples = self.triples;
        for at in 0..self.rising.len() {
            let ending = self.rising[at];
            if next <= ending.end {
                break;
            }
            triples -= ending.triples;
        }
        triples
    }

    pub(crate) fn is_empty(&self) -> bool
        ensures { result ≡ (length self.now == 0) }
    {
        self.rising.is_empty()
    }

    pub(crate) fn len(&self) -> usize
        ensures { result ≡ length self.now }
    {
        self.rising.len()
    }

    /// Holds the endings of items in place of its own: of as many, from the index `start` on. Gives the index behind them.
    /// Takes no memory. All items together have at most `most` triples.
    pub(crate) fn refill(
        &mut self,
        items: &VecDeque<Item, Global>,
        start: usize,
        most: u64,
    ) -> usize
        requires start { start ≤ length items.now.items }
        requires few { triples_of items.now.items ≤ most }
        ensures behind { result ≡ min (start + length self.old) (length items.now.items) }
        ensures same { (f : Ending → ℕ) → sum_by f self.new + over_items f (drop result items.now.items)
            ≡ over_items f (drop start items.now.items) }
    {
        let room = self.rising.len();
        let behind = start + room.min(items.len() - start);
        self.rising.clear();
        self.triples = 0;
        for at in start..behind {
            let ending = ending_of(&items[at]);
            self.triples += ending.triples;
            self.rising.push_back_reserved(ending);
        }
        self.rising
            .make_contiguous()
            .sort_unstable_by_key(|ending: &Ending| ending.end);
        behind
    }
}

/// When the item ends, and with how many triples.
pub(crate) fn ending_of(item: &Item) -> Ending
    ensures { result ≡ ending_of item.now }
{
    Ending {
        end: item.end,
        triples: item.graph.get().as_slice().len() as u64,
    }
}

// whether the last ending isn't after `end`
fn ends_by(rising: &VecDeque<Ending, Global>, end: u64) -> bool
    ensures { result ≡ true → (d : Ending) → 0 < length rising.now.items
        → (slice_index_or rising.now.items (length rising.now.items - 1) d).end ≤ end }
{
    match rising.back() {
        Some(last) => last.end <= end,
        None => true,
    }
}

// whether the first ending isn't before `end`
fn begins_from(rising: &VecDeque<Ending, Global>, end: u64) -> bool
    ensures { result ≡ true → (d : Ending) → 0 < length rising.now.items → end ≤ (slice_index_or rising.now.items 0 d).end }
{
    match rising.front() {
        Some(first) => end <= first.end,
        None => true,
    }
}
