// Kept items.
use crate::ends::{Run, ending_of};
use crate::gate::Gate;
use crate::lanes::{Lane, slots_in};
use crate::peaks::first_fresh;
use crate::queue::{close_up, close_up_if_sparse, lowered, place, shorten_all};
use crate::tally::{Tally, take_in, take_none};
use crate::{Item, Shared, lanes, runs};
use indexmap::IndexMap;
use rsp_multiset::Changes;
use rsp_terms::{Fact, Listed, Text, Triple};
use std::alloc::{AllocError, Global};
use std::collections::VecDeque;
use std::marker::Model;

/// The items that are kept, in order of acceptance, and how many were accepted.
//
// Kept are the items that end at `cut` or later. What has left stands in the queue until it is more than what is kept, so
// that each walk over the queue is paid for by as many items that left.
#[derive(Drop)]
pub struct Streams {
    alloc: Global,
    accepted: u64,
    cut: u64,
    // how many items are kept, their triples and their ends
    count: usize,
    held: u64,
    ends: Vec<Run, Global>,
    items: VecDeque<Item, Global>,
    // for each stream the places of its items in the queue, each with the latest time up to there
    lanes: IndexMap<Text, Lane>,
}

impl Model for Streams {
    ghost use Rattle.rsp_scope.specs.Kept.{Kept};
    ghost use Rattle.rsp_scope.specs.Inside.{kept_of, IsStreams};

    ghost Value = { Kept };

    ghost view = { kept_of };

    ghost invariant = { IsStreams };
}

impl Streams {
    ghost use Rattle.std.specs.Prelude.{◌≡◌, ◌<◌, ◌≤◌, ◌+◌, ◌-◌, ◌^◌, ◌++◌, ◌∷◌, ℕ, false, None, [], drop, length, IfErr, OnOk};
    ghost use Rattle.std.specs.Prelude.{OnErr, slice_index_or};
    ghost use Rattle.rsp_scope.specs.Kept.{Kept, needed, shortened, taken, triples_of};
    ghost use Rattle.rsp_scope.specs.Moves.{Moves, TakesIn};
    ghost use Rattle.rsp_scope.specs.declared.item.Item.{Item};

    /// Keeps nothing; the first item gets the number 0. Takes no memory.
    pub fn new(alloc: Global) -> Streams
        ensures { result ≡ record { accepted = 0; items = [] } }
    {
        Streams {
            alloc,
            accepted: 0,
            cut: 0,
            count: 0,
            held: 0,
            ends: Vec::new(alloc),
            items: VecDeque::new(alloc),
            lanes: IndexMap::new(alloc),
        }
    }

    /// Gives the item the next number, and keeps it if it has an end. Fails where memory is refused or a number is past
    /// 2^64, and then changes nothing. Without an end it takes no memory, so only the number fails it.
    pub fn take(
        &mut self,
        stream: &Text,
        time: u64,
        graph: Vec<Triple>,
        until: Option<u64>,
    ) -> Result<(), AllocError>
        ensures ok { OnOk result (self.new ≡ taken self.old stream.now time graph.items until) }
        ensures err { OnErr result (self.new ≡ self.old) }
        ensures unkept { until ≡ None → IfErr result (λ _. self.old.accepted ≡ 2 ^ 64 - 1) }
    {
        let Some(end) = until else {
            return self.pass_by();
        };
        let item = Item {
            number: self.accepted,
            stream: stream.share()?,
            time,
            graph: Shared::new(self.alloc, Listed::from_vec(graph))?,
            end,
        };
        self.keep(item)
    }

    /// Lets go of the items that end before `next`. Takes no memory.
    pub fn drop_before(&mut self, next: u64)
        ensures { self.new ≡ record self.old { items = needed next self.old.items } }
    {
        if self.cut < next {
            self.held = runs::triples_from(self.ends.as_slice(), next, self.held);
            runs::drop_before(&mut self.ends, next);
            self.count = runs::count(self.ends.as_slice(), self.count);
            self.cut = next;
            close_up_if_sparse(&mut self.items, &mut self.lanes, next, self.count);
        }
    }

    /// Gives each item its new end, and lets go of those without one. Takes no memory.
    pub fn shorten(&mut self, untils: &[Option<u64>])
        requires { length untils.now ≡ length self.old.items }
        ensures { self.new ≡ record self.old { items = shortened self.old.items untils.now } }
    {
        close_up(&mut self.items, &mut self.lanes, self.cut);
        shorten_all(&mut self.items, untils);
        lanes::fill(&mut self.lanes, &self.items);
        self.cut = 0;
        self.count = self.items.len();
        runs::refill(&mut self.ends, &self.items, self.held);
        self.held = runs::triples_from(self.ends.as_slice(), 0, self.held);
    }

    /// Closes up what has left, so that each item is then read by its index at once. Takes no memory.
    pub fn settle(&mut self)
        ensures { self.new ≡ self.old }
    {
        close_up(&mut self.items, &mut self.lanes, self.cut);
        lanes::tidy(&mut self.lanes, &self.items);
    }

    /// How many triples the kept items have, as listed.
    pub fn held(&self) -> u64
        ensures { result ≡ triples_of self.now.items }
    {
        self.held
    }

    /// How many triples the kept items have that end at `next` or later.
    pub fn held_from(&self, next: u64) -> u64
        ensures { result ≡ triples_of (needed next self.now.items) }
    {
        runs::triples_from(self.ends.as_slice(), next, self.held)
    }

    /// How many items are kept.
    pub fn count(&self) -> usize
        ensures { result ≡ length self.now.items }
    {
        self.count
    }

    /// The time of the kept item with this index.
    pub fn time_at(&self, index: usize) -> u64
        requires { index < length self.now.items }
        ensures { (d : Item) → result ≡ (slice_index_or self.now.items index d).time }
    {
        self.item_at(index).time
    }

    /// The stream of the kept item with this index.
    pub fn stream_at(&self, index: usize) -> &Text
        requires { index < length self.now.items }
        ensures { (d : Item) → result.now ≡ (slice_index_or self.now.items index d).stream }
    {
        &self.item_at(index).stream
    }

    /// The number of the kept item with this index, in the order of acceptance.
    pub fn number_at(&self, index: usize) -> u64
        requires { index < length self.now.items }
        ensures { (d : Item) → result ≡ (slice_index_or self.now.items index d).number }
    {
        self.item_at(index).number
    }

    /// The end of the kept item with this index: the instant up to which it is needed.
    pub fn end_at(&self, index: usize) -> u64
        requires { index < length self.now.items }
        ensures { (d : Item) → result ≡ (slice_index_or self.now.items index d).end }
    {
        self.item_at(index).end
    }

    /// How many items were accepted: each has a smaller number.
    pub fn accepted(&self) -> u64
        ensures { result ≡ self.now.accepted }
    {
        self.accepted
    }

    /// Lets the kept items that pass the gate into the tally.
    pub(crate) fn feed(
        &self,
        gate: &Gate,
        tally: &mut Tally,
        change: &mut Changes<Fact>,
    ) -> Result<(), AllocError>
        ensures spot { tally.new.spot ≡ tally.old.spot }
        ensures content { OnOk result (TakesIn gate.now self.now.items tally.old.content.entries tally.new.content.entries) }
        ensures moves { OnOk result (Moves tally.old.spot tally.old.content.entries tally.new.content.entries
            tally.old.counts tally.new.counts change.old change.new) }
    {
        let Some(lane) = slots_in(&self.lanes, &gate.stream) else {
            return take_none(tally, change, gate, &self.items, self.cut);
        };
        let start = first_fresh(&self.items, lane, gate);
        take_in(tally, change, gate, &self.items, self.cut, lane, start)
    }

    // the kept item with this index
    fn item_at(&self, index: usize) -> &Item
        requires { index < length self.now.items }
        ensures { (d : Item) → result.now ≡ slice_index_or self.now.items index d }
    {
        if self.items.len() == self.count {
            return &self.items[index];
        }
        &self.items[place(&self.items, self.cut, index)]
    }

    // gives a number and keeps nothing
    fn pass_by(&mut self) -> Result<(), AllocError>
        ensures ok { OnOk result (self.new ≡ record self.old { accepted = self.old.accepted + 1 }) }
        ensures err { OnErr result (self.new ≡ self.old) }
        ensures last { IfErr result (λ _. self.old.accepted ≡ 2 ^ 64 - 1) }
    {
        let Some(accepted) = self.accepted.checked_add(1) else {
            return Err(AllocError);
        };
        self.accepted = accepted;
        Ok(())
    }

    // gives a number and keeps the item; all that can fail comes before what changes
    fn keep(&mut self, item: Item) -> Result<(), AllocError>
        requires { item.number ≡ self.old.accepted }
        ensures ok { OnOk result (self.new ≡ record { accepted = self.old.accepted + 1; items = self.old.items ++ item ∷ [] }) }
        ensures err { OnErr result (self.new ≡ self.old) }
    {
        let Some(accepted) = self.accepted.checked_add(1) else {
            return Err(AllocError);
        };
        let ending = ending_of(&item);
        let Some(held) = self.held.checked_add(ending.triples) else {
            return Err(AllocError);
        };
        self.cut = lowered(&mut self.items, &mut self.lanes, self.cut, item.end);
        self.items.reserve(1)?;
        lanes::make_place(self.alloc, &mut self.lanes, &item.stream)?;
        runs::put(self.alloc, &mut self.ends, ending)?;
        lanes::file(&mut self.lanes, &item.stream, self.items.len(), item.time);
        self.items.push_back_reserved(item);
        self.accepted = accepted;
        self.count += 1;
        self.held = held;
        Ok(())
    }
}
