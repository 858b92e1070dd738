// A window's content, and how often it lists each fact.
ghost use Rattle.std.specs.Prelude.{◌≡◌, ◌<◌, ◌≤◌, ◌&&◌, ℕ, nat_le, ℤ, pos, negsuc, ◌+ℤ◌, [], false, true, drop, filter};
ghost use Rattle.std.specs.Prelude.{length, slice_index_or, IfOk, OnOk};
ghost use Rattle.rsp_multiset.specs.Weights.{sum_z, only, weight};
ghost use Rattle.rsp_terms.specs.declared.statement.Fact.{Fact};
ghost use Rattle.rsp_terms.specs.Same.{fact_eq};
ghost use Rattle.rsp_scope.specs.Contents.{fact_in, facts_in};
ghost use Rattle.rsp_scope.specs.Moves.{Moves, Placed, TakesIn, Tells, counted_by, enters, is_after, is_fresh, placed_as};
ghost use Rattle.rsp_scope.specs.Kept.{needed};
ghost use Rattle.rsp_scope.specs.Lanes.{AreStale, slots_of};
ghost use Rattle.rsp_scope.specs.declared.item.Item.{Item};

use crate::counting::count_by;
use crate::gate::{Gate, is_after, passes};
use crate::lanes::Slot;
use crate::{Item, Shared};
use rsp_multiset::{Changes, Count};
use rsp_terms::{Fact, Listed, Spot, Triple};
use std::alloc::{AllocError, Global};
use std::collections::{BTreeMap, VecDeque};

/// The graphs of a content, by time and number, and how often they list each fact of the window.
#[derive(Drop)]
pub(crate) struct Tally {
    pub spot: u32,
    pub content: BTreeMap<(u64, u64), Shared<Listed<Triple>>, Global>,
    pub counts: Changes<Fact>,
}

/// Lets go of the items whose time isn't after the opening.
pub(crate) fn let_go(
    tally: &mut Tally,
    change: &mut Changes<Fact>,
    opening: Option<u64>,
) -> Result<(), AllocError>
    ensures spot { tally.new.spot ≡ tally.old.spot }
    ensures left { OnOk result (tally.new.content.entries
        ≡ filter (λ (e : Placed). is_after opening e.0.0) tally.old.content.entries) }
    ensures moves { OnOk result (Moves tally.old.spot tally.old.content.entries tally.new.content.entries
        tally.old.counts tally.new.counts change.old change.new) }
{
    while first_leaves(&tally.content, opening) {
        leave_first(tally, change)?;
    }
    Ok(())
}

// the times rise, so the first item alone tells
fn first_leaves(
    content: &BTreeMap<(u64, u64), Shared<Listed<Triple>>, Global>,
    opening: Option<u64>,
) -> bool
    ensures leaves { result ≡ true → (0 < length content.now.entries)
        × (filter (λ (e : Placed). is_after opening e.0.0) (drop 1 content.now.entries)
        ≡ filter (λ (e : Placed). is_after opening e.0.0) content.now.entries) }
    ensures stays { result ≡ false → filter (λ (e : Placed). is_after opening e.0.0) content.now.entries ≡ content.now.entries }
{
    match content.first_key_value() {
        Some((place, _)) => !is_after(opening, place.0),
        None => false,
    }
}

fn leave_first(tally: &mut Tally, change: &mut Changes<Fact>) -> Result<(), AllocError>
    ensures spot { tally.new.spot ≡ tally.old.spot }
    ensures rest { tally.new.content.entries ≡ drop 1 tally.old.content.entries }
    ensures moves { OnOk result (Moves tally.old.spot tally.old.content.entries tally.new.content.entries
        tally.old.counts tally.new.counts change.old change.new) }
{
    let Some((_, graph)) = tally.content.pop_first() else {
        return Ok(());
    };
    count_less(tally.spot, &mut tally.counts, change, &graph)?;
    Ok(())
}

/// Takes in the items of the lane that end at `cut` or later and pass the gate. Those before the index `start` aren't fresh.
pub(crate) fn take_in(
    tally: &mut Tally,
    change: &mut Changes<Fact>,
    gate: &Gate,
    items: &VecDeque<Item, Global>,
    cut: u64,
    lane: &VecDeque<Slot, Global>,
    start: usize,
) -> Result<(), AllocError>
    requires lane { lane.now.items ≡ slots_of gate.now.stream 0 0 items.now.items }
    requires bound { start ≤ length lane.now.items }
    requires stale { AreStale gate.now items.now.items start }
    ensures spot { tally.new.spot ≡ tally.old.spot }
    ensures content { OnOk result (TakesIn gate.now (needed cut items.now.items)
        tally.old.content.entries tally.new.content.entries) }
    ensures moves { OnOk result (Moves tally.old.spot tally.old.content.entries tally.new.content.entries
        tally.old.counts tally.new.counts change.old change.new) }
{
    for index in start..lane.len() {
        take_one(tally, change, gate, &items[lane[index].place], cut)?;
    }
    Ok(())
}

/// Takes in nothing, where the stream has no lane.
pub(crate) fn take_none(
    tally: &mut Tally,
    change: &mut Changes<Fact>,
    gate: &Gate,
    items: &VecDeque<Item, Global>,
    cut: u64,
) -> Result<(), AllocError>
    requires { slots_of gate.now.stream 0 0 items.now.items ≡ [] }
    ensures spot { tally.new.spot ≡ tally.old.spot }
    ensures content { OnOk result (TakesIn gate.now (needed cut items.now.items)
        tally.old.content.entries tally.new.content.entries) }
    ensures moves { OnOk result (Moves tally.old.spot tally.old.content.entries tally.new.content.entries
        tally.old.counts tally.new.counts change.old change.new) }
{
    Ok(())
}

fn take_one(
    tally: &mut Tally,
    change: &mut Changes<Fact>,
    gate: &Gate,
    item: &Item,
    cut: u64,
) -> Result<(), AllocError>
    ensures spot { tally.new.spot ≡ tally.old.spot }
    ensures content { OnOk result ((f : Placed → ℤ) → sum_z f tally.new.content.entries
        ≡ sum_z f tally.old.content.entries
        +ℤ only (nat_le cut item.now.end && enters gate.now item.now) (f (placed_as item.now))) }
    ensures moves { OnOk result (Moves tally.old.spot tally.old.content.entries tally.new.content.entries
        tally.old.counts tally.new.counts change.old change.new) }
{
    if passes(gate, cut, item) {
        enter(tally, change, item)?;
    }
    Ok(())
}

fn enter(tally: &mut Tally, change: &mut Changes<Fact>, item: &Item) -> Result<(), AllocError>
    ensures spot { tally.new.spot ≡ tally.old.spot }
    ensures content { OnOk result ((f : Placed → ℤ) → sum_z f tally.new.content.entries
        ≡ sum_z f tally.old.content.entries +ℤ f (placed_as item.now)) }
    ensures moves { OnOk result (Moves tally.old.spot tally.old.content.entries tally.new.content.entries
        tally.old.counts tally.new.counts change.old change.new) }
{
    count_more(tally.spot, &mut tally.counts, change, &item.graph)?;
    let graph = item.graph.share()?;
    place(&mut tally.content, (item.time, item.number), graph)?;
    Ok(())
}

// no item has the number of another, so the place is free
fn place(
    content: &mut BTreeMap<(u64, u64), Shared<Listed<Triple>>, Global>,
    place: (u64, u64),
    graph: Shared<Listed<Triple>>,
) -> Result<(), AllocError>
    ensures { OnOk result ((f : Placed → ℤ) → sum_z f content.new.entries ≡ sum_z f content.old.entries +ℤ f (place, graph)) }
{
    let None = content.insert(place, graph)? else {
        return Err(AllocError);
    };
    Ok(())
}

// counts each listed triple of the graph once more
fn count_more(
    spot: u32,
    counts: &mut Changes<Fact>,
    change: &mut Changes<Fact>,
    graph: &Shared<Listed<Triple>>,
) -> Result<(), AllocError>
    ensures counts { OnOk result ((q : Fact)
        → weight fact_eq counts.new q ≡ weight fact_eq counts.old q +ℤ counted_by (pos 1) (facts_in spot graph.now) q) }
    ensures tells { OnOk result (Tells fact_eq counts.old counts.new change.old change.new) }
{
    let more = one()?;
    count_graph(spot, counts, change, graph.get().as_slice(), more)?;
    Ok(())
}

// and once less
fn count_less(
    spot: u32,
    counts: &mut Changes<Fact>,
    change: &mut Changes<Fact>,
    graph: &Shared<Listed<Triple>>,
) -> Result<(), AllocError>
    ensures counts { OnOk result ((q : Fact)
        → weight fact_eq counts.new q ≡ weight fact_eq counts.old q +ℤ counted_by (negsuc 0) (facts_in spot graph.now) q) }
    ensures tells { OnOk result (Tells fact_eq counts.old counts.new change.old change.new) }
{
    let less = one()?.opposite();
    count_graph(spot, counts, change, graph.get().as_slice(), less)?;
    Ok(())
}

fn one() -> Result<Count, AllocError>
    ensures { IfOk result (λ n. n ≡ pos 1) }
{
    Count::of_many(1)
}

// counts each triple of the graph `by` more, as it is listed
fn count_graph(
    spot: u32,
    counts: &mut Changes<Fact>,
    change: &mut Changes<Fact>,
    triples: &[Triple],
    by: Count,
) -> Result<(), AllocError>
    ensures counts { OnOk result ((q : Fact)
        → weight fact_eq counts.new q ≡ weight fact_eq counts.old q +ℤ counted_by by (facts_in spot triples.now) q) }
    ensures tells { OnOk result (Tells fact_eq counts.old counts.new change.old change.new) }
{
    for triple in triples {
        let fact = fact_in(spot, triple)?;
        count_by(counts, change, fact, by)?;
    }
    Ok(())
}

fn fact_in(spot: u32, triple: &Triple) -> Result<Fact, AllocError>
    ensures { IfOk result (λ fact. fact ≡ fact_in spot triple.now) }
{
    let triple = triple.share()?;
    Ok(Fact {
        spot: Spot::Window(spot),
        triple,
    })
}
