// For each stream the places of its items in the queue, so that a window passes by the items of others. Beside each place
// stands the latest time of the stream's items up to there, so that a walk from the end knows where no fresh item is left, in
// whatever order the times come.
ghost use Rattle.std.specs.Prelude.{◌≡◌, ◌<◌, ◌≤◌, ◌++◌, ◌∷◌, ℕ, [], List, cond, length, max, true, bytes_eq};
ghost use Rattle.std.specs.Prelude.{IfSome, IfNone, OnOk};
ghost use Rattle.rsp_scope.specs.Lanes.{AreFiled, lane_of, peak_of, room_of, slot_behind, slots_of};
ghost use Rattle.rsp_scope.specs.declared.lanes.Lane.{Lane};

use crate::Item;
use indexmap::IndexMap;
use rsp_terms::Text;
use std::alloc::{AllocError, Global};
use std::collections::VecDeque;

/// An item's place in the queue, and the latest time of its stream's items up to it.
#[derive(Clone, Copy)]
pub(crate) struct Slot {
    pub place: usize,
    pub peak: u64,
}

/// The slots of a stream's items, in the order of acceptance.
#[derive(Drop)]
pub(crate) struct Lane {
    pub slots: VecDeque<Slot, Global>,
}

/// The slots that the stream's lane holds. None where it has no lane.
pub(crate) fn slots_in<'a>(
    lanes: &'a IndexMap<Text, Lane>,
    stream: &Text,
) -> Option<&'a VecDeque<Slot, Global>>
    ensures lane { IfSome result (λ slots. slots.now.items ≡ lane_of lanes.now.entries stream.now) }
    ensures none { IfNone result (lane_of lanes.now.entries stream.now ≡ []) }
{
    match lanes.get(stream) {
        Some(lane) => Some(&lane.slots),
        None => None,
    }
}

/// Makes room for one slot more in the stream's lane.
pub(crate) fn make_place(
    alloc: Global,
    lanes: &mut IndexMap<Text, Lane>,
    stream: &Text,
) -> Result<(), AllocError>
    ensures same { (s : List ℕ) → lane_of lanes.new.entries s ≡ lane_of lanes.old.entries s }
    ensures room { OnOk result (length (lane_of lanes.new.entries stream.now) < room_of lanes.new.entries stream.now) }
{
    match lanes.get_mut(stream) {
        Some(lane) => lane.slots.reserve(1),
        None => start(alloc, lanes, stream),
    }
}

// a new lane with room for a slot
fn start(alloc: Global, lanes: &mut IndexMap<Text, Lane>, stream: &Text) -> Result<(), AllocError>
    requires none { lane_of lanes.old.entries stream.now ≡ [] }
    ensures same { (s : List ℕ) → lane_of lanes.new.entries s ≡ lane_of lanes.old.entries s }
    ensures room { OnOk result (length (lane_of lanes.new.entries stream.now) < room_of lanes.new.entries stream.now) }
{
    let mut slots = VecDeque::new(alloc);
    slots.reserve(1)?;
    lanes.insert(stream.share()?, Lane { slots })?;
    Ok(())
}

/// Puts an item of this place and time last in the stream's lane, in the room that is there.
pub(crate) fn file(lanes: &mut IndexMap<Text, Lane>, stream: &Text, place: usize, time: u64)
    requires { length (lane_of lanes.old.entries stream.now) < room_of lanes.old.entries stream.now }
    ensures lane { (s : List ℕ) → lane_of lanes.new.entries s ≡ cond (bytes_eq stream.now s)
        (lane_of lanes.old.entries stream.now ++ slot_behind (lane_of lanes.old.entries stream.now) place time ∷ [])
        (lane_of lanes.old.entries s) }
    ensures room { (s : List ℕ) → room_of lanes.new.entries s ≡ room_of lanes.old.entries s }
{
    match lanes.get_mut(stream) {
        Some(lane) => put_last(&mut lane.slots, place, time),
        None => unreachable!(),
    }
}

// puts the slot of an item of this place and time last
fn put_last(slots: &mut VecDeque<Slot, Global>, place: usize, time: u64)
    requires { length slots.old.items < slots.old.cap }
    ensures items { slots.new.items ≡ slots.old.items ++ slot_behind slots.old.items place time ∷ [] }
    ensures room { slots.new.cap ≡ slots.old.cap }
{
    let peak = peak_with(slots, time);
    slots.push_back_reserved(Slot { place, peak });
}

// the latest time of the slots and of one more
fn peak_with(slots: &VecDeque<Slot, Global>, time: u64) -> u64
    ensures { result ≡ max time (peak_of 0 slots.now.items) }
{
    match slots.back() {
        Some(last) => time.max(last.peak),
        None => time,
    }
}

/// Holds the slots of the items, in the room that is there.
pub(crate) fn fill(lanes: &mut IndexMap<Text, Lane>, items: &VecDeque<Item, Global>)
    requires { (s : List ℕ) → length (slots_of s 0 0 items.now.items) ≤ room_of lanes.old.entries s }
    ensures filed { AreFiled lanes.new.entries items.now.items }
    ensures room { (s : List ℕ) → room_of lanes.new.entries s ≡ room_of lanes.old.entries s }
{
    clear(lanes);
    for at in 0..items.len() {
        let item = &items[at];
        file(lanes, &item.stream, at, item.time);
    }
}

// takes all slots out
fn clear(lanes: &mut IndexMap<Text, Lane>)
    ensures lane { (s : List ℕ) → lane_of lanes.new.entries s ≡ [] }
    ensures room { (s : List ℕ) → room_of lanes.new.entries s ≡ room_of lanes.old.entries s }
{
    lanes.retain(
        |_stream, lane| -> bool
            ensures { (result ≡ true) × ((lane.new.slots.items ≡ []) × (lane.new.slots.cap ≡ lane.old.slots.cap)) }
        {
            lane.slots.clear();
            true
        },
    );
}

/// Lets go of the lanes where no item is left.
pub(crate) fn tidy(lanes: &mut IndexMap<Text, Lane>, items: &VecDeque<Item, Global>)
    requires { AreFiled lanes.old.entries items.now.items }
    ensures filed { AreFiled lanes.new.entries items.now.items }
    ensures none { items.now.items ≡ [] → lanes.new.entries ≡ [] }
{
    if items.is_empty() {
        lanes.clear();
    }
}
