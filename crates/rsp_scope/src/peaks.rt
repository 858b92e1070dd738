// Where in a stream's lane no fresh item is left, as the peaks tell.
ghost use Rattle.std.specs.Prelude.{◌≡◌, ◌+◌, ◌<◌, ◌≤◌, true, length};
ghost use Rattle.rsp_scope.specs.Lanes.{AreStale, slots_of};
ghost use Rattle.rsp_scope.specs.Order.{AreRising, number_of};

use crate::Item;
use crate::gate::{Gate, is_fresh};
use crate::lanes::Slot;
use std::alloc::Global;
use std::collections::VecDeque;

/// The index in the lane behind the last item that isn't fresh, nor any before it. In front of it none is fresh.
pub(crate) fn first_fresh(
    items: &VecDeque<Item, Global>,
    lane: &VecDeque<Slot, Global>,
    gate: &Gate,
) -> usize
    requires numbers { AreRising number_of items.now.items }
    requires lane { lane.now.items ≡ slots_of gate.now.stream 0 0 items.now.items }
    ensures bound { result ≤ length lane.now.items }
    ensures stale { AreStale gate.now items.now.items result }
{
    let count = lane.len();
    for past in 0..count {
        let index = count - 1 - past;
        if is_stale_to(items, lane, index, gate) {
            return index + 1;
        }
    }
    0
}

// whether the item of this index isn't fresh, even at its peak, and so none before it in the lane
fn is_stale_to(
    items: &VecDeque<Item, Global>,
    lane: &VecDeque<Slot, Global>,
    index: usize,
    gate: &Gate,
) -> bool
    requires within { index < length lane.now.items }
    requires numbers { AreRising number_of items.now.items }
    requires lane { lane.now.items ≡ slots_of gate.now.stream 0 0 items.now.items }
    ensures { result ≡ true → AreStale gate.now items.now.items (index + 1) }
{
    let slot = lane[index];
    !is_fresh(gate.seen, gate.since, items[slot.place].number, slot.peak)
}
