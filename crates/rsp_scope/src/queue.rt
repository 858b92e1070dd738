// Walks over the queue of kept items. None takes memory.
ghost use Rattle.std.specs.Prelude.{◌≡◌, ◌<◌, ◌≤◌, ◌*◌, ◌++◌, ℕ, List, drop, length, slice_index_or};
ghost use Rattle.rsp_scope.specs.Kept.{ended, needed, shortened};
ghost use Rattle.rsp_scope.specs.Lanes.{AreFiled, room_of};
ghost use Rattle.rsp_scope.specs.Order.{AreInOrder};
ghost use Rattle.rsp_scope.specs.declared.item.Item.{Item};

use crate::lanes::Lane;
use crate::{Item, lanes};
use indexmap::IndexMap;
use rsp_terms::Text;
use std::alloc::Global;
use std::collections::VecDeque;

/// Gives each item its new end, in order, and takes out those without one.
pub(crate) fn shorten_all(items: &mut VecDeque<Item, Global>, untils: &[Option<u64>])
    requires { length untils.now ≡ length items.old.items }
    ensures { items.new.items ≡ shortened items.old.items untils.now }
{
    for until in untils {
        turn(items, *until);
    }
}

// the first item goes to the end of the queue, with its new end, or leaves
fn turn(items: &mut VecDeque<Item, Global>, until: Option<u64>)
    ensures { (d : Item) → 0 < length items.old.items
        → items.new.items ≡ drop 1 items.old.items ++ ended (slice_index_or items.old.items 0 d) until }
{
    let Some(mut item) = items.pop_front() else {
        return;
    };
    let Some(end) = until else {
        return;
    };
    item.end = end;
    items.push_back_reserved(item);
}

// lets go of the items that end before `next`
fn let_go(items: &mut VecDeque<Item, Global>, next: u64)
    ensures { items.new.items ≡ needed next items.old.items }
{
    items.retain(|item| next <= item.end);
}

/// Lets go of the items that end before `cut`, with their slots in the lanes.
pub(crate) fn close_up(
    items: &mut VecDeque<Item, Global>,
    lanes: &mut IndexMap<Text, Lane>,
    cut: u64,
)
    requires filed { AreFiled lanes.old.entries items.old.items }
    ensures items { items.new.items ≡ needed cut items.old.items }
    ensures filed { AreFiled lanes.new.entries items.new.items }
    ensures lanes { (s : List ℕ) → room_of lanes.new.entries s ≡ room_of lanes.old.entries s }
{
    let_go(items, cut);
    lanes::fill(lanes, items);
}

/// Closes the queue up once more has left than is kept, which are `count` items.
pub(crate) fn close_up_if_sparse(
    items: &mut VecDeque<Item, Global>,
    lanes: &mut IndexMap<Text, Lane>,
    cut: u64,
    count: usize,
)
    requires count { count ≡ length (needed cut items.old.items) }
    requires filed { AreFiled lanes.old.entries items.old.items }
    ensures few { length items.new.items ≤ 2 * count }
    ensures kept { needed cut items.new.items ≡ needed cut items.old.items }
    ensures filed { AreFiled lanes.new.entries items.new.items }
    ensures order { (accepted : ℕ) → AreInOrder accepted items.old.items → AreInOrder accepted items.new.items }
{
    if count < items.len() - count {
        close_up(items, lanes, cut);
        lanes::tidy(lanes, items);
    }
}

/// A cut that keeps the same items and one with this end too. Lets go of the others, where the cut would fall.
pub(crate) fn lowered(
    items: &mut VecDeque<Item, Global>,
    lanes: &mut IndexMap<Text, Lane>,
    cut: u64,
    end: u64,
) -> u64
    requires filed { AreFiled lanes.old.entries items.old.items }
    ensures low { result ≤ end }
    ensures few { length items.new.items ≤ length items.old.items }
    ensures kept { needed result items.new.items ≡ needed cut items.old.items }
    ensures filed { AreFiled lanes.new.entries items.new.items }
    ensures order { (accepted : ℕ) → AreInOrder accepted items.old.items → AreInOrder accepted items.new.items }
{
    if cut <= end {
        return cut;
    }
    close_up(items, lanes, cut);
    end
}

/// The place in the queue of the kept item with this index.
pub(crate) fn place(items: &VecDeque<Item, Global>, cut: u64, index: usize) -> usize
    requires { index < length (needed cut items.now.items) }
    ensures within { result < length items.now.items }
    ensures item { (d : Item) → slice_index_or items.now.items result d ≡ slice_index_or (needed cut items.now.items) index d }
{
    let mut left = index;
    for at in 0..items.len() {
        if items[at].end < cut {
            continue;
        }
        if left == 0 {
            return at;
        }
        left -= 1;
    }
    unreachable!()
}
