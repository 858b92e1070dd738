// Which items enter a content.
ghost use Rattle.std.specs.Prelude.{◌≡◌, ◌&&◌, ◌||◌, nat_le};
ghost use Rattle.rsp_scope.specs.Moves.{enters, is_after, is_fresh};

use crate::Item;
use rsp_terms::Text;

/// What enters at a move: the items of the stream from number `first` on that came after the opening of the active window,
/// and up to the instant `until`. Those are in already that have a number below `seen` and a time up to `since`.
#[derive(Drop)]
pub(crate) struct Gate {
    pub stream: Text,
    pub first: u64,
    pub opening: Option<u64>,
    pub until: u64,
    pub seen: u64,
    pub since: Option<u64>,
}

/// Whether the item is kept, as it ends at `cut` or later, and enters.
pub(crate) fn passes(gate: &Gate, cut: u64, item: &Item) -> bool
    ensures { result ≡ (nat_le cut item.now.end && enters gate.now item.now) }
{
    if item.end < cut {
        return false;
    }
    enters(gate, item)
}

// whether the item enters
fn enters(gate: &Gate, item: &Item) -> bool
    ensures { result ≡ enters gate.now item.now }
{
    if item.number < gate.first {
        return false;
    }
    if item.stream != gate.stream {
        return false;
    }
    if !is_after(gate.opening, item.time) {
        return false;
    }
    if gate.until < item.time {
        return false;
    }
    is_fresh(gate.seen, gate.since, item.number, item.time)
}

/// Whether the time is after the opening of the active window. None is, where no window is active.
pub(crate) fn is_after(opening: Option<u64>, time: u64) -> bool
    ensures { result ≡ is_after opening time }
{
    match opening {
        Some(opening) => opening < time,
        None => false,
    }
}

/// Whether the last move was before the item was accepted or before its time.
pub(crate) fn is_fresh(seen: u64, since: Option<u64>, number: u64, time: u64) -> bool
    ensures { result ≡ is_fresh seen since number time }
{
    if seen <= number {
        return true;
    }
    match since {
        Some(since) => since < time,
        None => true,
    }
}
