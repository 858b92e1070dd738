// Kept items.
ghost use Rattle.std.specs.Prelude.{◌≡◌};
ghost use Rattle.rsp_scope.specs.Ends.{later};

use crate::Shared;
use rsp_terms::{Listed, Text, Triple};

/// An accepted graph: its number in the order of acceptance, the stream and time (ms since 1970) at which it arrived, and
/// its end, the last instant at which it can be in a content.
#[derive(PartialEq, Eq, Drop)]
pub struct Item {
    pub number: u64,
    pub stream: Text,
    pub time: u64,
    pub graph: Shared<Listed<Triple>>,
    pub end: u64,
}

/// The later of the ends that an item has under two lists of windows. None where it has neither.
pub fn later(a: Option<u64>, b: Option<u64>) -> Option<u64>
    ensures { result ≡ later a b }
{
    let Some(first) = a else {
        return b;
    };
    match b {
        Some(second) => Some(first.max(second)),
        None => a,
    }
}
