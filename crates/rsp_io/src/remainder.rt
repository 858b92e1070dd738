// Bytes that are handed out from the front.
ghost use Rattle.std.specs.Prelude.{◌≡◌, min, length, take, drop};

use crate::portion::hand_out;
use std::marker::Model;

/// Bytes of which the front was handed out. Contracts see what is left.
#[derive(Drop)]
pub(crate) struct Remainder {
    bytes: Vec<u8>,
    place: usize,
}

impl Model for Remainder {
    ghost use Rattle.std.specs.Prelude.{List, ℕ, ◌≤◌, drop, vec_len};

    ghost Value = { List ℕ };

    ghost view = { λ r. drop r.place r.bytes.items };

    ghost invariant = { λ r. r.place ≤ vec_len r.bytes };
}

impl Remainder {
    /// All the bytes are left.
    pub(crate) fn new(bytes: Vec<u8>) -> Remainder
        ensures { result ≡ bytes.items }
    {
        Remainder { bytes, place: 0 }
    }

    /// Hands out the next bytes, as many as fit and at most `most`. Answers how many.
    pub(crate) fn give(&mut self, buf: &mut [u8], most: usize) -> usize
        ensures count { result ≡ min most (min (length buf.old) (length self.old)) }
        ensures bytes { take result buf.new ≡ take result self.old }
        ensures left { self.new ≡ drop result self.old }
    {
        let count = hand_out(&self.bytes[self.place..], buf, most);
        self.place += count;
        count
    }
}
