// Bytes that are appended to reserved memory.
ghost use Rattle.std.specs.Prelude.{◌≡◌, ◌+◌, ◌++◌, ◌<◌, [], IfOk, IsOk, min, length, take};

use std::alloc::{AllocError, Global};
use std::marker::Model;

/// Bytes taken, and memory for more of them that was reserved at the start.
#[derive(Drop)]
pub(crate) struct Reserve {
    bytes: Vec<u8>,
    room: usize,
}

impl Model for Reserve {
    ghost use Rattle.std.specs.Prelude.{◌+◌, ◌≤◌, vec_len, vec_capacity};
    ghost use Rattle.rsp_io.specs.Parts.{ReserveState};

    ghost Value = { ReserveState };

    ghost view = { λ r. record { taken = r.bytes.items; room = r.room } };

    ghost invariant = { λ r. vec_len r.bytes + r.room ≤ vec_capacity r.bytes };
}

impl Reserve {
    /// Memory for `capacity` bytes, none of them taken.
    pub(crate) fn new(alloc: Global, capacity: usize) -> Result<Reserve, AllocError>
        ensures taken { IfOk result (λ reserve. reserve.taken ≡ []) }
        ensures room { IfOk result (λ reserve. reserve.room ≡ capacity) }
        ensures empty { capacity ≡ 0 → IsOk result }
    {
        let bytes = Vec::with_capacity(alloc, capacity)?;
        Ok(Reserve {
            bytes,
            room: capacity,
        })
    }

    /// Appends the front of `piece`, as many bytes as there is room for and at most `most`. Answers how many.
    pub(crate) fn append(&mut self, piece: &[u8], most: usize) -> usize
        ensures count { result ≡ min most (min (length piece.now) self.old.room) }
        ensures taken { self.new.taken ≡ self.old.taken ++ take result piece.now }
        ensures room { self.old.room ≡ self.new.room + result }
    {
        let count = most.min(piece.len().min(self.room));
        match self.bytes.extend_from_slice(&piece[..count]) {
            Ok(()) => {}
            Err(_) => unreachable!(),
        }
        self.room -= count;
        count
    }

    /// The bytes taken.
    pub(crate) fn taken(&self) -> &[u8]
        ensures { result.now ≡ self.now.taken }
    {
        self.bytes.as_slice()
    }
}
