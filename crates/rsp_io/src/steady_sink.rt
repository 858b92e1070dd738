// A sink in memory that tells its room.
ghost use Rattle.std.specs.Prelude.{◌≡◌, ◌<◌, ◌≤◌, [], Some, IfOk, IsOk, MatchResult, min, length};
ghost use Rattle.rsp_spec.specs.Faults.{HasCause};
ghost use Rattle.rsp_io.specs.Writing.{WriteAppends, RoomFalls};
ghost use Rattle.rsp_io.specs.Objects.{faults_after};

use crate::reserve::Reserve;
use crate::{Failed, Sink};
use std::alloc::{AllocError, Global};
use std::marker::Model;

/// A sink in memory that tells its bytes and its room. A write at room 0 is its one kind of fault, and no write takes
/// memory.
#[derive(Drop)]
pub struct SteadySink {
    reserve: Reserve,
    faults: u64,
    piece: usize,
}

impl Model for SteadySink {
    ghost use Rattle.std.specs.Prelude.{◌≤◌};
    ghost use Rattle.rsp_io.specs.States.{SteadySinkState};

    ghost Value = { SteadySinkState };

    ghost view = { λ s. record { taken = s.reserve.taken; room = s.reserve.room; faults = s.faults; piece = s.piece } };

    ghost invariant = { λ s. 1 ≤ s.piece };
}

impl SteadySink {
    /// A sink with room for `capacity` bytes, all reserved now, that takes at most `piece` of them, from 1 up, in a
    /// call.
    pub fn new(alloc: Global, capacity: usize, piece: usize) -> Result<SteadySink, AllocError>
        requires { 1 ≤ piece }
        ensures taken { IfOk result (λ sink. sink.taken ≡ []) }
        ensures room { IfOk result (λ sink. sink.room ≡ capacity) }
        ensures faults { IfOk result (λ sink. sink.faults ≡ 0) }
        ensures piece { IfOk result (λ sink. sink.piece ≡ piece) }
        ensures empty { capacity ≡ 0 → IsOk result }
    {
        let reserve = Reserve::new(alloc, capacity)?;
        Ok(SteadySink {
            reserve,
            faults: 0,
            piece,
        })
    }

    /// The bytes taken.
    pub fn taken(&self) -> &[u8]
        ensures { result.now ≡ self.now.taken }
    {
        self.reserve.taken()
    }
}

impl Sink for SteadySink {
    ghost use Rattle.std.specs.Prelude.{Some};

    ghost seen = { λ s. record { taken = Some s.taken; room = Some s.room; faults = s.faults } };

    /// As `Sink::write`: as many bytes as there are, fit and `piece` allows; Failed exactly at room 0.
    fn write(&mut self, piece: &[u8]) -> Result<usize, Failed>
        requires { 0 < length piece.now }
        ensures exactly { MatchResult result
            (λ n. (1 ≤ n) × (n ≡ min self.old.piece (min (length piece.now) self.old.room)))
            (λ _. self.old.room ≡ 0) }
        ensures bytes { WriteAppends (Some self.old.taken) (Some self.new.taken) result piece.now }
        ensures room { RoomFalls (Some self.old.room) (Some self.new.room) result }
        ensures cause { HasCause self.old.faults self.new.faults result }
        ensures faults { self.new.faults ≡ faults_after self.old.faults result }
        ensures piece { self.new.piece ≡ self.old.piece }
    {
        let count = self.reserve.append(piece, self.piece);
        if count == 0 {
            self.faults = self.faults.saturating_add(1);
            return Err(Failed);
        }
        Ok(count)
    }
}
