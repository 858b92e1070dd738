// A sink in memory whose calls fail as listed.
ghost use Rattle.std.specs.Prelude.{◌≡◌, ◌<◌, ◌≤◌, ◌==◌, ◌||◌, [], Some, IfOk, IsOk, is_err, min, length};
ghost use Rattle.rsp_spec.specs.Faults.{HasCause};
ghost use Rattle.rsp_io.specs.Writing.{WriteAppends, RoomFalls};
ghost use Rattle.rsp_io.specs.Objects.{is_listed, one_more, faults_after};

use crate::calls::Calls;
use crate::reserve::Reserve;
use crate::{Failed, Sink};
use std::alloc::{AllocError, Global};
use std::marker::Model;

/// A sink in memory that tells its bytes but not its room, and of which listed calls fail. A write of which no byte
/// fits is a fault too, and no write takes memory.
#[derive(Drop)]
pub struct MemorySink {
    reserve: Reserve,
    faults: u64,
    calls: Calls,
    piece: usize,
}

impl Model for MemorySink {
    ghost use Rattle.std.specs.Prelude.{◌≤◌};
    ghost use Rattle.rsp_io.specs.States.{MemorySinkState};

    ghost Value = { MemorySinkState };

    ghost view = { λ s. record {
      taken = s.reserve.taken;
      space = s.reserve.room;
      faults = s.faults;
      calls = s.calls.calls;
      failing = s.calls.failing;
      piece = s.piece;
    } };

    ghost invariant = { λ s. 1 ≤ s.piece };
}

impl MemorySink {
    /// A sink with space for `capacity` bytes, all reserved now, that takes at most `piece` of them, from 1 up, in a
    /// call. Its calls of the numbers `failing`, from 0, fail.
    pub fn new(
        alloc: Global,
        capacity: usize,
        failing: Vec<u64>,
        piece: usize,
    ) -> Result<MemorySink, AllocError>
        requires { 1 ≤ piece }
        ensures taken { IfOk result (λ sink. sink.taken ≡ []) }
        ensures space { IfOk result (λ sink. sink.space ≡ capacity) }
        ensures faults { IfOk result (λ sink. sink.faults ≡ 0) }
        ensures calls { IfOk result (λ sink. sink.calls ≡ 0) }
        ensures failing { IfOk result (λ sink. sink.failing ≡ failing.items) }
        ensures piece { IfOk result (λ sink. sink.piece ≡ piece) }
        ensures empty { capacity ≡ 0 → IsOk result }
    {
        let reserve = Reserve::new(alloc, capacity)?;
        Ok(MemorySink {
            reserve,
            faults: 0,
            calls: Calls::new(failing),
            piece,
        })
    }

    /// The bytes taken.
    pub fn taken(&self) -> &[u8]
        ensures { result.now ≡ self.now.taken }
    {
        self.reserve.taken()
    }
}

impl Sink for MemorySink {
    ghost use Rattle.std.specs.Prelude.{Some, None};

    ghost seen = { λ s. record { taken = Some s.taken; room = None; faults = s.faults } };

    /// As `Sink::write`: as many bytes as there are, fit and `piece` allows; Failed exactly where the call is listed
    /// or no space is left.
    fn write(&mut self, piece: &[u8]) -> Result<usize, Failed>
        requires { 0 < length piece.now }
        ensures fails { is_err result ≡ (is_listed self.old.calls self.old.failing || self.old.space == 0) }
        ensures count { IfOk result (λ n. (1 ≤ n) × (n ≡ min self.old.piece (min (length piece.now) self.old.space))) }
        ensures bytes { WriteAppends (Some self.old.taken) (Some self.new.taken) result piece.now }
        ensures space { RoomFalls (Some self.old.space) (Some self.new.space) result }
        ensures cause { HasCause self.old.faults self.new.faults result }
        ensures faults { self.new.faults ≡ faults_after self.old.faults result }
        ensures calls { self.new.calls ≡ one_more self.old.calls }
        ensures failing { self.new.failing ≡ self.old.failing }
        ensures piece { self.new.piece ≡ self.old.piece }
    {
        if self.calls.fails_now() {
            self.faults = self.faults.saturating_add(1);
            return Err(Failed);
        }
        let count = self.reserve.append(piece, self.piece);
        if count == 0 {
            self.faults = self.faults.saturating_add(1);
            return Err(Failed);
        }
        Ok(count)
    }
}
