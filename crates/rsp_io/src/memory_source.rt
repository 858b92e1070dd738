// A source in memory whose calls fail as listed.
ghost use Rattle.std.specs.Prelude.{◌≡◌, ◌<◌, ◌≤◌, Some, IfOk, is_err, min, length};
ghost use Rattle.rsp_spec.specs.Faults.{HasCause};
ghost use Rattle.rsp_io.specs.Reading.{ReadTakes, GivenRises};
ghost use Rattle.rsp_io.specs.Objects.{is_listed, one_more, faults_after};

use crate::calls::Calls;
use crate::remainder::Remainder;
use crate::{Failed, Source};
use std::marker::Model;

/// A source in memory that tells its bytes and of which listed calls fail. It isn't sure.
#[derive(Drop)]
pub struct MemorySource {
    rest: Remainder,
    given: u64,
    faults: u64,
    calls: Calls,
    piece: usize,
}

impl Model for MemorySource {
    ghost use Rattle.std.specs.Prelude.{◌≤◌};
    ghost use Rattle.rsp_io.specs.States.{MemorySourceState};

    ghost Value = { MemorySourceState };

    ghost view = { λ s. record {
      left = s.rest;
      given = s.given;
      faults = s.faults;
      calls = s.calls.calls;
      failing = s.calls.failing;
      piece = s.piece;
    } };

    ghost invariant = { λ s. 1 ≤ s.piece };
}

impl MemorySource {
    /// A source of these bytes that gives at most `piece` of them, from 1 up, in a call. Its calls of the numbers
    /// `failing`, from 0, fail.
    pub fn new(bytes: Vec<u8>, failing: Vec<u64>, piece: usize) -> MemorySource
        requires { 1 ≤ piece }
        ensures left { result.left ≡ bytes.items }
        ensures given { result.given ≡ 0 }
        ensures faults { result.faults ≡ 0 }
        ensures calls { result.calls ≡ 0 }
        ensures failing { result.failing ≡ failing.items }
        ensures piece { result.piece ≡ piece }
    {
        MemorySource {
            rest: Remainder::new(bytes),
            given: 0,
            faults: 0,
            calls: Calls::new(failing),
            piece,
        }
    }
}

impl Source for MemorySource {
    ghost use Rattle.std.specs.Prelude.{Some, false};

    ghost seen = { λ s. record { left = Some s.left; given = s.given; faults = s.faults; sure = false } };

    /// As `Source::read`: as many bytes as are left, fit and `piece` allows; Failed exactly where the call is listed.
    fn read(&mut self, buf: &mut [u8]) -> Result<usize, Failed>
        requires { 0 < length buf.old }
        ensures fails { is_err result ≡ is_listed self.old.calls self.old.failing }
        ensures count { IfOk result (λ n. n ≡ min self.old.piece (min (length buf.old) (length self.old.left))) }
        ensures bytes { ReadTakes (Some self.old.left) (Some self.new.left) result buf.new }
        ensures given { GivenRises self.old.given self.new.given result }
        ensures cause { HasCause self.old.faults self.new.faults result }
        ensures faults { self.new.faults ≡ faults_after self.old.faults result }
        ensures calls { self.new.calls ≡ one_more self.old.calls }
        ensures failing { self.new.failing ≡ self.old.failing }
        ensures piece { self.new.piece ≡ self.old.piece }
    {
        if self.calls.fails_now() {
            self.faults = self.faults.saturating_add(1);
            return Err(Failed);
        }
        let count = self.rest.give(buf, self.piece);
        self.given = self.given.saturating_add(count as u64);
        Ok(count)
    }
}
