// A source in memory that is sure.
ghost use Rattle.std.specs.Prelude.{◌≡◌, ◌<◌, ◌≤◌, Some, Ok, min, length};
ghost use Rattle.rsp_io.specs.Reading.{ReadTakes, GivenRises};

use crate::remainder::Remainder;
use crate::{Failed, Source};
use std::marker::Model;

/// A source in memory that is sure and tells its bytes. Its count of faults is 0 for ever.
#[derive(Drop)]
pub struct SteadySource {
    rest: Remainder,
    given: u64,
    piece: usize,
}

impl Model for SteadySource {
    ghost use Rattle.std.specs.Prelude.{◌≤◌};
    ghost use Rattle.rsp_io.specs.States.{SteadySourceState};

    ghost Value = { SteadySourceState };

    ghost view = { λ s. record { left = s.rest; given = s.given; piece = s.piece } };

    ghost invariant = { λ s. 1 ≤ s.piece };
}

impl SteadySource {
    /// A source of these bytes that gives at most `piece` of them, from 1 up, in a call.
    pub fn new(bytes: Vec<u8>, piece: usize) -> SteadySource
        requires { 1 ≤ piece }
        ensures left { result.left ≡ bytes.items }
        ensures given { result.given ≡ 0 }
        ensures piece { result.piece ≡ piece }
    {
        let rest = Remainder::new(bytes);
        SteadySource {
            rest,
            given: 0,
            piece,
        }
    }
}

impl Source for SteadySource {
    ghost use Rattle.std.specs.Prelude.{Some, true};

    ghost seen = { λ s. record { left = Some s.left; given = s.given; faults = 0; sure = true } };

    /// As `Source::read`: as many bytes as are left, fit and `piece` allows.
    fn read(&mut self, buf: &mut [u8]) -> Result<usize, Failed>
        requires { 0 < length buf.old }
        ensures exactly { result ≡ Ok (min self.old.piece (min (length buf.old) (length self.old.left))) }
        ensures bytes { ReadTakes (Some self.old.left) (Some self.new.left) result buf.new }
        ensures given { GivenRises self.old.given self.new.given result }
        ensures piece { self.new.piece ≡ self.old.piece }
    {
        let count = self.rest.give(buf, self.piece);
        self.given = self.given.saturating_add(count as u64);
        Ok(count)
    }
}
