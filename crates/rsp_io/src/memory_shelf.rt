// A shelf in memory whose calls fail as listed.
ghost use Rattle.std.specs.Prelude.{◌≡◌, ◌<◌, ◌≤◌, ◌||◌, [], Some, IfOk, is_err, is_none, min, length};
ghost use Rattle.rsp_spec.specs.Faults.{HasCause};
ghost use Rattle.rsp_io.specs.Reading.{ReadTakes, GivenRises};
ghost use Rattle.rsp_io.specs.Files.{file_named, named_files, PickFinds};
ghost use Rattle.rsp_io.specs.Objects.{is_listed, one_more, faults_after};

use crate::calls::Calls;
use crate::files::Files;
use crate::{Failed, Shelf, Source};
use std::marker::Model;

/// A shelf in memory that tells its files and bytes, and of which listed calls fail. A pick of a name without a file
/// is a fault too. It isn't sure.
#[derive(Drop)]
pub struct MemoryShelf {
    files: Files,
    given: u64,
    faults: u64,
    calls: Calls,
    piece: usize,
}

impl Model for MemoryShelf {
    ghost use Rattle.std.specs.Prelude.{◌≤◌};
    ghost use Rattle.rsp_io.specs.States.{MemoryShelfState};

    ghost Value = { MemoryShelfState };

    ghost view = { λ s. record {
      files = s.files.files;
      left = s.files.left;
      given = s.given;
      faults = s.faults;
      calls = s.calls.calls;
      failing = s.calls.failing;
      piece = s.piece;
    } };

    ghost invariant = { λ s. 1 ≤ s.piece };
}

impl MemoryShelf {
    /// A shelf of these files by name, of which the first of a name counts, that gives at most `piece` bytes, from 1
    /// up, in a call. Its calls, reads and picks alike, of the numbers `failing`, from 0, fail. Before any pick
    /// nothing is left.
    pub fn new(files: Vec<(String, Vec<u8>)>, failing: Vec<u64>, piece: usize) -> MemoryShelf
        requires { 1 ≤ piece }
        ensures files { result.files ≡ named_files files.items }
        ensures left { result.left ≡ [] }
        ensures given { result.given ≡ 0 }
        ensures faults { result.faults ≡ 0 }
        ensures calls { result.calls ≡ 0 }
        ensures failing { result.failing ≡ failing.items }
        ensures piece { result.piece ≡ piece }
    {
        MemoryShelf {
            files: Files::new(files),
            given: 0,
            faults: 0,
            calls: Calls::new(failing),
            piece,
        }
    }
}

impl Source for MemoryShelf {
    ghost use Rattle.std.specs.Prelude.{Some, false};

    ghost seen = { λ s. record { left = Some s.left; given = s.given; faults = s.faults; sure = false } };

    ghost files = { λ s. Some s.files };

    /// As `Source::read`: as many bytes as are left, fit and `piece` allows; Failed exactly where the call is listed.
    fn read(&mut self, buf: &mut [u8]) -> Result<usize, Failed>
        requires { 0 < length buf.old }
        ensures fails { is_err result ≡ is_listed self.old.calls self.old.failing }
        ensures count { IfOk result (λ n. n ≡ min self.old.piece (min (length buf.old) (length self.old.left))) }
        ensures bytes { ReadTakes (Some self.old.left) (Some self.new.left) result buf.new }
        ensures given { GivenRises self.old.given self.new.given result }
        ensures cause { HasCause self.old.faults self.new.faults result }
        ensures faults { self.new.faults ≡ faults_after self.old.faults result }
        ensures calls { self.new.calls ≡ one_more self.old.calls }
        ensures files { self.new.files ≡ self.old.files }
        ensures failing { self.new.failing ≡ self.old.failing }
        ensures piece { self.new.piece ≡ self.old.piece }
    {
        if self.calls.fails_now() {
            self.faults = self.faults.saturating_add(1);
            return Err(Failed);
        }
        let count = self.files.give(buf, self.piece);
        self.given = self.given.saturating_add(count as u64);
        Ok(count)
    }
}

impl Shelf for MemoryShelf {
    /// As `Shelf::pick`: Failed exactly where the call is listed or no file has this name.
    fn pick(&mut self, name: &str) -> Result<(), Failed>
        ensures fails { is_err result
            ≡ (is_listed self.old.calls self.old.failing || is_none (file_named name.now self.old.files)) }
        ensures bytes { PickFinds (Some self.old.files) name.now (Some self.old.left) (Some self.new.left) result }
        ensures given { self.new.given ≡ 0 }
        ensures cause { HasCause self.old.faults self.new.faults result }
        ensures faults { self.new.faults ≡ faults_after self.old.faults result }
        ensures calls { self.new.calls ≡ one_more self.old.calls }
        ensures files { self.new.files ≡ self.old.files }
        ensures failing { self.new.failing ≡ self.old.failing }
        ensures piece { self.new.piece ≡ self.old.piece }
    {
        self.given = 0;
        if self.calls.fails_now() {
            self.faults = self.faults.saturating_add(1);
            return Err(Failed);
        }
        if !self.files.pick(name) {
            self.faults = self.faults.saturating_add(1);
            return Err(Failed);
        }
        Ok(())
    }
}
