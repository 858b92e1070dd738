// A shelf in memory that is sure.
ghost use Rattle.std.specs.Prelude.{◌≡◌, ◌<◌, ◌≤◌, [], Some, Ok, is_ok, is_some, min, length};
ghost use Rattle.rsp_spec.specs.Faults.{HasCause};
ghost use Rattle.rsp_io.specs.Reading.{ReadTakes, GivenRises};
ghost use Rattle.rsp_io.specs.Files.{file_named, named_files, PickFinds, FailsForName};
ghost use Rattle.rsp_io.specs.Objects.{faults_after};

use crate::files::Files;
use crate::{Failed, Shelf, Source};
use std::marker::Model;

/// A shelf in memory that is sure and tells its files and bytes. Each pick of a name without a file is a fault, its
/// one kind.
#[derive(Drop)]
pub struct SteadyShelf {
    files: Files,
    given: u64,
    faults: u64,
    piece: usize,
}

impl Model for SteadyShelf {
    ghost use Rattle.std.specs.Prelude.{◌≤◌};
    ghost use Rattle.rsp_io.specs.States.{SteadyShelfState};

    ghost Value = { SteadyShelfState };

    ghost view = { λ s. record {
      files = s.files.files;
      left = s.files.left;
      given = s.given;
      faults = s.faults;
      piece = s.piece;
    } };

    ghost invariant = { λ s. 1 ≤ s.piece };
}

impl SteadyShelf {
    /// A shelf of these files by name, of which the first of a name counts, that gives at most `piece` bytes, from 1
    /// up, in a call. Before any pick nothing is left.
    pub fn new(files: Vec<(String, Vec<u8>)>, piece: usize) -> SteadyShelf
        requires { 1 ≤ piece }
        ensures files { result.files ≡ named_files files.items }
        ensures left { result.left ≡ [] }
        ensures given { result.given ≡ 0 }
        ensures faults { result.faults ≡ 0 }
        ensures piece { result.piece ≡ piece }
    {
        SteadyShelf {
            files: Files::new(files),
            given: 0,
            faults: 0,
            piece,
        }
    }
}

impl Source for SteadyShelf {
    ghost use Rattle.std.specs.Prelude.{Some, true};

    ghost seen = { λ s. record { left = Some s.left; given = s.given; faults = s.faults; sure = true } };

    ghost files = { λ s. Some s.files };

    /// As `Source::read`: as many bytes as are left, fit and `piece` allows.
    fn read(&mut self, buf: &mut [u8]) -> Result<usize, Failed>
        requires { 0 < length buf.old }
        ensures exactly { result ≡ Ok (min self.old.piece (min (length buf.old) (length self.old.left))) }
        ensures bytes { ReadTakes (Some self.old.left) (Some self.new.left) result buf.new }
        ensures given { GivenRises self.old.given self.new.given result }
        ensures faults { self.new.faults ≡ self.old.faults }
        ensures files { self.new.files ≡ self.old.files }
        ensures piece { self.new.piece ≡ self.old.piece }
    {
        let count = self.files.give(buf, self.piece);
        self.given = self.given.saturating_add(count as u64);
        Ok(count)
    }
}

impl Shelf for SteadyShelf {
    /// As `Shelf::pick`: Failed exactly for a name without a file.
    fn pick(&mut self, name: &str) -> Result<(), Failed>
        ensures exactly { is_ok result ≡ is_some (file_named name.now self.old.files) }
        ensures bytes { PickFinds (Some self.old.files) name.now (Some self.old.left) (Some self.new.left) result }
        ensures given { self.new.given ≡ 0 }
        ensures cause { HasCause self.old.faults self.new.faults result }
        ensures sure { FailsForName (Some self.old.files) name.now result }
        ensures faults { self.new.faults ≡ faults_after self.old.faults result }
        ensures files { self.new.files ≡ self.old.files }
        ensures piece { self.new.piece ≡ self.old.piece }
    {
        self.given = 0;
        if !self.files.pick(name) {
            self.faults = self.faults.saturating_add(1);
            return Err(Failed);
        }
        Ok(())
    }
}
