// The trusted edge: files that the runtime opens, of which nothing is told but counts.
ghost use Rattle.std.specs.Prelude.{◌≡◌, ◌<◌, ◌≤◌, ◌||◌, [], None, Some, Ok, IfOk, IsFalse, IsOk, IsTrue, is_ok, is_some};
ghost use Rattle.std.specs.Prelude.{false, length};
ghost use Rattle.std.specs.Io.KnownBytes.{ReadConsumes};
ghost use Rattle.std.specs.Option.{option_map_or};
ghost use Rattle.rsp_spec.specs.Faults.{HasCause};
ghost use Rattle.rsp_io.specs.Reading.{ReadTakes, GivenRises};
ghost use Rattle.rsp_io.specs.Files.{PickFinds, FailsForName};
ghost use Rattle.rsp_io.specs.Objects.{faults_after};

use crate::standard::read_once;
use crate::{Failed, Shelf, Source};
use std::fs::{self, OpenFile};
use std::io::Read;
use std::marker::Model;
use std::rt::Files;

/// The files of the file system, by their paths from the current folder. It tells how many bytes it gave since the last
/// pick, how many reads and picks failed, and whether a pick succeeded so far; it isn't sure.
#[derive(Drop)]
pub struct DirShelf<'a, R: Files> {
    rt: &'a R,
    file: Option<R::File>,
    given: u64,
    faults: u64,
}

impl<'a, R: Files> Model for DirShelf<'a, R> {
    ghost use Rattle.std.specs.Option.{is_some};
    ghost use Rattle.rsp_io.specs.States.{DirShelfState};

    ghost Value = { DirShelfState };

    ghost view = { λ s. record { picked = is_some s.file; given = s.given; faults = s.faults } };
}

impl<'a, R: Files> DirShelf<'a, R> {
    /// A shelf over the runtime's files, of which none is picked.
    pub fn new(rt: &'a R) -> DirShelf<'a, R>
        ensures picked { result.picked ≡ false }
        ensures given { result.given ≡ 0 }
        ensures faults { result.faults ≡ 0 }
    {
        DirShelf {
            rt,
            file: None,
            given: 0,
            faults: 0,
        }
    }
}

impl<R: Files> Source for DirShelf<'_, R> {
    ghost use Rattle.std.specs.Prelude.{None, false};

    ghost seen = { λ s. record { left = None; given = s.given; faults = s.faults; sure = false } };

    /// As `Source::read`: one read of the file that was picked last, made again where a signal interrupts it, up to 64
    /// times. Each that fails is a fault. Before any pick that succeeded there is nothing to read.
    fn read(&mut self, buf: &mut [u8]) -> Result<usize, Failed>
        requires { 0 < length buf.old }
        ensures bound { IfOk result (λ n. n ≤ length buf.old) }
        ensures bytes { ReadTakes None None result buf.new }
        ensures sure { IsTrue false → IsOk result }
        ensures given { GivenRises self.old.given self.new.given result }
        ensures cause { HasCause self.old.faults self.new.faults result }
        ensures faults { self.new.faults ≡ faults_after self.old.faults result }
        ensures picked { self.new.picked ≡ self.old.picked }
        ensures unpicked { IsFalse self.old.picked → result ≡ Ok 0 }
    {
        match read_open(&mut self.file, buf) {
            Ok(count) => {
                self.given = self.given.saturating_add(count as u64);
                Ok(count)
            }
            Err(failed) => {
                self.faults = self.faults.saturating_add(1);
                Err(failed)
            }
        }
    }
}

impl<R: Files> Shelf for DirShelf<'_, R> {
    /// As `Shelf::pick`: opens the file at this path. One that can't be opened is a fault, and a folder is; then the file
    /// that was picked before is the one that is read.
    fn pick(&mut self, name: &str) -> Result<(), Failed>
        ensures bytes { PickFinds None name.now None None result }
        ensures sure { IsTrue false → FailsForName None name.now result }
        ensures given { self.new.given ≡ 0 }
        ensures cause { HasCause self.old.faults self.new.faults result }
        ensures faults { self.new.faults ≡ faults_after self.old.faults result }
        ensures picked { self.new.picked ≡ (self.old.picked || is_ok result) }
    {
        self.given = 0;
        match open_file(self.rt, name) {
            Ok(file) => {
                self.file = Some(file);
                Ok(())
            }
            Err(failed) => {
                self.faults = self.faults.saturating_add(1);
                Err(failed)
            }
        }
    }
}

// one read of the file that is open, if one is; it is proved of any reader what the runtime's files tell nothing of
fn read_open<F: Read>(file: &mut Option<F>, buf: &mut [u8]) -> Result<usize, Failed>
    ensures bound { IfOk result (λ n. n ≤ length buf.old) }
    ensures bytes { ReadConsumes (option_map_or F.remaining file.old (Some [])) (option_map_or F.remaining file.new (Some []))
        result buf.new }
    ensures open { is_some file.new ≡ is_some file.old }
    ensures closed { IsFalse (is_some file.old) → result ≡ Ok 0 }
{
    match file {
        Some(file) => read_once(file, buf),
        None => Ok(0),
    }
}

// the file at this path; a folder could be opened too, and each read of it would fail
fn open_file<R: Files>(rt: &R, name: &str) -> Result<R::File, Failed> {
    let Ok(file) = fs::open(rt, name) else {
        return Err(Failed);
    };
    match file.metadata() {
        Ok(found) if !found.is_dir() => Ok(file),
        _ => Err(Failed),
    }
}
