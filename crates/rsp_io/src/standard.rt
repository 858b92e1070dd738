// The trusted edge: standard input and output, of which nothing is told but counts.
ghost use Rattle.std.specs.Prelude.{◌≡◌, ◌<◌, ◌≤◌, ℕ, None, IfOk, IfSome, OnErr, length};
ghost use Rattle.std.specs.Io.KnownBytes.{ReadConsumes, WriteAppends as TakesKnown};
ghost use Rattle.rsp_spec.specs.Faults.{HasCause};
ghost use Rattle.rsp_io.specs.Reading.{GivenRises};
ghost use Rattle.rsp_io.specs.Writing.{WriteAppends, RoomFalls};
ghost use Rattle.rsp_io.specs.Objects.{faults_after};

use crate::{Failed, Sink, Source};
use std::io::{self, ErrorKind, Printer, Read, Write};
use std::marker::Model;

/// Standard input. It tells how many bytes it gave and how many reads failed, and isn't sure.
#[derive(Drop)]
pub struct StdSource<R: Input> {
    input: R::Reader,
    given: u64,
    faults: u64,
}

impl<R: Input> Model for StdSource<R> {
    ghost use Rattle.rsp_io.specs.States.{StdSourceState};

    ghost Value = { StdSourceState };

    ghost view = { λ s. record { given = s.given; faults = s.faults } };
}

impl<R: Input> StdSource<R> {
    /// A source over the runtime's standard input, which gave nothing so far.
    pub fn new(rt: &R) -> StdSource<R>
        ensures given { result.given ≡ 0 }
        ensures faults { result.faults ≡ 0 }
    {
        StdSource {
            input: rt.reader(),
            given: 0,
            faults: 0,
        }
    }
}

impl<R: Input> Source for StdSource<R> {
    ghost use Rattle.std.specs.Prelude.{None, false};

    ghost seen = { λ s. record { left = None; given = s.given; faults = s.faults; sure = false } };

    /// As `Source::read`: one read of the runtime's, made again where a signal interrupts it, up to 64 times. Each that
    /// fails is a fault.
    fn read(&mut self, buf: &mut [u8]) -> Result<usize, Failed>
        requires { 0 < length buf.old }
        ensures bound { IfOk result (λ n. n ≤ length buf.old) }
        ensures given { GivenRises self.old.given self.new.given result }
        ensures cause { HasCause self.old.faults self.new.faults result }
        ensures faults { self.new.faults ≡ faults_after self.old.faults result }
    {
        match read_once(&mut self.input, buf) {
            Ok(count) => {
                self.given = self.given.saturating_add(count as u64);
                Ok(count)
            }
            Err(failed) => {
                self.faults = self.faults.saturating_add(1);
                Err(failed)
            }
        }
    }
}

// How many calls are made, at most, where a signal interrupts each: one, and 64 again. One that was interrupted took nothing.
const MOST_CALLS: usize = 65;

// whether a call failed since a signal interrupted it
fn is_interrupted(error: &io::Error) -> bool {
    error.kind() == ErrorKind::Interrupted
}

/// One read of any reader, for which it is proved what the runtime's own tells nothing of. It is made again where a signal
/// interrupts it.
pub(crate) fn read_once<I: Read>(input: &mut I, buf: &mut [u8]) -> Result<usize, Failed>
    ensures bound { IfOk result (λ n. n ≤ length buf.old) }
    ensures bytes { ReadConsumes (I.remaining input.old) (I.remaining input.new) result buf.new }
{
    for _ in 0..MOST_CALLS {
        match input.read(buf) {
            Ok(count) => return Ok(count),
            Err(error) if is_interrupted(&error) => {}
            Err(_) => return Err(Failed),
        }
    }
    Err(Failed)
}

/// Standard output. It tells only how many writes failed.
#[derive(Drop)]
pub struct StdSink<'a, P: Print> {
    output: Printer<'a, P>,
    faults: u64,
}

impl<'a, P: Print> Model for StdSink<'a, P> {
    ghost use Rattle.rsp_io.specs.States.{StdSinkState};

    ghost Value = { StdSinkState };

    ghost view = { λ s. record { faults = s.faults } };
}

impl<'a, P: Print> StdSink<'a, P> {
    /// A sink over the runtime's standard output.
    pub fn new(rt: &'a P) -> StdSink<'a, P>
        ensures { result.faults ≡ 0 }
    {
        StdSink {
            output: io::writer(rt),
            faults: 0,
        }
    }
}

impl<P: Print> Sink for StdSink<'_, P> {
    ghost use Rattle.std.specs.Prelude.{None};

    ghost seen = { λ s. record { taken = None; room = None; faults = s.faults } };

    /// As `Sink::write`: one unbuffered write of the runtime's, made again where a signal interrupts it, up to 64 times.
    /// Each that fails is a fault, and one that takes no byte is too.
    fn write(&mut self, piece: &[u8]) -> Result<usize, Failed>
        requires { 0 < length piece.now }
        ensures bound { IfOk result (λ n. (1 ≤ n) × (n ≤ length piece.now)) }
        ensures bytes { WriteAppends None None result piece.now }
        ensures room { RoomFalls None None result }
        ensures failing { OnErr result (IfSome None (λ (room : ℕ). room ≡ 0)) }
        ensures cause { HasCause self.old.faults self.new.faults result }
        ensures faults { self.new.faults ≡ faults_after self.old.faults result }
    {
        match write_once(&mut self.output, piece) {
            Ok(count) => Ok(count),
            Err(failed) => {
                self.faults = self.faults.saturating_add(1);
                Err(failed)
            }
        }
    }
}

/// One write to any writer, for which it is proved what the runtime's own tells nothing of. It is made again where a signal
/// interrupts it. One that takes no byte failed.
pub(crate) fn write_once<W: Write>(output: &mut W, piece: &[u8]) -> Result<usize, Failed>
    ensures bound { IfOk result (λ n. (1 ≤ n) × (n ≤ length piece.now)) }
    ensures bytes { TakesKnown (W.contents output.old) (W.contents output.new) result piece.now }
{
    for _ in 0..MOST_CALLS {
        match output.write(piece) {
            Ok(0) => return Err(Failed),
            Ok(count) => return Ok(count),
            Err(error) if is_interrupted(&error) => {}
            Err(_) => return Err(Failed),
        }
    }
    Err(Failed)
}
