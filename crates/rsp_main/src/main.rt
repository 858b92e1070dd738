//! The program `rsp`: a continuous query engine over a log of events.
//!
//! `main` makes the command line's words and the real input and output, and calls `rsp` of the crate below, which does
//! all the rest. Its exit status is the number of what `rsp` answers.
#![tactic(auto)]

ghost use Rattle.std.specs.Prelude.{◌≡◌, ◌<◌};
ghost use Rattle.std.specs.Process.{exit_status};
ghost use Rattle.rsp_modes.specs.Statuses.{code_of};

use rsp_call::{Status, rsp, words_behind_name};
use rsp_io::{DirShelf, StdSink, StdSource};
use rsp_steps::Steps;
use rsp_terms::{Listed, Text};
use std::alloc::{AllocError, Global};
use std::marker::Brand;
use std::process::ExitCode;
use std::rt::{Env, Files};
use std::sync::ledger::{Blank, Ledger};
use std::{env, io};

fn main(rt: HostRuntime) -> ExitCode {
    exit_code(run::<HostRuntime, Brand>(&rt, Blank::new(1)))
}

fn exit_code(status: Status) -> ExitCode
    ensures { exit_status result ≡ code_of status }
{
    ExitCode::from(status.code())
}

// Makes the words and the objects over the runtime, and works.
fn run<R: Input + Print + Files + Env + AllocGlobal, L: Ledger>(rt: &R, blank: Blank) -> Status
    requires name { blank.name ≡ L.name }
    requires parts { blank.parts ≡ L.parts }
    requires some { 0 < blank.parts }
{
    let mut steps: Steps<L> = Steps::new(blank);
    let Ok(words) = words_of(rt) else {
        return Status::OutOfMemory;
    };
    let mut input = StdSource::new(rt);
    let mut shelf = DirShelf::new(rt);
    let mut out = StdSink::new(rt);
    rsp(
        rt.alloc(),
        words.as_slice(),
        &mut input,
        &mut shelf,
        &mut out,
        &mut steps,
    )
}

// The command line's words without the program's name. Words that can't be read, as where one isn't text, are none.
fn words_of<R: Env + AllocGlobal>(rt: &R) -> Result<Listed<Text>, AllocError> {
    match env::args(rt) {
        Ok(line) => words_behind_name(rt.alloc(), line),
        Err(error) if error.kind() == io::ErrorKind::OutOfMemory => Err(AllocError),
        Err(_) => Ok(Listed::new(rt.alloc())),
    }
}
