// The top call.
ghost use Rattle.std.specs.Prelude.{◌≡◌, false};
ghost use Rattle.rsp_words.specs.Words.{mode_of};
ghost use Rattle.rsp_modes.specs.Shelves.{shelf_seen};
ghost use Rattle.rsp_call.specs.Answers.{Answers, AnswersUsage, reads_shelf, reads_source};
ghost use Rattle.rsp_call.specs.Costs.{Costs};

use rsp_io::{Failed, Shelf, Sink, Source};
use rsp_modes::{Status, check, events, generate, replay, write_whole};
use rsp_steps::Steps;
use rsp_terms::Text;
use rsp_words::{Mode, mode_of};
use std::alloc::Global;
use std::sync::ledger::Ledger;

const USAGE: &str =
    "usage: rsp events [--json] [--slack N] | run [--json] [--store FILE] QUERY STREAM=FILE.. | check QUERY | gen COUNT\n";

/// Does all that the program does, by its words without its name.
///
/// On `events` it reads the log from `input` to its end and writes what the log gives to `out`: refusals, and reports, as tables
/// or on `--json` each as a line of JSON; by the number of `--slack` an item may be behind a later one. On `run` it reads the
/// files that are named from `shelf`, and writes in the same forms what recorded streams give. On `check` it reads one file from
/// `shelf` and writes whether the query in it has a fault. On `gen` it works off events that it makes itself and writes how many
/// reports they gave. On all other words it reads nothing, takes no memory and writes the usage line. It takes at most as many
/// steps as all reports of what it read may.
pub fn rsp<S: Source, H: Shelf, K: Sink, L: Ledger>(
    alloc: Global,
    words: &[Text],
    input: &mut S,
    shelf: &mut H,
    out: &mut K,
    steps: &mut Steps<L>,
) -> Status
    ensures answer { Answers (mode_of words.now)
        (S.seen input.old) (S.seen input.new) (shelf_seen (H.files shelf.old) (H.seen shelf.old))
        (shelf_seen (H.files shelf.new) (H.seen shelf.new))
        (K.seen out.old) (K.seen out.new) result }
    ensures unread { reads_source (mode_of words.now) ≡ false → input.new ≡ input.old }
    ensures shelf { reads_shelf (mode_of words.now) ≡ false → shelf.new ≡ shelf.old }
    ensures cost { Costs (mode_of words.now)
        (S.seen input.old) (S.seen input.new) (shelf_seen (H.files shelf.old) (H.seen shelf.old))
        (shelf_seen (H.files shelf.new) (H.seen shelf.new)) steps.old steps.new }
{
    match mode_of(words) {
        Some(Mode::Events(log)) => events(alloc, log, input, out, steps),
        Some(Mode::Run(asked)) => replay(alloc, &asked, shelf, out, steps),
        Some(Mode::Check(query)) => check(alloc, query, shelf, out),
        Some(Mode::Generate(count)) => generate(alloc, count, out, steps),
        None => usage(out),
    }
}

// Writes the usage line.
fn usage<K: Sink>(out: &mut K) -> Status
    ensures { AnswersUsage (K.seen out.old) (K.seen out.new) result }
{
    match write_whole(out, USAGE.as_bytes()) {
        Ok(()) => Status::Usage,
        Err(Failed) => Status::WriteFault,
    }
}
