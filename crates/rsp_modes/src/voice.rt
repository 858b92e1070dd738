// Voices: how what is said is told.
ghost use Rattle.std.specs.Prelude.{◌≡◌, ◌+◌, ◌∷◌, [], IfOk, OnOk, true, is_some};
ghost use Rattle.rsp_modes.specs.declared.voice.Tally as counts;
ghost use Rattle.rsp_modes.specs.declared.voice.Voice.TheVariants.{Counts};
ghost use Rattle.rsp_modes.specs.Output.{a_report};
ghost use Rattle.rsp_modes.specs.Reasons.{reason_of};
ghost use Rattle.rsp_modes.specs.Summaries.{rows_in};
ghost use Rattle.rsp_modes.specs.Voices.{Says, Tells, refusal_said};

use crate::refusals::{Answered, Place, refuse};
use crate::reports::tell;
use crate::stop::Stop;
use rsp_engine::{Outcome, Refused, Report};
use rsp_io::Sink;
use rsp_words::Form;
use std::alloc::{AllocError, Global};

/// How many reports came, and how many rows they have in all.
#[derive(Clone, Copy)]
pub(crate) struct Tally {
    pub reports: u64,
    pub rows: u64,
}

/// How what is said is told.
#[derive(Clone, Copy)]
pub(crate) enum Voice {
    /// It is written, reports in a form.
    Writes(Form),
    /// Nothing is written; reports and their rows are counted.
    Counts(Tally),
}

impl Voice {
    /// What was counted; nothing by a voice that writes.
    pub(crate) fn tally(self) -> Tally
        ensures { (tally : counts.Tally) → self ≡ Counts tally → result ≡ tally }
    {
        match self {
            Voice::Writes(_) => Tally {
                reports: 0,
                rows: 0,
            },
            Voice::Counts(tally) => tally,
        }
    }

    /// Says a report.
    pub(crate) fn report<K: Sink>(
        &mut self,
        alloc: Global,
        report: &Report,
        out: &mut K,
    ) -> Result<(), Stop>
        ensures { Tells self.old self.new (K.seen out.old) (K.seen out.new) (a_report report.now ∷ []) result }
    {
        match *self {
            Voice::Writes(form) => {
                let told = tell(alloc, report, form, out);
                told
            }
            Voice::Counts(tally) => match one_more(tally, report) {
                Ok(more) => {
                    *self = Voice::Counts(more);
                    Ok(())
                }
                Err(AllocError) => Err(Stop::Memory),
            },
        }
    }

    /// Says a refusal; Memory where the engine's answer is want of memory, and no refusal.
    pub(crate) fn refusal<K: Sink>(
        &mut self,
        alloc: Global,
        place: Place,
        answered: Answered,
        out: &mut K,
    ) -> Result<bool, Stop>
        ensures says { Says self.old self.new (K.seen out.old) (K.seen out.new) (refusal_said place (reason_of answered)) result }
        ensures refused { OnOk result (is_some (reason_of answered) ≡ true) }
    {
        match *self {
            Voice::Writes(_) => {
                let refused = refuse(alloc, place, answered, out);
                refused
            }
            Voice::Counts(_) => {
                if is_refusal(&answered) {
                    Ok(true)
                } else {
                    Err(Stop::Memory)
                }
            }
        }
    }
}

// whether this isn't for want of memory
fn is_refusal(answered: &Answered) -> bool
    ensures { result ≡ is_some (reason_of answered.now) }
{
    !matches!(
        answered,
        Answered::Event(Refused::Broken | Refused::OutOfMemory)
    )
}

// with a report; where a count stands at its type's end, as if memory were wanting
pub(crate) fn one_more(tally: Tally, report: &Report) -> Result<Tally, AllocError>
    ensures reports { IfOk result (λ now. now.reports ≡ tally.reports + 1) }
    ensures rows { IfOk result (λ now. now.rows ≡ tally.rows + rows_in report.now.outcome) }
{
    let reports = tally.reports.checked_add(1);
    let rows = tally.rows.checked_add(rows_in(&report.outcome));
    match (reports, rows) {
        (Some(reports), Some(rows)) => Ok(Tally { reports, rows }),
        _ => Err(AllocError),
    }
}

fn rows_in(outcome: &Outcome) -> u64
    ensures { result ≡ rows_in outcome.now }
{
    match outcome {
        Outcome::Rows(rows) => rows.as_slice().len() as u64,
        Outcome::Overfull => 0,
    }
}
