// Working off a batch.
ghost use Rattle.std.specs.Prelude.{◌≡◌, ◌≤◌, ◌+◌, ◌||◌, IsTrue, OnOk, List, [], map};
ghost use Rattle.rsp_events.specs.Instants.{AllTimed, IsTimed};
ghost use Rattle.rsp_engine.specs.Moments.{Moment};
ghost use Rattle.rsp_engine.specs.Reports.{reports, work_of_reports, world_behind};
ghost use Rattle.rsp_engine.specs.Stands.{Stands, is_idle};
ghost use Rattle.rsp_engine.specs.World.{World};
ghost use Rattle.rsp_modes.specs.Feeds.{IsTimedBatch, given_in};
ghost use Rattle.rsp_modes.specs.Output.{a_block, a_report, run, step};
ghost use Rattle.rsp_modes.specs.Runs.{OffersContent, run_blocks};
ghost use Rattle.rsp_modes.specs.Voices.{Says, Tells};

use crate::feed::Batch;
use crate::refusals::{Answered, Place};
use crate::stop::Stop;
use crate::voice::Voice;
use rsp_algebra::Answer;
use rsp_engine::Engine;
use rsp_events::{Block, Content};
use rsp_io::Sink;
use rsp_steps::Steps;
use rsp_terms::Listed;
use std::alloc::Global;
use std::sync::ledger::Ledger;

/// Whether one of the two holds.
pub(crate) fn either(a: bool, b: bool) -> bool
    ensures { result ≡ (a || b) }
{
    a || b
}

/// Works off a batch, and says what it gives, within the steps that its reports may take. The answer is whether something of it
/// was refused.
pub(crate) fn work_off<A: Answer, K: Sink, L: Ledger>(
    alloc: Global,
    engine: &mut Engine<A>,
    batch: Batch,
    voice: &mut Voice,
    out: &mut K,
    steps: &mut Steps<L>,
) -> Result<bool, Stop>
    requires idle { IsTrue (is_idle engine.old) }
    requires timed { IsTimedBatch batch }
    ensures idle { OnOk result (IsTrue (is_idle engine.new)) }
    ensures says { (world : World) → Stands engine.old world []
        → Says voice.old voice.new (K.seen out.old) (K.seen out.new) (run world (given_in batch)).said result }
    ensures stands { OnOk result ((world : World) → Stands engine.old world []
        → Stands engine.new (run world (given_in batch)).after []) }
    ensures cost { (world : World) → Stands engine.old world []
        → steps.new ≤ steps.old + (run world (given_in batch)).work }
{
    match batch {
        Batch::Blocks(blocks) => take_blocks(alloc, engine, blocks, voice, out, steps),
        Batch::Block(block) => take_block(alloc, engine, block, voice, out, steps),
        Batch::Refused(place, answered) => {
            let refused = voice.refusal(alloc, place, answered, out);
            refused
        }
    }
}

fn take_blocks<A: Answer, K: Sink, L: Ledger>(
    alloc: Global,
    engine: &mut Engine<A>,
    blocks: Listed<Block>,
    voice: &mut Voice,
    out: &mut K,
    steps: &mut Steps<L>,
) -> Result<bool, Stop>
    requires idle { IsTrue (is_idle engine.old) }
    requires instants { AllTimed blocks }
    ensures idle { OnOk result (IsTrue (is_idle engine.new)) }
    ensures says { (world : World) → Stands engine.old world []
        → Says voice.old voice.new (K.seen out.old) (K.seen out.new) (run_blocks world blocks).said result }
    ensures stands { OnOk result ((world : World) → Stands engine.old world []
        → Stands engine.new (run_blocks world blocks).after []) }
    ensures cost { (world : World) → Stands engine.old world []
        → steps.new ≤ steps.old + (run_blocks world blocks).work }
{
    let mut refused = false;
    for block in blocks.into_vec() {
        match take_block(alloc, engine, block, voice, out, steps) {
            Ok(this) => refused = either(refused, this),
            Err(stop) => return Err(stop),
        }
    }
    Ok(refused)
}

fn take_block<A: Answer, K: Sink, L: Ledger>(
    alloc: Global,
    engine: &mut Engine<A>,
    block: Block,
    voice: &mut Voice,
    out: &mut K,
    steps: &mut Steps<L>,
) -> Result<bool, Stop>
    requires idle { IsTrue (is_idle engine.old) }
    requires instant { IsTimed block.content }
    ensures idle { OnOk result (IsTrue (is_idle engine.new)) }
    ensures says { (world : World) → Stands engine.old world []
        → Says voice.old voice.new (K.seen out.old) (K.seen out.new) (step world (a_block block)).said result }
    ensures stands { OnOk result ((world : World) → Stands engine.old world []
        → Stands engine.new (step world (a_block block)).after []) }
    ensures cost { (world : World) → Stands engine.old world []
        → steps.new ≤ steps.old + (step world (a_block block)).work }
{
    let Block { number, content } = block;
    match offer(engine, content) {
        Ok(()) => match say_reports(alloc, engine, voice, out, steps) {
            Ok(()) => Ok(false),
            Err(stop) => Err(stop),
        },
        Err(answered) => {
            let refused = voice.refusal(alloc, Place::Block(number), answered, out);
            refused
        }
    }
}

// Offers what a block says to the engine. Err: what was answered, where it isn't taken.
fn offer<A: Answer>(engine: &mut Engine<A>, content: Content) -> Result<(), Answered>
    requires idle { IsTrue (is_idle engine.old) }
    requires instant { IsTimed content }
    ensures { OffersContent engine.old content result engine.new }
{
    match content {
        Content::Event(event) => match engine.offer(event) {
            Ok(()) => Ok(()),
            Err(why) => Err(Answered::Event(why)),
        },
        Content::Fault(fault) => Err(Answered::Fault(fault)),
    }
}

// says each report that is left, as it comes
fn say_reports<A: Answer, K: Sink, L: Ledger>(
    alloc: Global,
    engine: &mut Engine<A>,
    voice: &mut Voice,
    out: &mut K,
    steps: &mut Steps<L>,
) -> Result<(), Stop>
    ensures idle { OnOk result (IsTrue (is_idle engine.new)) }
    ensures says { (world : World) (left : List Moment) → Stands engine.old world left
        → Tells voice.old voice.new (K.seen out.old) (K.seen out.new) (map a_report (reports world left)) result }
    ensures stands { OnOk result ((world : World) (left : List Moment) → Stands engine.old world left
        → Stands engine.new (world_behind world left) []) }
    ensures cost { (world : World) (left : List Moment) → Stands engine.old world left
        → steps.new ≤ steps.old + work_of_reports world left }
{
    'reports: loop {
        match engine.next_report(steps) {
            Ok(Some(report)) => match voice.report(alloc, &report, out) {
                Ok(()) => {}
                Err(stop) => return Err(stop),
            },
            Ok(None) => return Ok(()),
            Err(_) => return Err(Stop::Memory),
        }
    }
}
