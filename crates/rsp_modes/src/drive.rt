// The one loop that works off what a feed gives.
ghost use Rattle.std.specs.Prelude.{◌≡◌, IsTrue, OnOk, List, []};
ghost use Rattle.rsp_io.specs.Seen.{SourceSeen};
ghost use Rattle.rsp_engine.specs.Stands.{is_idle};
ghost use Rattle.rsp_modes.specs.Output.{Given};
ghost use Rattle.rsp_modes.specs.Feeds.{Drove, IsNothing, Spends, status_of_drive, stop_of};

use crate::blocks::{either, work_off};
use crate::feed::{Cut, Feed};
use crate::status::Status;
use crate::stop::{Stop, status_of};
use crate::voice::Voice;
use rsp_algebra::Answer;
use rsp_engine::Engine;
use rsp_io::{Sink, Source};
use rsp_steps::Steps;
use std::alloc::Global;
use std::sync::ledger::Ledger;

/// Why the work isn't done to its end: the feed was cut, or what was said stopped.
#[derive(Clone, Copy)]
pub(crate) enum Halt {
    Cut(Cut),
    Stop(Stop),
}

/// Works off all that a feed gives, and says what it gives. The answer is whether something was refused.
pub(crate) fn drive<S: Source, F: Feed<S>, A: Answer, K: Sink, L: Ledger>(
    alloc: Global,
    engine: &mut Engine<A>,
    feed: &mut F,
    from: &mut S,
    voice: &mut Voice,
    out: &mut K,
    steps: &mut Steps<L>,
) -> Result<bool, Halt>
    requires idle { IsTrue (is_idle engine.old) }
    requires fits { F.fits feed.old }
    ensures idle { OnOk result (IsTrue (is_idle engine.new)) }
    ensures settings { F.settings feed.new ≡ F.settings feed.old }
    ensures none { OnOk result (IsNothing (F.left feed.new)) }
    ensures drove { (start : SourceSeen) (before : List Given) → F.gave feed.old start (S.seen from.old) before
        → Drove (F.gave feed.new start (S.seen from.new)) (F.ended feed.new start (S.seen from.new))
        (F.left feed.old) (F.left feed.new) before
        engine.old engine.new voice.old voice.new (K.seen out.old) (K.seen out.new) result }
    ensures cost { (start : SourceSeen) (before : List Given) → F.gave feed.old start (S.seen from.old) before
        → Spends (F.gave feed.new start (S.seen from.new)) (F.ended feed.new start (S.seen from.new))
        (F.left feed.old) (F.left feed.new) before engine.old steps.old steps.new result }
{
    let mut refused = false;
    'batches: loop {
        match feed.next(from) {
            Ok(Some(batch)) => match work_off(alloc, engine, batch, voice, out, steps) {
                Ok(this) => refused = either(refused, this),
                Err(stop) => return Err(Halt::Stop(stop)),
            },
            Ok(None) => return Ok(refused),
            Err(cut) => return Err(Halt::Cut(cut)),
        }
    }
}

/// How the work ended that want of memory alone cuts.
pub(crate) fn stop_of(driven: Result<bool, Halt>) -> Result<bool, Stop>
    ensures { result ≡ stop_of driven }
{
    match driven {
        Ok(refused) => Ok(refused),
        Err(Halt::Stop(why)) => Err(why),
        Err(Halt::Cut(_)) => Err(Stop::Memory),
    }
}

/// How the work ended, as a status.
pub(crate) fn status_of_drive(driven: Result<bool, Halt>) -> Status
    ensures { result ≡ status_of_drive driven }
{
    match driven {
        Ok(refused) => status_of(Ok(refused)),
        Err(Halt::Stop(why)) => status_of(Err(why)),
        Err(Halt::Cut(Cut::Failed)) => Status::ReadFault,
        Err(Halt::Cut(Cut::TooLong)) => Status::TooLong,
        Err(Halt::Cut(Cut::Memory)) => Status::OutOfMemory,
    }
}
