// Writing a text to a sink, whole.
ghost use Rattle.std.specs.Prelude.{MatchResult};
ghost use Rattle.rsp_modes.specs.Sinks.{Wrote, WriteFailed};
ghost use Rattle.rsp_modes.specs.Stops.{Ends, Stays};

use crate::stop::Stop;
use rsp_io::{Failed, Sink};

/// Writes a text, however many calls that takes. Fails where a write fails.
pub fn write_whole<K: Sink>(out: &mut K, text: &[u8]) -> Result<(), Failed>
    ensures text { MatchResult result
        (λ _. Wrote (K.seen out.old) (K.seen out.new) text.now)
        (λ _. WriteFailed (K.seen out.old) (K.seen out.new) text.now) }
{
    let mut written = 0;
    'pieces: while written < text.len() {
        match out.write(text.split_at(written).1) {
            Ok(n) => written += n,
            Err(Failed) => return Err(Failed),
        }
    }
    Ok(())
}

/// Writes a text of a log's work, whole. Stops where a write fails.
pub(crate) fn write_all<K: Sink>(out: &mut K, text: &[u8]) -> Result<(), Stop>
    ensures text { Ends (K.seen out.old) (K.seen out.new) text.now result }
    ensures stays { Stays (K.seen out.old) (K.seen out.new) result }
{
    match write_whole(out, text) {
        Ok(()) => Ok(()),
        Err(Failed) => Err(Stop::Write),
    }
}
