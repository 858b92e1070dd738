// Sinks.
ghost use Rattle.std.specs.Prelude.{◌≡◌, ◌<◌, ◌≤◌, IfOk, IfSome, OnErr, length};
ghost use Rattle.rsp_spec.specs.Faults.{HasCause};
ghost use Rattle.rsp_io.specs.Seen.{SinkSeen};
ghost use Rattle.rsp_io.specs.Writing.{WriteAppends, RoomFalls};

use crate::Failed;

/// What takes bytes, some at a time.
///
/// Contracts see three facts of a sink, as one record that is `seen` of it: the bytes `taken`, where it tells them; its
/// `room` in bytes, where it tells it; and its count of `faults`, which never falls.
pub trait Sink {
    ghost seen: { Self → SinkSeen };

    /// Takes at least one byte from the front of `piece` and answers how many. Failed, which comes only where the
    /// room isn't told or is 0: nothing was taken, and the count of faults rose.
    fn write(&mut self, piece: &[u8]) -> Result<usize, Failed>
        requires { 0 < length piece.now }
        ensures bound { IfOk result (λ n. (1 ≤ n) × (n ≤ length piece.now)) }
        ensures bytes { WriteAppends (seen self.old).taken (seen self.new).taken result piece.now }
        ensures room { RoomFalls (seen self.old).room (seen self.new).room result }
        ensures failing { OnErr result (IfSome (seen self.old).room (λ room. room ≡ 0)) }
        ensures cause { HasCause (seen self.old).faults (seen self.new).faults result };
}
