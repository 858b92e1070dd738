// Sources.
ghost use Rattle.std.specs.Prelude.{◌≡◌, ◌<◌, ◌≤◌, ℕ, List, Option, None, IfOk, IsOk, IsTrue, length};
ghost use Rattle.rsp_spec.specs.Faults.{HasCause};
ghost use Rattle.rsp_io.specs.Reading.{ReadTakes, GivenRises};
ghost use Rattle.rsp_io.specs.Seen.{SourceSeen};

use crate::Failed;

/// What gives bytes, some at a time.
///
/// Contracts see four facts of a source, as one record that is `seen` of it: the bytes that are `left`, where it tells them;
/// how many it has `given`, up to 2^64 - 1; its count of `faults`, which never falls; and whether it is `sure`, that is never
/// fails.
pub trait Source {
    ghost seen: { Self → SourceSeen };

    // the files of a shelf, by name; told by a shelf alone, and here since a read leaves them as they are
    ghost files: { Self → Option (List (List ℕ × List ℕ)) } = { λ _. None };

    /// Fills the front of `buf` with the next bytes and answers how many, from 0 to its length; 0 exactly where
    /// nothing is left. Failed: nothing was taken, and the count of faults rose.
    fn read(&mut self, buf: &mut [u8]) -> Result<usize, Failed>
        requires { 0 < length buf.old }
        ensures bound { IfOk result (λ n. n ≤ length buf.old) }
        ensures bytes { ReadTakes (seen self.old).left (seen self.new).left result buf.new }
        ensures given { GivenRises (seen self.old).given (seen self.new).given result }
        ensures cause { HasCause (seen self.old).faults (seen self.new).faults result }
        ensures sure { IsTrue (seen self.old).sure → IsOk result }
        ensures still_sure { (seen self.new).sure ≡ (seen self.old).sure }
        ensures files { files self.new ≡ files self.old };
}
