// Shelves.
ghost use Rattle.std.specs.Prelude.{◌≡◌, IsTrue};
ghost use Rattle.rsp_spec.specs.Faults.{HasCause};
ghost use Rattle.rsp_io.specs.Files.{PickFinds, FailsForName};

use crate::{Failed, Source};

/// A source whose bytes are those of the file that was picked last. A sure shelf tells its files.
pub trait Shelf: Source {
    /// Makes the bytes of the first file of this name those that are left, and the number of bytes given 0, whatever
    /// it answers. Failed: the bytes are as they were, and the count of faults rose; over a sure shelf only for a
    /// name without a file.
    fn pick(&mut self, name: &str) -> Result<(), Failed>
        ensures bytes { PickFinds (Self.files self.old) name.now (Self.seen self.old).left (Self.seen self.new).left result }
        ensures given { (Self.seen self.new).given ≡ 0 }
        ensures cause { HasCause (Self.seen self.old).faults (Self.seen self.new).faults result }
        ensures sure { IsTrue (Self.seen self.old).sure → FailsForName (Self.files self.old) name.now result }
        ensures still_sure { (Self.seen self.new).sure ≡ (Self.seen self.old).sure }
        ensures files { Self.files self.new ≡ Self.files self.old };
}
