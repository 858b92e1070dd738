// Checking the query in a file.
ghost use Rattle.std.specs.Prelude.{◌≡◌, ◌∷◌, []};
ghost use Rattle.rsp_spec.specs.Limits.{most_file_bytes};
ghost use Rattle.rsp_modes.specs.Checks.{checked};
ghost use Rattle.rsp_modes.specs.FileAnswers.{AnswersFiles};
ghost use Rattle.rsp_words.specs.declared.form.Form.TheVariants.{Table};
ghost use Rattle.rsp_modes.specs.Shelves.{shelf_seen};
ghost use Rattle.rsp_modes.specs.Sayings.{Says};
ghost use Rattle.rsp_modes.specs.Readings.{status_of_unread};

use crate::faults::file_fault;
use crate::reading::{Unread, read_named};
use crate::refusals::{Answered, Place, refuse};
use crate::status::Status;
use crate::stop::{Stop, status_of};
use crate::writing::write_all;
use rsp_engine::Refused;
use rsp_io::{Shelf, Sink};
use std::alloc::{AllocError, Global};

/// Reads the file of this name from `shelf`, and writes `ok` or the first fault of the query in it.
pub fn check<H: Shelf, K: Sink>(alloc: Global, query: &str, shelf: &mut H, out: &mut K) -> Status
    ensures file { AnswersFiles most_file_bytes Table (query.now ∷ []) checked
        (shelf_seen (H.files shelf.old) (H.seen shelf.old))
        (shelf_seen (H.files shelf.new) (H.seen shelf.new)) (K.seen out.old) (K.seen out.new) result }
{
    match read_named(alloc, shelf, query) {
        Ok(bytes) => status_of(tell_verdict(alloc, bytes.as_slice(), out)),
        Err(unread) => status_of_unread(unread),
    }
}

// writes what is said of the file; the answer is whether the query is refused
fn tell_verdict<K: Sink>(alloc: Global, bytes: &[u8], out: &mut K) -> Result<bool, Stop>
    ensures { Says Table (K.seen out.old) (K.seen out.new) (checked (bytes.now ∷ [])) result }
{
    match file_fault(alloc, bytes) {
        Ok(Some(fault)) => {
            let why = Refused::Text(fault);
            refuse(alloc, Place::Query, Answered::Event(why), out)
        }
        Ok(None) => {
            write_all(out, b"ok\n")?;
            Ok(false)
        }
        Err(AllocError) => Err(Stop::Memory),
    }
}

/// Why a file wasn't read, as a status.
pub(crate) fn status_of_unread(why: Unread) -> Status
    ensures { result ≡ status_of_unread why }
{
    match why {
        Unread::Memory => Status::OutOfMemory,
        Unread::Fault => Status::ReadFault,
        Unread::TooLong => Status::TooLong,
    }
}
