// Reading a named file whole.
ghost use Rattle.std.specs.Prelude.{◌≡◌, MatchResult};
ghost use Rattle.rsp_spec.specs.Limits.{most_file_bytes};
ghost use Rattle.rsp_words.specs.Playing.{replay_for};
ghost use Rattle.rsp_modes.specs.Shelves.{ReadsWhole, shelf_seen};
ghost use Rattle.rsp_modes.specs.Readings.{Ends, Reads, ReadsFiles, ReadsPicked};
ghost use Rattle.rsp_words.specs.Words.{names_of};

use rsp_io::{Failed, Shelf};
use rsp_spec::limits::MOST_FILE_BYTES;
use rsp_terms::Listed;
use rsp_words::{Replay, name_at};
use std::alloc::{AllocError, Global};

// The bytes of one read.
const READ_BYTES: usize = 1 << 14;

/// Why a named file isn't read.
#[derive(Clone, Copy)]
pub(crate) enum Unread {
    /// Memory was refused.
    Memory,
    /// The name couldn't be picked, or a read failed.
    Fault,
    /// It has more bytes than a file may have.
    TooLong,
}

/// The bytes of the file of this name, to its end. A file of more than 67,108,864 bytes is TooLong.
pub(crate) fn read_named<H: Shelf>(
    alloc: Global,
    shelf: &mut H,
    name: &str,
) -> Result<Vec<u8>, Unread>
    ensures file { Reads
        (shelf_seen (H.files shelf.old) (H.seen shelf.old))
        (shelf_seen (H.files shelf.new) (H.seen shelf.new))
        name.now result }
{
    match shelf.pick(name) {
        Ok(()) => read_picked(alloc, shelf),
        Err(Failed) => Err(Unread::Fault),
    }
}

/// The files that a replay names, in the order of their names, each whole.
pub(crate) fn read_files<H: Shelf>(
    alloc: Global,
    shelf: &mut H,
    replay: &Replay<'_>,
) -> Result<Listed<Listed<u8>>, Unread>
    ensures files { ReadsFiles
        (shelf_seen (H.files shelf.old) (H.seen shelf.old))
        (shelf_seen (H.files shelf.new) (H.seen shelf.new))
        (names_of (replay_for replay.now)) result }
{
    let mut files = Listed::new(alloc);
    'files: loop {
        match name_at(replay, files.as_slice().len()) {
            Some(name) => match read_file(alloc, shelf, name) {
                Ok(bytes) => match files.push(bytes) {
                    Ok(()) => {}
                    Err(_) => return Err(Unread::Memory),
                },
                Err(unread) => return Err(unread),
            },
            None => return Ok(files),
        }
    }
}

fn read_file<H: Shelf>(alloc: Global, shelf: &mut H, name: &str) -> Result<Listed<u8>, Unread>
    ensures file { MatchResult result
        (λ bytes. ReadsWhole most_file_bytes
        (shelf_seen (H.files shelf.old) (H.seen shelf.old))
        (shelf_seen (H.files shelf.new) (H.seen shelf.new))
        name.now bytes)
        (λ why. Ends why
        (shelf_seen (H.files shelf.old) (H.seen shelf.old))
        (shelf_seen (H.files shelf.new) (H.seen shelf.new))
        name.now) }
{
    match read_named(alloc, shelf, name) {
        Ok(bytes) => Ok(Listed::from_vec(bytes)),
        Err(unread) => Err(unread),
    }
}

// the bytes that are left of the file that was just picked
fn read_picked<H: Shelf>(alloc: Global, shelf: &mut H) -> Result<Vec<u8>, Unread>
    requires { (H.seen shelf.old).given ≡ 0 }
    ensures file { ReadsPicked
        (shelf_seen (H.files shelf.old) (H.seen shelf.old))
        (shelf_seen (H.files shelf.new) (H.seen shelf.new))
        result }
{
    let mut bytes = Vec::new(alloc);
    let mut buffer = [0u8; READ_BYTES];
    'reads: loop {
        match shelf.read(&mut buffer[..]) {
            Ok(0) => return Ok(bytes),
            Ok(read) => {
                if MOST_FILE_BYTES < bytes.len() + read {
                    return Err(Unread::TooLong);
                }
                match bytes.extend_from_slice(buffer.split_at(read).0) {
                    Ok(()) => {}
                    Err(AllocError) => return Err(Unread::Memory),
                }
            }
            Err(Failed) => return Err(Unread::Fault),
        }
    }
}
