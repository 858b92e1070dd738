// Files in memory, by name.
ghost use Rattle.std.specs.Prelude.{◌≡◌, [], Some, None, IsTrue, IsFalse, MatchOption, is_some, min, length, take, drop};
ghost use Rattle.rsp_io.specs.Files.{file_named, named_files};
ghost use Rattle.rsp_io.specs.Parts.{first_bytes, picked_bytes};

use crate::portion::hand_out;
use std::marker::Model;

/// Files by name, and a place in the one that was picked last. Contracts see the files and what is left of that one.
#[derive(Drop)]
pub(crate) struct Files {
    files: Vec<(String, Vec<u8>)>,
    picked: Option<usize>,
    place: usize,
}

impl Model for Files {
    ghost use Rattle.rsp_io.specs.Parts.{FilesState};
    ghost use Rattle.std.specs.Prelude.{◌≤◌, drop, length};
    ghost use Rattle.rsp_io.specs.Files.{named_files};
    ghost use Rattle.rsp_io.specs.Parts.{picked_bytes};

    ghost Value = { FilesState };

    ghost view = { λ f. record { files = named_files f.files.items; left = drop f.place (picked_bytes f.files.items f.picked) } };

    ghost invariant = { λ f. f.place ≤ length (picked_bytes f.files.items f.picked) };
}

impl Files {
    /// Before any pick nothing is left.
    pub(crate) fn new(files: Vec<(String, Vec<u8>)>) -> Files
        ensures files { result.files ≡ named_files files.items }
        ensures left { result.left ≡ [] }
    {
        Files {
            files,
            picked: None,
            place: 0,
        }
    }

    /// Makes the first file of this name the one that is left, and answers whether there is one; else what is left
    /// stays.
    pub(crate) fn pick(&mut self, name: &str) -> bool
        ensures found { result ≡ is_some (file_named name.now self.old.files) }
        ensures left { IsTrue result → Some self.new.left ≡ file_named name.now self.old.files }
        ensures kept { IsFalse result → self.new.left ≡ self.old.left }
        ensures files { self.new.files ≡ self.old.files }
    {
        match position_of(&self.files, name) {
            Some(index) => {
                self.picked = Some(index);
                self.place = 0;
                true
            }
            None => false,
        }
    }

    /// Hands out the next bytes, as many as fit and at most `most`. Answers how many.
    pub(crate) fn give(&mut self, buf: &mut [u8], most: usize) -> usize
        ensures count { result ≡ min most (min (length buf.old) (length self.old.left)) }
        ensures bytes { take result buf.new ≡ take result self.old.left }
        ensures left { self.new.left ≡ drop result self.old.left }
        ensures files { self.new.files ≡ self.old.files }
    {
        let bytes = picked_bytes(&self.files, self.picked);
        let count = hand_out(&bytes[self.place..], buf, most);
        self.place += count;
        count
    }
}

/// Where the first file of this name stands.
fn position_of(files: &[(String, Vec<u8>)], name: &str) -> Option<usize>
    ensures { MatchOption result (file_named name.now (named_files files.now) ≡ None)
        (λ index. file_named name.now (named_files files.now) ≡ Some (first_bytes (drop index files.now))) }
{
    for (index, file) in files.iter().enumerate() {
        if file.0.as_str() == name {
            return Some(index);
        }
    }
    None
}

/// The bytes of the file at this index.
fn picked_bytes(files: &[(String, Vec<u8>)], picked: Option<usize>) -> &[u8]
    ensures { result.now ≡ picked_bytes files.now picked }
{
    match picked {
        Some(index) => bytes_at(files, index),
        None => &[],
    }
}

fn bytes_at(files: &[(String, Vec<u8>)], index: usize) -> &[u8]
    ensures { result.now ≡ first_bytes (drop index files.now) }
{
    match files.get(index) {
        Some(file) => file.1.as_slice(),
        None => &[],
    }
}
