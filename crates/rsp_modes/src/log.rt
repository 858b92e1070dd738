// A log as a feed: its blocks, as they end in what is read.
ghost use Rattle.std.specs.Prelude.{◌<◌, ◌+◌, ◌≡◌, ◌++◌, ◌∷◌, ◌≤◌, [], None, ℕ, IfErr, IfOk, List, OnOk};
ghost use Rattle.std.specs.Prelude.{option_to_list, length, take, true};
ghost use Rattle.rsp_io.specs.Seen.{SourceSeen};
ghost use Rattle.rsp_events.specs.Blocks.{blocks, whole_blocks};
ghost use Rattle.rsp_events.specs.Instants.{AllTimed};
ghost use Rattle.rsp_events.specs.Reader.{HasRead};
ghost use Rattle.rsp_modes.specs.declared.feed.Cut.TheVariants.{Memory};
ghost use Rattle.rsp_modes.specs.Logs.{LogEnded, LogGave, RefusesPiece, TakesPiece, log_turns};

use crate::feed::{Batch, Cut, Feed};
use rsp_events::{Block, Blocks};
use rsp_io::{Failed, Source};
use rsp_terms::Listed;
use std::alloc::{AllocError, Global};

// The bytes of one read.
const READ_BYTES: usize = 1 << 14;

/// A log that is read from a source: the reader of its blocks, how many bytes were taken and may be, and whether the log has
/// ended.
#[derive(Drop)]
pub(crate) struct LogFeed {
    blocks: Blocks,
    taken: u64,
    most: u64,
    at_end: bool,
    buffer: [u8; READ_BYTES],
}

impl LogFeed {
    /// A log as the document of this number that may have so many bytes, of which nothing is read. Takes no memory.
    pub(crate) fn new(alloc: Global, document: u32, most: u64) -> LogFeed
        ensures gave { (source : SourceSeen) → LogGave result.at_end result.most result.taken result.blocks source source [] }
        ensures most { result.most ≡ most }
        ensures document { result.blocks.document ≡ document }
        ensures fits { result.taken ≤ result.most }
    {
        LogFeed {
            blocks: Blocks::new(alloc, document),
            taken: 0,
            most,
            at_end: false,
            buffer: [0u8; READ_BYTES],
        }
    }

    // how many bytes the next read asks for: no more than may still be taken; where none may, one, which says whether the log
    // ends
    fn asked(&self) -> usize
        requires fits { self.now.taken ≤ self.now.most }
        ensures some { 0 < result }
        ensures many { result ≤ length self.now.buffer }
        ensures room { self.now.taken < self.now.most → self.now.taken + result ≤ self.now.most }
    {
        let room = self.most - self.taken;
        if room == 0 {
            1
        } else if room < READ_BYTES as u64 {
            room as usize
        } else {
            READ_BYTES
        }
    }

    // the blocks that end in so many bytes more; TooLong where none may be taken
    fn piece(&mut self, read: usize) -> Result<Listed<Block>, Cut>
        requires read { read ≤ length self.old.buffer }
        requires fits { self.old.taken ≤ self.old.most }
        requires room { self.old.taken < self.old.most → self.old.taken + read ≤ self.old.most }
        ensures fits { self.new.taken ≤ self.new.most }
        ensures most { self.new.most ≡ self.old.most }
        ensures document { self.new.blocks.document ≡ self.old.blocks.document }
        ensures at_end { self.new.at_end ≡ self.old.at_end }
        ensures takes { IfOk result (λ ended. TakesPiece self.old.most self.old.taken self.new.taken
            self.old.blocks self.new.blocks (take read self.old.buffer) ended) }
        ensures timed { IfOk result AllTimed }
        ensures cut { IfErr result (λ why. RefusesPiece why self.old.most self.old.taken read) }
    {
        if self.taken == self.most {
            return Err(Cut::TooLong);
        }
        self.taken += read as u64;
        match self.blocks.feed(self.buffer.split_at(read).0) {
            Ok(ended) => Ok(ended),
            Err(AllocError) => Err(Cut::Memory),
        }
    }

    // the block that the log's end ends, where there is one
    fn last(&mut self) -> Result<Option<Block>, Cut>
        ensures most { self.new.most ≡ self.old.most }
        ensures document { self.new.blocks.document ≡ self.old.blocks.document }
        ensures at_end { self.new.at_end ≡ true }
        ensures taken { self.new.taken ≡ self.old.taken }
        ensures given { IfOk result (λ last. (bytes : List ℕ) → HasRead self.old.blocks bytes
            → blocks self.old.blocks.document bytes ≡ whole_blocks self.old.blocks.document bytes ++ option_to_list last) }
        ensures timed { IfOk result (λ last. AllTimed (option_to_list last)) }
        ensures cut { IfErr result (λ why. why ≡ Memory) }
    {
        self.at_end = true;
        match self.blocks.finish() {
            Ok(last) => Ok(last),
            Err(AllocError) => Err(Cut::Memory),
        }
    }
}

impl<S: Source> Feed<S> for LogFeed {
    ghost use Rattle.std.specs.Prelude.{◌≤◌, ◌∷◌, [], None};
    ghost use Rattle.rsp_modes.specs.Logs.{LogEnded, LogGave, log_turns};

    ghost fits = { λ log. log.taken ≤ log.most };

    ghost gave = { λ log start now given. LogGave log.at_end log.most log.taken log.blocks start now given };

    ghost ended = { λ log start now given cut. LogEnded log.most log.blocks.document start now given cut };

    ghost left = { λ _. None };

    ghost settings = { λ log. log.most ∷ log.blocks.document ∷ [] };

    ghost turns = { λ log. log_turns log.at_end log.most log.taken };

    /// The blocks that end in the next read; at the end of the log the block that this ends, where there is one. Of a log that is
    /// too long, exactly as many bytes as it may have are worked off.
    fn next(&mut self, from: &mut S) -> Result<Option<Batch>, Cut> {
        if self.at_end {
            return Ok(None);
        }
        let asked = self.asked();
        match from.read(&mut self.buffer[..asked]) {
            Ok(0) => match self.last() {
                Ok(Some(block)) => Ok(Some(Batch::Block(block))),
                Ok(None) => Ok(None),
                Err(cut) => Err(cut),
            },
            Ok(read) => match self.piece(read) {
                Ok(ended) => Ok(Some(Batch::Blocks(ended))),
                Err(cut) => Err(cut),
            },
            Err(Failed) => Err(Cut::Failed),
        }
    }
}
