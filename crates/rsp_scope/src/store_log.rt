// What came to and went from the stored quads, kept once for all queries.
ghost use Rattle.std.specs.Prelude.{◌≡◌, ◌+◌, ◌≤◌, ◌+ℤ◌, ℕ, pos, IfOk, OnOk};
ghost use Rattle.std.specs.List.{All, Contains};
ghost use Rattle.rsp_multiset.specs.Weights.{only, weight};
ghost use Rattle.rsp_terms.specs.declared.statement.Fact.{Fact};
ghost use Rattle.rsp_terms.specs.Same.{fact_eq};
ghost use Rattle.rsp_scope.specs.Logged.{since};

use crate::pieces::{Piece, end_behind, log, sum_since};
use crate::reader::Reader;
use rsp_multiset::Changes;
use rsp_terms::Fact;
use std::alloc::{AllocError, Global};
use std::marker::Model;

/// The changes of the stored quads. Each query has a place in it, at which it looked at the quads last.
//
// A piece is kept while a place is in front of it, and two neighbours become one where no place stands between them. Each
// change that is recorded looks at two pairs of neighbours in turn, so there are at most a few pieces for each place.
#[derive(Drop)]
pub struct StoreLog {
    alloc: Global,
    pieces: Vec<Piece, Global>,
    // the place behind all pieces
    end: u64,
    // the index of the piece to look at next
    turn: usize,
}

impl Model for StoreLog {
    ghost use Rattle.rsp_scope.specs.Logged.{Log};
    ghost use Rattle.rsp_scope.specs.Pieces.{EndBy};

    ghost Value = { Log };

    ghost view = { λ l. record { pieces = l.pieces.items; end = l.end } };

    ghost invariant = { λ l. EndBy l.end l.pieces.items };
}

impl StoreLog {
    ghost use Rattle.std.specs.Prelude.{◌≡◌, ◌+◌, ◌≤◌, ◌+ℤ◌, ℕ, pos, IfOk, OnOk};
    ghost use Rattle.std.specs.List.{All, Contains};
    ghost use Rattle.rsp_multiset.specs.Weights.{only, weight};
    ghost use Rattle.rsp_terms.specs.declared.statement.Fact.{Fact};
    ghost use Rattle.rsp_terms.specs.Same.{fact_eq};
    ghost use Rattle.rsp_scope.specs.Logged.{since};

    /// Nothing is logged. Takes no memory.
    pub fn new(alloc: Global) -> StoreLog
        ensures none { (place : ℕ) (q : Fact) → since result place q ≡ pos 0 }
        ensures end { result.end ≡ 0 }
    {
        StoreLog {
            alloc,
            pieces: Vec::new(alloc),
            end: 0,
            turn: 0,
        }
    }

    /// Logs a change, which is then seen from each of these places, those of the queries that may still ask. What none of
    /// them sees is let go. Fails where memory is refused or a number is out of range; what is then left is only to be
    /// dropped. As long as each place was a mark, no place is more than the changes that were recorded.
    pub fn record(&mut self, change: Changes<Fact>, places: &[u64]) -> Result<(), AllocError>
        ensures logged { OnOk result ((place : ℕ) → Contains places.now place → (q : Fact)
            → since self.new place q ≡ since self.old place q +ℤ weight fact_eq change q) }
        ensures end { OnOk result (All (λ place. place ≤ self.old.end) places.now → self.new.end ≤ self.old.end + 1) }
    {
        if places.is_empty() {
            self.pieces.clear();
            return Ok(());
        }
        let end = end_behind(places)?;
        self.end = self.end.max(end);
        self.turn = log(&mut self.pieces, change, places, end, self.turn)?;
        Ok(())
    }

    /// The place behind all that is logged. Takes no memory.
    pub fn mark(&self) -> u64
        ensures none { (q : Fact) → since self.now result q ≡ pos 0 }
        ensures end { result ≡ self.now.end }
    {
        self.end
    }

    /// The change that was logged from the place on, of the facts that the reader reads. Fails where memory is refused or a
    /// count is out of range.
    pub fn since<R: Reader>(&self, place: u64, reader: &R) -> Result<Changes<Fact>, AllocError>
        ensures { IfOk result (λ change. (q : Fact)
            → weight fact_eq change q ≡ only (R.is_read reader.now q) (since self.now place q)) }
    {
        sum_since(self.alloc, &self.pieces, place, reader)
    }
}
