// Bags of rows.
ghost use Rattle.std.specs.Prelude.{◌≡◌, ◌+◌, IfOk};

use crate::{Cell, Changes, Count, Row, incoming_rows};
use std::alloc::{AllocError, Global};
use std::marker::Model;

/// A multiset of rows (SPARQL 1.1 Query, section 18.3): each row with how often it is there. A row that isn't there has
/// no entry. The entries' order is left open, and stays while nothing is changed.
#[derive(Drop)]
pub struct Bag<V: Cell> {
    counts: Changes<Row<V>>,
    rows: u64,
}

impl<V: Cell> Model for Bag<V> {
    ghost use Rattle.std.specs.Prelude.{◌≡◌, List, Option, ℤ, pos};
    ghost use Rattle.rsp_multiset.specs.Rows.{row_eq};
    ghost use Rattle.rsp_multiset.specs.Weights.{AreCounts, cardinality};

    ghost Value = { List (List (Option V) × ℤ) };

    ghost view = { λ b. b.counts };

    ghost invariant = { λ b. AreCounts (row_eq V.eq) b.counts × (pos b.rows ≡ cardinality b.counts) };
}

impl<V: Cell> Bag<V> {
    ghost use Rattle.std.specs.Prelude.{◌≡◌, ◌<◌, ◌+◌, pos, ◌+ℤ◌, ◌≤ℤ◌, ◌<ℤ◌, neg_ℤ, ℤ, List, Option, [], ◌∷◌, drop, length, slice_get, Some, IsOk, OnOk, OnErr, IfOk};
    ghost use Rattle.rsp_multiset.specs.Rows.{row_eq};
    ghost use Rattle.rsp_multiset.specs.Weights.{only, weight, times, cardinality, AreCounts};

    /// A bag without rows. Takes no memory.
    pub fn new(alloc: Global) -> Bag<V>
        ensures { result ≡ [] }
    {
        Bag {
            counts: Changes::new(alloc),
            rows: 0,
        }
    }

    /// Puts the row in so many times more. Fails where memory is refused, the row's count is past 2^63 - 1 or the number
    /// of rows past 2^64 - 1, and then changes nothing.
    pub fn add(&mut self, row: Row<V>, times: u64) -> Result<(), AllocError>
        ensures ok { OnOk result ((q : List (Option V)) → weight (row_eq V.eq) self.new q
            ≡ weight (row_eq V.eq) self.old q +ℤ only (row_eq V.eq q row) (pos times)) }
        ensures err { OnErr result (self.new ≡ self.old) }
    {
        self.alter(row, Count::of_many(times)?)
    }

    /// Puts the row in, or, below 0, takes it out, so many times; no oftener than it is there. Where it puts in, it fails as
    /// [`Bag::add`] does; to take out takes no memory.
    pub fn alter(&mut self, row: Row<V>, by: Count) -> Result<(), AllocError>
        requires { by <ℤ pos 0 → pos 0 ≤ℤ (weight (row_eq V.eq) self.old row +ℤ by) }
        ensures ok { OnOk result ((q : List (Option V)) → weight (row_eq V.eq) self.new q
            ≡ weight (row_eq V.eq) self.old q +ℤ only (row_eq V.eq q row) by) }
        ensures err { OnErr result (self.new ≡ self.old) }
        ensures taken { by <ℤ pos 0 → IsOk result }
    {
        if by.is_negative() {
            self.take_out(&row, by.size());
            return Ok(());
        }
        self.put(row, by)
    }

    /// Takes the row out so many times; it is there as often. Takes no memory.
    pub fn take_out(&mut self, row: &Row<V>, times: u64)
        requires { pos times ≤ℤ weight (row_eq V.eq) self.old row.now }
        ensures { (q : List (Option V)) → weight (row_eq V.eq) self.new q
            ≡ weight (row_eq V.eq) self.old q +ℤ only (row_eq V.eq q row.now) (neg_ℤ (pos times)) }
    {
        self.rows -= times;
        self.counts.take_out(row, times);
    }

    // puts the row in so many times more
    fn put(&mut self, row: Row<V>, times: Count) -> Result<(), AllocError>
        requires { pos 0 ≤ℤ times }
        ensures ok { OnOk result ((q : List (Option V)) → weight (row_eq V.eq) self.new q
            ≡ weight (row_eq V.eq) self.old q +ℤ only (row_eq V.eq q row) times) }
        ensures err { OnErr result (self.new ≡ self.old) }
    {
        let rows = rows_after(self.rows, times.size())?;
        self.counts.add(row, times)?;
        self.rows = rows;
        Ok(())
    }

    /// How often the row is there.
    pub fn count(&self, row: &Row<V>) -> u64
        ensures { pos result ≡ weight (row_eq V.eq) self.now row.now }
    {
        let _rows = self.rows;
        self.counts.count(row).size()
    }

    /// How many rows there are, each as often as it is there.
    pub fn rows(&self) -> u64
        ensures { pos result ≡ cardinality self.now }
    {
        self.rows
    }

    /// How many different rows there are.
    pub fn distinct(&self) -> usize
        ensures length { result ≡ length self.now }
        ensures counts { AreCounts (row_eq V.eq) self.now }
    {
        self.counts.distinct()
    }

    /// The row at this index, with how often it is there.
    pub fn entry_at(&self, index: usize) -> (&Row<V>, u64)
        requires { index < length self.now }
        ensures entry { slice_get self.now index ≡ Some (result.0.now, pos result.1) }
        ensures rest { drop index self.now ≡ (result.0.now, pos result.1) ∷ drop (index + 1) self.now }
    {
        let _rows = self.rows;
        let (row, count) = self.counts.counted_at(index);
        (row, count.size())
    }

    /// The rows, each as often as it is there. The last copy of each is the row of the bag itself. Fails only where memory is
    /// refused.
    pub fn into_rows(self, alloc: Global) -> Result<Vec<Row<V>>, AllocError>
        ensures { IfOk result (λ rows. (q : List (Option V)) → times (row_eq V.eq) rows.items q ≡ weight (row_eq V.eq) self q) }
    {
        let Bag { counts, rows: _ } = self;
        incoming_rows(alloc, counts)
    }
}

fn rows_after(rows: u64, more: u64) -> Result<u64, AllocError>
    ensures { IfOk result (λ sum. sum ≡ rows + more) }
{
    rows.checked_add(more).ok_or(AllocError)
}
