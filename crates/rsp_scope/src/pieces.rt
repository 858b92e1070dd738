// What was logged, in pieces between the places at which queries stand.
ghost use Rattle.std.specs.Prelude.{◌≡◌, ◌<◌, ◌≤◌, ◌+◌, ◌+ℤ◌, ℕ, nat_lt, false, length, slice_index_or, IfOk, IfSome, OnOk};
ghost use Rattle.std.specs.List.{All, Contains};
ghost use Rattle.rsp_multiset.specs.Weights.{only, weight};
ghost use Rattle.rsp_terms.specs.declared.statement.Fact.{Fact};
ghost use Rattle.rsp_terms.specs.Same.{fact_eq};
ghost use Rattle.rsp_scope.specs.Logged.{pieces_since};
ghost use Rattle.rsp_scope.specs.Pieces.{AreAlike, EndBy};
ghost use Rattle.rsp_scope.specs.declared.pieces.Piece.{Piece};

use crate::reader::{Reader, add_read};
use rsp_multiset::Changes;
use rsp_terms::Fact;
use std::alloc::{AllocError, Global};

/// What was logged together. It is seen from the places in front of its end.
#[derive(Drop)]
pub(crate) struct Piece {
    pub end: u64,
    pub changes: Changes<Fact>,
}

/// The least number above all places. Fails where a place is 2^64 - 1.
pub(crate) fn end_behind(places: &[u64]) -> Result<u64, AllocError>
    ensures behind { IfOk result (λ end. (place : ℕ) → Contains places.now place → place < end) }
    ensures least { IfOk result (λ end. (top : ℕ) → All (λ place. place ≤ top) places.now → end ≤ top + 1) }
{
    let mut end = 0;
    for place in places {
        let Some(behind) = place.checked_add(1) else {
            return Err(AllocError);
        };
        end = behind.max(end);
    }
    Ok(end)
}

/// Logs the change for these places, which are in front of `end`. Lets go of what none of them sees, and looks at two pairs of
/// neighbours from the index `turn` on, which may become one. Gives the index to go on from.
pub(crate) fn log(
    pieces: &mut Vec<Piece, Global>,
    change: Changes<Fact>,
    places: &[u64],
    end: u64,
    turn: usize,
) -> Result<usize, AllocError>
    requires { (place : ℕ) → Contains places.now place → place < end }
    ensures logged { OnOk result ((place : ℕ) → Contains places.now place → (q : Fact)
        → pieces_since pieces.new.items place q ≡ pieces_since pieces.old.items place q +ℤ weight fact_eq change q) }
    ensures ends { (last : ℕ) → end ≤ last → EndBy last pieces.old.items → EndBy last pieces.new.items }
{
    forget(pieces, places);
    put(pieces, change, end)?;
    let turn = close_up(pieces, places, turn)?;
    close_up(pieces, places, turn)
}

// lets go of the pieces that no place is in front of
fn forget(pieces: &mut Vec<Piece, Global>, places: &[u64])
    ensures alike { AreAlike places.now pieces.old.items pieces.new.items }
    ensures ends { (end : ℕ) → EndBy end pieces.old.items → EndBy end pieces.new.items }
{
    let first = first_of(places);
    pieces.retain(|piece| first < piece.end);
}

// the least place
fn first_of(places: &[u64]) -> u64
    ensures { (place : ℕ) → Contains places.now place → result ≤ place }
{
    let mut first = u64::MAX;
    for place in places {
        first = first.min(*place);
    }
    first
}

// logs the change so that it is seen from all places in front of `end`: in the last piece, or in a new one where that one
// ends earlier
fn put(pieces: &mut Vec<Piece, Global>, change: Changes<Fact>, end: u64) -> Result<(), AllocError>
    ensures put { OnOk result ((place : ℕ) → place < end → (q : Fact)
        → pieces_since pieces.new.items place q ≡ pieces_since pieces.old.items place q +ℤ weight fact_eq change q) }
    ensures ends { (last : ℕ) → end ≤ last → EndBy last pieces.old.items → EndBy last pieces.new.items }
{
    let Some(last) = last_reaching(pieces, end) else {
        return push(pieces, change, end);
    };
    pieces[last].changes.join_changes(change)
}

// the index of the last piece, if it ends there or later
fn last_reaching(pieces: &Vec<Piece, Global>, end: u64) -> Option<usize>
    ensures { IfSome result (λ last. (last < length pieces.now.items)
        × ((d : Piece) → end ≤ (slice_index_or pieces.now.items last d).end)) }
{
    let Some(last) = pieces.len().checked_sub(1) else {
        return None;
    };
    if pieces[last].end < end {
        return None;
    }
    Some(last)
}

fn push(pieces: &mut Vec<Piece, Global>, changes: Changes<Fact>, end: u64) -> Result<(), AllocError>
    ensures put { OnOk result ((place : ℕ) → place < end → (q : Fact)
        → pieces_since pieces.new.items place q ≡ pieces_since pieces.old.items place q +ℤ weight fact_eq changes q) }
    ensures ends { (last : ℕ) → end ≤ last → EndBy last pieces.old.items → EndBy last pieces.new.items }
{
    pieces.push(Piece { end, changes })?;
    Ok(())
}

// Looks at the piece of this index and the one behind it, and makes one of them if no place stands between their ends.
// Gives the index to look at next, over and over from the first to the last.
fn close_up(pieces: &mut Vec<Piece, Global>, places: &[u64], at: usize) -> Result<usize, AllocError>
    ensures alike { OnOk result (AreAlike places.now pieces.old.items pieces.new.items) }
    ensures ends { (end : ℕ) → EndBy end pieces.old.items → EndBy end pieces.new.items }
{
    let Some(behind) = next_to(pieces, at) else {
        return Ok(0);
    };
    if tells_apart(places, &pieces[at], &pieces[behind]) {
        return Ok(behind);
    }
    make_one(pieces, at)?;
    Ok(at)
}

// the index of the piece behind the one of this index
fn next_to(pieces: &Vec<Piece, Global>, at: usize) -> Option<usize>
    ensures { IfSome result (λ behind. (behind ≡ at + 1) × (behind < length pieces.now.items)) }
{
    let Some(behind) = at.checked_add(1) else {
        return None;
    };
    if behind < pieces.len() {
        Some(behind)
    } else {
        None
    }
}

// whether one of the pieces is seen from a place and the other isn't
fn tells_apart(places: &[u64], piece: &Piece, other: &Piece) -> bool
    ensures { result ≡ false → (place : ℕ) → Contains places.now place → nat_lt place piece.now.end ≡ nat_lt place other.now.end }
{
    for place in places {
        if (*place < piece.end) != (*place < other.end) {
            return true;
        }
    }
    false
}

// makes one piece of that of the index and the one behind it
fn make_one(pieces: &mut Vec<Piece, Global>, at: usize) -> Result<(), AllocError>
    requires { at + 1 < length pieces.old.items }
    ensures alike { OnOk result ((place : ℕ) (q : Fact) (d : Piece)
        → nat_lt place (slice_index_or pieces.old.items at d).end ≡ nat_lt place (slice_index_or pieces.old.items (at + 1) d).end
        → pieces_since pieces.new.items place q ≡ pieces_since pieces.old.items place q) }
    ensures ends { (end : ℕ) → EndBy end pieces.old.items → EndBy end pieces.new.items }
{
    let first = pieces.remove(at);
    let second = pieces.remove(at);
    let changes = both(first.changes, second.changes)?;
    let end = second.end;
    pieces.insert(at, Piece { end, changes })?;
    Ok(())
}

// the changes together; the fewer entries move
fn both(one: Changes<Fact>, other: Changes<Fact>) -> Result<Changes<Fact>, AllocError>
    ensures { IfOk result (λ both. (q : Fact) → weight fact_eq both q ≡ weight fact_eq one q +ℤ weight fact_eq other q) }
{
    if one.distinct() < other.distinct() {
        return joined(other, one);
    }
    joined(one, other)
}

fn joined(mut one: Changes<Fact>, other: Changes<Fact>) -> Result<Changes<Fact>, AllocError>
    ensures { IfOk result (λ both. (q : Fact) → weight fact_eq both q ≡ weight fact_eq one q +ℤ weight fact_eq other q) }
{
    one.join_changes(other)?;
    Ok(one)
}

/// The change that was logged from the place on, of the facts that the reader reads.
pub(crate) fn sum_since<R: Reader>(
    alloc: Global,
    pieces: &[Piece],
    place: u64,
    reader: &R,
) -> Result<Changes<Fact>, AllocError>
    ensures { IfOk result (λ sum. (q : Fact)
        → weight fact_eq sum q ≡ only (R.is_read reader.now q) (pieces_since pieces.now place q)) }
{
    let mut sum = Changes::new(alloc);
    for piece in pieces {
        add_seen(&mut sum, piece, place, reader)?;
    }
    Ok(sum)
}

// adds what is read of the piece if it is seen from the place
fn add_seen<R: Reader>(
    sum: &mut Changes<Fact>,
    piece: &Piece,
    place: u64,
    reader: &R,
) -> Result<(), AllocError>
    ensures { OnOk result ((q : Fact) → weight fact_eq sum.new q ≡ weight fact_eq sum.old q
        +ℤ only (R.is_read reader.now q) (only (nat_lt place piece.now.end) (weight fact_eq piece.now.changes q))) }
{
    if place < piece.end {
        return add_all(sum, &piece.changes, reader);
    }
    Ok(())
}

fn add_all<R: Reader>(
    sum: &mut Changes<Fact>,
    changes: &Changes<Fact>,
    reader: &R,
) -> Result<(), AllocError>
    ensures { OnOk result ((q : Fact) → weight fact_eq sum.new q
        ≡ weight fact_eq sum.old q +ℤ only (R.is_read reader.now q) (weight fact_eq changes.now q)) }
{
    for index in 0..changes.distinct() {
        let (fact, count) = changes.counted_at(index);
        add_read(sum, fact, count, reader)?;
    }
    Ok(())
}
