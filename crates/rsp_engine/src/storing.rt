// Logging what came to and went from the stored quads, for the queries that have reported.
ghost use Rattle.std.specs.Prelude.{◌≡◌, ◌+ℤ◌, ◌≤◌, ℕ, true, OnOk, IfOk, IfErr, Err, length};
ghost use Rattle.std.specs.List.{All, Contains, IsDistinct};
ghost use Rattle.rsp_spec.specs.Limits.{most_quads};
ghost use Rattle.rsp_terms.specs.Same.{fact_eq};
ghost use Rattle.rsp_terms.specs.declared.statement.Fact.{Fact};
ghost use Rattle.rsp_multiset.specs.Weights.{IsSameMultiset, weight};
ghost use Rattle.rsp_scope.specs.Faults.{IsStoredFault};
ghost use Rattle.rsp_scope.specs.Logged.{since};
ghost use Rattle.rsp_scope.specs.Quads.{stored_with, stored_without};
ghost use Rattle.rsp_scope.specs.declared.stored.StoredFault.TheVariants.{StoreFull};
ghost use Rattle.rsp_engine.specs.Keeping.{IsLogged};

use crate::live_query::LiveQuery;
use rsp_multiset::Changes;
use rsp_scope::{StoreLog, Stored, StoredFault};
use rsp_terms::{Fact, Quad};
use std::alloc::{AllocError, Global};

/// Stores the quads that aren't stored, and logs them for each query that has reported. Refused as `StoreFull`, all is as it
/// was; where memory is refused, what is left is only to be dropped.
pub(crate) fn insert<A>(
    alloc: Global,
    queries: &[LiveQuery<A>],
    stored: &mut Stored,
    log: &mut StoreLog,
    quads: &[Quad],
) -> Result<(), StoredFault>
    ensures stored { OnOk result (stored.new ≡ stored_with stored.old quads.now) }
    ensures within { OnOk result (length stored.new ≤ most_quads) }
    ensures logged { OnOk result (All (IsLogged stored.old log.old stored.new log.new) queries.now) }
    ensures fault { IfErr result (λ fault. IsStoredFault (length (stored_with stored.old quads.now)) fault) }
    ensures full { (many : ℕ) → result ≡ Err (StoreFull many) → (stored.new ≡ stored.old) × (log.new ≡ log.old) }
{
    let change = stored.insert(quads)?;
    record(alloc, queries, log, change)?;
    Ok(())
}

/// Takes out the quads that are stored, and logs them for each query that has reported. Fails only where memory is refused;
/// what is left is then only to be dropped.
pub(crate) fn delete<A>(
    alloc: Global,
    queries: &[LiveQuery<A>],
    stored: &mut Stored,
    log: &mut StoreLog,
    quads: &[Quad],
) -> Result<(), AllocError>
    ensures stored { OnOk result (IsSameMultiset fact_eq stored.new (stored_without stored.old quads.now)) }
    ensures once { OnOk result (IsDistinct fact_eq stored.new) }
    ensures logged { OnOk result (All (IsLogged stored.old log.old stored.new log.new) queries.now) }
{
    let change = stored.delete(quads)?;
    record(alloc, queries, log, change)
}

// logs a change of the stored quads
fn record<A>(
    alloc: Global,
    queries: &[LiveQuery<A>],
    log: &mut StoreLog,
    change: Changes<Fact>,
) -> Result<(), AllocError>
    ensures { OnOk result (All (λ live. live.reported ≡ true
        → (q : Fact) → since log.new live.place q ≡ since log.old live.place q +ℤ weight fact_eq change q) queries.now) }
{
    let places = places(alloc, queries)?;
    log.record(change, places.as_slice())
}

// the places of the queries that have reported
fn places<A>(alloc: Global, queries: &[LiveQuery<A>]) -> Result<Vec<u64>, AllocError>
    ensures { IfOk result (λ places. All (λ live. live.reported ≡ true → Contains places.items live.place) queries.now) }
{
    let mut places = Vec::new(alloc);
    for live in queries {
        if live.reported {
            places.push(live.place)?;
        }
    }
    Ok(places)
}
