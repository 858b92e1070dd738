// A set of facts.
ghost use Rattle.std.specs.Prelude.{◌≡◌, ◌<◌};

use crate::scans::fact;
use rsp_index::FactStore;
use rsp_steps::Steps;
use rsp_terms::Fact;
use std::alloc::{AllocError, Global};
use std::marker::Brand;
use std::sync::ledger::{Blank, Ledger};
use std::test::Fail;

// the object of a fact that comes or goes, how often, whether that is allowed, and how many facts are there then
type Change = (&'static str, i64, bool, usize);

const CHANGES: [Change; 7] = [
    ("a:1", 1, true, 1),
    ("a:2", 1, true, 2),
    ("a:1", 1, false, 2),
    ("a:3", -1, false, 2),
    ("a:1", -1, true, 1),
    ("a:2", 0, true, 1),
    ("a:2", 2, false, 1),
];

fn takes(store: &mut FactStore, fact: &Fact, by: i64) -> bool {
    store.alter(fact, by).is_ok()
}

fn alters(alloc: Global, store: &mut FactStore, object: &str, by: i64) -> Result<bool, AllocError> {
    let fact = fact(alloc, "", "a:s", object)?;
    Ok(takes(store, &fact, by))
}

fn how_many<L: Ledger>(alloc: Global, blank: Blank, store: &FactStore) -> Result<usize, AllocError>
    requires name { blank.name ≡ L.name }
    requires parts { blank.parts ≡ L.parts }
    requires some { 0 < blank.parts }
{
    let mut steps: Steps<L> = Steps::new(blank);
    let facts = store.walk(alloc, &mut steps)?;
    Ok(facts.len())
}

fn take_all(alloc: Global, store: &mut FactStore) -> Result<bool, AllocError> {
    for (object, by, allowed, wanted) in &CHANGES {
        let done = alters(alloc, store, object, *by)?;
        let many = how_many::<Brand>(alloc, Blank::new(1), store)?;
        if done != *allowed || many != *wanted {
            return Ok(false);
        }
    }
    Ok(true)
}

fn a_store_takes_all(alloc: Global) -> Result<bool, AllocError> {
    let mut store = FactStore::new(alloc);
    take_all(alloc, &mut store)
}

#[test]
fn a_fact_is_there_once_or_not(rt: HostRuntime) -> Result<(), Fail> {
    assert!(rt; a_store_takes_all(rt.alloc())?);
    Ok(())
}
