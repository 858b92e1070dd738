// The maintained join and the union, turn by turn.
use crate::notation::{Told, are_refused, goes_on, turns_out};
use crate::trials::{WIDTH, joined};
use rsp_operators::Binary;
use rsp_simple_operators::Joining;
use rsp_terms::Same;
use rsp_trials::{BinaryTrial, Refused};
use std::alloc::Global;
use std::test::Fail;

// a pair of which both rows come counts once, as often as both together; and so it does where both go. A merge that goes by one
// pair and comes by another is no change. What is unbound on one side is no value of the other
const PAIRS: &str = "2*1__ 32_|3*12_|6*12_
-2*1__|-3*12_|-6*12_
45_|4__|45_
-1*45_ 4__|45_ -1*4__|
6__ 67_|68_ 2*6__|68_ 2*67_ 2*6__
9__||";

const WITHOUT_KEY: &str = "1__ 3__|_2_ 34_|12_ 32_ 34_
___|-1*_2_|-1*12_ -1*32_ 34_";

// what the left leaves unbound meets each value of the right; what it binds meets its own
const UNBOUND: &str = "1__|_89 _76|189 176
2_9||289
-1*1__|-1*_89|-1*189 -1*176 -1*289";

// two copies stay while the right row comes, and go while it comes; a pair goes with both its rows; rows of the left come, go,
// or stay, while those of the right do
const BOTH: &str = "2*12_||
|1_3|2*123
|-1*1_3|-2*123
-2*12_|1_3|
|-1*1_3|
1__|123|123
-1*1__|-1*123|-1*123
12_ 13_|1_4|124 134
-1*12_ 2*15_|-1*1_4 1_6|-1*124 -1*134 136 2*156
13_|-1*1_6|-1*136 -2*156";

// rows of another width, rows that don't bind the key, and rows that aren't there
const NOT_TO_COME: &str = "1||
_2_||
-1*12_||
|-1*12_|";

// rows of both sides add up; one that changes sides stays
const UNIONS: &str = "2*1__ 32_|3*1__ _2_|5*1__ 32_ _2_
-2*1__|2*1__|";

// whether the join with this key answers as each of the texts tells
fn joins_so(alloc: Global, key: &[usize], texts: &[&str]) -> Result<bool, Refused> {
    for turns in texts {
        if !turns_out(alloc, joined(alloc, key)?, Told::Answered, turns)? {
            return Ok(false);
        }
    }
    Ok(true)
}

#[test]
fn pairs_of_a_key(rt: HostRuntime) -> Result<(), Fail> {
    assert!(rt; joins_so(rt.alloc(), &[0], &[PAIRS, BOTH])?);
    Ok(())
}

#[test]
fn without_a_key_each_row_meets_each(rt: HostRuntime) -> Result<(), Fail> {
    assert!(rt; joins_so(rt.alloc(), &[], &[PAIRS, BOTH, WITHOUT_KEY, UNBOUND])?);
    Ok(())
}

fn refuse_and_go_on<O: Binary<Same> + Drop>(
    alloc: Global,
    trial: &mut BinaryTrial<O>,
    refused: &str,
    turns: &str,
) -> Result<bool, Refused> {
    if !are_refused(alloc, trial, refused) {
        return Ok(false);
    }
    goes_on(alloc, trial, Told::Answered, turns)
}

// whether it refuses what may not come, and then answers as the turns tell
fn refuses_and_goes_on(alloc: Global, refused: &str, turns: &str) -> Result<bool, Refused> {
    let mut trial = joined(alloc, &[0])?;
    refuse_and_go_on(alloc, &mut trial, refused, turns)
}

#[test]
fn what_may_not_come_changes_nothing(rt: HostRuntime) -> Result<(), Fail> {
    assert!(rt; refuses_and_goes_on(rt.alloc(), NOT_TO_COME, PAIRS)?);
    Ok(())
}

fn unites_so(alloc: Global, turns: &str) -> Result<bool, Refused> {
    let trial: BinaryTrial<Joining> = BinaryTrial::new(
        alloc,
        Joining::new(WIDTH),
        WIDTH,
        Vec::new(alloc),
    )?;
    turns_out(alloc, trial, Told::Answered, turns)
}

#[test]
fn rows_of_both_sides_add_up(rt: HostRuntime) -> Result<(), Fail> {
    assert!(rt; unites_so(rt.alloc(), UNIONS)?);
    Ok(())
}
