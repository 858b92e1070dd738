// The outer join, turn by turn.
use crate::conditions::{Always, equal_to};
use crate::notation::{Told, turns_out};
use crate::trials::left_join;
use rsp_operators::Condition;
use rsp_outer::CompatibleWhere;
use rsp_terms::Same;
use rsp_trials::Refused;
use std::alloc::Global;
use std::test::Fail;

// whether the outer join with this condition answers as the turns tell
fn is_joined<C: Condition<Same> + Drop>(
    alloc: Global,
    key: &[usize],
    condition: C,
    turns: &str,
) -> Result<bool, Refused> {
    let pairing = CompatibleWhere::new(Vec::from_slice(alloc, key)?, condition);
    turns_out(alloc, left_join(alloc, pairing)?, Told::Answered, turns)
}

// whether it answers as each of the texts tells, on no condition
fn are_joined(alloc: Global, key: &[usize], texts: &[&str]) -> Result<bool, Refused> {
    for turns in texts {
        if !is_joined(alloc, key, Always {}, turns)? {
            return Ok(false);
        }
    }
    Ok(true)
}

// a partner comes and goes
const COMES: &str = "12_||12_
|1_3|-1*12_ 123
|-1*1_3|-1*123 12_";

// both sides change in one turn
const BOTH: &str = "12_|1_3|123
14_|-1*1_3|-1*123 12_ 14_
-1*14_|1_3|-1*14_ -1*12_ 123
-1*12_|-1*1_3|-1*123";

// a row comes back to other partners
const BACK: &str = "12_|1_3|123
-1*12_||-1*123
|-1*1_3 1_5 1_6|
12_||125 126
-1*12_||-1*125 -1*126
|-1*1_5 -1*1_6|
12_||12_";

// a partner is one, whatever its count
const COPIES: &str = "3*12_|2*1_3|6*123
|-1*1_3|-3*123
|-1*1_3|-3*123 3*12_
-1*12_||-1*12_";

// of two partners one goes, and the other is replaced
const REPLACED: &str = "12_|1_3 1_4|123 124
|-1*1_3|-1*123
|-1*1_4 1_5|-1*124 125
|-1*1_5|-1*125 12_";

// a partner by a place that the left leaves unbound
const UNBOUND: &str = "1__ 12_|14_|14_ 12_
|12_|12_
|-1*14_|-1*14_
|-1*12_|-1*12_ 1__";

// without a key each right row meets all
const EACH: &str = "_2_ 14_||_2_ 14_
|__3|-1*_2_ -1*14_ _23 143
|2_5|225
-1*14_|-1*__3|-1*_23 -1*143";

// a condition by a variable of the left: false on the first row's merge; on the third row it is asked of the merge
const OF_THE_LEFT: &str = "14_ 12_||14_ 12_
|1_3|-1*12_ 123
1__||1__
|12_|-1*1__ 2*12_";

// a condition by a variable of the right: false, an error, and true
const OF_THE_RIGHT: &str = "12_|1_4|12_
|1__|
|1_3|-1*12_ 123
|-1*1_4 -1*1__|
|-1*1_3|-1*123 12_";

#[test]
fn by_key(rt: HostRuntime) -> Result<(), Fail> {
    assert!(rt;
        are_joined(
            rt.alloc(),
            &[0],
            &[COMES, BOTH, BACK, COPIES, REPLACED, UNBOUND]
        )?
    );
    Ok(())
}

#[test]
fn without_a_key(rt: HostRuntime) -> Result<(), Fail> {
    assert!(rt;
        are_joined(
            rt.alloc(),
            &[],
            &[COMES, BOTH, BACK, COPIES, REPLACED, UNBOUND, EACH]
        )?
    );
    Ok(())
}

#[test]
fn on_a_condition(rt: HostRuntime) -> Result<(), Fail> {
    let alloc = rt.alloc();
    assert!(rt; is_joined(alloc, &[0], equal_to(alloc, 1, "n:2")?, OF_THE_LEFT)?);
    assert!(rt; is_joined(alloc, &[0], equal_to(alloc, 2, "n:3")?, OF_THE_RIGHT)?);
    Ok(())
}
