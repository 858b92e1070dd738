// Left rows without a partner, and those with one, turn by turn. Each turn tells how the rows without a partner change.
use crate::conditions::{Always, equal_to};
use crate::notation::{Told, turns_out};
use crate::trials::{anti, keyed_anti, keyed_semi, semi};
use rsp_operators::Condition;
use rsp_outer::{CompatibleSharing, CompatibleWhere, ExistsOp, MinusOp, NotExistsOp};
use rsp_terms::Same;
use rsp_trials::{BinaryTrial, Refused};
use std::alloc::Global;
use std::test::Fail;

fn not_exists<C: Condition<Same> + Drop>(
    alloc: Global,
    key: &[usize],
    condition: C,
    turns: &str,
) -> Result<bool, Refused> {
    let pairing = CompatibleWhere::new(Vec::from_slice(alloc, key)?, condition);
    let trial: BinaryTrial<NotExistsOp<Same, C>> = anti(alloc, pairing)?;
    turns_out(alloc, trial, Told::Answered, turns)
}

fn exists<C: Condition<Same> + Drop>(
    alloc: Global,
    key: &[usize],
    condition: C,
    turns: &str,
) -> Result<bool, Refused> {
    let pairing = CompatibleWhere::new(Vec::from_slice(alloc, key)?, condition);
    let trial: BinaryTrial<ExistsOp<Same, C>> = semi(alloc, pairing)?;
    turns_out(alloc, trial, Told::Others, turns)
}

// those without a row of their key, and those with one
fn by_key_alone(alloc: Global, key: &[usize], turns: &str) -> Result<bool, Refused> {
    let without = turns_out(alloc, keyed_anti(alloc, key)?, Told::Answered, turns)?;
    Ok(without && turns_out(alloc, keyed_semi(alloc, key)?, Told::Others, turns)?)
}

fn minus(alloc: Global, key: &[usize], turns: &str) -> Result<bool, Refused> {
    let pairing = CompatibleSharing::new(Vec::from_slice(alloc, key)?);
    let trial: BinaryTrial<MinusOp<Same>> = anti(alloc, pairing)?;
    turns_out(alloc, trial, Told::Answered, turns)
}

// the operators on trial
#[derive(Clone, Copy)]
enum Form {
    NotExists,
    Exists,
    Minus,
    ByKeyAlone,
}

fn is_answered(alloc: Global, form: Form, key: &[usize], turns: &str) -> Result<bool, Refused> {
    match form {
        Form::NotExists => not_exists(alloc, key, Always {}, turns),
        Form::Exists => exists(alloc, key, Always {}, turns),
        Form::Minus => minus(alloc, key, turns),
        Form::ByKeyAlone => by_key_alone(alloc, key, turns),
    }
}

// by the first cell as a key, those without a partner and those with one
fn on_condition(alloc: Global, variable: usize, cell: &str, turns: &str) -> Result<bool, Refused> {
    let without = not_exists(alloc, &[0], equal_to(alloc, variable, cell)?, turns)?;
    Ok(without && exists(alloc, &[0], equal_to(alloc, variable, cell)?, turns)?)
}

// both sides change in one turn
const BOTH: &str = "12_|1_3|
14_|-1*1_3|12_ 14_
-1*14_|1_3|-1*14_ -1*12_
-1*12_|-1*1_3|";

// a row comes back to other partners
const BACK: &str = "12_|1_3|
-1*12_||
|-1*1_3|
12_||12_
-1*12_||-1*12_
|1_5 1_6|
12_||
|-1*1_5|
|-1*1_6|12_";

// a partner is one, whatever its count, and may be replaced
const COPIES: &str = "3*12_ 22_|2*1_3|22_
|-1*1_3|
|1_4|
|-1*1_3|
|-1*1_4 1_5|
|-1*1_5|3*12_
-1*12_|2_3|-1*12_ -1*22_";

// a partner by a place that the left leaves unbound
const UNBOUND: &str = "1__ 12_|14_|12_
|12_|-1*12_
|-1*14_|
|-1*12_|1__ 12_";

// a condition by a variable of the left: false on the first row's merge; on the third row it is asked of the merge
const OF_THE_LEFT: &str = "14_ 12_||14_ 12_
|1_3|-1*12_
1__||1__
|12_|-1*1__
|-1*12_|1__
|-1*1_3|12_";

// a condition by a variable of the right: false, an error, and true
const OF_THE_RIGHT: &str = "12_|1_4|12_
|1__|
|1_3|-1*12_
|-1*1_4 -1*1__|
|-1*1_3|12_";

// the first right row shares nothing with the left's, and the last two share one variable of two
const SHARED: &str = "1__||1__
|_2_|
|1__|-1*1__
|-1*1__|1__
|13_|-1*1__
14_||14_
|_4_|-1*14_";

// with nothing shared
const NOTHING: &str = "1__||1__
|_2_|-1*1__
|-1*_2_|1__";

// any right row is enough
const ANY: &str = "12_ 2*34_||12_ 2*34_
|567|-1*12_ -2*34_
|568|
9__|-1*567|
|-1*568|12_ 2*34_ 9__";

// whether a form of negation answers as each of the texts tells
fn answers_so(alloc: Global, form: Form, key: &[usize], texts: &[&str]) -> Result<bool, Refused> {
    for turns in texts {
        if !is_answered(alloc, form, key, turns)? {
            return Ok(false);
        }
    }
    Ok(true)
}

#[test]
fn not_exists_by_key(rt: HostRuntime) -> Result<(), Fail> {
    assert!(rt;
        answers_so(
            rt.alloc(),
            Form::NotExists,
            &[0],
            &[BOTH, BACK, COPIES, UNBOUND]
        )?
    );
    Ok(())
}

#[test]
fn exists_by_key(rt: HostRuntime) -> Result<(), Fail> {
    assert!(rt;
        answers_so(
            rt.alloc(),
            Form::Exists,
            &[0],
            &[BOTH, BACK, COPIES, UNBOUND]
        )?
    );
    Ok(())
}

#[test]
fn by_a_key_that_decides(rt: HostRuntime) -> Result<(), Fail> {
    assert!(rt; answers_so(rt.alloc(), Form::ByKeyAlone, &[0], &[BOTH, BACK, COPIES])?);
    assert!(rt; answers_so(rt.alloc(), Form::ByKeyAlone, &[], &[ANY])?);
    Ok(())
}

#[test]
fn minus_asks_for_a_shared_variable(rt: HostRuntime) -> Result<(), Fail> {
    assert!(rt; answers_so(rt.alloc(), Form::Minus, &[0], &[BOTH, BACK, COPIES])?);
    assert!(rt; answers_so(rt.alloc(), Form::Minus, &[], &[UNBOUND, SHARED])?);
    Ok(())
}

#[test]
fn not_exists_asks_for_none(rt: HostRuntime) -> Result<(), Fail> {
    assert!(rt; answers_so(rt.alloc(), Form::NotExists, &[], &[UNBOUND, NOTHING])?);
    assert!(rt; answers_so(rt.alloc(), Form::Exists, &[], &[UNBOUND, NOTHING])?);
    Ok(())
}

#[test]
fn a_condition_is_false_or_an_error(rt: HostRuntime) -> Result<(), Fail> {
    assert!(rt; on_condition(rt.alloc(), 1, "n:2", OF_THE_LEFT)?);
    assert!(rt; on_condition(rt.alloc(), 2, "n:3", OF_THE_RIGHT)?);
    Ok(())
}
