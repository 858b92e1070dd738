// Small cases. A row has a key, a value, and a place for the aggregate.
use super::column::{Asked, Trial, begins_with, gives, groups, of_values, rows_counted};
use super::values::Line;
use rsp_functions::Kind;
use std::alloc::Global;
use std::test::Fail;

/// A change that the groups are given, and the one that they are to answer.
type Turn = (&'static [Line], &'static [Line]);

// whether the groups by these keys, with these aggregates, answer each turn as wanted
fn answer(
    alloc: Global,
    keys: &[usize],
    aggregates: &[Asked],
    turns: &[Turn],
) -> Result<bool, Fail> {
    let mut trial = groups(alloc, keys, aggregates)?;
    gives_each(alloc, &mut trial, turns)
}

fn gives_each(alloc: Global, trial: &mut Trial, turns: &[Turn]) -> Result<bool, Fail> {
    for (given, wanted) in turns {
        if !gives(alloc, trial, given, wanted)? {
            return Ok(false);
        }
    }
    Ok(true)
}

// whether they do by the first cell as a key, with this aggregate of all values and of each once
fn both_answer(alloc: Global, kind: Kind, turns: &[Turn]) -> Result<bool, Fail> {
    let each = answer(alloc, &[0], &[of_values(kind, false)], turns)?;
    let once = answer(alloc, &[0], &[of_values(kind, true)], turns)?;
    Ok(each && once)
}

#[test]
fn the_least_goes_and_the_next_is_found(rt: HostRuntime) -> Result<(), Fail> {
    let held = answer(
        rt.alloc(),
        &[],
        &[of_values(Kind::Min, false)],
        &[
            (
                &[(&["k", "i3", ""], 1), (&["k", "i5", ""], 1)],
                &[(&["", "", ""], -1), (&["", "", "i3"], 1)],
            ),
            (
                &[(&["k", "i3", ""], -1)],
                &[(&["", "", "i3"], -1), (&["", "", "i5"], 1)],
            ),
        ],
    )?;
    assert!(rt; held);
    Ok(())
}

#[test]
fn no_rows_without_keys_have_a_row(rt: HostRuntime) -> Result<(), Fail> {
    let alloc = rt.alloc();
    assert!(rt; begins_with(alloc, &[], &[rows_counted()], &[(&["", "", "i0"], 1)])?);
    assert!(rt;
        begins_with(
            alloc,
            &[],
            &[of_values(Kind::Min, false)],
            &[(&["", "", ""], 1)]
        )?
    );
    assert!(rt;
        begins_with(
            alloc,
            &[],
            &[of_values(Kind::Avg, true)],
            &[(&["", "", "i0"], 1)]
        )?
    );
    Ok(())
}

#[test]
fn no_rows_by_keys_have_none(rt: HostRuntime) -> Result<(), Fail> {
    assert!(rt; begins_with(rt.alloc(), &[0], &[rows_counted()], &[])?);
    Ok(())
}

#[test]
fn rows_are_counted_without_keys(rt: HostRuntime) -> Result<(), Fail> {
    let held = answer(
        rt.alloc(),
        &[],
        &[rows_counted()],
        &[
            (
                &[(&["k", "", ""], 1)],
                &[(&["", "", "i0"], -1), (&["", "", "i1"], 1)],
            ),
            (
                &[(&["k", "", ""], -1)],
                &[(&["", "", "i1"], -1), (&["", "", "i0"], 1)],
            ),
        ],
    )?;
    assert!(rt; held);
    Ok(())
}

#[test]
fn an_error_is_given_back(rt: HostRuntime) -> Result<(), Fail> {
    let held = answer(
        rt.alloc(),
        &[],
        &[of_values(Kind::Sum, false)],
        &[
            (
                &[(&["k", "i1", ""], 1), (&["k", "", ""], 1)],
                &[(&["", "", "i0"], -1), (&["", "", ""], 1)],
            ),
            (
                &[(&["k", "", ""], -1)],
                &[(&["", "", ""], -1), (&["", "", "i1"], 1)],
            ),
        ],
    )?;
    assert!(rt; held);
    Ok(())
}

#[test]
fn a_copy_is_given_back_while_another_stays(rt: HostRuntime) -> Result<(), Fail> {
    let held = answer(
        rt.alloc(),
        &[],
        &[of_values(Kind::Sum, true)],
        &[
            (
                &[(&["k", "i2", ""], 2)],
                &[(&["", "", "i0"], -1), (&["", "", "i2"], 1)],
            ),
            (&[(&["k", "i2", ""], -1)], &[]),
            (
                &[(&["k", "i2", ""], -1)],
                &[(&["", "", "i2"], -1), (&["", "", "i0"], 1)],
            ),
        ],
    )?;
    assert!(rt; held);
    Ok(())
}

#[test]
fn all_rows_go_as_others_come(rt: HostRuntime) -> Result<(), Fail> {
    let held = answer(
        rt.alloc(),
        &[0],
        &[of_values(Kind::Sum, false)],
        &[
            (&[(&["a", "i1", ""], 1)], &[(&["a", "", "i1"], 1)]),
            (
                &[
                    (&["a", "i1", ""], -1),
                    (&["a", "i7", ""], 1),
                    (&["b", "i2", ""], 1),
                ],
                &[
                    (&["a", "", "i1"], -1),
                    (&["a", "", "i7"], 1),
                    (&["b", "", "i2"], 1),
                ],
            ),
            (&[(&["a", "i7", ""], -1)], &[(&["a", "", "i7"], -1)]),
            (&[(&["a", "i4", ""], 1)], &[(&["a", "", "i4"], 1)]),
        ],
    )?;
    assert!(rt; held);
    Ok(())
}

#[test]
fn a_count_changes_and_its_groups_row_stays(rt: HostRuntime) -> Result<(), Fail> {
    let held = answer(
        rt.alloc(),
        &[0],
        &[of_values(Kind::Max, false)],
        &[
            (&[(&["a", "i4", ""], 1)], &[(&["a", "", "i4"], 1)]),
            (&[(&["a", "i4", ""], 3)], &[]),
            (&[(&["a", "i2", ""], 1), (&["a", "i4", ""], -3)], &[]),
        ],
    )?;
    assert!(rt; held);
    Ok(())
}

#[test]
fn an_unbound_key_is_a_key(rt: HostRuntime) -> Result<(), Fail> {
    let held = answer(
        rt.alloc(),
        &[0],
        &[rows_counted()],
        &[
            (
                &[(&["", "i1", ""], 1), (&["a", "i1", ""], 2)],
                &[(&["", "", "i1"], 1), (&["a", "", "i2"], 1)],
            ),
            (&[(&["", "i1", ""], -1)], &[(&["", "", "i1"], -1)]),
        ],
    )?;
    assert!(rt; held);
    Ok(())
}

#[test]
fn a_key_stands_twice(rt: HostRuntime) -> Result<(), Fail> {
    let held = answer(
        rt.alloc(),
        &[0, 0],
        &[rows_counted()],
        &[(&[(&["a", "i1", ""], 2)], &[(&["a", "", "i2"], 1)])],
    )?;
    assert!(rt; held);
    Ok(())
}

#[test]
fn an_aggregate_takes_a_keys_place(rt: HostRuntime) -> Result<(), Fail> {
    let held = answer(
        rt.alloc(),
        &[0],
        &[Asked {
            variable: 0,
            argument: 1,
            kind: Kind::Sum,
            distinct: false,
            star: false,
        }],
        &[
            (
                &[(&["a", "i1", ""], 1), (&["b", "i1", ""], 1)],
                &[(&["i1", "", ""], 2)],
            ),
            (&[(&["b", "i1", ""], -1)], &[(&["i1", "", ""], -1)]),
        ],
    )?;
    assert!(rt; held);
    Ok(())
}

#[test]
fn two_aggregates_stand_in_a_row(rt: HostRuntime) -> Result<(), Fail> {
    let held = answer(
        rt.alloc(),
        &[0],
        &[
            Asked {
                variable: 1,
                argument: 1,
                kind: Kind::Avg,
                distinct: true,
                star: false,
            },
            rows_counted(),
        ],
        &[(
            &[(&["a", "i1", ""], 2), (&["a", "i4", ""], 1)],
            &[(&["a", "d2.5", "i3"], 1)],
        )],
    )?;
    assert!(rt; held);
    Ok(())
}

#[test]
fn the_least_goes_while_a_copy_stays(rt: HostRuntime) -> Result<(), Fail> {
    let held = both_answer(
        rt.alloc(),
        Kind::Min,
        &[
            (
                &[(&["a", "i1", ""], 2), (&["a", "i2", ""], 1)],
                &[(&["a", "", "i1"], 1)],
            ),
            (&[(&["a", "i1", ""], -1)], &[]),
            (
                &[(&["a", "i1", ""], -1)],
                &[(&["a", "", "i1"], -1), (&["a", "", "i2"], 1)],
            ),
        ],
    )?;
    assert!(rt; held);
    Ok(())
}

#[test]
fn two_texts_of_a_number_are_two_values(rt: HostRuntime) -> Result<(), Fail> {
    let held = answer(
        rt.alloc(),
        &[0],
        &[of_values(Kind::Max, false)],
        &[
            (
                &[(&["a", "i01", ""], 1), (&["a", "i1", ""], 1)],
                &[(&["a", "", "i1"], 1)],
            ),
            (
                &[(&["a", "i1", ""], -1)],
                &[(&["a", "", "i1"], -1), (&["a", "", "i01"], 1)],
            ),
        ],
    )?;
    assert!(rt; held);
    Ok(())
}

#[test]
fn what_spoils_a_sum_comes_and_goes(rt: HostRuntime) -> Result<(), Fail> {
    let held = both_answer(
        rt.alloc(),
        Kind::Sum,
        &[
            (&[(&["a", "i2", ""], 1)], &[(&["a", "", "i2"], 1)]),
            (
                &[(&["a", "", ""], 2)],
                &[(&["a", "", "i2"], -1), (&["a", "", ""], 1)],
            ),
            (&[(&["a", "", ""], -1)], &[]),
            (
                &[(&["a", "", ""], -1)],
                &[(&["a", "", ""], -1), (&["a", "", "i2"], 1)],
            ),
            (
                &[(&["a", "sx", ""], 1)],
                &[(&["a", "", "i2"], -1), (&["a", "", ""], 1)],
            ),
            (
                &[(&["a", "sx", ""], -1)],
                &[(&["a", "", ""], -1), (&["a", "", "i2"], 1)],
            ),
        ],
    )?;
    assert!(rt; held);
    Ok(())
}

#[test]
fn what_spoils_an_average_comes_and_goes(rt: HostRuntime) -> Result<(), Fail> {
    let held = both_answer(
        rt.alloc(),
        Kind::Avg,
        &[
            (&[(&["a", "i2", ""], 1)], &[(&["a", "", "d2"], 1)]),
            (
                &[(&["a", "", ""], 2)],
                &[(&["a", "", "d2"], -1), (&["a", "", ""], 1)],
            ),
            (&[(&["a", "", ""], -1)], &[]),
            (
                &[(&["a", "", ""], -1)],
                &[(&["a", "", ""], -1), (&["a", "", "d2"], 1)],
            ),
            (
                &[(&["a", "sx", ""], 1)],
                &[(&["a", "", "d2"], -1), (&["a", "", ""], 1)],
            ),
            (
                &[(&["a", "sx", ""], -1)],
                &[(&["a", "", ""], -1), (&["a", "", "d2"], 1)],
            ),
        ],
    )?;
    assert!(rt; held);
    Ok(())
}

#[test]
fn an_error_spoils_the_least_as_long_as_it_is_in(rt: HostRuntime) -> Result<(), Fail> {
    let held = both_answer(
        rt.alloc(),
        Kind::Min,
        &[
            (&[(&["a", "i2", ""], 1)], &[(&["a", "", "i2"], 1)]),
            (
                &[(&["a", "", ""], 2)],
                &[(&["a", "", "i2"], -1), (&["a", "", ""], 1)],
            ),
            (&[(&["a", "", ""], -1)], &[]),
            (
                &[(&["a", "", ""], -1)],
                &[(&["a", "", ""], -1), (&["a", "", "i2"], 1)],
            ),
        ],
    )?;
    assert!(rt; held);
    Ok(())
}

#[test]
fn an_error_spoils_the_greatest_as_long_as_it_is_in(rt: HostRuntime) -> Result<(), Fail> {
    let held = both_answer(
        rt.alloc(),
        Kind::Max,
        &[
            (&[(&["a", "i2", ""], 1)], &[(&["a", "", "i2"], 1)]),
            (
                &[(&["a", "", ""], 2)],
                &[(&["a", "", "i2"], -1), (&["a", "", ""], 1)],
            ),
            (&[(&["a", "", ""], -1)], &[]),
            (
                &[(&["a", "", ""], -1)],
                &[(&["a", "", ""], -1), (&["a", "", "i2"], 1)],
            ),
        ],
    )?;
    assert!(rt; held);
    Ok(())
}

#[test]
fn an_error_counts_nothing(rt: HostRuntime) -> Result<(), Fail> {
    let held = both_answer(
        rt.alloc(),
        Kind::Count,
        &[
            (&[(&["a", "i2", ""], 1)], &[(&["a", "", "i1"], 1)]),
            (&[(&["a", "", ""], 2)], &[]),
            (
                &[(&["a", "sx", ""], 1)],
                &[(&["a", "", "i1"], -1), (&["a", "", "i2"], 1)],
            ),
            (&[(&["a", "", ""], -2)], &[]),
        ],
    )?;
    assert!(rt; held);
    Ok(())
}

#[test]
fn a_sum_passes_the_range_and_comes_back(rt: HostRuntime) -> Result<(), Fail> {
    let held = both_answer(
        rt.alloc(),
        Kind::Sum,
        &[
            (
                &[(&["a", "i9223372036854775807", ""], 1)],
                &[(&["a", "", "i9223372036854775807"], 1)],
            ),
            (
                &[(&["a", "i1", ""], 1)],
                &[
                    (&["a", "", "i9223372036854775807"], -1),
                    (&["a", "", ""], 1),
                ],
            ),
            (
                &[(&["a", "i1", ""], -1)],
                &[
                    (&["a", "", ""], -1),
                    (&["a", "", "i9223372036854775807"], 1),
                ],
            ),
        ],
    )?;
    assert!(rt; held);
    Ok(())
}

#[test]
fn the_last_decimal_goes(rt: HostRuntime) -> Result<(), Fail> {
    let held = both_answer(
        rt.alloc(),
        Kind::Sum,
        &[
            (
                &[(&["a", "d1.5", ""], 1), (&["a", "i2", ""], 1)],
                &[(&["a", "", "d3.5"], 1)],
            ),
            (
                &[(&["a", "d1.5", ""], -1)],
                &[(&["a", "", "d3.5"], -1), (&["a", "", "i2"], 1)],
            ),
        ],
    )?;
    assert!(rt; held);
    Ok(())
}

#[test]
fn nothing_is_cut_on_the_way(rt: HostRuntime) -> Result<(), Fail> {
    let held = answer(
        rt.alloc(),
        &[0],
        &[of_values(Kind::Sum, false)],
        &[
            (
                &[
                    (&["a", "d0.000000000000000001", ""], 1),
                    (&["a", "i9000000000000000000", ""], 1),
                ],
                &[(&["a", "", "d9000000000000000000"], 1)],
            ),
            (
                &[(&["a", "i9000000000000000000", ""], -1)],
                &[
                    (&["a", "", "d9000000000000000000"], -1),
                    (&["a", "", "d0.000000000000000001"], 1),
                ],
            ),
        ],
    )?;
    assert!(rt; held);
    Ok(())
}

#[test]
fn values_and_not_rows_make_an_average(rt: HostRuntime) -> Result<(), Fail> {
    let held = answer(
        rt.alloc(),
        &[0],
        &[of_values(Kind::Avg, true)],
        &[(
            &[(&["a", "i1", ""], 2), (&["a", "i4", ""], 1)],
            &[(&["a", "", "d2.5"], 1)],
        )],
    )?;
    assert!(rt; held);
    Ok(())
}

#[test]
fn the_least_of_terms_of_each_kind(rt: HostRuntime) -> Result<(), Fail> {
    let held = both_answer(
        rt.alloc(),
        Kind::Min,
        &[
            (
                &[
                    (&["a", "_b", ""], 1),
                    (&["a", "x:1", ""], 1),
                    (&["a", "i5", ""], 1),
                    (&["a", "sz", ""], 1),
                ],
                &[(&["a", "", "_b"], 1)],
            ),
            (
                &[(&["a", "_b", ""], -1)],
                &[(&["a", "", "_b"], -1), (&["a", "", "x:1"], 1)],
            ),
            (
                &[(&["a", "x:1", ""], -1)],
                &[(&["a", "", "x:1"], -1), (&["a", "", "i5"], 1)],
            ),
            (
                &[(&["a", "i5", ""], -1)],
                &[(&["a", "", "i5"], -1), (&["a", "", "sz"], 1)],
            ),
        ],
    )?;
    assert!(rt; held);
    Ok(())
}

fn takes_so_many_rows(alloc: Global) -> Result<bool, Fail> {
    let mut trial = groups(alloc, &[0], &[rows_counted()])?;
    takes_no_more(alloc, &mut trial)
}

fn takes_no_more(alloc: Global, trial: &mut Trial) -> Result<bool, Fail> {
    let all = gives(
        alloc,
        trial,
        &[(&["a", "", ""], 4294967296)],
        &[(&["a", "", "i4294967296"], 1)],
    )?;
    Ok(all && gives(alloc, trial, &[(&["a", "", ""], 1)], &[]).is_err())
}

#[test]
fn a_group_has_at_most_so_many_rows(rt: HostRuntime) -> Result<(), Fail> {
    assert!(rt; takes_so_many_rows(rt.alloc())?);
    Ok(())
}
