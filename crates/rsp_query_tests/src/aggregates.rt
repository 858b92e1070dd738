// Values of aggregates, worked out by hand from SPARQL 1.1 Query, section 18.5.1.
use crate::notation::constant;
use rsp_expr::{Aggregate, Expression, Kind};
use rsp_multiset::Row;
use rsp_terms::Term;
use rsp_values::aggregate_value;
use std::alloc::{AllocError, Global};
use std::test::Fail;

fn kind_of(name: &str) -> Option<Kind> {
    match name {
        "COUNT" => Some(Kind::Count),
        "SUM" => Some(Kind::Sum),
        "AVG" => Some(Kind::Avg),
        "MIN" => Some(Kind::Min),
        "MAX" => Some(Kind::Max),
        _ => None,
    }
}

// a kind, and behind it `DISTINCT`, or `*` for no argument; the argument is the one variable of the rows
fn aggregate(words: &str) -> Result<Aggregate, Fail> {
    let (name, behind) = words.split_once(' ').unwrap_or((words, ""));
    let argument = match behind {
        "*" => None,
        _ => Some(Expression::Variable(0)),
    };
    Ok(Aggregate {
        kind: kind_of(name).ok_or("no kind")?,
        distinct: behind == "DISTINCT",
        argument,
    })
}

// a row whose variable has the value; `error` leaves it unbound
fn row(alloc: Global, word: &str) -> Result<Row<Term>, AllocError> {
    let mut cells = Vec::new(alloc);
    cells.push(constant(alloc, word)?)?;
    Ok(Row::new(cells))
}

fn rows(alloc: Global, values: &str) -> Result<Vec<Row<Term>>, AllocError> {
    let mut rows = Vec::new(alloc);
    if values.is_empty() {
        return Ok(rows);
    }
    for word in values.split('|') {
        rows.push(row(alloc, word)?)?;
    }
    Ok(rows)
}

fn has_value(alloc: Global, words: &str, values: &str, wanted: &str) -> Result<bool, Fail> {
    let found = aggregate_value(alloc, &aggregate(words)?, &rows(alloc, values)?)?;
    Ok(found == constant(alloc, wanted)?)
}

// a case a line: an aggregate, `/`, the values in the rows with `|` between, ` => `, and the aggregate's value
fn first_wrong(alloc: Global, cases: &str) -> Result<Option<&str>, Fail> {
    for case in cases.lines() {
        let (group, wanted) = case.split_once(" => ").ok_or("no case")?;
        let (words, values) = group.split_once('/').ok_or("no group")?;
        if !has_value(alloc, words, values, wanted)? {
            return Ok(Some(case));
        }
    }
    Ok(None)
}

const COUNTS: &str = r#"COUNT/ => 0
COUNT/1|"a|<a:1>|1 => 4
COUNT/1|error|2|error => 2
COUNT/error => 0
COUNT DISTINCT/1|1|2 => 2
COUNT DISTINCT/1|01|"1|1|"1 => 3
COUNT DISTINCT/1|error|error|1 => 1
COUNT */ => 0
COUNT */1|error|1 => 3"#;

#[test]
fn counts(rt: HostRuntime) -> Result<(), Fail> {
    assert_eq!(rt; first_wrong(rt.alloc(), COUNTS)?, None);
    Ok(())
}

const SUMS: &str = r#"SUM/ => 0
SUM/1|2|3 => 6
SUM/2|0.5|2 => 4.5
SUM/1|^decimal:1.0 => ^decimal:2
SUM/^byte:2|^nonNegativeInteger:3 => 5
SUM/1|error => error
SUM/1|"2 => error
SUM/1|<a:1> => error
SUM/9223372036854775807|1 => error
SUM/9223372036854775807|1|-1 => 9223372036854775807
SUM DISTINCT/ => 0
SUM DISTINCT/2|2|0.5 => 2.5
SUM DISTINCT/1|01|1 => 2
SUM DISTINCT/1|error|error => error
AVG/ => 0
AVG/1|2 => 1.5
AVG/2|4 => ^decimal:3
AVG/1|0.5 => 0.75
AVG/1|1|2 => 1.333333333333333333
AVG/-1|-1|-2 => -1.333333333333333333
AVG/1|error => error
AVG/1|true => error
AVG/9223372036854775807|9223372036854775807 => error
AVG DISTINCT/1|1|4 => 2.5
AVG DISTINCT/error|1 => error"#;

#[test]
fn sums_and_averages(rt: HostRuntime) -> Result<(), Fail> {
    assert_eq!(rt; first_wrong(rt.alloc(), SUMS)?, None);
    Ok(())
}

const EXTREMES: &str = r#"MIN/ => error
MIN/10|9|2.5 => 2.5
MIN/1|<a:1>|"a|_:b => _:b
MIN/<a:2>|"a|<a:10> => <a:10>
MIN/"a|1 => 1
MIN/10.0|10|010 => 010
MIN/1|error => error
MIN DISTINCT/2|1|1 => 1
MIN DISTINCT/error|error => error
MAX/ => error
MAX/9|10|2.5 => 10
MAX/1|"a|<a:1>|_:b => "a
MAX/<a:2>|<a:10>|_:z => <a:2>
MAX/010|10.0|10 => 10.0
MAX/error|1 => error
MAX DISTINCT/2|1|2 => 2
MAX DISTINCT/1|error => error"#;

#[test]
fn least_and_greatest(rt: HostRuntime) -> Result<(), Fail> {
    assert_eq!(rt; first_wrong(rt.alloc(), EXTREMES)?, None);
    Ok(())
}
