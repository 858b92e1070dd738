// Changes and turns from short texts.
use rsp_multiset::{Changes, Row};
use rsp_operators::{Binary, Unary};
use rsp_terms::{Same, Term};
use rsp_trials::{BinaryTrial, Refused, UnaryTrial, are_same, numbered};
use std::alloc::{AllocError, Global};

/// Which rows a turn's last part tells of.
#[derive(Clone, Copy)]
pub(crate) enum Told {
    /// Those that the operator answers.
    Answered,
    /// The left rows that it doesn't answer.
    Others,
}

// the cells for 0 to 9 of these characters; a cell is unbound where the character is another
fn row_of(alloc: Global, cells: &str) -> Result<Row<Term>, AllocError> {
    let mut numbers = Vec::new(alloc);
    for letter in cells.chars() {
        numbers.push(number_of(letter))?;
    }
    numbered(alloc, &numbers)
}

fn number_of(letter: char) -> u64 {
    match letter.to_digit(10) {
        Some(digit) => u64::from(digit),
        None => 0,
    }
}

/// The change by these words, each how often a row comes or, below 0, goes, and its cells: `2*1_3 -1*12_`.
pub(crate) fn change_of(alloc: Global, words: &str) -> Result<Changes<Row<Term>>, AllocError> {
    let mut change = Changes::new(alloc);
    add_words(alloc, &mut change, words)?;
    Ok(change)
}

fn add_words(
    alloc: Global,
    change: &mut Changes<Row<Term>>,
    words: &str,
) -> Result<(), AllocError> {
    for word in words.split_whitespace() {
        add_word(alloc, change, word)?;
    }
    Ok(())
}

fn add_word(alloc: Global, change: &mut Changes<Row<Term>>, word: &str) -> Result<(), AllocError> {
    let (times, cells) = word.split_once('*').unwrap_or(("1", word));
    let by: i64 = times.parse().unwrap_or(0);
    change.alter(row_of(alloc, cells)?, by)
}

// whether the answer to the left rows is as the turn's last part tells
fn is_told(
    alloc: Global,
    told: Told,
    left: &Changes<Row<Term>>,
    net: &Changes<Row<Term>>,
    rows: &str,
) -> Result<bool, AllocError> {
    let mut rows = change_of(alloc, rows)?;
    match told {
        Told::Answered => are_same(alloc, net, &rows),
        Told::Others => {
            rows.add_changes(net)?;
            are_same(alloc, left, &rows)
        }
    }
}

fn given_right<O: Binary<Same> + Drop>(
    alloc: Global,
    trial: &mut BinaryTrial<O>,
    left: &Changes<Row<Term>>,
    right: &str,
) -> Result<Changes<Row<Term>>, Refused> {
    let right = change_of(alloc, right)?;
    trial.change(alloc, left, &right)
}

fn answers_sides<O: Binary<Same> + Drop>(
    alloc: Global,
    trial: &mut BinaryTrial<O>,
    told: Told,
    left: &str,
    right: &str,
    rows: &str,
) -> Result<bool, Refused> {
    let left = change_of(alloc, left)?;
    let net = given_right(alloc, trial, &left, right)?;
    Ok(is_told(alloc, told, &left, &net, rows)?)
}

/// Whether the operator answers the turn as it tells: `LEFT|RIGHT|ROWS`.
pub(crate) fn answers<O: Binary<Same> + Drop>(
    alloc: Global,
    trial: &mut BinaryTrial<O>,
    told: Told,
    turn: &str,
) -> Result<bool, Refused> {
    let (left, rest) = turn.split_once('|').unwrap_or((turn, ""));
    let (right, rows) = rest.split_once('|').unwrap_or((rest, ""));
    answers_sides(alloc, trial, told, left, right, rows)
}

/// Whether the operator answers each turn as it tells, a line each.
pub(crate) fn goes_on<O: Binary<Same> + Drop>(
    alloc: Global,
    trial: &mut BinaryTrial<O>,
    told: Told,
    turns: &str,
) -> Result<bool, Refused> {
    for turn in turns.lines() {
        if !answers(alloc, trial, told, turn)? {
            return Ok(false);
        }
    }
    Ok(true)
}

/// The same of an operator that is given.
pub(crate) fn turns_out<O: Binary<Same> + Drop>(
    alloc: Global,
    mut trial: BinaryTrial<O>,
    told: Told,
    turns: &str,
) -> Result<bool, Refused> {
    goes_on(alloc, &mut trial, told, turns)
}

/// Whether each turn is refused.
pub(crate) fn are_refused<O: Binary<Same> + Drop>(
    alloc: Global,
    trial: &mut BinaryTrial<O>,
    turns: &str,
) -> bool {
    for turn in turns.lines() {
        if !answers(alloc, trial, Told::Answered, turn).is_err() {
            return false;
        }
    }
    true
}

fn single_answers<O: Unary<Same> + Drop>(
    alloc: Global,
    trial: &mut UnaryTrial<O>,
    turn: &str,
) -> Result<bool, Refused> {
    let (rows, answer) = turn.split_once("||").unwrap_or((turn, ""));
    let change = change_of(alloc, rows)?;
    let net = trial.change(alloc, &change)?;
    Ok(is_told(alloc, Told::Answered, &change, &net, answer)?)
}

fn single_goes_on<O: Unary<Same> + Drop>(
    alloc: Global,
    trial: &mut UnaryTrial<O>,
    turns: &str,
) -> Result<bool, Refused> {
    for turn in turns.lines() {
        if !single_answers(alloc, trial, turn)? {
            return Ok(false);
        }
    }
    Ok(true)
}

/// Whether the operator on one input answers each turn as it tells, a line each: `ROWS||ANSWER`.
pub(crate) fn single_turns_out<O: Unary<Same> + Drop>(
    alloc: Global,
    mut trial: UnaryTrial<O>,
    turns: &str,
) -> Result<bool, Refused> {
    single_goes_on(alloc, &mut trial, turns)
}
