// Rows in order, what stream operators report, and the texts of reports.
use rsp_multiset::{Bag, Changes, Row};
use rsp_streams_out::{Operator, ordered, overfull_text, report_json, report_text, row_text, turn};
use rsp_terms::{Listed, Term, Text, XSD_STRING};
use std::alloc::{AllocError, Global};
use std::test::Fail;

// a row of IRIs; the empty text is an unbound cell
fn row(alloc: Global, iris: &[&str]) -> Result<Row<Term>, AllocError> {
    let mut cells = Vec::new(alloc);
    for text in iris {
        cells.push(cell(alloc, text)?)?;
    }
    Ok(Row::new(cells))
}

fn cell(alloc: Global, text: &str) -> Result<Option<Term>, AllocError> {
    if text.is_empty() {
        return Ok(None);
    }
    Ok(Some(iri(alloc, text)?))
}

// the variables s and o
fn variables(alloc: Global) -> Result<Vec<Text>, AllocError> {
    let first = Text::new(alloc, "s")?;
    let second = Text::new(alloc, "o")?;
    Ok(Vec::from_array(alloc, [first, second])?)
}

// the rows of these pairs
fn pairs(alloc: Global, of: &[(&str, &str)]) -> Result<Listed<Row<Term>>, AllocError> {
    let mut rows = Listed::new(alloc);
    for (first, second) in of {
        rows.push(row(alloc, &[first, second])?)?;
    }
    Ok(rows)
}

// a report, and an overfull one
fn write_both(
    alloc: Global,
    variables: &[Text],
    rows: &[Row<Term>],
    out: &mut Vec<u8>,
) -> Result<(), AllocError> {
    report_text(alloc, "q", 10_000, variables, rows, out)?;
    overfull_text(alloc, "q", 20_000, out)
}

const IN_TEXT: &str = "# report q 10000 2\n?s\t?o\n<a:1>\t<a:2>\n\t<a:4>\n# overfull q 20000\n";

fn are_both_told(alloc: Global, rows: &[Row<Term>]) -> Result<bool, AllocError> {
    let variables = variables(alloc)?;
    let mut out = Vec::new(alloc);
    write_both(alloc, &variables, rows, &mut out)?;
    Ok(out.as_slice() == IN_TEXT.as_bytes())
}

fn is_report_told(alloc: Global) -> Result<bool, AllocError> {
    let rows = pairs(alloc, &[("a:1", "a:2"), ("", "a:4")])?;
    are_both_told(alloc, rows.as_slice())
}

fn is_row_told(alloc: Global) -> Result<bool, AllocError> {
    let row = row(alloc, &["a:1", "a:2"])?;
    let text = row_text(alloc, &row)?;
    Ok(text.as_slice() == b"<a:1>\t<a:2>".as_slice())
}

#[test]
fn report_has_head_variables_and_rows(rt: HostRuntime) -> Result<(), Fail> {
    assert!(rt; is_report_told(rt.alloc())?);
    assert!(rt; is_row_told(rt.alloc())?);
    Ok(())
}

const GIVEN: [(&str, &str); 5] = [
    ("b:1", "z:1"),
    ("a:2", "z:1"),
    ("b:1", "z:1"),
    ("", "z:1"),
    ("a:1", "z:1"),
];

const ORDERED: [(&str, &str); 5] = [
    ("", "z:1"),
    ("a:1", "z:1"),
    ("a:2", "z:1"),
    ("b:1", "z:1"),
    ("b:1", "z:1"),
];

fn are_ordered(alloc: Global) -> Result<bool, AllocError> {
    let rows = ordered(alloc, pairs(alloc, &GIVEN)?)?;
    let wanted = pairs(alloc, &ORDERED)?;
    Ok(rows == wanted)
}

#[test]
fn rows_of_one_text_stand_together(rt: HostRuntime) -> Result<(), Fail> {
    assert!(rt; are_ordered(rt.alloc())?);
    Ok(())
}

// ---- Stream operators

// b goes once, a comes twice, c comes and goes
const CHANGE: &[(&str, i64)] = &[("c:1", 1), ("b:1", -1), ("a:1", 2), ("c:1", -1)];

// what is there then
const PRESENT: &[(&str, u64)] = &[("c:1", 1), ("a:1", 2)];

const ALL: &[&str] = &["a:1", "a:1", "c:1"];

const NEW: &[&str] = &["a:1", "a:1"];

const GONE: &[&str] = &["b:1"];

// a change and solutions that fit none of these
const OTHER_CHANGE: &[(&str, i64)] = &[("c:1", -5), ("z:1", 1)];

const OTHER_ROWS: &[(&str, u64)] = &[("b:1", 3), ("z:1", 1)];

fn listed(alloc: Global, iris: &[&str]) -> Result<Listed<Row<Term>>, AllocError> {
    let mut rows = Listed::new(alloc);
    for iri in iris {
        rows.push(row(alloc, &[iri])?)?;
    }
    Ok(rows)
}

fn change_of(alloc: Global, counts: &[(&str, i64)]) -> Result<Changes<Row<Term>>, AllocError> {
    let mut change = Changes::new(alloc);
    for (iri, count) in counts {
        change.alter(row(alloc, &[iri])?, *count)?;
    }
    Ok(change)
}

fn bag_of(alloc: Global, counts: &[(&str, u64)]) -> Result<Bag<Term>, AllocError> {
    let mut bag = Bag::new(alloc);
    for (iri, count) in counts {
        bag.add(row(alloc, &[iri])?, *count)?;
    }
    Ok(bag)
}

fn turned(
    alloc: Global,
    operator: Operator,
    change: &[(&str, i64)],
    solutions: &[(&str, u64)],
) -> Result<Listed<Row<Term>>, AllocError> {
    let change = change_of(alloc, change)?;
    let solutions = bag_of(alloc, solutions)?;
    turn(alloc, operator, &change, &solutions)
}

// an operator, a change, the solutions, and the rows that are reported
type OperatorCase = (
    Operator,
    &'static [(&'static str, i64)],
    &'static [(&'static str, u64)],
    &'static [&'static str],
);

const OPERATOR_CASES: [OperatorCase; 6] = [
    (Operator::Rstream, CHANGE, PRESENT, ALL),
    (Operator::Rstream, OTHER_CHANGE, PRESENT, ALL),
    (Operator::Istream, CHANGE, PRESENT, NEW),
    (Operator::Istream, CHANGE, OTHER_ROWS, NEW),
    (Operator::Dstream, CHANGE, PRESENT, GONE),
    (Operator::Dstream, CHANGE, OTHER_ROWS, GONE),
];

fn is_reported(
    alloc: Global,
    operator: Operator,
    change: &[(&str, i64)],
    solutions: &[(&str, u64)],
    iris: &[&str],
) -> Result<bool, AllocError> {
    let rows = turned(alloc, operator, change, solutions)?;
    let wanted = listed(alloc, iris)?;
    Ok(rows == wanted)
}

#[test]
fn an_operator_reads_its_own_part(rt: HostRuntime) -> Result<(), Fail> {
    for (operator, change, solutions, rows) in &OPERATOR_CASES {
        assert!(rt; is_reported(rt.alloc(), *operator, change, solutions, rows)?);
    }
    Ok(())
}

#[test]
fn what_has_not_changed_is_not_reported(rt: HostRuntime) -> Result<(), Fail> {
    for operator in [Operator::Istream, Operator::Dstream] {
        assert!(rt; is_reported(rt.alloc(), operator, &[], PRESENT, &[])?);
    }
    Ok(())
}

// ---- JSON

// two reports, the second without rows
const IN_JSON: &[&str] = &[
    r#"{"at":10000,"head":{"vars":["s","o"]},"query":"q","results":{"bindings":["#,
    r#"{"o":{"type":"literal","value":"\"\\/\té"},"s":{"type":"uri","value":"a:1"}},"#,
    r#"{"o":{"datatype":"d:t","type":"literal","value":"1"},"s":{"type":"bnode","value":"b7xl.1"}},"#,
    r#"{"o":{"type":"literal","value":"chat","xml:lang":"fr"}}]}}"#,
    "\n",
    r#"{"at":20000,"head":{"vars":["s","o"]},"query":"q","results":{"bindings":[]}}"#,
    "\n",
];

fn joined(alloc: Global, pieces: &[&str]) -> Result<Vec<u8>, AllocError> {
    let mut whole = Vec::new(alloc);
    for piece in pieces {
        whole.extend_from_slice(piece.as_bytes())?;
    }
    Ok(whole)
}

fn iri(alloc: Global, text: &str) -> Result<Term, AllocError> {
    Ok(Term::Iri(Text::new(alloc, text)?))
}

fn blank(alloc: Global, label: &str) -> Result<Term, AllocError> {
    let label = Text::new(alloc, label)?;
    Ok(Term::Blank { document: 7, label })
}

fn literal(alloc: Global, lexical: &str, datatype: &str) -> Result<Term, AllocError> {
    Ok(Term::Literal {
        lexical: Text::new(alloc, lexical)?,
        datatype: Text::new(alloc, datatype)?,
    })
}

fn tagged(alloc: Global, lexical: &str, language: &str) -> Result<Term, AllocError> {
    Ok(Term::Tagged {
        lexical: Text::new(alloc, lexical)?,
        language: Text::new(alloc, language)?,
    })
}

fn pair(alloc: Global, subject: Option<Term>, object: Term) -> Result<Row<Term>, AllocError> {
    Ok(Row::new(Vec::from_array(alloc, [subject, Some(object)])?))
}

fn string_row(alloc: Global) -> Result<Row<Term>, AllocError> {
    let subject = iri(alloc, "a:1")?;
    let object = literal(alloc, "\"\\/\té", XSD_STRING)?;
    pair(alloc, Some(subject), object)
}

fn number_row(alloc: Global) -> Result<Row<Term>, AllocError> {
    let subject = blank(alloc, "l.1")?;
    let object = literal(alloc, "1", "d:t")?;
    pair(alloc, Some(subject), object)
}

fn tagged_row(alloc: Global) -> Result<Row<Term>, AllocError> {
    pair(alloc, None, tagged(alloc, "chat", "fr")?)
}

// a term of each kind, and an unbound variable
fn each_kind(alloc: Global) -> Result<Vec<Row<Term>>, AllocError> {
    let mut rows = Vec::new(alloc);
    rows.push(string_row(alloc)?)?;
    rows.push(number_row(alloc)?)?;
    rows.push(tagged_row(alloc)?)?;
    Ok(rows)
}

fn write_in_json(
    alloc: Global,
    variables: &[Text],
    rows: &[Row<Term>],
    out: &mut Vec<u8>,
) -> Result<(), AllocError> {
    report_json(alloc, "q", 10_000, variables, rows, out)?;
    report_json(alloc, "q", 20_000, variables, &[], out)
}

fn told_in_json(alloc: Global) -> Result<Vec<u8>, AllocError> {
    let variables = variables(alloc)?;
    let rows = each_kind(alloc)?;
    let mut out = Vec::new(alloc);
    write_in_json(alloc, &variables, &rows, &mut out)?;
    Ok(out)
}

fn is_told_in_json(alloc: Global) -> Result<bool, AllocError> {
    let told = told_in_json(alloc)?;
    let wanted = joined(alloc, IN_JSON)?;
    Ok(told.as_slice() == wanted.as_slice())
}

#[test]
fn a_report_is_a_line_of_json(rt: HostRuntime) -> Result<(), Fail> {
    assert!(rt; is_told_in_json(rt.alloc())?);
    Ok(())
}
