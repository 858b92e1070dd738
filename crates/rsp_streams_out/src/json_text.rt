// The JSON text of reports.
ghost use Rattle.std.specs.Prelude.{◌≡◌, ◌++◌, false, true, [], map, string_bytes, codes, drop, IfOk, OnOk, OnErr};
ghost use Rattle.serde_json.specs.Data.{object, array, string};
ghost use Rattle.serde_json.specs.View.{view, members_view, items_of};
ghost use Rattle.serde_json.specs.Written.{compact_text, items_text};
ghost use Rattle.rsp_terms.specs.declared.term.Term.TheVariants.{Blank, Tagged};
ghost use Rattle.rsp_streams_out.specs.Json.{term_data, literal_members, with_cell, row_data, report_data, report_json};
ghost use Rattle.rsp_streams_out.specs.JsonParts.{json_head, rows_items};

use rsp_multiset::Row;
use rsp_terms::{Term, Text, XSD_STRING};
use serde_json::{Map, Value, json, put};
use std::alloc::{AllocError, Global};

// what closes the list of rows, its object and the report's
const CLOSING: usize = 3;

/// Appends the JSON text of a report, one line with its line feed: an object with the instant (in milliseconds) as `at`, the
/// variables' names as `vars` of `head`, the query's name as `query`, and an object for each row in `bindings` of `results`
/// (SPARQL 1.1 Query Results JSON Format, section 3). A variable that a row leaves unbound, or has no cell for, has no key
/// there. Fails only where memory is refused; `out` then holds the bytes that it held before.
pub fn report_json(
    alloc: Global,
    name: &str,
    at: u64,
    variables: &[Text],
    rows: &[Row<Term>],
    out: &mut Vec<u8>,
) -> Result<(), AllocError>
    ensures ok { OnOk result (out.new.items ≡ out.old.items ++ report_json name.now at variables.now rows.now) }
    ensures err { OnErr result (out.new.items ≡ out.old.items) }
{
    let before = out.len();
    let written = push_report(alloc, name, at, variables, rows, out);
    if written.is_err() {
        out.truncate(before);
    }
    written
}

// row by row, since a tree of a large report takes too much memory
fn push_report(
    alloc: Global,
    name: &str,
    at: u64,
    variables: &[Text],
    rows: &[Row<Term>],
    out: &mut Vec<u8>,
) -> Result<(), AllocError>
    ensures ok { OnOk result (out.new.items ≡ out.old.items ++ report_json name.now at variables.now rows.now) }
    ensures begun { (rest : _) × (out.new.items ≡ out.old.items ++ rest) }
{
    push_head(alloc, name, at, variables, out)?;
    push_rows(alloc, variables, rows, out)?;
    out.extend_from_slice("}}\n".as_bytes())?;
    Ok(())
}

// the text of the report without rows, up to where they stand
fn push_head(
    alloc: Global,
    name: &str,
    at: u64,
    variables: &[Text],
    out: &mut Vec<u8>,
) -> Result<(), AllocError>
    ensures ok { OnOk result (out.new.items ≡ out.old.items ++ json_head name.now at variables.now) }
    ensures begun { (rest : _) × (out.new.items ≡ out.old.items ++ rest) }
{
    let text = empty_text(alloc, name, at, variables)?;
    let bytes = text.as_bytes();
    out.extend_from_slice(&bytes[..bytes.len() - CLOSING])?;
    Ok(())
}

fn empty_text(alloc: Global, name: &str, at: u64, variables: &[Text]) -> Result<String, AllocError>
    ensures { IfOk result (λ text. string_bytes text ≡ compact_text (report_data name.now at variables.now [])) }
{
    empty_report(alloc, name, at, variables)?.to_string(alloc)
}

fn empty_report(alloc: Global, name: &str, at: u64, variables: &[Text]) -> Result<Value, AllocError>
    ensures { IfOk result (λ value. view value ≡ report_data name.now at variables.now []) }
{
    let vars = names(alloc, variables)?;
    json!(in alloc; {"at": at, "head": {"vars": vars}, "query": name, "results": {"bindings": []}})
}

fn names(alloc: Global, variables: &[Text]) -> Result<Value, AllocError>
    ensures { IfOk result (λ value. view value ≡ array (items_of (map string variables.now))) }
{
    let mut names = Vec::new(alloc);
    for variable in variables {
        names.push(Value::try_from_str(alloc, variable.as_str())?)?;
    }
    Ok(Value::Array(names))
}

// the rows with commas between, and the bracket behind them
fn push_rows(
    alloc: Global,
    variables: &[Text],
    rows: &[Row<Term>],
    out: &mut Vec<u8>,
) -> Result<(), AllocError>
    ensures ok { OnOk result (out.new.items ≡ out.old.items ++ items_text false (rows_items variables.now rows.now)) }
    ensures begun { (rest : _) × (out.new.items ≡ out.old.items ++ rest) }
{
    match rows.split_first() {
        None => Ok(out.push(b']')?),
        Some((first, others)) => {
            push_row(alloc, variables, first, out)?;
            push_others(alloc, variables, others, out)
        }
    }
}

fn push_others(
    alloc: Global,
    variables: &[Text],
    rows: &[Row<Term>],
    out: &mut Vec<u8>,
) -> Result<(), AllocError>
    ensures ok { OnOk result (out.new.items ≡ out.old.items ++ items_text true (rows_items variables.now rows.now)) }
    ensures begun { (rest : _) × (out.new.items ≡ out.old.items ++ rest) }
{
    for row in rows {
        out.push(b',')?;
        push_row(alloc, variables, row, out)?;
    }
    out.push(b']')?;
    Ok(())
}

fn push_row(
    alloc: Global,
    variables: &[Text],
    row: &Row<Term>,
    out: &mut Vec<u8>,
) -> Result<(), AllocError>
    ensures ok { OnOk result (out.new.items ≡ out.old.items ++ compact_text (row_data variables.now row.now)) }
    ensures begun { (rest : _) × (out.new.items ≡ out.old.items ++ rest) }
{
    let text = row_text(alloc, variables, row)?;
    out.extend_from_slice(text.as_bytes())?;
    Ok(())
}

fn row_text(alloc: Global, variables: &[Text], row: &Row<Term>) -> Result<String, AllocError>
    ensures { IfOk result (λ text. string_bytes text ≡ compact_text (row_data variables.now row.now)) }
{
    row_value(alloc, variables, row.cells())?.to_string(alloc)
}

fn row_value(alloc: Global, variables: &[Text], row: &[Option<Term>]) -> Result<Value, AllocError>
    ensures { IfOk result (λ value. view value ≡ row_data variables.now row.now) }
{
    let mut members = Map::new(alloc);
    for (name, cell) in variables.iter().zip(row.iter()) {
        put_cell(alloc, name, cell, &mut members)?;
    }
    Ok(Value::Object(members))
}

fn put_cell(
    alloc: Global,
    name: &Text,
    cell: &Option<Term>,
    members: &mut Map<String, Value>,
) -> Result<(), AllocError>
    ensures { OnOk result (members_view members.new.entries ≡ with_cell (members_view members.old.entries) name.now cell.now) }
{
    match cell {
        None => Ok(()),
        Some(term) => put(members, alloc, name.as_str(), term_value(alloc, term)?),
    }
}

fn term_value(alloc: Global, term: &Term) -> Result<Value, AllocError>
    ensures { IfOk result (λ value. view value ≡ term_data term.now) }
{
    match term {
        Term::Iri(text) => json!(in alloc; {"type": "uri", "value": text.as_str()}),
        Term::Blank { document, label } => blank_value(alloc, *document, label),
        Term::Literal { lexical, datatype } => {
            literal_value(alloc, lexical.as_str(), datatype.as_str())
        }
        Term::Tagged { lexical, language } => tagged_value(
            alloc,
            lexical.as_str(),
            language.as_str(),
        ),
    }
}

fn blank_value(alloc: Global, document: u32, label: &Text) -> Result<Value, AllocError>
    ensures { IfOk result (λ value. view value ≡ term_data (Blank document label.now)) }
{
    let name = format!(in alloc; "b{}x{}", document, label.as_str())?;
    json!(in alloc; {"type": "bnode", "value": name})
}

fn literal_value(alloc: Global, lexical: &str, datatype: &str) -> Result<Value, AllocError>
    ensures { IfOk result (λ value. view value ≡ object (literal_members lexical.now datatype.now)) }
{
    if datatype == XSD_STRING {
        json!(in alloc; {"type": "literal", "value": lexical})
    } else {
        json!(in alloc; {"datatype": datatype, "type": "literal", "value": lexical})
    }
}

fn tagged_value(alloc: Global, lexical: &str, language: &str) -> Result<Value, AllocError>
    ensures { IfOk result (λ value. view value ≡ term_data (Tagged lexical.now language.now)) }
{
    json!(in alloc; {"type": "literal", "value": lexical, "xml:lang": language})
}
