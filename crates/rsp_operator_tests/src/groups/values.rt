// Values and rows from short texts.
use rsp_multiset::{Changes, Row};
use rsp_terms::{Term, Text};
use std::alloc::{AllocError, Global};

const INTEGER: &str = "http://www.w3.org/2001/XMLSchema#integer";

const DECIMAL: &str = "http://www.w3.org/2001/XMLSchema#decimal";

const STRING: &str = "http://www.w3.org/2001/XMLSchema#string";

/// The cells of a row, each as [`value`] makes it, with how often the row comes or, below 0, goes.
pub(crate) type Line = (&'static [&'static str], i64);

fn literal(alloc: Global, lexical: &str, datatype: &str) -> Result<Term, AllocError> {
    Ok(Term::Literal {
        lexical: Text::new(alloc, lexical)?,
        datatype: Text::new(alloc, datatype)?,
    })
}

/// The integer of this text.
pub(crate) fn integer(alloc: Global, lexical: &str) -> Result<Term, AllocError> {
    literal(alloc, lexical, INTEGER)
}

/// The decimal of this text.
pub(crate) fn decimal(alloc: Global, lexical: &str) -> Result<Term, AllocError> {
    literal(alloc, lexical, DECIMAL)
}

fn term(alloc: Global, text: &str) -> Result<Term, AllocError> {
    if let Some(lexical) = text.strip_prefix("i") {
        return integer(alloc, lexical);
    }
    if let Some(lexical) = text.strip_prefix("d") {
        return decimal(alloc, lexical);
    }
    if let Some(lexical) = text.strip_prefix("s") {
        return literal(alloc, lexical, STRING);
    }
    if let Some(label) = text.strip_prefix("_") {
        let label = Text::new(alloc, label)?;
        return Ok(Term::Blank { document: 1, label });
    }
    Ok(Term::Iri(Text::new(alloc, text)?))
}

/// A value: unbound where the text is empty; an integer behind `i`, a decimal behind `d`, a string behind `s`, a blank node
/// behind `_`, else an IRI.
pub(crate) fn value(alloc: Global, text: &str) -> Result<Option<Term>, AllocError> {
    if text.is_empty() {
        return Ok(None);
    }
    Ok(Some(term(alloc, text)?))
}

/// The row of these cells.
pub(crate) fn row(alloc: Global, cells: &[&'static str]) -> Result<Row<Term>, AllocError> {
    let mut made = Vec::new(alloc);
    for text in cells {
        made.push(value(alloc, text)?)?;
    }
    Ok(Row::new(made))
}

/// The change by these lines.
pub(crate) fn change(alloc: Global, lines: &[Line]) -> Result<Changes<Row<Term>>, AllocError> {
    let mut made = Changes::new(alloc);
    add_lines(alloc, &mut made, lines)?;
    Ok(made)
}

fn add_lines(
    alloc: Global,
    made: &mut Changes<Row<Term>>,
    lines: &[Line],
) -> Result<(), AllocError> {
    for (cells, by) in lines {
        made.alter(row(alloc, cells)?, *by)?;
    }
    Ok(())
}
