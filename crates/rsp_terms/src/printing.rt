// How terms are printed.
ghost use Rattle.std.specs.Prelude.{◌≡◌, ◌++◌, codes, OnOk, OnErr};
ghost use Rattle.std.specs.Fmt.{decimal};
ghost use Rattle.rsp_terms.specs.Terms.{term_text, iri_text, string_text, escaped_text, escaped_byte, datatype_text, HasShortNumber};

use crate::Term;
use itoa::Buffer;
use std::alloc::AllocError;

/// The datatype that is left out where a literal is printed.
pub const XSD_STRING: &str = "http://www.w3.org/2001/XMLSchema#string";

/// Appends the text of a term (RDF 1.1 N-Quads, section 2), without the datatype `xsd:string`. Of a string, `"`, `\`,
/// line feed, carriage return and tab alone are escaped. The label of a blank node is `b`, the number of its document,
/// `x` and the label that it has there. Fails only where memory is refused; `out` then holds the bytes that it held
/// before. Different terms have different texts.
///
/// The IRI `a:1` is printed as `<a:1>`, the string `say "no"` as `"say \"no\""`, the text `4` of `xsd:integer` as
/// `"4"^^<http://www.w3.org/2001/XMLSchema#integer>`, and the blank node with the label `k` of document 3 as `_:b3xk`.
pub fn print(term: &Term, out: &mut Vec<u8>) -> Result<(), AllocError>
    ensures ok { OnOk result (out.new.items ≡ out.old.items ++ term_text term.now) }
    ensures err { OnErr result (out.new.items ≡ out.old.items) }
    ensures injective { (other : _) → HasShortNumber other → term_text other ≡ term_text term.now → other ≡ term.now }
{
    let before = out.len();
    let printed = push_term(term, out);
    if printed.is_err() {
        out.truncate(before);
    }
    printed
}

fn push_term(term: &Term, out: &mut Vec<u8>) -> Result<(), AllocError>
    ensures ok { OnOk result (out.new.items ≡ out.old.items ++ term_text term.now) }
    ensures begun { (rest : _) × (out.new.items ≡ out.old.items ++ rest) }
    ensures numbered { HasShortNumber term.now }
{
    match term {
        Term::Iri(text) => push_iri(text.as_str(), out),
        Term::Blank { document, label } => push_blank(*document, label.as_str(), out),
        Term::Literal { lexical, datatype } => {
            push_literal(lexical.as_str(), datatype.as_str(), out)
        }
        Term::Tagged { lexical, language } => {
            push_tagged(lexical.as_str(), language.as_str(), out)
        }
    }
}

fn push_iri(text: &str, out: &mut Vec<u8>) -> Result<(), AllocError>
    ensures ok { OnOk result (out.new.items ≡ out.old.items ++ iri_text text.now) }
    ensures begun { (rest : _) × (out.new.items ≡ out.old.items ++ rest) }
{
    out.push(b'<')?;
    out.extend_from_slice(text.as_bytes())?;
    out.push(b'>')?;
    Ok(())
}

fn push_blank(document: u32, label: &str, out: &mut Vec<u8>) -> Result<(), AllocError>
    ensures ok { OnOk result (out.new.items ≡ out.old.items ++ (codes "_:b" ++ (decimal document ++ (codes "x" ++ label.now)))) }
    ensures begun { (rest : _) × (out.new.items ≡ out.old.items ++ rest) }
{
    let mut number = Buffer::new();
    out.extend_from_slice(b"_:b")?;
    out.extend_from_slice(number.format(document).as_bytes())?;
    out.push(b'x')?;
    out.extend_from_slice(label.as_bytes())?;
    Ok(())
}

fn push_literal(lexical: &str, datatype: &str, out: &mut Vec<u8>) -> Result<(), AllocError>
    ensures ok { OnOk result (out.new.items ≡ out.old.items ++ (string_text lexical.now ++ datatype_text datatype.now)) }
    ensures begun { (rest : _) × (out.new.items ≡ out.old.items ++ rest) }
{
    push_string(lexical, out)?;
    push_datatype(datatype, out)
}

fn push_tagged(lexical: &str, language: &str, out: &mut Vec<u8>) -> Result<(), AllocError>
    ensures ok { OnOk result (out.new.items ≡ out.old.items ++ (string_text lexical.now ++ (codes "@" ++ language.now))) }
    ensures begun { (rest : _) × (out.new.items ≡ out.old.items ++ rest) }
{
    push_string(lexical, out)?;
    out.push(b'@')?;
    out.extend_from_slice(language.as_bytes())?;
    Ok(())
}

fn push_datatype(datatype: &str, out: &mut Vec<u8>) -> Result<(), AllocError>
    ensures ok { OnOk result (out.new.items ≡ out.old.items ++ datatype_text datatype.now) }
    ensures begun { (rest : _) × (out.new.items ≡ out.old.items ++ rest) }
{
    if datatype == XSD_STRING {
        Ok(())
    } else {
        push_other_datatype(datatype, out)
    }
}

fn push_other_datatype(datatype: &str, out: &mut Vec<u8>) -> Result<(), AllocError>
    ensures ok { OnOk result (out.new.items ≡ out.old.items ++ (codes "^^" ++ iri_text datatype.now)) }
    ensures begun { (rest : _) × (out.new.items ≡ out.old.items ++ rest) }
{
    out.extend_from_slice(b"^^")?;
    push_iri(datatype, out)
}

fn push_string(lexical: &str, out: &mut Vec<u8>) -> Result<(), AllocError>
    ensures ok { OnOk result (out.new.items ≡ out.old.items ++ string_text lexical.now) }
    ensures begun { (rest : _) × (out.new.items ≡ out.old.items ++ rest) }
{
    out.push(b'"')?;
    push_escaped(lexical.as_bytes(), out)?;
    out.push(b'"')?;
    Ok(())
}

fn push_escaped(bytes: &[u8], out: &mut Vec<u8>) -> Result<(), AllocError>
    ensures ok { OnOk result (out.new.items ≡ out.old.items ++ escaped_text bytes.now) }
    ensures begun { (rest : _) × (out.new.items ≡ out.old.items ++ rest) }
{
    for byte in bytes {
        push_escaped_byte(*byte, out)?;
    }
    Ok(())
}

fn push_escaped_byte(byte: u8, out: &mut Vec<u8>) -> Result<(), AllocError>
    ensures ok { OnOk result (out.new.items ≡ out.old.items ++ escaped_byte byte) }
    ensures begun { (rest : _) × (out.new.items ≡ out.old.items ++ rest) }
{
    match byte {
        b'"' => out.extend_from_slice(b"\\\""),
        b'\\' => out.extend_from_slice(b"\\\\"),
        b'\t' => out.extend_from_slice(b"\\t"),
        b'\n' => out.extend_from_slice(b"\\n"),
        b'\r' => out.extend_from_slice(b"\\r"),
        _ => out.extend_from_slice(&[byte]),
    }
}
