// Lines of N-Quads: what is read of them, and the line that is written of it, as tables.
use rsp_nquads::{absolute_iri, statement, write};
use std::alloc::Global;
use std::test::Fail;

// the line that `write` makes of a statement's quad, or the fault's text
fn rewritten(alloc: Global, line: &[u8]) -> Result<Vec<u8>, Fail> {
    let mut out = Vec::new(alloc);
    match statement(alloc, 1, line) {
        Ok(None) => {}
        Ok(Some(quad)) => write(&quad, &mut out)?,
        Err(fault) => {
            let text = format!(in alloc; "{fault}")?;
            out.extend_from_slice(text.as_bytes())?;
        }
    }
    Ok(out)
}

// N-Quads, section 2, and each term's own form; then a fault of each kind with its column
#[test]
fn lines_are_written_again_or_refused(rt: HostRuntime) -> Result<(), Fail> {
    let alloc = rt.alloc();
    for (line, written) in [
        (
            b"_:x <p:v> \"a\\tb\"@en . # note".as_slice(),
            b"_:b1xx <p:v> \"a\\tb\"@en .\n".as_slice(),
        ),
        (
            b"<a:1><p:v>\"\\u00e9\"^^<x:i><g:1>.#",
            b"<a:1> <p:v> \"\xC3\xA9\"^^<x:i> <g:1> .\n",
        ),
        (
            b"\t<a:1>\t<p:v> \"x\"^^<http://www.w3.org/2001/XMLSchema#string> .",
            b"<a:1> <p:v> \"x\" .\n",
        ),
        (
            b"_:a.b <p:v> _:a:b _:1.",
            b"_:b1xa.b <p:v> _:b1xa:b _:b1x1 .\n",
        ),
        (b"", b""),
        (b" # note", b""),
        (b"<a:1> <p:v> .", b"no statement: column 13"),
        (b"<a> <p:v> <a:2> .", b"relative IRI: column 1"),
        (b"<a:1> <p:v> \"x\"^^<i> <g> .", b"relative IRI: column 13"),
        (b"<a:1> <p:v> \"x\"^^5 .", b"no statement: column 16"),
        (b"<a:1> <p:v> \"x\"@e1 .", b"no statement: column 18"),
        (b"<a:1> <p:v> \"\xFF\" .", b"no statement: column 13"),
        (b"<a:1> <p:v> <a:2> . # \xFF", b"no statement: column 21"),
        (b"<a:1> <p:v> \"\\uD800\" .", b"no statement: column 13"),
        (b"_:a. <p:v> <a:2> .", b"no statement: column 4"),
        (b"<a:1> _:p <a:2> .", b"no statement: column 7"),
    ] {
        assert_eq!(rt; rewritten(alloc, line)?.as_slice(), written);
    }
    Ok(())
}

// the IRI of a field, and nothing where it has none
fn name_of(alloc: Global, field: &[u8]) -> Result<Vec<u8>, Fail> {
    let mut out = Vec::new(alloc);
    if let Some(name) = absolute_iri(alloc, field)? {
        out.extend_from_slice(name.as_str().as_bytes())?;
    }
    Ok(out)
}

#[test]
fn fields_are_absolute_iris_or_not(rt: HostRuntime) -> Result<(), Fail> {
    let alloc = rt.alloc();
    for (field, name) in [
        (b"<x:\\u0041>".as_slice(), b"x:A".as_slice()),
        (b"<x:a> ", b""),
        (b"<A>", b""),
        (b"x:A", b""),
    ] {
        assert_eq!(rt; name_of(alloc, field)?.as_slice(), name);
    }
    Ok(())
}
