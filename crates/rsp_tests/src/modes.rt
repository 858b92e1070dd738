// The modes that read files, over a shelf in memory of which each call fails in turn, and the one that reads none.
use crate::call::{only, texts_of, uncounted};
use rsp_call::Status;
use rsp_io::{Failed, MemoryShelf, MemorySink, MemorySource, Shelf};
use std::alloc::{AllocError, Global};
use std::test::Fail;

// Files by name.
type Files<'a> = &'a [(&'a str, &'a [u8])];

// The bytes of one read of the shelf, and more than any text here is long.
const PIECE: usize = 64;

const AMPLE: usize = 1000;

const NONE: u64 = u64::MAX;

const QUERY: &[u8] = b"REGISTER RSTREAM <q:o> REPORT CLOSE TICK TIME AS SELECT ?x ?b ?room \
      FROM NAMED WINDOW <w:1> ON <s:a> [RANGE PT10S] FROM NAMED WINDOW <w:2> ON <s:b> [RANGE PT10S] \
      WHERE { WINDOW <w:1> { ?x <p:v> ?y } WINDOW <w:2> { ?b <p:m> ?y } ?x <p:in> ?room }";

const STORE: &[u8] = b"<a:1> <p:in> <r:1> .\n";

const FIRST: &[u8] =
    b"<g:1> <http://www.w3.org/ns/prov#generatedAtTime> \"1000\"^^<http://www.w3.org/2001/XMLSchema#integer> .
<a:1> <p:v> <a:2> <g:1> .
";

const SECOND: &[u8] =
    b"<g:1> <http://www.w3.org/ns/prov#generatedAtTime> \"10000\"^^<http://www.w3.org/2001/XMLSchema#integer> .
<b:1> <p:m> <a:2> <g:1> .
";

const FILES: Files<'static> = &[
    ("rooms.nq", STORE),
    ("a.nq", FIRST),
    ("b.nq", SECOND),
    ("q.rq", QUERY),
];

const RUN: &[&str] = &["run", "--store", "rooms.nq", "q.rq", "s:a=a.nq", "s:b=b.nq"];

const REPORT: &str = "# report query 10000 1\n?x\t?b\t?room\n<a:1>\t<b:1>\t<r:1>\n";

fn shelf_of(alloc: Global, files: Files<'_>, failing: u64) -> Result<MemoryShelf, AllocError> {
    let mut owned = Vec::new(alloc);
    for (name, bytes) in files {
        owned.push((name.to_string(alloc)?, bytes.to_vec(alloc)?))?;
    }
    Ok(MemoryShelf::new(owned, only(alloc, failing)?, PIECE))
}

// whether a call that may read no input ends with this status and leaves this text in the sink
fn leaves(
    alloc: Global,
    words: &[&str],
    shelf: &mut MemoryShelf,
    status: Status,
    text: &str,
) -> Result<bool, AllocError> {
    let words = texts_of(alloc, words)?;
    let mut input = MemorySource::new(Vec::new(alloc), only(alloc, 0)?, 1);
    let mut out = MemorySink::new(alloc, AMPLE, Vec::new(alloc), AMPLE)?;
    let given = uncounted(alloc, words.as_slice(), &mut input, shelf, &mut out);
    Ok(given == status && out.taken() == text.as_bytes())
}

// the same over a shelf of these files, of which this call fails
fn gives(
    alloc: Global,
    words: &[&str],
    files: Files<'_>,
    failing: u64,
    status: Status,
    text: &str,
) -> Result<bool, AllocError> {
    let mut shelf = shelf_of(alloc, files, failing)?;
    leaves(alloc, words, &mut shelf, status, text)
}

// how many calls it takes to read these files to their ends: of each a pick, the reads that give bytes, and the one that
// finds the end
fn calls_of(files: Files<'_>) -> u64 {
    let mut calls = 0u64;
    for (_, bytes) in files {
        calls = calls.saturating_add(2);
        calls = calls.saturating_add(bytes.len().div_ceil(PIECE) as u64);
    }
    calls
}

// The number of the first call of the shelf that is passed over as it fails: what reads these files answers something else
// than ReadFault, or writes something. Where no call fails, its end is looked at too.
fn first_passed_over(
    alloc: Global,
    words: &[&str],
    files: Files<'_>,
    text: &str,
) -> Result<Option<u64>, AllocError> {
    let calls = calls_of(files);
    for call in 0..calls {
        if !gives(alloc, words, files, call, Status::ReadFault, "")? {
            return Ok(Some(call));
        }
    }
    let ends = gives(alloc, words, files, calls, Status::Done, text)?;
    Ok((!ends).then_some(calls))
}

#[test]
fn each_failing_call_ends_run(rt: HostRuntime) -> Result<(), Fail> {
    let passed_over = first_passed_over(rt.alloc(), RUN, FILES, REPORT)?;
    assert_eq!(rt; passed_over, None);
    Ok(())
}

#[test]
fn each_failing_call_ends_check(rt: HostRuntime) -> Result<(), Fail> {
    let files = &[("q.rq", QUERY)];
    let passed_over = first_passed_over(rt.alloc(), &["check", "q.rq"], files, "ok\n")?;
    assert_eq!(rt; passed_over, None);
    Ok(())
}

#[test]
fn gen_calls_no_shelf(rt: HostRuntime) -> Result<(), Fail> {
    let alloc = rt.alloc();
    let mut shelf = shelf_of(alloc, FILES, 0)?;
    let text = "gen 600 reports 1 rows 89\n";
    assert!(rt; leaves(alloc, &["gen", "600"], &mut shelf, Status::Done, text)?);
    // its first call is still to come, and fails
    assert_eq!(rt; shelf.pick("q.rq"), Err(Failed));
    assert_eq!(rt; shelf.pick("q.rq"), Ok(()));
    Ok(())
}

#[test]
fn a_name_without_a_file_ends_the_call(rt: HostRuntime) -> Result<(), Fail> {
    let alloc = rt.alloc();
    for words in [
        ["run", "no.rq", "s:a=a.nq"],
        ["run", "q.rq", "s:a=no.nq"],
        ["check", "--", "no.rq"],
    ] {
        let is_fault = gives(alloc, &words, FILES, NONE, Status::ReadFault, "")?;
        assert!(rt; is_fault, "{words:?}");
    }
    Ok(())
}

#[test]
fn a_file_of_a_byte_too_many_is_too_long(rt: HostRuntime) -> Result<(), Fail> {
    let alloc = rt.alloc();
    let bytes = vec![in alloc; b' '; 67_108_865]?;
    let files = &[("q.rq", bytes.as_slice())];
    assert!(rt; gives(alloc, &["check", "q.rq"], files, NONE, Status::TooLong, "")?);
    Ok(())
}
