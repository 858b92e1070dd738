// The top call over objects in memory whose calls fail, as a table.
ghost use Rattle.std.specs.Prelude.{◌≡◌, ◌<◌};

use rsp_call::{Status, rsp};
use rsp_io::{MemoryShelf, MemorySink, MemorySource};
use rsp_steps::Steps;
use rsp_terms::Text;
use std::alloc::{AllocError, Global};
use std::marker::Brand;
use std::sync::ledger::{Blank, Ledger};
use std::test::Fail;

const REGISTER: &str =
    "@register q\nREGISTER RSTREAM <q:o> REPORT CLOSE TICK TIME AS SELECT ?s ?p ?o \
     FROM NAMED WINDOW <w:1> ON <s:a> [RANGE PT10S STEP PT10S] WHERE { WINDOW <w:1> { ?s ?p ?o } }\n@end\n";

const FIRST: &str = "@item <s:a> 1000\n<a:1> <p:v> <a:2> .\n@end\n";

const SECOND: &str = "@item <s:a> 4000\n<a:3> <p:v> <a:4> .\n@end\n";

const TICK: &str = "@tick 10000\n";

const REPORT: &str = "# report q 10000 2\n?s\t?p\t?o\n<a:1>\t<p:v>\t<a:2>\n<a:3>\t<p:v>\t<a:4>\n";

// More than any text here is long.
const AMPLE: usize = 1000;

// A call over objects in memory: the number of the read and of the write that fails, none where `NONE`, the most bytes of
// each, and how many bytes the sink takes.
#[derive(Clone, Copy)]
pub(crate) struct Case<'a> {
    pub words: &'a [&'a str],
    pub log: &'a [u8],
    pub failing_read: u64,
    pub read_bytes: usize,
    pub failing_write: u64,
    pub write_bytes: usize,
    pub capacity: usize,
}

const NONE: u64 = u64::MAX;

// a log that is read and written without a failing call
pub(crate) fn steady(log: &[u8]) -> Case<'_> {
    Case {
        words: &["events"],
        log,
        failing_read: NONE,
        read_bytes: AMPLE,
        failing_write: NONE,
        write_bytes: AMPLE,
        capacity: AMPLE,
    }
}

fn whole_log(alloc: Global) -> Result<String, AllocError> {
    format!(in alloc; "{REGISTER}{FIRST}{SECOND}{TICK}")
}

pub(crate) fn texts_of(alloc: Global, words: &[&str]) -> Result<Vec<Text>, AllocError> {
    let mut texts = Vec::new(alloc);
    for word in words {
        texts.push(Text::new(alloc, word)?)?;
    }
    Ok(texts)
}

pub(crate) fn only(alloc: Global, call: u64) -> Result<Vec<u64>, AllocError> {
    let mut calls = Vec::new(alloc);
    calls.push(call)?;
    Ok(calls)
}

fn source_of(alloc: Global, case: Case<'_>) -> Result<MemorySource, AllocError> {
    let failing = only(alloc, case.failing_read)?;
    let log = case.log.to_vec(alloc)?;
    Ok(MemorySource::new(log, failing, case.read_bytes.max(1)))
}

fn sink_of(alloc: Global, case: Case<'_>) -> Result<MemorySink, AllocError> {
    let failing = only(alloc, case.failing_write)?;
    MemorySink::new(alloc, case.capacity, failing, case.write_bytes.max(1))
}

fn status_of<L: Ledger>(
    alloc: Global,
    blank: Blank,
    words: &[Text],
    input: &mut MemorySource,
    shelf: &mut MemoryShelf,
    out: &mut MemorySink,
) -> Status
    requires name { blank.name ≡ L.name }
    requires parts { blank.parts ≡ L.parts }
    requires some { 0 < blank.parts }
{
    let mut steps: Steps<L> = Steps::new(blank);
    rsp(alloc, words, input, shelf, out, &mut steps)
}

pub(crate) fn uncounted(
    alloc: Global,
    words: &[Text],
    input: &mut MemorySource,
    shelf: &mut MemoryShelf,
    out: &mut MemorySink,
) -> Status {
    status_of::<Brand>(alloc, Blank::new(1), words, input, shelf, out)
}

// whether a call ends with this status and leaves this text in the sink
pub(crate) fn gives(
    alloc: Global,
    case: Case<'_>,
    status: Status,
    text: &str,
) -> Result<bool, AllocError> {
    let words = texts_of(alloc, case.words)?;
    let mut input = source_of(alloc, case)?;
    let mut shelf = MemoryShelf::new(Vec::new(alloc), Vec::new(alloc), 1);
    let mut out = sink_of(alloc, case)?;
    let given = uncounted(alloc, words.as_slice(), &mut input, &mut shelf, &mut out);
    Ok(given == status && out.taken() == text.as_bytes())
}

#[test]
fn pieces_of_one_byte_give_the_same_text(rt: HostRuntime) -> Result<(), Fail> {
    let alloc = rt.alloc();
    let log = whole_log(alloc)?;
    for bytes in [1, 7, AMPLE] {
        let case = Case {
            read_bytes: bytes,
            write_bytes: bytes,
            ..steady(log.as_bytes())
        };
        assert!(rt; gives(alloc, case, Status::Done, REPORT)?, "{bytes} bytes");
    }
    Ok(())
}

#[test]
fn each_failing_read_ends_the_call(rt: HostRuntime) -> Result<(), Fail> {
    let alloc = rt.alloc();
    let log = whole_log(alloc)?;
    // reads that give bytes, and the one that finds the end
    let last = log.len().div_ceil(7) as u64;
    for call in 0..last.saturating_add(2) {
        let case = Case {
            failing_read: call,
            read_bytes: 7,
            ..steady(log.as_bytes())
        };
        let status = if call <= last {
            Status::ReadFault
        } else {
            Status::Done
        };
        // the report comes with the last byte
        let text = if call < last { "" } else { REPORT };
        assert!(rt; gives(alloc, case, status, text)?, "read {call}");
    }
    Ok(())
}

#[test]
fn each_failing_write_leaves_what_was_written_before(rt: HostRuntime) -> Result<(), Fail> {
    let alloc = rt.alloc();
    let log = whole_log(alloc)?;
    for (call, _) in REPORT.char_indices() {
        let case = Case {
            failing_write: call as u64,
            write_bytes: 1,
            ..steady(log.as_bytes())
        };
        let written = REPORT.get(..call).unwrap_or("");
        assert!(rt;
            gives(alloc, case, Status::WriteFault, written)?,
            "write {call}"
        );
    }
    Ok(())
}

#[test]
fn a_full_sink_ends_the_call(rt: HostRuntime) -> Result<(), Fail> {
    let alloc = rt.alloc();
    let log = whole_log(alloc)?;
    for (capacity, _) in REPORT.char_indices() {
        let case = Case {
            capacity,
            ..steady(log.as_bytes())
        };
        let written = REPORT.get(..capacity).unwrap_or("");
        assert!(rt;
            gives(alloc, case, Status::WriteFault, written)?,
            "capacity {capacity}"
        );
    }
    let case = Case {
        capacity: REPORT.len(),
        ..steady(log.as_bytes())
    };
    assert!(rt; gives(alloc, case, Status::Done, REPORT)?);
    Ok(())
}

// where the first three blocks end
const FIRST_BEGINS: usize = REGISTER.len();

const SECOND_BEGINS: usize = FIRST_BEGINS + FIRST.len();

const TICK_BEGINS: usize = SECOND_BEGINS + SECOND.len();

// where the body of the first block ends
const QUERY_ENDS: usize = FIRST_BEGINS - 5;

// What the log gives that ends after some bytes, worked out by hand: a block is whole without its last line feed.
fn cut_text(cut: usize) -> &'static str {
    if cut <= FIRST_BEGINS {
        return cut_register(cut);
    }
    if cut <= SECOND_BEGINS {
        return match cut - FIRST_BEGINS {
            1..=12 => "# refused block 2 3 BadDirective\n",
            13..=35 => "# refused block 2 4 BadBody line=5\n",
            36..=40 => "# refused block 2 4 BadBody line=6\n",
            _ => "",
        };
    }
    if cut <= TICK_BEGINS {
        return match cut - SECOND_BEGINS {
            1..=12 => "# refused block 3 3 BadDirective\n",
            13..=35 => "# refused block 3 4 BadBody line=8\n",
            36..=40 => "# refused block 3 4 BadBody line=9\n",
            _ => "",
        };
    }
    match cut - TICK_BEGINS {
        1..=6 => "# refused block 4 3 BadDirective\n",
        7 => "# refused block 4 15 Late time=1 next=4000\n",
        8 => "# refused block 4 15 Late time=10 next=4000\n",
        9 => "# refused block 4 15 Late time=100 next=4000\n",
        10 => "# refused block 4 15 Late time=1000 next=4000\n",
        _ => REPORT,
    }
}

// the same within the first block
fn cut_register(cut: usize) -> &'static str {
    match cut {
        0 => "",
        1..=10 => "# refused block 1 3 BadDirective\n",
        11..=12 => "# refused block 1 4 BadBody line=2\n",
        13..=QUERY_ENDS => "# refused block 1 4 BadBody line=3\n",
        _ if cut <= QUERY_ENDS + 3 => "# refused block 1 4 BadBody line=4\n",
        _ => "",
    }
}

#[test]
fn a_log_that_is_cut_gives_the_shorter_text(rt: HostRuntime) -> Result<(), Fail> {
    let alloc = rt.alloc();
    let log = whole_log(alloc)?;
    for cut in 0..log.len() {
        let text = cut_text(cut);
        let status = if text.starts_with("# refused") {
            Status::DoneWithRefusals
        } else {
            Status::Done
        };
        let bytes = log.as_bytes().get(..cut).unwrap_or(b"");
        let case = Case {
            read_bytes: 7,
            ..steady(bytes)
        };
        assert!(rt; gives(alloc, case, status, text)?, "cut at {cut}");
    }
    Ok(())
}

#[test]
fn other_words_read_nothing(rt: HostRuntime) -> Result<(), Fail> {
    let alloc = rt.alloc();
    let usage =
        "usage: rsp events [--json] [--slack N] | run [--json] [--store FILE] QUERY STREAM=FILE.. | check QUERY | gen COUNT\n";
    // a first read would fail
    let case = Case {
        words: &["frob"],
        failing_read: 0,
        ..steady(b"")
    };
    assert!(rt; gives(alloc, case, Status::Usage, usage)?);
    let case = Case {
        words: &[],
        failing_read: 0,
        failing_write: 1,
        write_bytes: 6,
        ..steady(b"")
    };
    assert!(rt; gives(alloc, case, Status::WriteFault, "usage:")?);
    Ok(())
}
