// The top call over a log that has reports and refusals in its middle, in both forms: each read fails, each write fails, and the
// log ends behind each byte.
use crate::call::{Case, gives, steady};
use rsp_call::Status;
use std::alloc::{AllocError, Global};
use std::test::Fail;

// The log in pieces. For the log that ends behind some byte of a piece: how many sayings the blocks have that have ended; how
// many it has that are whole, since a last line feed may lack; and the refusal of the block that it cuts.
static PIECES: [(&str, usize, usize, &str); 41] = [
    ("", 0, 0, ""),
    ("@register ", 0, 0, "# refused block 1 3 BadDirective\n"),
    ("q\n", 0, 0, "# refused block 1 4 BadBody line=2\n"),
    (
        "REGISTER RSTREAM <q:o> REPORT CLOSE TICK TIME AS SELECT ?s ?o \
         FROM NAMED WINDOW <w:1> ON <s:a> [RANGE PT1S STEP PT1S] WHERE { WINDOW <w:1> { ?s <p:v> ?o } }\n",
        0,
        0,
        "# refused block 1 4 BadBody line=3\n",
    ),
    ("@en", 0, 0, "# refused block 1 4 BadBody line=4\n"),
    ("d\n", 0, 0, ""),
    ("@item <s:a> ", 0, 0, "# refused block 2 3 BadDirective\n"),
    (
        "500\n<a:1> <p:v> \"x\" ",
        0,
        0,
        "# refused block 2 4 BadBody line=5\n",
    ),
    (".\n@en", 0, 0, "# refused block 2 4 BadBody line=6\n"),
    ("d\n", 0, 0, ""),
    ("@tick ", 0, 0, "# refused block 3 3 BadDirective\n"),
    ("1", 0, 0, "# refused block 3 15 Late time=1 next=500\n"),
    ("0", 0, 0, "# refused block 3 15 Late time=10 next=500\n"),
    ("0", 0, 0, "# refused block 3 15 Late time=100 next=500\n"),
    ("0", 0, 1, ""),
    ("\n", 1, 1, ""),
    ("@cancel ", 1, 1, "# refused block 4 3 BadDirective\n"),
    ("r", 1, 2, ""),
    ("\n", 2, 2, ""),
    ("@item <s:a> ", 2, 2, "# refused block 5 3 BadDirective\n"),
    (
        "1500\n<a:2> <p:v> <a:3> ",
        2,
        2,
        "# refused block 5 4 BadBody line=10\n",
    ),
    (".\n@en", 2, 2, "# refused block 5 4 BadBody line=11\n"),
    ("d\n", 2, 2, ""),
    ("@tick ", 2, 2, "# refused block 6 3 BadDirective\n"),
    ("9", 2, 2, "# refused block 6 15 Late time=9 next=1500\n"),
    ("0", 2, 2, "# refused block 6 15 Late time=90 next=1500\n"),
    ("0", 2, 3, ""),
    ("\n", 3, 3, ""),
    ("@item <s:a> ", 3, 3, "# refused block 7 3 BadDirective\n"),
    // its body has a line that is no statement, with its `@end` and without
    ("1600\n<a:2> <p:v>\n@end", 3, 4, ""),
    ("\n", 4, 4, ""),
    ("@tick ", 4, 4, "# refused block 8 3 BadDirective\n"),
    ("2", 4, 4, "# refused block 8 15 Late time=2 next=1500\n"),
    ("0", 4, 4, "# refused block 8 15 Late time=20 next=1500\n"),
    ("0", 4, 4, "# refused block 8 15 Late time=200 next=1500\n"),
    ("0", 4, 5, ""),
    ("\n", 5, 5, ""),
    ("@item <s:a> ", 5, 5, "# refused block 9 3 BadDirective\n"),
    (
        "2100\n<a:4> <p:v> <a:5> ",
        5,
        5,
        "# refused block 9 4 BadBody line=18\n",
    ),
    (".\n@en", 5, 5, "# refused block 9 4 BadBody line=19\n"),
    ("d\n", 5, 5, ""),
];

// What is said of the log, in each form.
static TABLES: [&str; 5] = [
    "# report q 1000 1\n?s\t?o\n<a:1>\t\"x\"\n",
    "# refused block 4 17 NoQuery\n",
    "# refused block 6 15 Late time=900 next=1500\n",
    "# refused block 7 4 BadBody line=14\n",
    "# report q 2000 1\n?s\t?o\n<a:2>\t<a:3>\n",
];

static JSON: [&str; 5] = [
    "{\"at\":1000,\"head\":{\"vars\":[\"s\",\"o\"]},\"query\":\"q\",\"results\":{\"bindings\":\
     [{\"o\":{\"type\":\"literal\",\"value\":\"x\"},\"s\":{\"type\":\"uri\",\"value\":\"a:1\"}}]}}\n",
    "# refused block 4 17 NoQuery\n",
    "# refused block 6 15 Late time=900 next=1500\n",
    "# refused block 7 4 BadBody line=14\n",
    "{\"at\":2000,\"head\":{\"vars\":[\"s\",\"o\"]},\"query\":\"q\",\"results\":{\"bindings\":\
     [{\"o\":{\"type\":\"uri\",\"value\":\"a:3\"},\"s\":{\"type\":\"uri\",\"value\":\"a:2\"}}]}}\n",
];

// The words that ask for a form, and what is said in it.
#[derive(Clone, Copy)]
struct Form {
    words: &'static [&'static str],
    said: &'static [&'static str],
}

fn tables() -> Form {
    Form {
        words: &["events"],
        said: &TABLES,
    }
}

fn json() -> Form {
    Form {
        words: &["events", "--json"],
        said: &JSON,
    }
}

// what is said of the log that ends behind some bytes
#[derive(Clone, Copy)]
struct Cut {
    ended: usize,
    whole: usize,
    refusal: &'static str,
}

fn pieces() -> &'static [(&'static str, usize, usize, &'static str)] {
    &PIECES
}

fn cut_behind(bytes: usize) -> Cut {
    let mut left = bytes;
    for (piece, ended, whole, refusal) in pieces() {
        if left <= piece.len() {
            return Cut {
                ended: *ended,
                whole: *whole,
                refusal,
            };
        }
        left -= piece.len();
    }
    Cut {
        ended: 0,
        whole: 0,
        refusal: "",
    }
}

fn whole_log(alloc: Global) -> Result<String, AllocError> {
    let mut log = String::new(alloc);
    for (piece, _, _, _) in pieces() {
        log.push_str(piece)?;
    }
    Ok(log)
}

// the first so many of the sayings, and a refusal
fn text_of(alloc: Global, form: Form, count: usize, refusal: &str) -> Result<String, AllocError> {
    let mut text = String::new(alloc);
    for saying in form.said.get(..count).unwrap_or(&[]) {
        text.push_str(saying)?;
    }
    text.push_str(refusal)?;
    Ok(text)
}

fn holds_at_read(alloc: Global, form: Form, log: &[u8], read: usize) -> Result<bool, AllocError> {
    let text = text_of(alloc, form, cut_behind(read).ended, "")?;
    let case = Case {
        words: form.words,
        failing_read: read as u64,
        read_bytes: 1,
        ..steady(log)
    };
    gives(alloc, case, Status::ReadFault, text.as_str())
}

fn holds_at_write(alloc: Global, form: Form, log: &[u8], front: &str) -> Result<bool, AllocError> {
    let case = Case {
        words: form.words,
        failing_write: front.len() as u64,
        write_bytes: 1,
        ..steady(log)
    };
    gives(alloc, case, Status::WriteFault, front)
}

fn holds_at_end(alloc: Global, form: Form, log: &[u8]) -> Result<bool, AllocError> {
    let cut = cut_behind(log.len());
    let text = text_of(alloc, form, cut.whole, cut.refusal)?;
    let case = Case {
        words: form.words,
        ..steady(log)
    };
    // the second thing that is said is a refusal
    let status = if cut.refusal.is_empty() && cut.whole < 2 {
        Status::Done
    } else {
        Status::DoneWithRefusals
    };
    gives(alloc, case, status, text.as_str())
}

// the first read at which it isn't as wanted
fn wrong_read(alloc: Global, form: Form) -> Result<Option<usize>, AllocError> {
    let log = whole_log(alloc)?;
    for read in 0..=log.len() {
        if !holds_at_read(alloc, form, log.as_bytes(), read)? {
            return Ok(Some(read));
        }
    }
    Ok(None)
}

fn wrong_write(alloc: Global, form: Form) -> Result<Option<usize>, AllocError> {
    let log = whole_log(alloc)?;
    let text = text_of(alloc, form, form.said.len(), "")?;
    for (write, _) in text.as_str().char_indices() {
        let front = text.as_str().get(..write).unwrap_or("");
        if !holds_at_write(alloc, form, log.as_bytes(), front)? {
            return Ok(Some(write));
        }
    }
    Ok(None)
}

fn wrong_end(alloc: Global, form: Form) -> Result<Option<usize>, AllocError> {
    let log = whole_log(alloc)?;
    for end in 0..=log.len() {
        let front = log.as_bytes().get(..end).unwrap_or(b"");
        if !holds_at_end(alloc, form, front)? {
            return Ok(Some(end));
        }
    }
    Ok(None)
}

#[test]
fn tables_at_each_read_that_fails_in_the_middle(rt: HostRuntime) -> Result<(), Fail> {
    assert_eq!(rt; wrong_read(rt.alloc(), tables())?, None);
    Ok(())
}

#[test]
fn json_at_each_read_that_fails_in_the_middle(rt: HostRuntime) -> Result<(), Fail> {
    assert_eq!(rt; wrong_read(rt.alloc(), json())?, None);
    Ok(())
}

#[test]
fn tables_at_each_write_that_fails_in_the_middle(rt: HostRuntime) -> Result<(), Fail> {
    assert_eq!(rt; wrong_write(rt.alloc(), tables())?, None);
    Ok(())
}

#[test]
fn json_at_each_write_that_fails_in_the_middle(rt: HostRuntime) -> Result<(), Fail> {
    assert_eq!(rt; wrong_write(rt.alloc(), json())?, None);
    Ok(())
}

#[test]
fn tables_at_each_end_in_the_middle(rt: HostRuntime) -> Result<(), Fail> {
    assert_eq!(rt; wrong_end(rt.alloc(), tables())?, None);
    Ok(())
}

#[test]
fn json_at_each_end_in_the_middle(rt: HostRuntime) -> Result<(), Fail> {
    assert_eq!(rt; wrong_end(rt.alloc(), json())?, None);
    Ok(())
}
