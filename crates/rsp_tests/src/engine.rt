// The engine over events as a log says them.
ghost use Rattle.std.specs.Prelude.{◌≡◌, ◌<◌, IfOk};
ghost use Rattle.rsp_events.specs.Instants.{IsInstant};

use rsp_engine::{Engine, Outcome, Refused, TextFault};
use rsp_eval::Plain;
use rsp_events::{Blocks, Content, Event};
use rsp_steps::Steps;
use rsp_streams_out::report_text;
use std::alloc::{AllocError, Global};
use std::marker::Brand;
use std::sync::ledger::{Blank, Ledger};
use std::test::Fail;

// the subjects in (0, 10 s], (5 s, 15 s], ..
const SUBJECTS: &str = "@register q\nREGISTER RSTREAM <q:o> REPORT CLOSE TICK TIME AS SELECT ?s \
     FROM NAMED WINDOW <w:1> ON <s:a> [RANGE PT10S STEP PT5S] \
     WHERE { WINDOW <w:1> { ?s <p:v> ?o } }\n@end";

// a query that reports what is new, and one whose strategies don't go together
const NEW_ROWS: &str =
    "@register r\nREGISTER ISTREAM <q:o> AS SELECT ?s FROM NAMED WINDOW <w:1> ON <s:a> [RANGE PT10S] \
     WHERE { WINDOW <w:1> { ?s <p:v> ?o } }\n@end";

const MIXED: &str =
    "@register r\nREGISTER RSTREAM <q:o> REPORT CLOSE TICK TUPLE AS SELECT ?s FROM NAMED WINDOW <w:1> ON <s:a> \
     [RANGE PT10S] WHERE { WINDOW <w:1> { ?s <p:v> ?o } }\n@end";

// texts with a fault of each kind
const UNCLOSED: &str = "@register r\nSELECT \"\n@end";

const NO_REGISTER: &str = "@register r\nSELECT ?s\n@end";

const ASK: &str = "@register r\nask { }\n@end";

const DEEP: &str = "@register r\n{{{{{{{{{{{{{{{{{{{{{{{{{{{{{{{{{\n@end";

// a query that is built but for a fault of its shape, or that has too many rows over no facts
const NO_WINDOW: &str = "@register r\nREGISTER RSTREAM <q:o> REPORT CLOSE TICK TIME AS SELECT ?s \
     FROM NAMED WINDOW <w:1> ON <s:a> [RANGE PT10S] WHERE { WINDOW <w:2> { ?s ?p ?o } }\n@end";

const TESTED_BIND: &str = "@register r\nREGISTER RSTREAM <q:o> REPORT CLOSE TICK TIME AS SELECT ?s \
     FROM NAMED WINDOW <w:1> ON <s:a> [RANGE PT10S] WHERE { FILTER EXISTS { BIND(1 AS ?s) } }\n@end";

const NAME_TAKEN: &str =
    "@register r\nREGISTER RSTREAM <q:o> REPORT CLOSE TICK TIME AS SELECT (1 AS ?s) \
     FROM NAMED WINDOW <w:1> ON <s:a> [RANGE PT10S] WHERE { WINDOW <w:1> { ?s ?p ?o } }\n@end";

// 2^20 rows
const DOUBLED: &str = "@register r\nREGISTER RSTREAM <q:o> REPORT CLOSE TICK TIME AS SELECT ?s \
     FROM NAMED WINDOW <w:1> ON <s:a> [RANGE PT10S] WHERE { {} UNION {} {} UNION {} {} UNION {} {} UNION {} {} UNION {} \
     {} UNION {} {} UNION {} {} UNION {} {} UNION {} {} UNION {} {} UNION {} {} UNION {} {} UNION {} {} UNION {} \
     {} UNION {} {} UNION {} {} UNION {} {} UNION {} {} UNION {} {} UNION {} }\n@end";

// the event that a text says, whose last line has no line feed
fn event_of(alloc: Global, text: &str) -> Result<Event, Fail>
    ensures { IfOk result IsInstant }
{
    let mut blocks = Blocks::new(alloc, 7);
    blocks.feed(text.as_bytes())?;
    let Some(block) = blocks.finish()? else {
        return Err(Fail::new("no block"));
    };
    match block.content {
        Content::Event(event) => Ok(event),
        Content::Fault(_) => Err(Fail::new("no event")),
    }
}

// offers an event to an engine that is to be idle
fn take(engine: &mut Engine<Plain>, event: Event) -> Result<Result<(), Refused>, Fail>
    requires { IsInstant event }
{
    if !engine.is_idle() {
        return Err(Fail::new("a report is left"));
    }
    Ok(engine.offer(event))
}

// why an event was refused; of a text with a fault the fault alone
fn describe(alloc: Global, why: &Refused) -> Result<String, AllocError> {
    match why {
        Refused::Text(TextFault::Syntax(fault)) => format!(in alloc; "{fault:?}"),
        Refused::Text(TextFault::Shape(fault)) => format!(in alloc; "{fault:?}"),
        Refused::Text(TextFault::Policy(fault)) => format!(in alloc; "{fault:?}"),
        why => format!(in alloc; "{why:?}"),
    }
}

// appends what the engine answers to an event, and where it then stands
fn tell(
    alloc: Global,
    engine: &mut Engine<Plain>,
    text: &str,
    out: &mut Vec<u8>,
) -> Result<(), Fail> {
    let event = event_of(alloc, text)?;
    let line = match take(engine, event)? {
        Ok(()) => format!(in alloc; "taken; held {}\n", engine.held())?,
        Err(why) => {
            let why = describe(alloc, &why)?;
            format!(in alloc; "{why}; held {}\n", engine.held())?
        }
    };
    out.extend_from_slice(line.as_bytes())?;
    Ok(())
}

// appends the text of the next report, where one of rows is left
fn write_next<L: Ledger>(
    alloc: Global,
    engine: &mut Engine<Plain>,
    steps: &mut Steps<L>,
    out: &mut Vec<u8>,
) -> Result<(), Fail> {
    let Some(report) = engine.next_report(steps)? else {
        return Ok(());
    };
    let variables = report.variables.as_slice();
    if let Outcome::Rows(rows) = &report.outcome {
        let name = report.query.as_str();
        report_text(alloc, name, report.at, variables, rows.as_slice(), out)?;
    }
    Ok(())
}

// appends what the engine answers to the events, each with at most four reports
fn tell_all<L: Ledger>(
    alloc: Global,
    events: &[&str],
    engine: &mut Engine<Plain>,
    steps: &mut Steps<L>,
    out: &mut Vec<u8>,
) -> Result<(), Fail> {
    for text in events {
        tell(alloc, engine, text, out)?;
        for _ in 0..4 {
            write_next(alloc, engine, steps, out)?;
        }
    }
    Ok(())
}

// what the engine answers to the events, and that it is then not broken
fn told<L: Ledger>(
    alloc: Global,
    events: &[&str],
    engine: &mut Engine<Plain>,
    steps: &mut Steps<L>,
) -> Result<Vec<u8>, Fail> {
    let mut out = Vec::new(alloc);
    tell_all(alloc, events, engine, steps, &mut out)?;
    if engine.broken() {
        return Err(Fail::new("broken"));
    }
    Ok(out)
}

// what a new engine answers to the events
fn answers<L: Ledger>(alloc: Global, events: &[&str], blank: Blank) -> Result<Vec<u8>, Fail>
    requires name { blank.name ≡ L.name }
    requires parts { blank.parts ≡ L.parts }
    requires some { 0 < blank.parts }
{
    let mut steps: Steps<L> = Steps::new(blank);
    let mut engine = Engine::new(alloc);
    told(alloc, events, &mut engine, &mut steps)
}

// the answers as a text
fn said(alloc: Global, events: &[&str]) -> Result<Vec<u8>, Fail> {
    answers::<Brand>(alloc, events, Blank::new(1))
}

#[test]
fn each_closing_is_reported_once(rt: HostRuntime) -> Result<(), Fail> {
    let events = [
        "@item <s:a> 1000\n<a:9> <p:v> <a:0> .\n@end",
        SUBJECTS,
        "@item <s:a> 1000\n<a:3> <p:v> <a:0> .\n@end",
        "@item <s:a> 1000\n<a:3> <p:v> <a:1> .\n@end",
        "@item <s:a> 6000\n<a:1> <p:v> <a:0> .\n@end",
        "@item <s:a> 6000\n<a:1> <p:v> <a:0> .\n@end",
        "@tick 19000",
        "@cancel q",
    ];
    let answers = "taken; held 0
taken; held 0
taken; held 1
taken; held 2
taken; held 3
taken; held 4
taken; held 4
# report q 10000 3
?s
<a:1>
<a:3>
<a:3>
# report q 15000 1
?s
<a:1>
taken; held 0
";
    assert_eq!(rt; said(rt.alloc(), &events)?.as_slice(), answers.as_bytes());
    Ok(())
}

#[test]
fn an_item_is_kept_while_a_window_needs_it(rt: HostRuntime) -> Result<(), Fail> {
    let events = [
        SUBJECTS,
        "@item <s:b> 1000\n<a:1> <p:v> <a:0> .\n@end",
        "@item <s:a> 4000\n<a:1> <p:v> <a:0> .\n@end",
        "@item <s:a> 7000\n<a:2> <p:v> <a:0> .\n@end",
        "@tick 9999",
        "@tick 10000",
        "@cancel q",
    ];
    let answers = "taken; held 0
taken; held 0
taken; held 1
taken; held 2
taken; held 2
taken; held 2
# report q 10000 2
?s
<a:1>
<a:2>
taken; held 0
";
    assert_eq!(rt; said(rt.alloc(), &events)?.as_slice(), answers.as_bytes());
    Ok(())
}

#[test]
fn a_late_item_changes_nothing(rt: HostRuntime) -> Result<(), Fail> {
    let events = [
        "@item <s:a> 4\n<a:1> <p:v> <a:0> .\n@end",
        "@item <s:a> 3\n<a:1> <p:v> <a:0> .\n@end",
        "@tick 4",
        "@tick 3",
    ];
    let answers = "taken; held 0
Late { time: 3, next: 4 }; held 0
taken; held 0
Late { time: 3, next: 5 }; held 0
";
    assert_eq!(rt; said(rt.alloc(), &events)?.as_slice(), answers.as_bytes());
    Ok(())
}

#[test]
fn new_rows_and_quads_are_taken(rt: HostRuntime) -> Result<(), Fail> {
    let events = [
        NEW_ROWS,
        "@insert\n<a:1> <p:v> <a:0> .\n@end",
        "@delete\n<a:1> <p:v> <a:0> .\n@end",
    ];
    let answers = "taken; held 0
taken; held 0
taken; held 0
";
    assert_eq!(rt; said(rt.alloc(), &events)?.as_slice(), answers.as_bytes());
    Ok(())
}

#[test]
fn a_name_is_of_one_live_query(rt: HostRuntime) -> Result<(), Fail> {
    let events = [
        MIXED,
        "@cancel q",
        SUBJECTS,
        SUBJECTS,
        "@cancel q",
        SUBJECTS,
    ];
    let answers = "PolicyMix; held 0
NoQuery; held 0
taken; held 0
NameTaken; held 0
taken; held 0
taken; held 0
";
    assert_eq!(rt; said(rt.alloc(), &events)?.as_slice(), answers.as_bytes());
    Ok(())
}

#[test]
fn a_text_is_refused_for_its_fault(rt: HostRuntime) -> Result<(), Fail> {
    let events = [
        UNCLOSED,
        NO_REGISTER,
        ASK,
        DEEP,
        SUBJECTS,
        UNCLOSED,
        NO_REGISTER,
        ASK,
        DEEP,
    ];
    let answers = "BadToken { at: 7 }; held 0
Syntax { at: 0 }; held 0
LeftOut { at: 0, what: \"ask\" }; held 0
Limit { what: Nesting }; held 0
taken; held 0
BadToken { at: 7 }; held 0
Syntax { at: 0 }; held 0
LeftOut { at: 0, what: \"ask\" }; held 0
Limit { what: Nesting }; held 0
";
    assert_eq!(rt; said(rt.alloc(), &events)?.as_slice(), answers.as_bytes());
    Ok(())
}

#[test]
fn a_query_is_refused_for_its_shape(rt: HostRuntime) -> Result<(), Fail> {
    let events = [NO_WINDOW, TESTED_BIND, NAME_TAKEN, DOUBLED, SUBJECTS];
    let answers = "GraphShape { at: 114 }; held 0
ExistsShape { at: 121 }; held 0
Scope { variable: \"s\" }; held 0
StartOverfull; held 0
taken; held 0
";
    assert_eq!(rt; said(rt.alloc(), &events)?.as_slice(), answers.as_bytes());
    Ok(())
}
