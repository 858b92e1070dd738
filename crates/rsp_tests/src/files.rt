// Files of recorded streams and of stored quads, and several streams as one.
use rsp_events::{
    Event, LineRefused, LoadedQuads, RecordedItems, RefusedAs, loaded, merge, recorded,
};
use rsp_terms::{Listed, Quad, Term, Text, print};
use std::alloc::{AllocError, Global};
use std::str;
use std::test::Fail;

// items of times that fall, one without quads, a name that is opened again, and each kind of refused line
const STREAM: &[u8] = b"# a stream\r
<g:1> <http://www.w3.org/ns/prov#generatedAtTime> \"1970-01-01T00:00:10Z\"^^<http://www.w3.org/2001/XMLSchema#dateTime> .\r
<a:1> <p:v> <a:2> <g:1> .
<a:1> <p:v> <a:2> <g:1> .

_:x <http://www.w3.org/ns/prov#generatedAtTime> \"007\"^^<http://www.w3.org/2001/XMLSchema#integer> .
<a:1> <p:v> <a:2> <g:1> .
_:x <p:v> \"x\" _:x .
<a:1> <p:v> <a:2> .
<a:1> <p:v> .
<a:1> <v> <a:2> _:x .
<g:1> <http://www.w3.org/ns/prov#generatedAtTime> \"8\" .
<g:1> <http://www.w3.org/ns/prov#generatedAtTime> \"-8\"^^<http://www.w3.org/2001/XMLSchema#integer> .
<g:1> <http://www.w3.org/ns/prov#generatedAtTime> \"253402300800000\"^^<http://www.w3.org/2001/XMLSchema#integer> .
<g:1> <http://www.w3.org/ns/prov#generatedAtTime> \"8\"^^<http://www.w3.org/2001/XMLSchema#integer> _:x .
<g:1> <http://www.w3.org/ns/prov#generatedAtTime> \"8\"^^<http://www.w3.org/2001/XMLSchema#integer> .
_:x <http://www.w3.org/ns/prov#generatedAtTime> \"9\"^^<http://www.w3.org/2001/XMLSchema#integer> .";

const STREAM_SAYS: &str = "s:a 10000: 2
s:a 7: 2
s:a 8: 0
s:a 9: 0
line 7 neither
line 9 neither
line 10 no statement 13
line 11 relative 7
line 12 neither
line 13 neither
line 14 neither
";

const STORE: &[u8] = b"<a:1> <p:v> <a:2> .

_:x <p:v> \"x\"@en _:g . # a graph\r
<a:1> <p:v> <a:2>
<a> <p:v> <a:2> .
<a:1> <p:v> <a:2> .";

const STORE_SAYS: &str = "<a:1> in no graph
_:b3xx in _:b3xg
<a:1> in no graph
line 4 no statement 18
line 5 relative 1
";

fn describe_refused(alloc: Global, refused: &LineRefused) -> Result<String, AllocError> {
    let line = refused.line;
    match refused.fault {
        RefusedAs::BadStatement { column } => {
            format!(in alloc; "line {line} no statement {column}\n")
        }
        RefusedAs::RelativeIri { column } => format!(in alloc; "line {line} relative {column}\n"),
        RefusedAs::NoTimeLine => format!(in alloc; "line {line} neither\n"),
    }
}

fn push_refused(
    alloc: Global,
    text: &mut String,
    refused: &Listed<LineRefused>,
) -> Result<(), AllocError> {
    for line in refused.as_slice() {
        text.push_str(describe_refused(alloc, line)?.as_str())?;
    }
    Ok(())
}

fn describe_item(alloc: Global, event: &Event) -> Result<String, AllocError> {
    match event {
        Event::Item {
            stream,
            time,
            graph,
        } => {
            let stream = stream.as_str();
            let triples = graph.as_slice().len();
            format!(in alloc; "{stream} {time}: {triples}\n")
        }
        _ => "another\n".to_string(alloc),
    }
}

fn push_items(alloc: Global, text: &mut String, items: &Listed<Event>) -> Result<(), AllocError> {
    for item in items.as_slice() {
        text.push_str(describe_item(alloc, item)?.as_str())?;
    }
    Ok(())
}

fn printed(alloc: Global, term: &Term) -> Result<String, AllocError> {
    let mut bytes = Vec::new(alloc);
    print(term, &mut bytes)?;
    match str::from_utf8(bytes.as_slice()) {
        Ok(text) => text.to_string(alloc),
        Err(_) => "not UTF-8".to_string(alloc),
    }
}

fn describe_quad(alloc: Global, quad: &Quad) -> Result<String, AllocError> {
    let subject = printed(alloc, &quad.triple.subject)?;
    let graph = match &quad.graph {
        Some(name) => printed(alloc, name)?,
        None => "no graph".to_string(alloc)?,
    };
    format!(in alloc; "{subject} in {graph}\n")
}

fn push_quads(alloc: Global, text: &mut String, quads: &Listed<Quad>) -> Result<(), AllocError> {
    for quad in quads.as_slice() {
        text.push_str(describe_quad(alloc, quad)?.as_str())?;
    }
    Ok(())
}

fn describe_recorded(alloc: Global, read: &RecordedItems) -> Result<String, AllocError> {
    let mut text = String::new(alloc);
    push_items(alloc, &mut text, &read.items)?;
    push_refused(alloc, &mut text, &read.refused)?;
    Ok(text)
}

fn stream_says(alloc: Global) -> Result<String, AllocError> {
    let stream = Text::new(alloc, "s:a")?;
    let read = recorded(alloc, &stream, 3, STREAM)?;
    describe_recorded(alloc, &read)
}

#[test]
fn a_stream_has_items_and_refused_lines(rt: HostRuntime) -> Result<(), Fail> {
    assert_eq!(rt; stream_says(rt.alloc())?.as_str(), STREAM_SAYS);
    Ok(())
}

fn describe_loaded(alloc: Global, read: &LoadedQuads) -> Result<String, AllocError> {
    let mut text = String::new(alloc);
    push_quads(alloc, &mut text, &read.quads)?;
    push_refused(alloc, &mut text, &read.refused)?;
    Ok(text)
}

fn store_says(alloc: Global) -> Result<String, AllocError> {
    let read = loaded(alloc, 3, STORE)?;
    describe_loaded(alloc, &read)
}

#[test]
fn a_store_has_quads_and_refused_lines(rt: HostRuntime) -> Result<(), Fail> {
    assert_eq!(rt; store_says(rt.alloc())?.as_str(), STORE_SAYS);
    Ok(())
}

// streams with times; one without a name is a tick
const FIRST: [(&str, u64); 2] = [("s:a2", 2), ("s:a1", 1)];

const SECOND: [(&str, u64); 4] = [("s:b1", 1), ("", 1), ("s:b1again", 1), ("s:b0", 0)];

const MERGED: &str = "s:b0 0: 0\ns:a1 1: 0\ns:b1 1: 0\ns:b1again 1: 0\ns:a2 2: 0\n";

fn event(alloc: Global, stream: &str, time: u64) -> Result<Event, AllocError> {
    if stream.is_empty() {
        return Ok(Event::Tick { time });
    }
    Ok(Event::Item {
        stream: Text::new(alloc, stream)?,
        time,
        graph: Listed::new(alloc),
    })
}

fn events(alloc: Global, of: &[(&str, u64)]) -> Result<Listed<Event>, AllocError> {
    let mut events = Vec::new(alloc);
    for (stream, time) in of {
        events.push(event(alloc, stream, *time)?)?;
    }
    Ok(Listed::from_vec(events))
}

fn three_lists(alloc: Global) -> Result<Listed<Listed<Event>>, AllocError> {
    let first = events(alloc, &FIRST)?;
    let second = events(alloc, &SECOND)?;
    let lists = Vec::from_array(alloc, [first, Listed::new(alloc), second])?;
    Ok(Listed::from_vec(lists))
}

fn merged_says(alloc: Global) -> Result<String, AllocError> {
    let merged = merge(alloc, three_lists(alloc)?)?;
    let mut text = String::new(alloc);
    push_items(alloc, &mut text, &merged)?;
    Ok(text)
}

#[test]
fn streams_are_one_by_time_list_and_place(rt: HostRuntime) -> Result<(), Fail> {
    assert_eq!(rt; merged_says(rt.alloc())?.as_str(), MERGED);
    Ok(())
}
