// The first fault of a query's text: of its tokens, its grammar, its shape, its policy.
use rsp_engine::text_fault;
use std::alloc::{AllocError, Global};
use std::test::Fail;

// a text, and its first fault as it is said; where it has several, that of the earliest pass
const TEXTS: [(&str, &str); 11] = [
    (
        "REGISTER RSTREAM <q:o> REPORT CLOSE TICK TIME AS SELECT ?s FROM NAMED WINDOW <w:1> ON \
         <s:a> [RANGE PT10S] WHERE { WINDOW <w:1> { ?s <p:v> ?o } }",
        "none",
    ),
    ("", "no query: byte 0"),
    (
        "REGISTER RSTREAM <q:o> REPORT CLOSE TICK TIME AS SELECT ?s FROM NAMED WINDOW <w:1> ON \
         <s:a> [RANGE PT10S] WHERE { ?s ?p \"",
        "no token: byte 120",
    ),
    ("ASK { }", "left out: byte 0, ASK"),
    (
        "REGISTER RSTREAM <q:o> REPORT CLOSE TICK TIME AS SELECT ?s FROM NAMED WINDOW <w:1> ON \
         <s:a> [RANGE PT10S] WHERE { WINDOW <w:2> { ?s ?p ?o } }",
        "no window or graph of this shape: byte 114",
    ),
    (
        "REGISTER RSTREAM <q:o> REPORT CLOSE TICK TIME AS SELECT ?s FROM NAMED WINDOW <w:1> ON \
         <s:a> [RANGE PT10S] WHERE { FILTER EXISTS { BIND(1 AS ?s) } }",
        "no EXISTS of this shape: byte 121",
    ),
    (
        "REGISTER RSTREAM <q:o> REPORT CLOSE TICK TIME AS SELECT (1 AS ?s) FROM NAMED WINDOW \
         <w:1> ON <s:a> [RANGE PT10S] WHERE { WINDOW <w:1> { ?s ?p ?o } }",
        "out of scope: s",
    ),
    (
        "REGISTER RSTREAM <q:o> REPORT CLOSE TICK TUPLE AS SELECT ?s FROM NAMED WINDOW <w:1> ON \
         <s:a> [RANGE PT10S] WHERE { WINDOW <w:1> { ?s ?p ?o } }",
        "strategies that don't go together",
    ),
    (
        "REGISTER RSTREAM <q:o> REPORT CLOSE TICK TUPLE AS SELECT ?s FROM NAMED WINDOW <w:1> ON \
         <s:a> [RANGE PT10S] WHERE { WINDOW <w:2> { ?s ?p ?o } }",
        "no window or graph of this shape: byte 115",
    ),
    (
        "REGISTER RSTREAM <q:o> REPORT CLOSE TICK TUPLE AS SELECT ?s FROM NAMED WINDOW <w:1> ON \
         <s:a> [RANGE PT10S] WHERE { WINDOW <w:2> { ?s ?p } }",
        "no query: byte 136",
    ),
    (
        "REGISTER RSTREAM <q:o> REPORT CLOSE TICK TUPLE AS SELECT ?s FROM NAMED WINDOW <w:1> ON \
         <s:a> [RANGE PT10S] WHERE { WINDOW <w:2> { ?s ?p } \"",
        "no token: byte 138",
    ),
];

fn is_told(alloc: Global, text: &str, wanted: &str) -> Result<bool, AllocError> {
    let told = match text_fault(alloc, text)? {
        None => format!(in alloc; "none")?,
        Some(fault) => format!(in alloc; "{fault}")?,
    };
    Ok(told.as_str() == wanted)
}

#[test]
fn the_first_fault_of_a_text_is_told(rt: HostRuntime) -> Result<(), Fail> {
    let alloc = rt.alloc();
    for (text, wanted) in &TEXTS {
        assert!(rt; is_told(alloc, text, wanted)?, "{text}: {wanted}");
    }
    Ok(())
}
