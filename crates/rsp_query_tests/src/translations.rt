// What a query's shape is told to be: the width of its rows and the places that it shows, or the first reason why it has no
// tree. The answers were worked out by hand from the rules of shapes and scopes.
use rsp_algebra::Translated;
use rsp_query::Query;
use rsp_syntax::parse;
use rsp_translation::{Shape, translate};
use std::alloc::{AllocError, Global};
use std::test::Fail;

// each stands before a select and a body
const FRONT: &str = "REGISTER RSTREAM <q:o> AS SELECT ";

const WINDOW: &str = " FROM NAMED WINDOW <w:1> ON <s:a> [RANGE PT1S] WHERE { ";

const CASES: [(&str, &str, &str); 18] = [
    ("?s", "WINDOW <w:1> { ?s <p:v> ?o }", "2 [0]"),
    ("?o ?s", "WINDOW <w:1> { ?s <p:v>/<p:w> ?o }", "3 [0, 1]"),
    ("*", "WINDOW <w:1> { ?s <p:v> [] }", "2 [0]"),
    (
        "*",
        "FILTER(?x > 1) WINDOW <w:1> { ?s <p:v> ?x }",
        "2 [0, 1]",
    ),
    ("?s", "WINDOW <w:2> { ?s <p:v> ?o }", "GraphShape 90"),
    ("?s", "GRAPH ?g { }", "GraphShape 90"),
    (
        "?s",
        "GRAPH ?g { ?s <p:v> ?o OPTIONAL { } }",
        "GraphShape 90",
    ),
    ("?s", "GRAPH <g:1> { OPTIONAL { } }", "1 [0]"),
    (
        "?s",
        "OPTIONAL { ?s ?p ?o FILTER EXISTS { ?o ?p ?s } }",
        "ExistsShape 117",
    ),
    (
        "?s",
        "FILTER NOT EXISTS { OPTIONAL { ?s ?p ?o } }",
        "ExistsShape 101",
    ),
    ("?s", "FILTER EXISTS { ?s ?p ?o FILTER(?o > ?s) }", "3 [0]"),
    ("?s", "?s ?p ?o BIND(1 AS ?o)", "Scope o"),
    ("?s", "BIND(1 AS ?o) ?s ?p ?o", "3 [0]"),
    ("(1 AS ?s)", "?s ?p ?o", "Scope s"),
    ("?s (COUNT(*) AS ?n)", "?s ?p ?o", "Scope s"),
    ("(COUNT(?s) AS ?n)", "?s ?p ?o", "5 [2]"),
    (
        "(1 AS ?s)",
        "FILTER EXISTS { BIND(1 AS ?s) } WINDOW <w:2> { ?s ?p ?o }",
        "GraphShape 129",
    ),
    (
        "(1 AS ?s)",
        "?s ?p ?o FILTER EXISTS { BIND(1 AS ?x) }",
        "ExistsShape 113",
    ),
];

fn query_of(alloc: Global, select: &str, body: &str) -> Result<Box<Query>, Fail> {
    let text = format!(in alloc; "{FRONT}{select}{WINDOW}{body} }}")?;
    let query = parse(alloc, text.as_str())?;
    Ok(Box::new(alloc, query)?)
}

fn told(alloc: Global, query: &Query) -> Result<String, AllocError> {
    match translate(alloc, query) {
        Ok(translated) => shown(alloc, &translated),
        Err(Shape::GraphShape { at }) => format!(in alloc; "GraphShape {at}"),
        Err(Shape::ExistsShape { at }) => format!(in alloc; "ExistsShape {at}"),
        Err(Shape::Scope { variable }) => format!(in alloc; "Scope {variable}"),
        Err(Shape::OutOfMemory) => Err(AllocError),
    }
}

fn shown(alloc: Global, translated: &Translated) -> Result<String, AllocError> {
    let width = translated.width;
    let places = translated.shown.as_slice();
    format!(in alloc; "{width} {places:?}")
}

fn is_told(alloc: Global, select: &str, body: &str, wanted: &str) -> Result<bool, Fail> {
    let query = query_of(alloc, select, body)?;
    let given = told(alloc, &query)?;
    Ok(given.as_str() == wanted)
}

#[test]
fn queries_have_trees_or_are_refused_by_name(rt: HostRuntime) -> Result<(), Fail> {
    let alloc = rt.alloc();
    for (select, body, wanted) in &CASES {
        assert!(rt;
            is_told(alloc, select, body, wanted)?,
            "{select} {body}: {wanted}"
        );
    }
    Ok(())
}
