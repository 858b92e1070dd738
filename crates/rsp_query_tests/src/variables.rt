// Which variables the rows of a query's tree bind: those that each row binds, those that some may, and whether these are the
// same, so that a key of the tree's rows decides alone. The answers were worked out by hand.
ghost use Rattle.std.specs.Prelude.{IfOk};
ghost use Rattle.rsp_algebra.specs.Fitting.{IsPlaced};
ghost use Rattle.rsp_query.specs.Meanings.{registered};
ghost use Rattle.rsp_shapes.specs.Sound.{IsSound};

use rsp_algebra::Translated;
use rsp_query::Query;
use rsp_syntax::parse;
use rsp_translation::translate;
use rsp_variables::{certain, key, key_decides, possible};
use std::alloc::{AllocError, Global};
use std::test::Fail;

// each stands before a select and a body
const FRONT: &str = "REGISTER RSTREAM <q:o> AS SELECT ";

const WINDOW: &str = " FROM NAMED WINDOW <w:1> ON <s:a> [RANGE PT1S] WHERE { ";

const CASES: [(&str, &str, &str); 9] = [
    ("?s", "?s <p:v> ?o", "[0] [0] [0] true"),
    ("*", "?s <p:v> ?s", "[0] [0] [0] true"),
    (
        "*",
        "?s <p:v> ?o OPTIONAL { ?s <p:w> ?x }",
        "[0, 1] [0, 1, 2] [0, 1] false",
    ),
    (
        "*",
        "{ ?s <p:v> ?o } UNION { ?s <p:w> ?x }",
        "[0] [0, 1, 2] [0] false",
    ),
    (
        "*",
        "?s <p:v> ?o BIND(?o + 1 AS ?x)",
        "[0, 1] [0, 1, 2] [0, 1] false",
    ),
    (
        "*",
        "VALUES (?s ?o) { (<a:1> UNDEF) (<a:1> <a:2>) }",
        "[0] [0, 1] [0] false",
    ),
    ("*", "VALUES (?s ?o) { }", "[] [] [] true"),
    (
        "*",
        "?s ?p ?o MINUS { ?s ?p ?x }",
        "[0, 1, 2] [0, 1, 2] [0, 1, 2] true",
    ),
    ("(COUNT(?s) AS ?n)", "?s ?p ?o", "[] [2] [] false"),
];

fn query_of(alloc: Global, select: &str, body: &str) -> Result<Box<Query>, Fail>
    ensures { IfOk result (λ query. IsSound (registered query.value)) }
{
    let text = format!(in alloc; "{FRONT}{select}{WINDOW}{body} }}")?;
    let query = parse(alloc, text.as_str())?;
    Ok(Box::new(alloc, query)?)
}

fn told(alloc: Global, query: &Query) -> Result<String, AllocError>
    requires { IsSound (registered query.now) }
{
    match translate(alloc, query) {
        Ok(translated) => shown(alloc, &translated),
        Err(_) => format!(in alloc; "no tree"),
    }
}

fn shown(alloc: Global, translated: &Translated) -> Result<String, AllocError>
    requires { IsPlaced translated.now }
{
    let tree = &translated.tree;
    let width = translated.width;
    let bound = certain(alloc, tree, width)?;
    let open = possible(alloc, tree, width)?;
    let shared = key(alloc, tree, tree, width)?;
    let alone = key_decides(alloc, tree, tree, width)?;
    format!(in alloc; "{bound:?} {open:?} {shared:?} {alone}")
}

fn is_told(alloc: Global, select: &str, body: &str, wanted: &str) -> Result<bool, Fail> {
    let query = query_of(alloc, select, body)?;
    let given = told(alloc, &query)?;
    Ok(given.as_str() == wanted)
}

#[test]
fn rows_bind_their_certain_variables_and_none_but_the_possible(
    rt: HostRuntime,
) -> Result<(), Fail> {
    let alloc = rt.alloc();
    for (select, body, wanted) in &CASES {
        assert!(rt;
            is_told(alloc, select, body, wanted)?,
            "{select} {body}: {wanted}"
        );
    }
    Ok(())
}
