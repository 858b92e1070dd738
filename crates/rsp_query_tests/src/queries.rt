// Queries by text, over the facts of the tests: in the window `w:1`, in the default graph, and in the graph `g:1`.
ghost use Rattle.std.specs.Prelude.{IfOk};
ghost use Rattle.rsp_algebra.specs.Fitting.{IsPlaced};

use rsp_algebra::Translated;
use rsp_syntax::parse;
use rsp_translation::translate;
use std::alloc::Global;
use std::test::Fail;

const FRONT: &str = "REGISTER RSTREAM <q:o> AS SELECT ";

const FROM: &str = " FROM NAMED WINDOW <w:1> ON <s:a> [RANGE PT1S] WHERE ";

/// What a query shows, and its pattern with what follows.
pub(crate) type Text = (&'static str, &'static str);

/// Patterns, joins and unions.
pub(crate) const JOINS: [Text; 9] = [
    ("*", "{ WINDOW <w:1> { ?s <p:m> ?o } }"),
    ("*", "{ ?s <p:m> ?s }"),
    ("*", "{ WINDOW <w:1> { ?s <p:m> ?o . ?o <p:n> ?t } }"),
    ("*", "{ WINDOW <w:1> { ?s <p:m> ?o } ?s <p:n> ?t }"),
    ("*", "{ WINDOW <w:1> { ?s <p:m> ?o } ?a <p:n> ?b }"),
    ("*", "{ GRAPH ?g { ?s <p:m> ?o } ?s <p:n> ?o }"),
    (
        "*",
        "{ { WINDOW <w:1> { ?s <p:m> ?o } } UNION { ?s <p:n> ?o } UNION { ?s <p:m> ?o } }",
    ),
    (
        "*",
        "{ { ?s <p:m> ?o } UNION { ?o <p:n> ?t } WINDOW <w:1> { ?s <p:m> ?t } }",
    ),
    (
        "*",
        "{ VALUES (?s ?o) { (<i:1> UNDEF) (UNDEF <i:2>) (<i:1> <i:1>) } ?s <p:m> ?o }",
    ),
];

/// Outer joins and negation.
pub(crate) const PARTNERS: [Text; 11] = [
    (
        "*",
        "{ ?s <p:m> ?o OPTIONAL { WINDOW <w:1> { ?s <p:n> ?t } } }",
    ),
    (
        "*",
        "{ WINDOW <w:1> { ?s <p:v> ?x } OPTIONAL { ?s <p:v> ?y FILTER(?y > ?x) } }",
    ),
    (
        "*",
        "{ ?s <p:m> ?o OPTIONAL { ?s <p:n> ?t } WINDOW <w:1> { ?t <p:m> ?u } }",
    ),
    (
        "*",
        "{ GRAPH <g:1> { ?s <p:m> ?o OPTIONAL { ?o <p:n> ?t OPTIONAL { ?t <p:m> ?u } } } }",
    ),
    (
        "*",
        "{ { ?s <p:m> ?o } UNION { ?o <p:n> ?s } MINUS { WINDOW <w:1> { ?s <p:v> ?x } } }",
    ),
    ("*", "{ ?s <p:m> ?o MINUS { ?a <p:n> ?b } }"),
    (
        "*",
        "{ ?s <p:m> ?o OPTIONAL { ?s <p:n> ?t } MINUS { WINDOW <w:1> { ?t <p:m> ?u } } }",
    ),
    (
        "*",
        "{ ?s <p:m> ?o FILTER EXISTS { WINDOW <w:1> { ?s <p:n> ?t } } }",
    ),
    (
        "*",
        "{ WINDOW <w:1> { ?s <p:v> ?x } FILTER EXISTS { ?s <p:v> ?y FILTER(?y > ?x) } }",
    ),
    (
        "*",
        "{ ?s <p:v> ?x FILTER NOT EXISTS { ?s <p:v> ?y FILTER(?y > ?x) } }",
    ),
    (
        "*",
        "{ ?s <p:m> ?o OPTIONAL { ?s <p:n> ?t } FILTER NOT EXISTS { WINDOW <w:1> { ?t <p:m> ?o } } }",
    ),
];

/// Conditions, values and groups.
pub(crate) const GROUPS: [Text; 10] = [
    ("*", "{ WINDOW <w:1> { ?s <p:v> ?x } FILTER(?x > 1) }"),
    (
        "*",
        "{ ?s <p:v> ?x BIND(?x + 1 AS ?y) OPTIONAL { ?t <p:v> ?y } }",
    ),
    (
        "DISTINCT ?s",
        "{ { WINDOW <w:1> { ?s <p:m> ?o } } UNION { ?s <p:m> ?o } }",
    ),
    (
        "?s",
        "{ { SELECT DISTINCT ?s { ?s <p:m> ?o } } FILTER NOT EXISTS { ?s <p:n> ?o } }",
    ),
    (
        "?s (COUNT(*) AS ?n) (SUM(?x) AS ?t)",
        "{ ?s <p:v> ?x } GROUP BY ?s",
    ),
    (
        "(COUNT(?x) AS ?n) (MIN(?x) AS ?l) (MAX(?x) AS ?m) (AVG(?x) AS ?a)",
        "{ ?s <p:v> ?x FILTER(?x > 0) }",
    ),
    (
        "?o (COUNT(DISTINCT ?s) AS ?n)",
        "{ { WINDOW <w:1> { ?s <p:m> ?o } } UNION { ?s <p:m> ?o } } GROUP BY ?o",
    ),
    (
        "?s",
        "{ WINDOW <w:1> { ?s <p:m> ?o } ?s <p:n> ?t } GROUP BY ?s HAVING (COUNT(*) > 1)",
    ),
    (
        "?s ?m",
        "{ { SELECT ?s (MAX(?x) AS ?m) { ?s <p:v> ?x } GROUP BY ?s } WINDOW <w:1> { ?s <p:v> ?m } }",
    ),
    (
        "?t ?n",
        "{ ?s <p:n> ?t MINUS { { SELECT ?t (COUNT(*) AS ?n) { ?a <p:m> ?t } GROUP BY ?t } } }",
    ),
];

/// Each has more than a million rows in some part where more than a thousand facts of `p:m` meet as many of `p:n`: in a join, in
/// an outer join, on the right of a MINUS whose left has no rows, and below a condition that no row passes.
pub(crate) const OVERFULL: [Text; 4] = [
    (
        "*",
        "{ { SELECT ?x { WINDOW <w:1> { ?s <p:m> ?o } } } { SELECT ?y { ?s <p:n> ?o } } }",
    ),
    (
        "*",
        "{ { SELECT ?x { WINDOW <w:1> { ?s <p:m> ?o } } } OPTIONAL { { SELECT ?y { ?s <p:n> ?o } } } }",
    ),
    (
        "*",
        "{ ?a <p:v> ?b MINUS { { SELECT ?x { WINDOW <w:1> { ?s <p:m> ?o } } } { SELECT ?y { ?s <p:n> ?o } } } }",
    ),
    (
        "*",
        "{ { SELECT ?x { WINDOW <w:1> { ?s <p:m> ?o } } } { SELECT ?y { ?s <p:n> ?o } } FILTER(BOUND(?x)) }",
    ),
];

/// The tree of a query's text.
pub(crate) fn query(alloc: Global, text: Text) -> Result<Translated, Fail>
    ensures { IfOk result IsPlaced }
{
    let (shown, pattern) = text;
    let whole = format!(in alloc; "{FRONT}{shown}{FROM}{pattern}")?;
    let registered = parse(alloc, whole.as_str())?;
    Ok(translate(alloc, &registered)?)
}
