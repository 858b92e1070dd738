// Terms, texts and lists of them.
use rsp_multiset::Cell;
use rsp_terms::{
    Fact, Listed, Quad, Spot, Term, Text, Triple, XSD_STRING, is_iri, is_label, is_tag, print,
};
use std::alloc::{AllocError, Global};
use std::cmp::Ordering;
use std::collections::HashSet;
use std::test::Fail;

fn iri(alloc: Global, text: &str) -> Result<Term, AllocError> {
    Ok(Term::Iri(Text::new(alloc, text)?))
}

fn literal(alloc: Global, lexical: &str, datatype: &str) -> Result<Term, AllocError> {
    Ok(Term::Literal {
        lexical: Text::new(alloc, lexical)?,
        datatype: Text::new(alloc, datatype)?,
    })
}

// a triple with this object
fn triple(alloc: Global, object: &str) -> Result<Triple, AllocError> {
    Ok(Triple {
        subject: iri(alloc, "a:1")?,
        predicate: iri(alloc, "p:v")?,
        object: iri(alloc, object)?,
    })
}

fn print_iri(alloc: Global, text: &str, out: &mut Vec<u8>) -> Result<(), AllocError> {
    let term = iri(alloc, text)?;
    print(&term, out)
}

fn print_blank(alloc: Global, label: &str, out: &mut Vec<u8>) -> Result<(), AllocError> {
    let label = Text::new(alloc, label)?;
    let document = 4_294_967_295;
    print(&Term::Blank { document, label }, out)
}

fn print_tagged(
    alloc: Global,
    lexical: &str,
    language: &str,
    out: &mut Vec<u8>,
) -> Result<(), AllocError> {
    let lexical = Text::new(alloc, lexical)?;
    let language = Text::new(alloc, language)?;
    print(&Term::Tagged { lexical, language }, out)
}

fn print_literal(
    alloc: Global,
    lexical: &str,
    datatype: &str,
    out: &mut Vec<u8>,
) -> Result<(), AllocError> {
    let term = literal(alloc, lexical, datatype)?;
    print(&term, out)
}

fn print_each_kind(alloc: Global, out: &mut Vec<u8>) -> Result<(), AllocError> {
    print_iri(alloc, "http://example.org/#spiderman", out)?;
    print_blank(alloc, "a.1", out)?;
    print_tagged(alloc, "That Seventies Show", "en", out)?;
    print_literal(alloc, "a\t\"\\\r\n\u{8}", XSD_STRING, out)?;
    print_literal(alloc, "1", "http://www.w3.org/2001/XMLSchema#integer", out)
}

const EACH_KIND: &str =
    "1 <http://example.org/#spiderman>_:b4294967295xa.1\"That Seventies Show\"@en\
    \"a\\t\\\"\\\\\\r\\n\u{8}\"\"1\"^^<http://www.w3.org/2001/XMLSchema#integer>";

fn is_each_kind_printed(alloc: Global) -> Result<bool, AllocError> {
    let mut out = Vec::from_slice(alloc, b"1 ")?;
    print_each_kind(alloc, &mut out)?;
    Ok(out.as_slice() == EACH_KIND.as_bytes())
}

// RDF 1.1 N-Quads, examples 2 and 4, and escapes
#[test]
fn prints_each_kind_of_term(rt: HostRuntime) -> Result<(), Fail> {
    assert!(rt; is_each_kind_printed(rt.alloc())?);
    Ok(())
}

#[test]
fn texts_are_tested(rt: HostRuntime) -> Result<(), Fail> {
    for (text, iri, label, tag) in [
        ("urn:/é", true, false, false),
        ("a:b c", false, false, false),
        ("0:é.·-", false, true, false),
        ("a.", false, false, false),
        ("zh-Hans-419", false, true, true),
        ("zh--Hans", false, true, false),
    ] {
        assert_eq!(rt;
            (is_iri(text), is_label(text), is_tag(text)),
            (iri, label, tag)
        );
    }
    Ok(())
}

// through `Cell`
fn shared<V: Cell>(value: &V) -> Result<bool, AllocError> {
    Ok(value.share()? == *value)
}

fn is_quad_shared(alloc: Global) -> Result<bool, AllocError> {
    let triple = triple(alloc, "a:2")?;
    let graph = Some(iri(alloc, "g:1")?);
    let quad = Quad { triple, graph };
    Ok(quad.share()? == quad)
}

fn named(alloc: Global) -> Result<Fact, AllocError> {
    let spot = Spot::Named(iri(alloc, "g:1")?);
    let triple = triple(alloc, "a:2")?;
    Ok(Fact { spot, triple })
}

fn in_window(alloc: Global) -> Result<Fact, AllocError> {
    let triple = triple(alloc, "a:2")?;
    Ok(Fact {
        spot: Spot::Window(0),
        triple,
    })
}

fn are_cells_shared(alloc: Global) -> Result<bool, AllocError> {
    let fact = named(alloc)?;
    let literal = literal(alloc, "1", "d:t")?;
    Ok(shared(&fact)? && shared(&literal)?)
}

fn do_spots_differ(alloc: Global) -> Result<bool, AllocError> {
    let fact = named(alloc)?;
    let other = in_window(alloc)?;
    Ok(fact != other)
}

#[test]
fn a_shared_value_is_the_same(rt: HostRuntime) -> Result<(), Fail> {
    assert!(rt; is_quad_shared(rt.alloc())?);
    assert!(rt; are_cells_shared(rt.alloc())?);
    assert!(rt; do_spots_differ(rt.alloc())?);
    Ok(())
}

fn graph(alloc: Global, object: &str) -> Result<Listed<Triple>, AllocError> {
    let mut graph = Vec::new(alloc);
    graph.push(triple(alloc, object)?)?;
    Ok(Listed::from_vec(graph))
}

fn insert_graphs(
    alloc: Global,
    graphs: &mut HashSet<Listed<Triple>>,
    objects: &[&str],
) -> Result<(), AllocError> {
    for object in objects {
        graphs.insert(graph(alloc, object)?)?;
    }
    Ok(())
}

fn distinct_graphs(alloc: Global, objects: &[&str]) -> Result<usize, AllocError> {
    let mut graphs = HashSet::new(alloc);
    insert_graphs(alloc, &mut graphs, objects)?;
    Ok(graphs.len())
}

// through `Eq` and `Hash`
#[test]
fn equal_graphs_are_one_key(rt: HostRuntime) -> Result<(), Fail> {
    assert_eq!(rt; distinct_graphs(rt.alloc(), &["a:2", "a:3", "a:2"])?, 2);
    Ok(())
}

const ORDERS: [(&str, &str, Ordering); 4] = [
    ("a:1", "a:1", Ordering::Equal),
    ("a:1", "a:10", Ordering::Less),
    ("b", "B", Ordering::Greater),
    ("é", "z", Ordering::Greater),
];

fn order_of(alloc: Global, first: &str, second: &str) -> Result<Ordering, AllocError> {
    let first = Text::new(alloc, first)?;
    let second = Text::new(alloc, second)?;
    Ok(first.cmp(&second))
}

#[test]
fn texts_stand_in_byte_order(rt: HostRuntime) -> Result<(), Fail> {
    for (first, second, order) in &ORDERS {
        assert_eq!(rt; order_of(rt.alloc(), first, second)?, *order);
    }
    Ok(())
}

#[test]
fn a_list_gives_its_items_back(rt: HostRuntime) -> Result<(), Fail> {
    let alloc = rt.alloc();
    let mut texts = Listed::new(alloc);
    texts.push(Text::new(alloc, "a:1")?)?;
    texts.push(Text::new(alloc, "a:2")?)?;
    assert_eq!(rt; texts.as_slice().len(), 2);
    let texts = texts.into_vec();
    assert_eq!(rt; format!(in alloc; "{}", texts[1])?.as_str(), "a:2");
    Ok(())
}
