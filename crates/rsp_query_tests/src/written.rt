// Texts of expressions and how far they are read, worked out by hand from the standard's grammar and the profile.
use rsp_lex::{Token, tokens};
use rsp_read_expressions::aggregate_expression;
use rsp_said::said;
use rsp_written::{Halt, Said};
use std::alloc::Global;
use std::test::Fail;

fn said_of(alloc: Global, text: &str, token: &Token) -> Result<Said, Fail> {
    let part = text
        .get(token.start..token.end)
        .ok_or("a place within the text")?;
    Ok(said(alloc, token.kind, part, token.start)?)
}

fn push_said(alloc: Global, all: &mut Vec<Said>, text: &str, found: &[Token]) -> Result<(), Fail> {
    for token in found {
        all.push(said_of(alloc, text, token)?)?;
    }
    Ok(())
}

fn all_said(alloc: Global, text: &str) -> Result<Vec<Said>, Fail> {
    let Ok(found) = tokens(alloc, text) else {
        return Err("no tokens".into());
    };
    let mut all = Vec::new(alloc);
    push_said(alloc, &mut all, text, found.as_slice())?;
    Ok(all)
}

// the place of the token with so many left from it on, at the text's end where none is
fn place(text: &str, all: &[Said], left: usize) -> Result<usize, Fail> {
    if left == 0 {
        return Ok(text.len());
    }
    let index = all.len().checked_sub(left).ok_or("as many tokens")?;
    let first = all.get(index).ok_or("a token")?;
    Ok(first.at)
}

fn told(alloc: Global, text: &str) -> Result<String, Fail> {
    let all = all_said(alloc, text)?;
    match aggregate_expression(alloc, all.as_slice()) {
        Ok((_, rest)) => {
            let place = place(text, all.as_slice(), rest.len())?;
            Ok(format!(in alloc; "to {place}")?)
        }
        Err(Halt::Wrong(left)) => {
            let place = place(text, all.as_slice(), left)?;
            Ok(format!(in alloc; "wrong {place}")?)
        }
        Err(Halt::OutOfMemory) => Err("out of memory".into()),
    }
}

const TEXTS: [(&str, &str); 63] = [
    // one part
    ("?x", "to 2"),
    ("$x", "to 2"),
    ("<a:b>", "to 5"),
    ("<b>", "wrong 0"),
    ("a:b", "wrong 0"),
    ("TRUE", "to 4"),
    ("1.5e0", "to 5"),
    ("\"a\"@en", "to 6"),
    ("\"a\"^^<a:b>", "to 10"),
    ("\"a\"^^<b>", "wrong 5"),
    ("'''a\n'b'''", "to 10"),
    ("\"a\"^^", "wrong 5"),
    ("", "wrong 0"),
    ("# note", "wrong 6"),
    ("a", "wrong 0"),
    ("SERVICE", "wrong 0"),
    ("_:b", "wrong 0"),
    // rows of signs
    ("?x + 1 * 2", "to 10"),
    ("1 - -1", "to 6"),
    ("1--1", "to 4"),
    ("1 + + 1", "to 7"),
    ("- - 1", "wrong 2"),
    ("!!?x", "wrong 1"),
    ("!?x", "to 3"),
    ("true && false || ?x", "to 19"),
    ("true || ", "wrong 8"),
    ("true || && true", "wrong 8"),
    ("?x / 2 / 2 - 1", "to 14"),
    ("?x ?y", "to 3"),
    // comparisons and lists
    ("?x = 1", "to 6"),
    ("?x = 1 = 2", "to 7"),
    ("?x != 1 && ?x <= 2", "to 18"),
    ("?a<?b&&?c>?d", "to 2"),
    ("?a < ?b && ?c > ?d", "to 18"),
    ("?x IN ()", "to 8"),
    ("?x in (1, 2)", "to 12"),
    ("?x NOT IN (1, 2)", "to 16"),
    ("?x NOT 1", "wrong 7"),
    ("?x IN 1", "wrong 6"),
    ("?x IN (1,)", "wrong 9"),
    ("?x IN (1 2)", "wrong 9"),
    // brackets
    ("(?x + 1) * 2", "to 12"),
    ("((?x))", "to 6"),
    ("(?x", "wrong 3"),
    ("()", "wrong 1"),
    ("(?x))", "to 4"),
    // calls
    ("BOUND(?x)", "to 9"),
    ("bound(1)", "wrong 6"),
    ("IF(?x, 1, 2)", "to 12"),
    ("IF(?x, 1)", "wrong 8"),
    ("IF(?x, 1, 2, 3)", "wrong 11"),
    ("substr(?x, 1)", "to 13"),
    ("SUBSTR(?x, 1, 2)", "to 16"),
    ("SUBSTR(?x)", "wrong 9"),
    ("COALESCE()", "to 10"),
    ("CONCAT(?x, ?y, ?z, 1 + 2)", "to 25"),
    ("isIRI(?x, ?y)", "wrong 8"),
    ("STR ?x", "wrong 4"),
    // aggregates
    ("COUNT(*) > 1", "to 12"),
    ("COUNT(DISTINCT ?x)", "to 18"),
    ("COUNT(DISTINCT *)", "wrong 15"),
    ("SUM(*)", "wrong 4"),
    ("1 + SUM(AVG(?x))", "wrong 8"),
];

#[test]
fn each_text_is_read_as_far_as_an_expression_goes(rt: HostRuntime) -> Result<(), Fail> {
    let alloc = rt.alloc();
    for (text, wanted) in &TEXTS {
        assert_eq!(rt; told(alloc, text)?.as_str(), *wanted, "{text}");
    }
    Ok(())
}

fn long_row_told(alloc: Global) -> Result<String, Fail> {
    let mut text = String::from_str(alloc, "?x")?;
    for _ in 0..6_000 {
        text.push_str(" + 1")?;
    }
    told(alloc, text.as_str())
}

#[test]
fn a_long_row_of_signs_is_no_depth(rt: HostRuntime) -> Result<(), Fail> {
    assert_eq!(rt; long_row_told(rt.alloc())?.as_str(), "to 24002");
    Ok(())
}
