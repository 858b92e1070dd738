// Texts and their tokens, worked out by hand from the standard's grammar.
use rsp_lex::{Token, TokenKind, tokens};
use std::alloc::{AllocError, Global};
use std::test::Fail;

fn name_of(kind: TokenKind) -> &'static str {
    match kind {
        TokenKind::Iri => "Iri",
        TokenKind::Prefixed => "Prefixed",
        TokenKind::Label => "Label",
        TokenKind::Variable => "Variable",
        TokenKind::Span => "Span",
        TokenKind::Word => "Word",
        TokenKind::Tag => "Tag",
        TokenKind::Double => "Double",
        TokenKind::Decimal => "Decimal",
        TokenKind::Integer => "Integer",
        TokenKind::String => "String",
        TokenKind::Symbol => "Symbol",
    }
}

// the token's kind and bytes, and a bar behind them
fn push_token(out: &mut Vec<u8>, text: &str, token: &Token) -> Result<(), Fail> {
    let bytes = text
        .as_bytes()
        .get(token.start..token.end)
        .ok_or("a place within the text")?;
    out.extend_from_slice(name_of(token.kind).as_bytes())?;
    out.push(b' ')?;
    out.extend_from_slice(bytes)?;
    out.push(b'|')?;
    Ok(())
}

fn push_tokens(out: &mut Vec<u8>, text: &str, all: &[Token]) -> Result<(), Fail> {
    for token in all {
        push_token(out, text, token)?;
    }
    Ok(())
}

// each token as above, or the fault's text
fn push_told(alloc: Global, out: &mut Vec<u8>, text: &str) -> Result<(), Fail> {
    match tokens(alloc, text) {
        Ok(all) => push_tokens(out, text, all.as_slice()),
        Err(fault) => {
            let text = format!(in alloc; "{fault}")?;
            out.extend_from_slice(text.as_bytes())?;
            Ok(())
        }
    }
}

fn told(alloc: Global, text: &str) -> Result<Vec<u8>, Fail> {
    let mut out = Vec::new(alloc);
    push_told(alloc, &mut out, text)?;
    Ok(out)
}

const TEXTS: [(&str, &str); 113] = [
    // white space and comments
    ("", ""),
    (" \t\r\n", ""),
    ("# note", ""),
    ("# a\n?b", "Variable ?b|"),
    ("#\n#\n", ""),
    ("?a#x\r?b\n?c", "Variable ?a|Variable ?c|"),
    ("a:b# c", "Prefixed a:b|"),
    // words and spans
    ("SELECT", "Word SELECT|"),
    ("a", "Word a|"),
    ("a1_b", "Word a1_b|"),
    ("1a", "Integer 1|Word a|"),
    ("_a", "no token: byte 0"),
    ("P1D", "Span P1D|"),
    ("P1DT", "Word P1DT|"),
    ("PT1S:x", "Prefixed PT1S:x|"),
    ("PT1H30M", "Span PT1H30M|"),
    ("PT0.5S", "Span PT0.5S|"),
    ("PT", "Word PT|"),
    ("P1DT2H3M4.5S", "Span P1DT2H3M4.5S|"),
    ("PT1M2H", "Word PT1M2H|"),
    ("PT1.S", "Word PT1|Symbol .|Word S|"),
    ("STEP PT10S]", "Word STEP|Span PT10S|Symbol ]|"),
    // prefixed names
    ("ex:a", "Prefixed ex:a|"),
    ("ex:a.", "Prefixed ex:a|Symbol .|"),
    ("ex:a..b", "Prefixed ex:a..b|"),
    ("ex:", "Prefixed ex:|"),
    (":", "Prefixed :|"),
    (":a", "Prefixed :a|"),
    (":a:b", "Prefixed :a:b|"),
    ("a_:b", "Prefixed a_:b|"),
    ("a.b:c", "Prefixed a.b:c|"),
    ("a.:c", "Word a|Symbol .|Prefixed :c|"),
    ("a.b.c", "Word a|Symbol .|Word b|Symbol .|Word c|"),
    ("ex:%41b", "Prefixed ex:%41b|"),
    ("ex:%4", "no token: byte 3"),
    ("ex:\\-a", "Prefixed ex:\\-a|"),
    ("ex:a\\.", "Prefixed ex:a\\.|"),
    ("ex:\\a", "no token: byte 3"),
    ("ex:1a", "Prefixed ex:1a|"),
    ("ex:-a", "Prefixed ex:|Symbol -|Word a|"),
    ("é:x", "Prefixed é:x|"),
    ("é", "no token: byte 0"),
    ("x:é.é", "Prefixed x:é.é|"),
    // labels and variables
    ("_:a", "Label _:a|"),
    ("_:a:b", "Label _:a|Prefixed :b|"),
    ("_:a.", "Label _:a|Symbol .|"),
    ("_:1.b-", "Label _:1.b-|"),
    ("_:", "no token: byte 0"),
    ("_:-a", "no token: byte 0"),
    ("?a", "Variable ?a|"),
    ("$a1", "Variable $a1|"),
    ("?1", "Variable ?1|"),
    ("?", "Symbol ?|"),
    ("$", "no token: byte 0"),
    ("?a-b", "Variable ?a|Symbol -|Word b|"),
    ("?a.b", "Variable ?a|Symbol .|Word b|"),
    ("?a:b", "Variable ?a|Prefixed :b|"),
    // IRIs
    ("<a>", "Iri <a>|"),
    ("<>", "Iri <>|"),
    ("<a b>", "Symbol <|Word a|Word b|Symbol >|"),
    ("?a<?b&&?c>?d", "Variable ?a|Iri <?b&&?c>|Variable ?d|"),
    ("?a < ?b", "Variable ?a|Symbol <|Variable ?b|"),
    ("<\\u0041>", "Iri <\\u0041>|"),
    ("<\\u0020>", "no token: byte 1"),
    ("<\\u00e9x>", "Iri <\\u00e9x>|"),
    ("<\\U0001F600>", "Iri <\\U0001F600>|"),
    ("<\\U00110000>", "no token: byte 1"),
    ("<\\u041>", "no token: byte 1"),
    // strings and tags
    ("\"a\"", "String \"a\"|"),
    ("'a'", "String 'a'|"),
    ("\"\"", "String \"\"|"),
    ("\"\"\"a\"\"\"", "String \"\"\"a\"\"\"|"),
    ("\"\"\"a\"\"\"\"\"", "String \"\"\"a\"\"\"|String \"\"|"),
    ("\"\"\"a", "no token: byte 2"),
    ("\"\"\"a\nb\"\"\"", "String \"\"\"a\nb\"\"\"|"),
    ("\"\"\"a\"", "String \"\"|String \"a\"|"),
    ("\"a\nb\"", "no token: byte 0"),
    ("\"\\t\\u0041\"", "String \"\\t\\u0041\"|"),
    ("\"\\x\"", "no token: byte 0"),
    ("\"\\uD800\"", "no token: byte 0"),
    ("'''a''b'''", "String '''a''b'''|"),
    ("'a\"b'", "String 'a\"b'|"),
    ("\"a\"@en", "String \"a\"|Tag @en|"),
    ("@en-", "Tag @en|Symbol -|"),
    ("@e1", "Tag @e|Integer 1|"),
    ("@", "no token: byte 0"),
    ("@en-US-1a", "Tag @en-US-1a|"),
    // numbers
    ("1", "Integer 1|"),
    ("1.5", "Decimal 1.5|"),
    (".5", "Decimal .5|"),
    ("1.", "Integer 1|Symbol .|"),
    ("1.e5", "Double 1.e5|"),
    ("1e5", "Double 1e5|"),
    ("1.5E+3", "Double 1.5E+3|"),
    (".5e-1", "Double .5e-1|"),
    ("1e", "Integer 1|Word e|"),
    ("1.e", "Integer 1|Symbol .|Word e|"),
    ("1.5.5", "Decimal 1.5|Decimal .5|"),
    ("+1", "Symbol +|Integer 1|"),
    ("1e5e", "Double 1e5|Word e|"),
    // symbols
    ("^^^", "Symbol ^^|Symbol ^|"),
    ("|||", "Symbol |||Symbol ||"),
    ("&&", "Symbol &&|"),
    ("&", "no token: byte 0"),
    ("!=!", "Symbol !=|Symbol !|"),
    ("<=<<", "Symbol <=|Symbol <|Symbol <|"),
    (">=>", "Symbol >=|Symbol >|"),
    ("==", "Symbol =|Symbol =|"),
    ("{}()", "Symbol {|Symbol }|Symbol (|Symbol )|"),
    ("[];,", "Symbol [|Symbol ]|Symbol ;|Symbol ,|"),
    ("+-*/", "Symbol +|Symbol -|Symbol *|Symbol /|"),
    ("~", "no token: byte 0"),
    ("?a ~", "no token: byte 3"),
];

#[test]
fn each_place_has_its_longest_token(rt: HostRuntime) -> Result<(), Fail> {
    let alloc = rt.alloc();
    for (text, wanted) in &TEXTS {
        assert_eq!(rt; told(alloc, text)?.as_slice(), wanted.as_bytes(), "{text}");
    }
    Ok(())
}

// each of 65,536 bytes: a run of names without a colon, brackets, quotes, digits that each begin much and end nothing
const REPEATED: [(&str, usize, usize); 6] = [
    ("a.", 32_768, 65_536),
    ("a-", 32_768, 65_536),
    ("<a", 32_768, 65_536),
    (":a. ", 16_384, 32_768),
    ("\"\"\"a\"#\\x\n", 6_553, 13_106),
    ("1.1e", 16_384, 16_385),
];

fn repeated(alloc: Global, piece: &str, count: usize) -> Result<String, AllocError> {
    let mut text = String::new(alloc);
    for _ in 0..count {
        text.push_str(piece)?;
    }
    Ok(text)
}

fn how_many(alloc: Global, piece: &str, count: usize) -> Result<usize, Fail> {
    let text = repeated(alloc, piece, count)?;
    match tokens(alloc, text.as_str()) {
        Ok(all) => Ok(all.as_slice().len()),
        Err(_) => Err("tokens".into()),
    }
}

#[test]
fn hostile_texts_end_soon(rt: HostRuntime) -> Result<(), Fail> {
    for (piece, count, wanted) in &REPEATED {
        assert_eq!(rt; how_many(rt.alloc(), piece, *count)?, *wanted, "{piece}");
    }
    Ok(())
}
