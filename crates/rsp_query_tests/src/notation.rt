// A small notation of expressions for tables of cases: the parts before what they are parts of, with `|` between.
//
// `"text` is a string, `@tag:text` a literal with a tag, `^type:text` one of a type of XML Schema, digits an integer or
// a decimal, `<iri>`, `_:label`, `true`, `false`, `?0` a variable, `!?0` BOUND. An operator stands behind its operands;
// `neg`, `plus` and `not` have one. `or/3`, `and/3` and functions stand behind so many parts, `in/3` and `notin/3` behind an
// item and so many members.
use rsp_expr::{Expression, Function, Sign};
use rsp_terms::{Term, Text};
use std::alloc::{AllocError, Global};
use std::test::Fail;

pub(crate) fn expression(alloc: Global, text: &str) -> Result<Expression, Fail> {
    let mut parts = Vec::new(alloc);
    for word in text.split('|') {
        push_word(alloc, word, &mut parts)?;
    }
    last(&mut parts)
}

fn last(parts: &mut Vec<Expression>) -> Result<Expression, Fail> {
    Ok(parts.pop().ok_or("a part is missing")?)
}

fn push_word(alloc: Global, word: &str, parts: &mut Vec<Expression>) -> Result<(), Fail> {
    if let Some(term) = constant(alloc, word)? {
        parts.push(Expression::Constant(term))?;
        return Ok(());
    }
    if let Some(place) = word.strip_prefix("?") {
        parts.push(Expression::Variable(place.parse::<usize>()?))?;
        return Ok(());
    }
    if let Some(place) = word.strip_prefix("!?") {
        parts.push(Expression::Bound(place.parse::<usize>()?))?;
        return Ok(());
    }
    if let Some(sign) = sign_of(word) {
        return push_sign(alloc, sign, parts);
    }
    match word.split_once('/') {
        None => push_unary(alloc, word, parts),
        Some((name, count)) => {
            let taken = taken(alloc, parts, count.parse::<usize>()?)?;
            push_node(alloc, name, taken, parts)
        }
    }
}

// the last parts, so many as the count
fn taken(
    alloc: Global,
    parts: &mut Vec<Expression>,
    count: usize,
) -> Result<Vec<Expression>, Fail> {
    let mut taken = Vec::new(alloc);
    for _ in 0..count {
        taken.push(last(parts)?)?;
    }
    taken.reverse();
    Ok(taken)
}

fn push_unary(alloc: Global, word: &str, parts: &mut Vec<Expression>) -> Result<(), Fail> {
    let part = Box::new(alloc, last(parts)?)?;
    let node = match word {
        "neg" => Expression::Negate(part),
        "plus" => Expression::Plus(part),
        _ => Expression::Not(part),
    };
    parts.push(node)?;
    Ok(())
}

fn push_sign(alloc: Global, sign: Sign, parts: &mut Vec<Expression>) -> Result<(), Fail> {
    let right = Box::new(alloc, last(parts)?)?;
    let left = Box::new(alloc, last(parts)?)?;
    let node = match sign {
        Sign::Add | Sign::Subtract | Sign::Multiply | Sign::Divide => {
            Expression::Arithmetic { sign, left, right }
        }
        _ => Expression::Compare { sign, left, right },
    };
    parts.push(node)?;
    Ok(())
}

fn push_node(
    alloc: Global,
    name: &str,
    arguments: Vec<Expression>,
    parts: &mut Vec<Expression>,
) -> Result<(), Fail> {
    match name {
        "or" => parts.push(Expression::Or(arguments))?,
        "and" => parts.push(Expression::And(arguments))?,
        "in" => push_member(alloc, false, arguments, parts)?,
        "notin" => push_member(alloc, true, arguments, parts)?,
        _ => {
            let function = function_of(name).ok_or("no such function")?;
            parts.push(Expression::Call {
                function,
                arguments,
            })?;
        }
    }
    Ok(())
}

fn push_member(
    alloc: Global,
    negated: bool,
    list: Vec<Expression>,
    parts: &mut Vec<Expression>,
) -> Result<(), Fail> {
    let item = Box::new(alloc, last(parts)?)?;
    parts.push(Expression::Member {
        negated,
        item,
        list,
    })?;
    Ok(())
}

// the term that a word is, and None where it is no term
pub(crate) fn constant(alloc: Global, word: &str) -> Result<Option<Term>, AllocError> {
    if let Some(text) = word.strip_prefix("\"") {
        return Ok(Some(typed(alloc, text, "string")?));
    }
    if let Some(rest) = word.strip_prefix("@") {
        return tagged(alloc, rest);
    }
    if let Some(rest) = word.strip_prefix("^") {
        return typed_word(alloc, rest);
    }
    if let Some(label) = word.strip_prefix("_:") {
        let label = Text::new(alloc, label)?;
        return Ok(Some(Term::Blank { document: 1, label }));
    }
    if let Some(iri) = word
        .strip_prefix("<")
        .and_then(|rest| rest.strip_suffix(">"))
    {
        return Ok(Some(Term::Iri(Text::new(alloc, iri)?)));
    }
    plain(alloc, word)
}

fn plain(alloc: Global, word: &str) -> Result<Option<Term>, AllocError> {
    if word == "true" || word == "false" {
        return Ok(Some(typed(alloc, word, "boolean")?));
    }
    if !word.bytes().any(|byte| byte.is_ascii_digit()) {
        return Ok(None);
    }
    if !word.bytes().all(|byte| byte.is_ascii_digit() || byte == b'-' || byte == b'.') {
        return Ok(None);
    }
    if word.contains(".") {
        Ok(Some(typed(alloc, word, "decimal")?))
    } else {
        Ok(Some(typed(alloc, word, "integer")?))
    }
}

fn tagged(alloc: Global, rest: &str) -> Result<Option<Term>, AllocError> {
    match rest.split_once(':') {
        None => Ok(None),
        Some((language, lexical)) => Ok(Some(Term::Tagged {
            lexical: Text::new(alloc, lexical)?,
            language: Text::new(alloc, language)?,
        })),
    }
}

fn typed_word(alloc: Global, rest: &str) -> Result<Option<Term>, AllocError> {
    match rest.split_once(':') {
        None => Ok(None),
        Some((name, lexical)) => Ok(Some(typed(alloc, lexical, name)?)),
    }
}

fn typed(alloc: Global, lexical: &str, name: &str) -> Result<Term, AllocError> {
    let mut datatype = String::from_str(alloc, "http://www.w3.org/2001/XMLSchema#")?;
    datatype.push_str(name)?;
    Ok(Term::Literal {
        lexical: Text::new(alloc, lexical)?,
        datatype: Text::new(alloc, datatype.as_str())?,
    })
}

fn sign_of(word: &str) -> Option<Sign> {
    match word {
        "=" => Some(Sign::Equal),
        "!=" => Some(Sign::NotEqual),
        "<" => Some(Sign::Less),
        ">" => Some(Sign::Greater),
        "<=" => Some(Sign::LessEqual),
        ">=" => Some(Sign::GreaterEqual),
        "+" => Some(Sign::Add),
        "-" => Some(Sign::Subtract),
        "*" => Some(Sign::Multiply),
        "/" => Some(Sign::Divide),
        _ => None,
    }
}

fn function_of(name: &str) -> Option<Function> {
    match name {
        "IF" => Some(Function::If),
        "COALESCE" => Some(Function::Coalesce),
        "sameTerm" => Some(Function::SameTerm),
        "isIRI" => Some(Function::IsIri),
        "isURI" => Some(Function::IsUri),
        "isBlank" => Some(Function::IsBlank),
        "isLiteral" => Some(Function::IsLiteral),
        "isNumeric" => Some(Function::IsNumeric),
        "STR" => Some(Function::Str),
        "LANG" => Some(Function::Lang),
        "DATATYPE" => Some(Function::Datatype),
        "IRI" => Some(Function::Iri),
        "URI" => Some(Function::Uri),
        "STRDT" => Some(Function::StrDt),
        _ => text_function_of(name),
    }
}

fn text_function_of(name: &str) -> Option<Function> {
    match name {
        "STRLANG" => Some(Function::StrLang),
        "STRLEN" => Some(Function::StrLen),
        "SUBSTR" => Some(Function::Substr),
        "CONTAINS" => Some(Function::Contains),
        "STRSTARTS" => Some(Function::StrStarts),
        "STRENDS" => Some(Function::StrEnds),
        "STRBEFORE" => Some(Function::StrBefore),
        "STRAFTER" => Some(Function::StrAfter),
        "CONCAT" => Some(Function::Concat),
        "LANGMATCHES" => Some(Function::LangMatches),
        "ABS" => Some(Function::Abs),
        "CEIL" => Some(Function::Ceil),
        "FLOOR" => Some(Function::Floor),
        "ROUND" => Some(Function::Round),
        _ => None,
    }
}
