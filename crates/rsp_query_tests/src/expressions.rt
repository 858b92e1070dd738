// Values of expressions, from the examples of SPARQL 1.1 Query, section 17, and worked out by hand.
use crate::notation::{constant, expression};
use rsp_expr::Expression;
use rsp_multiset::Row;
use rsp_operands::compare_terms;
use rsp_terms::Term;
use rsp_values::{truth, value};
use std::alloc::{AllocError, Global};
use std::test::Fail;

// ?0 is 2, and ?1 is unbound
fn row(alloc: Global) -> Result<Row<Term>, AllocError> {
    let mut cells = Vec::new(alloc);
    cells.push(constant(alloc, "2")?)?;
    cells.push(None)?;
    Ok(Row::new(cells))
}

// whether the expression has the value that is wanted; `error` stands for none
fn has_value(alloc: Global, text: &str, wanted: &str) -> Result<bool, Fail> {
    let found = value(alloc, &expression(alloc, text)?, &row(alloc)?)?;
    Ok(found == constant(alloc, wanted)?)
}

// a case a line: an expression, ` => `, and its value
fn first_wrong(alloc: Global, cases: &str) -> Result<Option<&str>, Fail> {
    for case in cases.lines() {
        let (text, wanted) = case.split_once(" => ").ok_or("no case")?;
        if !has_value(alloc, text, wanted)? {
            return Ok(Some(case));
        }
    }
    Ok(None)
}

const CONNECTIVES: &str = r#"true|false|or/2 => true
false|1|0|/|true|or/3 => true
1|0|/|false|or/2 => error
false|false|or/2 => false
or/0 => false
false|1|0|/|and/2 => false
true|1|0|/|and/2 => error
1|0|/|false|and/2 => false
true|true|and/2 => true
and/0 => true
true|not => false
1|0|/|not => error
"|not => true
"a|not => false
@en:|not => true
0|not => true
^decimal:0.0|not => true
-5|not => false
<a:1>|not => error
_:b|not => error
?1|not => error
^boolean:yes|not => true
^boolean:1|not => false
^integer:x|not => true
^double:1e0|not => error
^dateTime:x|not => error
^byte:200|not => true
^long:-9223372036854775808|not => error
^long:-9223372036854775809|not => true
^long:9223372036854775808|not => true
^unsignedLong:9223372036854775808|not => error
^unsignedLong:18446744073709551616|not => true
^positiveInteger:99999999999999999999|not => error
^nonPositiveInteger:99999999999999999999|not => true
^negativeInteger:-0|not => true
^decimal:0.1234567890123456789|not => error"#;

#[test]
fn connectives_and_boolean_values(rt: HostRuntime) -> Result<(), Fail> {
    assert_eq!(rt; first_wrong(rt.alloc(), CONNECTIVES)?, None);
    Ok(())
}

const COMPARISONS: &str = r#"1|1.0|= => true
01|1|= => true
1|2|= => false
1|2|!= => true
"abc|"abc|= => true
@en:abc|"abc|= => error
@en:abc|@en:abc|= => true
@en:abc|@EN:abc|= => error
1|"1|= => error
1|"1|!= => error
true|^boolean:1|= => true
^boolean:yes|^boolean:yes|= => true
^boolean:yes|true|= => error
^integer:x|^integer:x|= => true
^double:1e0|^double:1e0|= => error
^double:1e0|<a:1>|= => error
<a:1>|<a:1>|= => true
<a:1>|<a:2>|= => false
<a:1>|"a:1|= => false
<a:1>|_:b|!= => true
_:b|_:b|= => true
^dateTime:2004-12-31T19:00:00-05:00|^dateTime:2005-01-01T00:00:00Z|= => error
1|2|+|3|= => true
1|2|+|<a:1>|= => false
1|2|+|"3|= => error
1|1|=|true|= => true
"a|STR/1|"a|= => true
1|2|< => true
2|10|< => true
1.5|2|>= => false
2|2.0|<= => true
"a|"b|< => true
"a|"ab|< => true
"Z|"a|< => true
false|true|< => true
true|true|>= => true
<a:1>|<a:2>|< => error
@en:a|@en:b|< => error
1|"2|< => error
1|true|< => error
^double:1e0|2|< => error
^integer:x|2|< => error
?1|2|< => error
2|1|2|3|in/3 => true
2|in/0 => false
2|<http://example/iri>|"str|2.0|in/3 => true
2|1|0|/|2|in/2 => true
2|2|1|0|/|in/2 => true
2|3|1|0|/|in/2 => error
1|2|1|0|/|1|in/3 => true
1|0|/|in/0 => false
1|0|/|1|in/1 => error
2|1|2|3|notin/3 => false
2|notin/0 => true
2|1|0|/|2|notin/2 => false
2|3|1|0|/|notin/2 => error
1|0|/|notin/0 => true
?0|!?0|and/2 => true
!?1 => false"#;

#[test]
fn comparisons(rt: HostRuntime) -> Result<(), Fail> {
    assert_eq!(rt; first_wrong(rt.alloc(), COMPARISONS)?, None);
    Ok(())
}

const ARITHMETIC: &str = r#"1|2|+ => 3
1|2.5|+ => 3.5
0.1|0.2|+ => 0.3
1|2|- => -1
2|3|* => 6
1|2|/ => 0.5
-1|2|/ => -0.5
4|2|/ => ^decimal:2
1|3|/ => 0.333333333333333333
1|0|/ => error
9223372036854775807|1|+ => error
^byte:05|plus => 5
^byte:+0127|plus => 127
^byte:128|plus => error
1.50|plus => 1.5
5|neg => -5
0|neg => 0
"1|plus => error
true|neg => error
"1|1|+ => error
<a:1>|1|+ => error
_:b|1|* => error
@en:1|1|- => error
^double:1e0|1|+ => error
?1|1|+ => error
1|ABS/1 => 1
-1.5|ABS/1 => 1.5
2.4999|ROUND/1 => ^decimal:2
2.5|ROUND/1 => ^decimal:3
-2.5|ROUND/1 => ^decimal:-2
10.5|CEIL/1 => ^decimal:11
-10.5|CEIL/1 => ^decimal:-10
7|neg|2|/|CEIL/1 => ^decimal:-3
10.5|FLOOR/1 => ^decimal:10
-10.5|FLOOR/1 => ^decimal:-11
7|FLOOR/1 => 7
"1|ABS/1 => error
<a:1>|CEIL/1 => error
true|FLOOR/1 => error
@en:1|ROUND/1 => error
^double:1.5|ROUND/1 => error"#;

#[test]
fn arithmetic(rt: HostRuntime) -> Result<(), Fail> {
    assert_eq!(rt; first_wrong(rt.alloc(), ARITHMETIC)?, None);
    Ok(())
}

const TERMS: &str = r#"?0|2|=|"yes|"no|IF/3 => "yes
!?1|"yes|"no|IF/3 => "no
?0|2|=|"yes|1|0|/|IF/3 => "yes
?0|1|=|"yes|1|0|/|IF/3 => error
"2|1|>|"yes|"no|IF/3 => error
?0|1|0|/|COALESCE/2 => 2
1|0|/|?0|COALESCE/2 => 2
5|?0|COALESCE/2 => 5
?1|3|COALESCE/2 => 3
?1|COALESCE/1 => error
COALESCE/0 => error
1|1.0|sameTerm/2 => false
^double:1e0|^double:1e0|sameTerm/2 => true
1|2|+|3|sameTerm/2 => true
1|2|+|03|sameTerm/2 => false
1|2|+|^decimal:3|sameTerm/2 => false
^decimal:0.125|1|8|/|sameTerm/2 => true
^decimal:-0.125|-1|8|/|sameTerm/2 => true
^decimal:.125|1|8|/|sameTerm/2 => false
^decimal:+.125|1|8|/|sameTerm/2 => false
1|8|/|^decimal:0.1250|sameTerm/2 => false
1|8|/|1|4|/|sameTerm/2 => false
1|8|/|2|16|/|sameTerm/2 => true
1|1|=|true|sameTerm/2 => true
1|1|=|^boolean:1|sameTerm/2 => false
@en:a|STR/1|"a|sameTerm/2 => true
"1|STR/1|1|1|*|sameTerm/2 => false
?1|1|sameTerm/2 => error
<a:1>|isIRI/1 => true
"a:1|isIRI/1 => false
<a:1>|isURI/1 => true
_:b|isBlank/1 => true
<a:1>|isBlank/1 => false
@en:a|isLiteral/1 => true
_:b|isLiteral/1 => false
?1|isLiteral/1 => error
12|isNumeric/1 => true
"12|isNumeric/1 => false
^nonNegativeInteger:12|isNumeric/1 => true
^byte:1200|isNumeric/1 => false
<http://example/>|isNumeric/1 => false
_:b|isNumeric/1 => false
^double:1e0|isNumeric/1 => error
^float:1|isNumeric/1 => error
?1|isNumeric/1 => error
<mailto:alice@work.example>|STR/1 => "mailto:alice@work.example
@en:Robert|STR/1 => "Robert
^byte:007|STR/1 => "007
1|2|+|STR/1 => "3
_:b|STR/1 => error
@EN-GB:a|LANG/1 => "EN-GB
"a|LANG/1 => "
1|LANG/1 => "
<a:1>|LANG/1 => error
_:b|LANG/1 => error
1|DATATYPE/1 => <http://www.w3.org/2001/XMLSchema#integer>
1|2|/|DATATYPE/1 => <http://www.w3.org/2001/XMLSchema#decimal>
"a|DATATYPE/1 => <http://www.w3.org/2001/XMLSchema#string>
@en:a|DATATYPE/1 => <http://www.w3.org/1999/02/22-rdf-syntax-ns#langString>
<a:1>|DATATYPE/1 => error
_:b|DATATYPE/1 => error
"http://example/|IRI/1 => <http://example/>
<a:1>|URI/1 => <a:1>
"a b:1|IRI/1 => error
"relative|IRI/1 => error
@en:a:1|IRI/1 => error
1|IRI/1 => error
_:b|IRI/1 => error
"123|<http://www.w3.org/2001/XMLSchema#integer>|STRDT/2 => 123
"x|<http://www.w3.org/2001/XMLSchema#byte>|STRDT/2 => ^byte:x
"a|<http://www.w3.org/1999/02/22-rdf-syntax-ns#langString>|STRDT/2 => error
"a|"b:1|STRDT/2 => error
@en:a|<a:1>|STRDT/2 => error
^double:1.5|STR/1|<http://www.w3.org/2001/XMLSchema#decimal>|STRDT/2|2|* => ^decimal:3
"chat|"en|STRLANG/2 => @en:chat
"chat|"e1|STRLANG/2 => error
"chat|"|STRLANG/2 => error
@en:chat|"en|STRLANG/2 => error
"chat|@en:en|STRLANG/2 => error"#;

#[test]
fn functions_on_terms(rt: HostRuntime) -> Result<(), Fail> {
    assert_eq!(rt; first_wrong(rt.alloc(), TERMS)?, None);
    Ok(())
}

const TEXTS: &str = r#""chat|STRLEN/1 => 4
@en:chat|STRLEN/1 => 4
"|STRLEN/1 => 0
"aé€😀|STRLEN/1 => 4
1|STRLEN/1 => error
<a:1>|STRLEN/1 => error
"foobar|4|SUBSTR/2 => "bar
@en:foobar|4|SUBSTR/2 => @en:bar
"foobar|4|1|SUBSTR/3 => "b
@en:foobar|4|1|SUBSTR/3 => @en:b
"motor car|6|SUBSTR/2 => " car
"metadata|4|3|SUBSTR/3 => "ada
"12345|0|3|SUBSTR/3 => "12
"12345|5|-3|SUBSTR/3 => "
"12345|-3|5|SUBSTR/3 => "1
"12345|-3|SUBSTR/2 => "12345
"12345|6|SUBSTR/2 => "
"aé€😀|2|2|SUBSTR/3 => "é€
"aé€😀|4|SUBSTR/2 => "😀
"abc|9223372036854775807|9223372036854775807|SUBSTR/3 => "
"abc|-9223372036854775807|9223372036854775807|SUBSTR/3 => "
"abc|^byte:02|SUBSTR/2 => "bc
"abc|1.0|SUBSTR/2 => error
"abc|"1|SUBSTR/2 => error
1|1|SUBSTR/2 => error
"abc|1|?1|SUBSTR/3 => error
"foobar|"foo|STRSTARTS/2 => true
@en:foobar|@en:foo|STRSTARTS/2 => true
@en:foobar|"foo|STRSTARTS/2 => true
"foobar|@en:foo|STRSTARTS/2 => error
@en:foobar|@fr:foo|STRSTARTS/2 => error
"foobar|"|STRSTARTS/2 => true
"foobar|"bar|STRENDS/2 => true
"foobar|"foo|STRENDS/2 => false
"foobar|1|STRENDS/2 => error
"foobar|"oba|CONTAINS/2 => true
@en:foobar|@EN:oba|CONTAINS/2 => error
<a:1>|"a|CONTAINS/2 => error
"abc|"b|STRBEFORE/2 => "a
@en:abc|"bc|STRBEFORE/2 => @en:a
@en:abc|@cy:b|STRBEFORE/2 => error
"abc|"|STRBEFORE/2 => "
"abc|"xyz|STRBEFORE/2 => "
@en:abc|@en:z|STRBEFORE/2 => "
@en:abc|"z|STRBEFORE/2 => "
@en:abc|@en:|STRBEFORE/2 => @en:
@en:abc|"|STRBEFORE/2 => @en:
"abc|"b|STRAFTER/2 => "c
@en:abc|"ab|STRAFTER/2 => @en:c
@en:abc|@cy:b|STRAFTER/2 => error
"abc|"|STRAFTER/2 => "abc
"abc|"xyz|STRAFTER/2 => "
@en:abc|@en:z|STRAFTER/2 => "
@en:abc|@en:|STRAFTER/2 => @en:abc
"aabab|"ab|STRAFTER/2 => "ab
"foo|"bar|CONCAT/2 => "foobar
@en:foo|@en:bar|CONCAT/2 => @en:foobar
"foo|@en:bar|CONCAT/2 => "foobar
@en:foo|"bar|CONCAT/2 => "foobar
@en:foo|@EN:bar|CONCAT/2 => "foobar
@en:foo|@fr:x|@en:bar|CONCAT/3 => "fooxbar
CONCAT/0 => "
@en:foo|CONCAT/1 => @en:foo
"a|1|CONCAT/2 => error
"a|?1|CONCAT/2 => error
"fr|"FR|LANGMATCHES/2 => true
"fr-BE|"FR|LANGMATCHES/2 => true
"fr-BE|"fr-be|LANGMATCHES/2 => true
"fra|"fr|LANGMATCHES/2 => false
"fr|"*|LANGMATCHES/2 => true
"|"*|LANGMATCHES/2 => false
"|"|LANGMATCHES/2 => true
@en:fr|"FR|LANGMATCHES/2 => error
"fr|<a:1>|LANGMATCHES/2 => error
STR/0 => error
"a|"b|STR/2 => error
true|"a|IF/2 => error
"a|SUBSTR/1 => error"#;

#[test]
fn functions_on_texts(rt: HostRuntime) -> Result<(), Fail> {
    assert_eq!(rt; first_wrong(rt.alloc(), TEXTS)?, None);
    Ok(())
}

const CONDITIONS: &str = r#"?0|1|>|?1|1|=|!?1|not|or/3
?0|1|2|3|in/3|?0|3.5|<|and/2
?0|1.5|*|4|-|-1|=
"été|"é|STRSTARTS/2|@en:abc|"c|CONTAINS/2|and/2
?0|isNumeric/1|?0|isLiteral/1|?0|2|sameTerm/2|and/3
<a:1>|STR/1|"a:1|=|"a|STRLEN/1|1|=|and/2
@en:a|LANG/1|"EN|LANGMATCHES/2
?1|?0|COALESCE/2|?0|IF/2|not|?0|2|=|or/2
?0|1|+|3|sameTerm/2|1|-8|/|-0.125|sameTerm/2|1|2|+|4|1|-|sameTerm/2|and/3
1|2|+|03|sameTerm/2|1|8|/|.125|sameTerm/2|?0|2|=|false|sameTerm/2|or/3|not
@en:a|STR/1|"a|sameTerm/2|@en:a|LANG/1|"en|sameTerm/2|and/2"#;

fn conditions(alloc: Global) -> Result<Vec<Expression>, Fail> {
    let mut conditions = Vec::new(alloc);
    for text in CONDITIONS.lines() {
        conditions.push(expression(alloc, text)?)?;
    }
    Ok(conditions)
}

// Under `rt try --test --fail-alloc N` this fails for just the same N as the next, which asks for the truths: they take
// no memory.
#[test]
fn conditions_are_made(rt: HostRuntime) -> Result<(), Fail> {
    let row = row(rt.alloc())?;
    let conditions = conditions(rt.alloc())?;
    assert_eq!(rt; (row.cells().len(), conditions.len()), (2, 11));
    Ok(())
}

#[test]
fn conditions_are_true_without_memory(rt: HostRuntime) -> Result<(), Fail> {
    let row = row(rt.alloc())?;
    for condition in conditions(rt.alloc())? {
        assert!(rt; truth(rt.alloc(), &condition, &row)?);
    }
    Ok(())
}

// each term of a line stands before all behind it: numbers by value and not as texts, equal ones by their texts
const ORDERED: &str = r#"_:a|_:b|<a:10>|<a:1>|<a:2>|-5|"a|@en:a|"b
-10|-9|-2|-1|0|1|2|9|10|100
-10.5|-2.5|-1|0.5|2.5|9|9.5|10
1|1.5|^byte:2|10|^decimal:11
010|10|10.0
^integer:5|^decimal:50|^double:1|^byte:200|^integer:x
_:b|<a:1>|10|"1|"10|"9"#;

fn terms(alloc: Global, line: &str) -> Result<Vec<Term>, Fail> {
    let mut terms = Vec::new(alloc);
    for word in line.split('|') {
        terms.push(constant(alloc, word)?.ok_or("no term")?)?;
    }
    Ok(terms)
}

fn is_in_order(alloc: Global, terms: &[Term]) -> Result<bool, Fail> {
    for (place, left) in terms.iter().enumerate() {
        for (other, right) in terms.iter().enumerate() {
            if compare_terms(alloc, left, right)? != place.cmp(&other) {
                return Ok(false);
            }
        }
    }
    Ok(true)
}

#[test]
fn terms_in_order(rt: HostRuntime) -> Result<(), Fail> {
    for line in ORDERED.lines() {
        let terms = terms(rt.alloc(), line)?;
        assert!(rt; is_in_order(rt.alloc(), &terms)?);
    }
    Ok(())
}
