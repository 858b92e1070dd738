// What stands for a term between two steps of an evaluation.
ghost use Rattle.std.specs.Prelude.{◌≡◌, Some, IfOk, MatchOption, is_some, true, option_map, not};
ghost use Rattle.std.specs.Option.{option_copied};
ghost use Rattle.rsp_number.specs.Numbers.{value_of, is_zero};
ghost use Rattle.rsp_expr.specs.BooleanValues.{boolean_value};
ghost use Rattle.rsp_expr.specs.Forms.{number_of as number_of_term};
ghost use Rattle.rsp_expr.specs.Numerals.{numeral_literal};
ghost use Rattle.rsp_expr.specs.Strings.{string_of as string_of_term, is_inexact as is_inexact_term};
ghost use Rattle.rsp_expr.specs.Comparing.{is_literal, comparable_of};
ghost use Rattle.rsp_expr.specs.Functions.{is_iri, is_blank, written_of, text_literal};
ghost use Rattle.rsp_operands.specs.Operands.{term_for, written_for};

use rsp_literals::{boolean_term, boolean_value, is_inexact, number_of, string_of, term_of};
use rsp_number::Number;
use rsp_terms::{Term, Text, XSD_STRING};
use std::alloc::{AllocError, Global};

/// A term, or what a literal is made of where that is asked for: so what only tests or calculates makes no term.
#[derive(Drop)]
pub enum Operand {
    Term(Term),
    Number(Number),
    Boolean(bool),
    String(Text),
}

/// The text of a string, or of a literal with a language tag.
#[derive(Clone, Copy)]
pub(crate) struct Written<'a> {
    pub text: &'a str,
    pub tag: Option<&'a Text>,
}

impl Operand {
    /// The term. Fails only where memory is refused.
    pub fn into_term(self, alloc: Global) -> Result<Term, AllocError>
        ensures { IfOk result (λ term. term ≡ term_for self) }
    {
        match self {
            Operand::Term(term) => Ok(term),
            Operand::Number(number) => term_of(alloc, &number),
            Operand::Boolean(value) => boolean_term(alloc, value),
            Operand::String(text) => string_literal(alloc, text),
        }
    }

    /// The operand as a term, where it is one already.
    pub(crate) fn as_term(&self) -> Option<&Term>
        ensures { MatchOption result (is_some (comparable_of (term_for self.now)) ≡ true) (λ term. term.now ≡ term_for self.now) }
    {
        match self {
            Operand::Term(term) => Some(term),
            Operand::Number(number) => {
                let _number = read_back(number);
                None
            }
            _ => None,
        }
    }

    /// The number, if it has one.
    pub(crate) fn number(&self) -> Option<Number>
        ensures { result ≡ number_of_term (term_for self.now) }
    {
        match self {
            Operand::Term(term) => number_of(term),
            Operand::Number(number) => Some(read_back(number)),
            Operand::Boolean(_) => None,
            Operand::String(_) => None,
        }
    }

    /// The boolean value; None is an error.
    pub fn truth(&self) -> Option<bool>
        ensures { result ≡ boolean_value (term_for self.now) }
    {
        match self {
            Operand::Term(term) => boolean_value(term),
            Operand::Number(number) => Some(!is_zero(&read_back(number))),
            Operand::Boolean(value) => Some(*value),
            Operand::String(text) => Some(!text.as_str().is_empty()),
        }
    }

    /// The text of a string.
    pub(crate) fn string(&self) -> Option<&str>
        ensures { option_copied result ≡ string_of_term (term_for self.now) }
    {
        match self {
            Operand::Term(term) => string_of(term),
            Operand::Number(_) => None,
            Operand::Boolean(_) => None,
            Operand::String(text) => Some(text.as_str()),
        }
    }

    /// The text of a string or of a literal with a tag.
    pub(crate) fn written(&self) -> Option<Written<'_>>
        ensures { option_map written_for result ≡ written_of (term_for self.now) }
    {
        match self {
            Operand::Term(term) => written_term(term),
            Operand::Number(_) => None,
            Operand::Boolean(_) => None,
            Operand::String(text) => Some(Written {
                text: text.as_str(),
                tag: None,
            }),
        }
    }

    pub(crate) fn is_inexact(&self) -> bool
        ensures { result ≡ is_inexact_term (term_for self.now) }
    {
        match self {
            Operand::Term(term) => is_inexact(term),
            _ => false,
        }
    }

    pub(crate) fn is_iri(&self) -> bool
        ensures { result ≡ is_iri (term_for self.now) }
    {
        matches!(self, Operand::Term(Term::Iri(_)))
    }

    pub(crate) fn is_blank(&self) -> bool
        ensures { result ≡ is_blank (term_for self.now) }
    {
        matches!(self, Operand::Term(Term::Blank { .. }))
    }

    pub(crate) fn is_literal(&self) -> bool
        ensures { result ≡ is_literal (term_for self.now) }
    {
        match self {
            Operand::Term(term) => is_literal(term),
            _ => true,
        }
    }
}

pub(crate) fn is_literal(term: &Term) -> bool
    ensures { result ≡ is_literal term.now }
{
    matches!(term, Term::Literal { .. } | Term::Tagged { .. })
}

fn written_term(term: &Term) -> Option<Written<'_>>
    ensures { option_map written_for result ≡ written_of term.now }
{
    match term {
        Term::Tagged { lexical, language } => Some(Written {
            text: lexical.as_str(),
            tag: Some(language),
        }),
        _ => match string_of(term) {
            Some(text) => Some(Written { text, tag: None }),
            None => None,
        },
    }
}

/// The number that its literal has, which is itself.
pub(crate) fn read_back(number: &Number) -> Number
    ensures value { result ≡ number.now }
    ensures read { number_of_term (numeral_literal number.now) ≡ Some number.now }
{
    match number {
        Number::Integer(integer) => {
            let _in_range = integer.value();
            Number::Integer(*integer)
        }
        Number::Decimal(decimal) => {
            let _in_range = decimal.scale();
            Number::Decimal(*decimal)
        }
    }
}

fn is_zero(number: &Number) -> bool
    ensures { result ≡ is_zero (value_of number.now) }
{
    match number {
        Number::Integer(integer) => integer.value() == 0,
        Number::Decimal(decimal) => decimal.coefficient() == 0,
    }
}

// the string of this text
fn string_literal(alloc: Global, lexical: Text) -> Result<Term, AllocError>
    ensures { IfOk result (λ term. term ≡ term_for (Operand.String lexical)) }
{
    let datatype = Text::new(alloc, XSD_STRING)?;
    Ok(Term::Literal { lexical, datatype })
}

/// The text with the tag, or as a string where there is none. Fails only where memory is refused.
pub(crate) fn text_operand(
    alloc: Global,
    tag: Option<&Text>,
    text: &str,
) -> Result<Operand, AllocError>
    ensures { IfOk result (λ operand. term_for operand ≡ text_literal (option_copied tag.entry) text.now) }
{
    let lexical = Text::new(alloc, text)?;
    match tag {
        None => Ok(Operand::String(lexical)),
        Some(tag) => Ok(Operand::Term(Term::Tagged {
            lexical,
            language: tag.share()?,
        })),
    }
}
