// What stands before a place of a query's text.
ghost use Rattle.std.specs.Prelude.{◌≡◌, IfOk, OnErr, OnOk, length, map, suc, true};
ghost use Rattle.std.specs.List.{position_or_len};
ghost use Rattle.indexmap.specs.IndexSet.{insert_key};
ghost use Rattle.rsp_numbering.specs.Naming as naming;
ghost use Rattle.rsp_numbering.specs.Same.{are_older, derived_same, is_older};
ghost use Rattle.rsp_numbering.specs.Same as same;

use crate::Variable;
use indexmap::IndexSet;
use rsp_terms::Text;
use std::alloc::{AllocError, Global};
use std::marker::Model;

/// What stands before a place of a query's text: how many SELECTs begin there, and the variables by their numbers, which
/// go by the first place.
#[derive(Drop)]
pub struct Before {
    selects: usize,
    variables: IndexSet<Variable>,
}

impl Model for Before {
    ghost use Rattle.std.specs.Prelude.{IsTrue};
    ghost use Rattle.rsp_numbering.specs.Naming.{Before as Seen};
    ghost use Rattle.rsp_numbering.specs.Same.{are_older};

    ghost Value = { Seen };

    ghost view = { λ b. record { selects = b.selects; variables = b.variables.keys } };

    ghost invariant = { λ b. IsTrue (are_older b.variables.keys) };
}

impl Before {
    /// The place before the text.
    pub fn new(alloc: Global) -> Before
        ensures { result ≡ naming.nothing }
    {
        Before {
            selects: 0,
            variables: IndexSet::new(alloc),
        }
    }

    /// The number of a name of this SELECT; it gets one where it has none. Fails only where memory is refused.
    pub fn name(&mut self, select: usize, name: &Text) -> Result<usize, AllocError>
        ensures number { IfOk result (λ n. n ≡ naming.number self.old (same.name select name.now)) }
        ensures behind { OnOk result (self.new ≡ naming.behind self.old (same.name select name.now)) }
    {
        let name = name.share()?;
        number_of(&mut self.variables, Variable::Name { select, name })
    }

    /// The number of a label.
    pub fn label(&mut self, label: &Text) -> Result<usize, AllocError>
        ensures number { IfOk result (λ n. n ≡ naming.number self.old (same.label label.now)) }
        ensures behind { OnOk result (self.new ≡ naming.behind self.old (same.label label.now)) }
    {
        let label = label.share()?;
        number_of(&mut self.variables, Variable::Label(label))
    }

    /// The number of a blank node in brackets, which is new.
    pub fn bracket(&mut self) -> Result<usize, AllocError>
        ensures number { IfOk result (λ n. n ≡ naming.number self.old (naming.bracket self.old)) }
        ensures behind { OnOk result (self.new ≡ naming.behind self.old (naming.bracket self.old)) }
        ensures is_new { IfOk result (λ n. n ≡ length self.old.variables) }
    {
        let number = self.variables.len();
        number_of(&mut self.variables, Variable::Bracket(number))
    }

    /// The number of an aggregate, which is new.
    pub fn aggregate(&mut self) -> Result<usize, AllocError>
        ensures number { IfOk result (λ n. n ≡ naming.number self.old (naming.aggregate self.old)) }
        ensures behind { OnOk result (self.new ≡ naming.behind self.old (naming.aggregate self.old)) }
        ensures is_new { IfOk result (λ n. n ≡ length self.old.variables) }
    {
        let number = self.variables.len();
        number_of(&mut self.variables, Variable::Aggregate(number))
    }

    /// Goes behind the word SELECT, and gives how many stand before it.
    pub fn select(&mut self) -> Result<usize, AllocError>
        ensures number { IfOk result (λ n. n ≡ self.old.selects) }
        ensures behind { OnOk result (self.new ≡ naming.behind_select self.old) }
    {
        let number = self.selects;
        self.selects = number.checked_add(1).ok_or(AllocError)?;
        Ok(number)
    }

    /// How many variables there are.
    pub fn len(&self) -> usize
        ensures { result ≡ length self.now.variables }
    {
        self.variables.len()
    }

    /// What the variables are called, by their numbers. Fails only where memory is refused.
    pub fn texts(&self, alloc: Global) -> Result<Vec<Text>, AllocError>
        ensures { IfOk result (λ texts. texts.items ≡ map naming.variable_text self.now.variables) }
    {
        texts_of(alloc, self.variables.as_slice())
    }
}

fn texts_of(alloc: Global, variables: &[Variable]) -> Result<Vec<Text>, AllocError>
    ensures { IfOk result (λ texts. texts.items ≡ map naming.variable_text variables.now) }
{
    let mut texts = Vec::new(alloc);
    for variable in variables {
        texts.push(text_of(alloc, variable)?)?;
    }
    Ok(texts)
}

// what has no name in the text is called by what no variable can be
fn text_of(alloc: Global, variable: &Variable) -> Result<Text, AllocError>
    ensures { IfOk result (λ text. text ≡ naming.variable_text variable.now) }
{
    match variable {
        Variable::Name { name, .. } => name.share(),
        Variable::Label(label) => {
            let text = format!(in alloc; "_:{label}")?;
            Text::new(alloc, text.as_str())
        }
        Variable::Bracket(_) => Text::new(alloc, "[]"),
        Variable::Aggregate(_) => Text::new(alloc, "()"),
    }
}

fn number_of(variables: &mut IndexSet<Variable>, variable: Variable) -> Result<usize, AllocError>
    ensures number { IfOk result (λ n. n ≡ same.place_of variables.old.keys variable) }
    ensures behind { OnOk result (variables.new.keys ≡ naming.with_variable variables.old.keys variable) }
    ensures older { are_older variables.old.keys ≡ true → is_older (suc (length variables.old.keys)) variable ≡ true
        → are_older variables.new.keys ≡ true }
{
    inserted(variables, variable)
}

// the same, by the derived test
fn inserted(variables: &mut IndexSet<Variable>, variable: Variable) -> Result<usize, AllocError>
    ensures number { IfOk result (λ n. n ≡ position_or_len (derived_same variable) variables.old.keys) }
    ensures behind { OnOk result (variables.new.keys ≡ insert_key derived_same variables.old.keys variable) }
    ensures kept { OnErr result (variables.new.keys ≡ variables.old.keys) }
{
    match variables.insert_full(variable) {
        Ok((number, _)) => Ok(number),
        Err(_) => Err(AllocError),
    }
}
