// Terms.
ghost use Rattle.std.specs.Prelude.{◌≡◌, IfOk};

use crate::Text;
use std::alloc::AllocError;

/// A term (RDF 1.1 Concepts, section 3.1). Terms are equal where all their parts are; a language tag is compared by its
/// bytes.
#[derive(PartialEq, Eq, Hash, Drop)]
pub enum Term {
    /// The characters of an IRI, without brackets.
    Iri(Text),
    /// A blank node: the document that it stands in, and its label there without `_:`.
    Blank { document: u32, label: Text },
    /// A literal without a language tag; the datatype is an IRI.
    Literal { lexical: Text, datatype: Text },
    /// A literal with a language tag, without `@`; its datatype is `rdf:langString`.
    Tagged { lexical: Text, language: Text },
}

impl Term {
    /// An equal term. Fails only where memory is refused.
    pub fn share(&self) -> Result<Term, AllocError>
        ensures { IfOk result (λ other. other ≡ self.now) }
    {
        match self {
            Term::Iri(text) => Ok(Term::Iri(text.share()?)),
            Term::Blank { document, label } => Ok(Term::Blank {
                document: *document,
                label: label.share()?,
            }),
            Term::Literal { lexical, datatype } => Ok(Term::Literal {
                lexical: lexical.share()?,
                datatype: datatype.share()?,
            }),
            Term::Tagged { lexical, language } => Ok(Term::Tagged {
                lexical: lexical.share()?,
                language: language.share()?,
            }),
        }
    }
}
