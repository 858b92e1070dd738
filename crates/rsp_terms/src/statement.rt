// What is said with terms: triples, quads and facts.
ghost use Rattle.std.specs.Prelude.{◌≡◌, IfOk};

use crate::Term;
use std::alloc::AllocError;

/// A triple (RDF 1.1 Concepts, section 3.1).
#[derive(PartialEq, Eq, Hash, Drop)]
pub struct Triple {
    pub subject: Term,
    pub predicate: Term,
    pub object: Term,
}

impl Triple {
    /// An equal triple. Fails only where memory is refused.
    pub fn share(&self) -> Result<Triple, AllocError>
        ensures { IfOk result (λ other. other ≡ self.now) }
    {
        let subject = self.subject.share()?;
        let predicate = self.predicate.share()?;
        let object = self.object.share()?;
        Ok(Triple {
            subject,
            predicate,
            object,
        })
    }
}

/// A triple and the name of its graph; none is the default graph (RDF 1.1 N-Quads, section 1).
#[derive(PartialEq, Eq, Hash, Drop)]
pub struct Quad {
    pub triple: Triple,
    pub graph: Option<Term>,
}

impl Quad {
    /// An equal quad. Fails only where memory is refused.
    pub fn share(&self) -> Result<Quad, AllocError>
        ensures { IfOk result (λ other. other ≡ self.now) }
    {
        let triple = self.triple.share()?;
        match &self.graph {
            None => Ok(Quad {
                triple,
                graph: None,
            }),
            Some(name) => Ok(Quad {
                triple,
                graph: Some(name.share()?),
            }),
        }
    }
}

/// The graph that a fact belongs to: the default graph, a named graph, or the graph of a query's window, by the
/// window's index.
#[derive(PartialEq, Eq, Hash, Drop)]
pub enum Spot {
    Default,
    Named(Term),
    Window(u32),
}

impl Spot {
    /// An equal spot. Fails only where memory is refused.
    pub fn share(&self) -> Result<Spot, AllocError>
        ensures { IfOk result (λ other. other ≡ self.now) }
    {
        match self {
            Spot::Default => Ok(Spot::Default),
            Spot::Named(name) => Ok(Spot::Named(name.share()?)),
            Spot::Window(index) => Ok(Spot::Window(*index)),
        }
    }
}

/// A triple in a graph of a query's dataset (SPARQL 1.1, section 13).
#[derive(PartialEq, Eq, Hash, Drop)]
pub struct Fact {
    pub spot: Spot,
    pub triple: Triple,
}

impl Fact {
    /// An equal fact. Fails only where memory is refused.
    pub fn share(&self) -> Result<Fact, AllocError>
        ensures { IfOk result (λ other. other ≡ self.now) }
    {
        let spot = self.spot.share()?;
        let triple = self.triple.share()?;
        Ok(Fact { spot, triple })
    }
}
