// Quads as lines.
ghost use Rattle.std.specs.Prelude.{◌≡◌, ℕ, List, ◌++◌, ◌∷◌, [], OnOk, OnErr};
ghost use Rattle.rsp_terms.specs.Terms.{term_text};
ghost use Rattle.rsp_nquads.specs.Answers.{statement};
ghost use Rattle.rsp_nquads.specs.Statements.{statement_of};
ghost use Rattle.rsp_nquads.specs.Writing.{line_of, graph_text, HasNoBlank};

use rsp_scan::follow_rules;
use rsp_terms::{Quad, Term, print};
use std::alloc::AllocError;

/// Appends a quad as a line: its printed terms with one space between, then ` .` and a line feed. Fails only where
/// memory is refused; `out` then holds the bytes that it held before.
///
/// The quad that `statement(alloc, 1, b"<a:1><p:v>_:x.")` gives is written as the line `<a:1> <p:v> _:b1xx .`, since the
/// label of a blank node is printed with the number of its document.
pub fn write(quad: &Quad, out: &mut Vec<u8>) -> Result<(), AllocError>
    ensures ok { OnOk result (out.new.items ≡ out.old.items ++ (line_of quad.now ++ (10 ∷ []))) }
    ensures err { OnErr result (out.new.items ≡ out.old.items) }
    // every document reads the same quad from the line
    ensures read_back { (of : ℕ) (line : List ℕ) → statement_of of line ≡ statement quad.now → HasNoBlank quad.now
        → (document : ℕ) → statement_of document (line_of quad.now) ≡ statement quad.now }
{
    follow_rules();
    let before = out.len();
    let written = push_line(quad, out);
    if written.is_err() {
        out.truncate(before);
    }
    written
}

fn push_line(quad: &Quad, out: &mut Vec<u8>) -> Result<(), AllocError>
    ensures ok { OnOk result (out.new.items ≡ out.old.items ++ (line_of quad.now ++ (10 ∷ []))) }
    ensures begun { (rest : _) × (out.new.items ≡ out.old.items ++ rest) }
{
    push_then(&quad.triple.subject, b" ", out)?;
    push_then(&quad.triple.predicate, b" ", out)?;
    print(&quad.triple.object, out)?;
    push_graph(&quad.graph, out)?;
    out.extend_from_slice(b" .\n")?;
    Ok(())
}

// a term and what stands behind it
fn push_then(term: &Term, behind: &[u8], out: &mut Vec<u8>) -> Result<(), AllocError>
    ensures ok { OnOk result (out.new.items ≡ out.old.items ++ (term_text term.now ++ behind.now)) }
    ensures begun { (rest : _) × (out.new.items ≡ out.old.items ++ rest) }
{
    print(term, out)?;
    out.extend_from_slice(behind)
}

fn push_graph(graph: &Option<Term>, out: &mut Vec<u8>) -> Result<(), AllocError>
    ensures ok { OnOk result (out.new.items ≡ out.old.items ++ graph_text graph.now) }
    ensures begun { (rest : _) × (out.new.items ≡ out.old.items ++ rest) }
{
    match graph {
        None => Ok(()),
        Some(name) => {
            out.push(b' ')?;
            print(name, out)
        }
    }
}
