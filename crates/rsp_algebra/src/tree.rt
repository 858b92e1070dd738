// Algebra trees.
ghost use Rattle.std.specs.Prelude.{◌≡◌, None, IfOk};
ghost use Rattle.std.specs.Option.{IsSomeAnd};
ghost use Rattle.rsp_algebra.specs.Meanings.{node_of};
ghost use Rattle.rsp_algebra.specs.Spines.{first_of};

use crate::descent::spine;
use crate::nodes;
use rsp_expr::{Aggregate, Expression, Slot};
use rsp_multiset::Row;
use rsp_terms::{Listed, Term};
use std::alloc::{AllocError, Global};

/// The graph in which a pattern is matched (SPARQL 1.1 Query, section 13.3).
#[derive(Drop)]
pub enum Place {
    /// The stored default graph.
    Default,
    /// The stored graph of this name.
    Named(Term),
    /// Each stored graph that has a name, with the variable bound to its name.
    AnyNamed(usize),
    /// That of one of the query's windows, by its index.
    Window(u32),
}

impl Place {
    /// An equal place. Fails only where memory is refused.
    pub fn share(&self) -> Result<Place, AllocError>
        ensures { IfOk result (λ other. other ≡ self.now) }
    {
        match self {
            Place::Default => Ok(Place::Default),
            Place::Named(name) => Ok(Place::Named(name.share()?)),
            Place::AnyNamed(variable) => Ok(Place::AnyNamed(*variable)),
            Place::Window(index) => Ok(Place::Window(*index)),
        }
    }
}

/// A triple pattern (SPARQL 1.1 Query, section 18.1.5).
#[derive(Drop)]
pub struct TriplePattern {
    pub subject: Slot,
    pub predicate: Slot,
    pub object: Slot,
}

/// An algebra tree (SPARQL 1.1 Query, section 18.2).
pub enum Tree {
    /// One solution, which binds nothing.
    Unit,
    Pattern {
        place: Place,
        subject: Slot,
        predicate: Slot,
        object: Slot,
    },
    Join {
        left: Box<Tree>,
        right: Box<Tree>,
    },
    /// Each pair of solutions that are compatible and on whose merge the condition is true, merged; and the left solutions
    /// that are in no such pair.
    LeftJoin {
        left: Box<Tree>,
        right: Box<Tree>,
        condition: Expression,
    },
    /// The solutions of both children.
    Union {
        left: Box<Tree>,
        right: Box<Tree>,
    },
    /// The left solutions that no right solution is compatible with while a variable is bound in both.
    Minus {
        left: Box<Tree>,
        right: Box<Tree>,
    },
    /// The left solutions that some right solution is compatible with so that the condition is true on their merge.
    Exists {
        left: Box<Tree>,
        right: Box<Tree>,
        condition: Expression,
    },
    /// The left solutions that Exists leaves out.
    NotExists {
        left: Box<Tree>,
        right: Box<Tree>,
        condition: Expression,
    },
    /// The child's solutions on which the condition is true.
    Filter {
        child: Box<Tree>,
        condition: Expression,
    },
    /// The child's solutions with the value of the expression at the variable, which an error leaves unbound.
    Extend {
        child: Box<Tree>,
        variable: usize,
        expression: Expression,
    },
    /// These solutions.
    Values {
        rows: Vec<Row<Term>>,
    },
    /// The child's solutions with all variables but these unbound.
    Project {
        child: Box<Tree>,
        variables: Vec<usize>,
    },
    /// Each of the child's solutions once.
    Distinct {
        child: Box<Tree>,
    },
    /// A solution for each group of the child's solutions with the same terms for the keys, which binds these and each
    /// aggregate's variable to its value over the group. Without keys all of them are one group, also where there are none.
    Group {
        child: Box<Tree>,
        keys: Vec<usize>,
        aggregates: Vec<(usize, Aggregate)>,
    },
}

// By a loop along first children, which are as many as a union in a text has groups, and by a recursion for the others.
impl Drop for Tree {
    fn drop(mut self) {
        'spine: loop {
            match self {
                Tree::Unit => return,
                Tree::Pattern {
                    place: _,
                    subject: _,
                    predicate: _,
                    object: _,
                } => return,
                Tree::Join { left, right: _ } => self = Box::into_inner(left),
                Tree::LeftJoin {
                    left,
                    right: _,
                    condition: _,
                } => self = Box::into_inner(left),
                Tree::Union { left, right: _ } => self = Box::into_inner(left),
                Tree::Minus { left, right: _ } => self = Box::into_inner(left),
                Tree::Exists {
                    left,
                    right: _,
                    condition: _,
                } => self = Box::into_inner(left),
                Tree::NotExists {
                    left,
                    right: _,
                    condition: _,
                } => self = Box::into_inner(left),
                Tree::Filter {
                    child,
                    condition: _,
                } => self = Box::into_inner(child),
                Tree::Extend {
                    child,
                    variable: _,
                    expression: _,
                } => self = Box::into_inner(child),
                Tree::Values { rows: _ } => return,
                Tree::Project {
                    child,
                    variables: _,
                } => self = Box::into_inner(child),
                Tree::Distinct { child } => self = Box::into_inner(child),
                Tree::Group {
                    child,
                    keys: _,
                    aggregates: _,
                } => self = Box::into_inner(child),
            }
        }
    }
}

impl Tree {
    /// A tree of the same node. Fails only where memory is refused.
    #[cycle(share)]
    pub fn share(&self, alloc: Global) -> Result<Tree, AllocError>
        ensures { IfOk result (λ other. node_of other ≡ node_of self.now) }
    {
        let (mut nodes, leaf) = spine(alloc, self)?;
        let mut tree = leaf.share_leaf(alloc)?;
        while let Some(node) = nodes.pop() {
            tree = node.share_over(alloc, tree)?;
        }
        Ok(tree)
    }

    fn share_leaf(&self, alloc: Global) -> Result<Tree, AllocError>
        requires { first_of self.now ≡ None }
        ensures { IfOk result (λ other. node_of other ≡ node_of self.now) }
    {
        match self {
            Tree::Unit => Ok(Tree::Unit),
            Tree::Pattern {
                place,
                subject,
                predicate,
                object,
            } => nodes::pattern(place, subject, predicate, object),
            Tree::Values { rows } => nodes::values(alloc, rows),
            _ => unreachable!(),
        }
    }

    // a tree of the same node, whose first child is this one
    #[cycle(share)]
    fn share_over(&self, alloc: Global, first: Tree) -> Result<Tree, AllocError>
        requires { IsSomeAnd (first_of self.now) (λ child. node_of first ≡ node_of child) }
        ensures { IfOk result (λ other. node_of other ≡ node_of self.now) }
    {
        match self {
            Tree::Join { right, .. } => nodes::join(alloc, first, right.share(alloc)?),
            Tree::LeftJoin {
                right,
                condition,
                ..
            } => nodes::left_join(alloc, first, right.share(alloc)?, condition),
            Tree::Union { right, .. } => nodes::union(alloc, first, right.share(alloc)?),
            Tree::Minus { right, .. } => nodes::minus(alloc, first, right.share(alloc)?),
            Tree::Exists {
                right,
                condition,
                ..
            } => nodes::exists(alloc, first, right.share(alloc)?, condition),
            Tree::NotExists {
                right,
                condition,
                ..
            } => nodes::not_exists(alloc, first, right.share(alloc)?, condition),
            Tree::Filter { condition, .. } => nodes::filter(alloc, first, condition),
            Tree::Extend {
                variable,
                expression,
                ..
            } => nodes::extend(alloc, first, *variable, expression),
            Tree::Project { variables, .. } => nodes::project(alloc, first, variables),
            Tree::Distinct { .. } => nodes::distinct(alloc, first),
            Tree::Group {
                keys,
                aggregates,
                ..
            } => nodes::group(alloc, first, keys, aggregates),
            _ => unreachable!(),
        }
    }
}

/// A query's tree, the number of its variables, and the numbers of those that it shows, in order.
#[derive(Drop)]
pub struct Translated {
    pub tree: Tree,
    pub width: usize,
    pub shown: Listed<usize>,
}
