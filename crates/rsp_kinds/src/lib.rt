//! The kinds of nodes as operators: what a plan asks of an operator besides the law of its changes, and who keeps it.
//!
//! A [`Keeping`] operator stands for the same rows when the domain has learnt terms, and says what its value over no
//! rows is; a [`KeepingBoth`] one on two children has no rows over none, and answers within a bound. [`SingleOp`] and
//! [`DoubleOp`] are operators of any kind, one type each. `of_root` of [`SingleNode`] and [`DoubleNode`] makes the
//! operator of a tree's root: it has the node's value and no more steps than the node's part of the work, and stands
//! for no rows. Where the key of two children decides alone which rows are compatible, partners are counted by key.
//! Nodes without children are given rows ([`given_rows`]) or scans ([`scan_of`]).
#![tactic(auto)]

mod double;
mod expressions;
mod given;
mod grouping;
mod keeping;
mod left_alone;
mod nodes;
mod patterns;
mod single;
mod way;

pub use double::DoubleOp;
pub use expressions::{Argument, ByExpression};
pub use given::given_rows;
pub use keeping::{Keeping, KeepingBoth};
pub use left_alone::LeftAlone;
pub use nodes::{DoubleNode, SingleNode};
pub use patterns::scan_of;
pub use single::SingleOp;
