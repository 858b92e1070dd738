//! Left rows with a partner, and those without one: outer joins and negation (SPARQL 1.1 Query, section 18.5).
//!
//! A partner of a left row is a distinct right row that pairs with it, whatever its count. The operators keep both
//! inputs by the key of their pairing, and for each left row that is there the number of its partners. A right row that
//! comes or goes moves the numbers of the left rows that it pairs with; where one leaves 0 or comes to 0, the left row
//! goes or comes. A changed left row gets its number anew. All that goes goes before all that comes.
#![tactic(auto)]

mod answer;
mod anti;
mod by_key;
mod copies;
mod counting;
mod keyed;
mod left_join;
mod merging;
mod pairings;
mod semi;
mod settled;
mod settling;
mod shifting;
mod sides;

pub use anti::AntiOp;
pub use keyed::{KeyedAntiOp, KeyedSemiOp};
pub use left_join::LeftJoinOp;
pub use pairings::{CompatibleSharing, CompatibleWhere};
pub use semi::SemiOp;

/// The left rows that no compatible right row shares a variable with (SPARQL 1.1 Query, section 18.5, Minus).
pub type MinusOp<D> = AntiOp<D, CompatibleSharing>;

/// The left rows with a compatible right row on whose merge the condition is true (EXISTS).
pub type ExistsOp<D, C> = SemiOp<D, CompatibleWhere<C>>;

/// The left rows with no compatible right row on whose merge the condition is true (NOT EXISTS).
pub type NotExistsOp<D, C> = AntiOp<D, CompatibleWhere<C>>;
