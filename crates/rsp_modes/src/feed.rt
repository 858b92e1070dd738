// Feeds: what is worked off, a batch at a time.
use crate::refusals::{Answered, Place};
use rsp_events::Block;
use rsp_io::Source;
use rsp_terms::Listed;

/// What a feed gives in a turn.
#[derive(Drop)]
pub(crate) enum Batch {
    /// Blocks, as their reader gave them.
    Blocks(Listed<Block>),
    /// One block.
    Block(Block),
    /// In the place of a block, what is refused in every world.
    Refused(Place, Answered),
}

/// Why a feed ends before its end.
#[derive(Clone, Copy)]
pub(crate) enum Cut {
    /// A read failed.
    Failed,
    /// The source gave more bytes than the feed takes.
    TooLong,
    /// Memory was refused.
    Memory,
}

/// What gives batches, one in each turn.
///
/// Contracts see that a feed `fits`, at each turn; what it `gave` since the source was seen in a state, and how it `ended`:
/// None at its end, else by what cut it; what is `left` to give, where it is told; its `settings`, which no turn changes; and a
/// bound of the `turns` to come.
pub(crate) trait Feed<S: Source> {
    ghost use Rattle.std.specs.Prelude.{◌≡◌, ◌<◌, ◌++◌, ℕ, IfOk, IfSome, List, Option};
    ghost use Rattle.rsp_io.specs.Seen.{SourceSeen};
    ghost use Rattle.rsp_modes.specs.declared.feed.Cut as cuts;
    ghost use Rattle.rsp_modes.specs.Output.{Given};
    ghost use Rattle.rsp_modes.specs.Feeds.{EndsSo, IsTimedBatch, TakesFrom, given_in};

    ghost fits: { Self → Type 0 };

    ghost gave: { Self → SourceSeen → SourceSeen → List Given → Type 0 };

    ghost ended: { Self → SourceSeen → SourceSeen → List Given → Option cuts.Cut → Type 0 };

    ghost left: { Self → Option (List Given) };

    ghost settings: { Self → List ℕ };

    ghost turns: { Self → ℕ };

    /// The next batch; None at the end.
    fn next(&mut self, from: &mut S) -> Result<Option<Batch>, Cut>
        requires fits { fits self.old }
        ensures fits { fits self.new }
        ensures timed { IfOk result (λ it. IfSome it IsTimedBatch) }
        ensures fewer { IfOk result (λ it. IfSome it (λ _. turns self.new < turns self.old)) }
        ensures given { IfOk result (λ it. IfSome it (λ more. (start : SourceSeen) (before : List Given)
            → gave self.old start (S.seen from.old) before → gave self.new start (S.seen from.new) (before ++ given_in more))) }
        ensures ended { (start : SourceSeen) (before : List Given) → gave self.old start (S.seen from.old) before
            → EndsSo (ended self.new start (S.seen from.new) before) result }
        ensures settings { settings self.new ≡ settings self.old }
        ensures left { TakesFrom (left self.old) (left self.new) result };
}
