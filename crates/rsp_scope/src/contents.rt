// What a window of a query saw last.
ghost use Rattle.std.specs.Prelude.{◌≡◌, ◌≤◌, ◌^◌, ◌++◌, List, [], Option, None, Some, IfOk, OnOk};
ghost use Rattle.std.specs.Option.{option_map};
ghost use Rattle.rsp_spec.specs.Windows.{active_window, opening};
ghost use Rattle.rsp_multiset.specs.Weights.{IsChanged};
ghost use Rattle.rsp_terms.specs.Same.{fact_eq};
ghost use Rattle.rsp_scope.specs.Contents.{Accepted, window_facts};
ghost use Rattle.rsp_scope.specs.Ends.{HasContent};
ghost use Rattle.rsp_scope.specs.Moves.{HasSeen, IsReached};

use crate::Streams;
use crate::gate::Gate;
use crate::tally::{Tally, let_go};
use rsp_multiset::Changes;
use rsp_terms::{Fact, Text};
use rsp_windows::Window;
use std::alloc::{AllocError, Global};
use std::collections::BTreeMap;
use std::marker::Model;

/// A query's window over a stream, with its content as of its last move. The graphs are shared with the kept items.
#[derive(Drop)]
pub struct Contents {
    alloc: Global,
    window: Window,
    stream: Text,
    first: u64,
    at: Option<u64>,
    accepted: u64,
    tally: Tally,
}

impl Model for Contents {
    ghost use Rattle.rsp_scope.specs.Moves.{Followed};
    ghost use Rattle.rsp_scope.specs.Inside.{followed_of};

    ghost Value = { Followed };

    ghost view = { followed_of };
}

impl Contents {
    ghost use Rattle.std.specs.Prelude.{◌≡◌, ◌≤◌, ◌^◌, ◌++◌, ◌∷◌, List, [], Option, None, Some, IfOk, OnOk};
    ghost use Rattle.rsp_multiset.specs.Weights.{IsChanged};
    ghost use Rattle.rsp_terms.specs.Same.{fact_eq};
    ghost use Rattle.rsp_terms.specs.declared.statement.Triple.{Triple};
    ghost use Rattle.rsp_scope.specs.Ends.{EndsAt, HasContent};
    ghost use Rattle.rsp_scope.specs.Contents.{Accepted, window_facts};
    ghost use Rattle.rsp_scope.specs.Moves.{HasSeen, IsReached};

    /// The window over the stream, by its index in its query, before its first move. It sees the items from number `first`
    /// on. Takes no memory.
    pub fn new(alloc: Global, window: Window, spot: u32, stream: Text, first: u64) -> Contents
        ensures watch { result.watch ≡ record { shape = window; spot = spot; stream = stream; first = first } }
        ensures at { result.at ≡ None }
        ensures seen { HasSeen result [] }
    {
        Contents {
            alloc,
            window,
            stream,
            first,
            at: None,
            accepted: 0,
            tally: Tally {
                spot,
                content: BTreeMap::new(alloc),
                counts: Changes::new(alloc),
            },
        }
    }

    /// The end of an item with this number, stream and time (ms, at most 2^48), as far as this window alone may need it: the
    /// greatest closing of a window that contains the time. None where the window doesn't see the item, or none contains it.
    /// Takes no memory.
    pub fn end_of(&self, number: u64, stream: &Text, time: u64) -> Option<u64>
        requires { time ≤ 2 ^ 48 }
        ensures { (graph : List Triple) → EndsAt (self.now.watch ∷ [])
            (record { number = number; item = record { stream = stream.now; time = time; graph = graph } }) result }
    {
        if number < self.first || *stream != self.stream {
            return None;
        }
        self.window.last_needed(time)
    }

    /// Moves to the instant `t`, which isn't before that of the last move and at most 2^48. Gives the change of the window's
    /// graph since then: each fact that came or went once, with 1 or -1. The kept items have to have each item of the content
    /// at `t`; in which order their times come, and whether the earlier ones are still kept, makes no difference. Fails where
    /// memory is refused or a count is out of range; what is then left is only to be dropped.
    pub fn move_to(&mut self, streams: &Streams, t: u64) -> Result<Changes<Fact>, AllocError>
        requires instant { t ≤ 2 ^ 48 }
        requires reached { IsReached self.old.at t }
        ensures watch { self.new.watch ≡ self.old.watch }
        ensures at { OnOk result (self.new.at ≡ Some t) }
        ensures moved { IfOk result (λ change. (items more : List Accepted) → HasSeen self.old items
            → HasContent self.old.watch t streams.now (items ++ more)
            → HasSeen self.new (items ++ more)
            × IsChanged fact_eq (window_facts self.old.watch self.old.at items) change
            (window_facts self.old.watch (Some t) (items ++ more))) }
    {
        let opening = opening_at(&self.window, t);
        let gate = Gate {
            stream: self.stream.share()?,
            first: self.first,
            opening,
            until: t,
            seen: self.accepted,
            since: self.at,
        };
        let mut change = Changes::new(self.alloc);
        let_go(&mut self.tally, &mut change, opening)?;
        streams.feed(&gate, &mut self.tally, &mut change)?;
        self.at = Some(t);
        self.accepted = streams.accepted();
        Ok(change)
    }
}

// when the window that is active at t opened
fn opening_at(window: &Window, t: u64) -> Option<u64>
    requires { t ≤ 2 ^ 48 }
    ensures opening { result ≡ option_map (opening window.now) (active_window window.now t) }
    ensures slide { 1 ≤ window.now.slide }
{
    match window.active(t) {
        Some(k) => Some(window.opening(k)),
        None => None,
    }
}
