//! The end of a segment, which tells its whole history.
ghost use Rattle.std.specs.Prelude.{List, None, Option, Some, [], true, ℕ, ◌<◌, ◌∷◌, ◌≡◌};
ghost use Rattle.mb_segment.specs.{HasLeft, IsWhole, Issuer, OfFate, fate_in, hub_view, name_in};

use crate::left::{Fate, Left};
use crate::list::LISTED;
use crate::segment::{Hub, Segment};
use crate::words::{CUT, DRAWN, TAKEN, state_of};
use std::alloc::Allocator;

impl<T: Drop, A: Allocator + Drop> Segment<T, A> {
    /// Ends the segment, once the hub has taken back all passes. Their accounts and the values left are those of one
    /// history, and the accounts say what became of each value.
    pub fn end(self, hub: Hub<T>) -> Left<T, A>
        requires segment { hub.seat.table_id ≡ self.table.shared.table_id }
        requires hub { (hub_view hub).role ≡ Issuer }
        requires back { (hub_view hub).out ≡ 0 }
        ensures whole { (left : List T) × IsWhole (hub_view hub).ends left × HasLeft result left
            × ((hub_view hub).over ≡ true → left ≡ []) }
        ensures fates { (k : ℕ) → OfFate (hub_view hub).ends k (fate_in result k) }
    {
        let Hub { seat } = hub;
        let Segment { table, size: _ } = self;
        let closed = table.close_with(seat);
        let drawn = closed.word(DRAWN) % CUT;
        let taken = closed.word(TAKEN);
        Left {
            closed,
            at: taken as usize,
            until: drawn as usize,
        }
    }
}

impl<T: Drop, A: Allocator + Drop> Left<T, A> {
    /// The next of the values left.
    pub fn next(&mut self) -> Option<T>
        ensures some { (x : T) (xs : List T) → HasLeft self.old (x ∷ xs)
            → (result ≡ Some x) × HasLeft self.new xs }
        ensures none { HasLeft self.old [] → (result ≡ None) × HasLeft self.new [] }
        ensures fates { (k : ℕ) → fate_in self.new k ≡ fate_in self.old k }
    {
        if self.at >= self.until {
            return None;
        }
        let at = self.at;
        let value = self.closed.slots.take(at);
        self.closed.slots.put(at, None);
        self.at = at + 1;
        value
    }

    /// What became of the value at a position. `None` if nobody sent one there.
    pub fn fate(&self, at: u64) -> Option<Fate>
        ensures { result ≡ fate_in self.now at }
    {
        if at >= self.closed.slot_count() as u64 {
            return None;
        }
        let state = self.closed.word(state_of(at));
        if state == 0 {
            return None;
        }
        let names = state - 1;
        Some(Fate {
            sender: name_of(names % LISTED),
            receiver: name_of(names / LISTED),
        })
    }
}

fn name_of(name: u64) -> Option<u32>
    requires { name < 4294967296 }
    ensures { result ≡ name_in name }
{
    if name == 0 { None } else { Some(name as u32) }
}
