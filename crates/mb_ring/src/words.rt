//! Each atomic step on the numbers drawn and claimed, and on the words of the slots.
ghost use Rattle.std.specs.Prelude.{List, None, Option, Some, [], ℕ, ◌%◌, ◌*◌, ◌+◌, ◌<◌, ◌∷◌, ◌≡◌, ◌≢◌, ◌≤◌};
ghost use Rattle.mb_ring.specs.{Becomes, Event, IsStill, KnowsCut, KnowsOver, MaySend, MayTake, Member, Nothing, Room, SawAllGot, SawAllTaken, Values};
ghost use Rattle.mb_ring.specs.{did_cut, done, done_with_all, dozes, drew, falls_asleep, gives_up, has_closed, held_by, looked, marked_to, owes_both};
ghost use Rattle.mb_ring.specs.{owes_wake, sees_cut, sees_drawn, sees_empty, sees_full, sees_mark, sees_room, sees_taken, told, took, view_in, with_duty};

use crate::effects::{Done, DoneWithAll, Dozes, FallsAsleep, GivesUp, HasClosed, Looked, Same};
use crate::ring::{Pass, Ring};
use crate::rule::{
    Asks, Claims, Counts, Cuts, Draws, Looks, Position, SeesCut, SeesMark, SeesRoom, SeesTaken,
    Value,
};
use std::alloc::Allocator;

/// The words: how many positions are drawn, with the top bit once the ring is cut, and how many are claimed.
const DRAWN: usize = 0;

const TAKEN: usize = 1;

/// The bit of the number drawn that says that the ring is cut.
pub(crate) const CUT: u64 = 9223372036854775808;

/// As many positions as this may be drawn.
pub(crate) const MOST: u64 = 4611686018427387904;

/// The word of a slot.
pub(crate) fn word_of(slot: u64) -> usize
    requires { slot < 4294967296 }
    ensures { result ≡ slot + 4 }
{
    slot as usize + 4
}

impl<T: Drop, A: Allocator + Drop> Ring<T, A> {
    /// The slot of a position.
    pub(crate) fn slot_of(&self, at: u64) -> u64
        ensures slot { result ≡ at % self.now.size }
        ensures within { result < self.now.size }
        ensures less { result ≤ at }
    {
        at % self.size
    }

    // ---- draws
    /// Looks how many positions are drawn, before a draw. If the ring is cut, that pays a look for room.
    pub(crate) fn load_to_draw(&self, pass: &mut Pass<T>) -> u64
        requires ring { pass.old.seat.table_id ≡ self.now.table.shared.table_id }
        ensures pass { IsStill pass.old pass.new }
        ensures cut { 9223372036854775808 ≤ result
            → Becomes pass.old pass.new (sees_cut (with_duty Room looked (view_in pass.old))) }
        ensures open { result < 9223372036854775808
            → Becomes pass.old pass.new (sees_drawn result (view_in pass.old))
            × ((view_in pass.old).known.drawn ≤ result) }
        ensures told { KnowsCut (view_in pass.old) → 9223372036854775808 ≤ result }
    {
        self.table
            .shared
            .load::<Asks<Looked>>(&mut pass.seat, DRAWN)
    }

    /// The same for one in the list. If the ring is cut, it is about to leave, and owes a token to each that waits for
    /// room.
    pub(crate) fn load_to_draw_listed(&self, pass: &mut Pass<T>) -> u64
        requires ring { pass.old.seat.table_id ≡ self.now.table.shared.table_id }
        requires fresh { 0 < (view_in pass.old).duty.room.fresh }
        ensures pass { IsStill pass.old pass.new }
        ensures cut { 9223372036854775808 ≤ result
            → Becomes pass.old pass.new
            (sees_cut (with_duty Room done_with_all (view_in pass.old))) }
        ensures open { result < 9223372036854775808
            → Becomes pass.old pass.new (sees_drawn result (view_in pass.old))
            × ((view_in pass.old).known.drawn ≤ result) }
        ensures told { KnowsCut (view_in pass.old) → 9223372036854775808 ≤ result }
    {
        self.table
            .shared
            .load::<Asks<DoneWithAll>>(&mut pass.seat, DRAWN)
    }

    /// Looks whether the slot is free for this position.
    pub(crate) fn load_room<P: Position>(&self, pass: &mut Pass<T>, at: u64, slot: u64) -> u64
        requires ring { pass.old.seat.table_id ≡ self.now.table.shared.table_id }
        requires picked { P.position ≡ at }
        requires slot { slot ≡ at % self.now.size }
        requires within { slot < self.now.size }
        ensures pass { IsStill pass.old pass.new }
        ensures free { 2 * at ≤ result + 2 * slot
            → Becomes pass.old pass.new (sees_room at (view_in pass.old)) }
        ensures busy { result + 2 * slot < 2 * at → Becomes pass.old pass.new (view_in pass.old)
            × (at ≤ (view_in pass.old).sight.top → self.now.size ≤ at) }
    {
        self.table
            .shared
            .load::<SeesRoom<P>>(&mut pass.seat, word_of(slot))
    }

    /// Looks how many positions are claimed, after a look how many are drawn. If the ring is full, that pays a look for
    /// room.
    pub(crate) fn load_count(&self, pass: &mut Pass<T>) -> u64
        requires ring { pass.old.seat.table_id ≡ self.now.table.shared.table_id }
        ensures pass { IsStill pass.old pass.new }
        ensures full { result + self.now.size ≤ (view_in pass.old).sight.top
            → (w : List Event) × Becomes pass.old pass.new
            (sees_full result w (with_duty Room looked (view_in pass.old)))
            × SawAllGot (view_in pass.new) }
        ensures room { (view_in pass.old).sight.top < result + self.now.size
            → Becomes pass.old pass.new (sees_taken result (view_in pass.old)) }
        ensures most { result ≤ 4611686018427387904 }
        ensures known { ((view_in pass.old).known.taken ≤ result)
            × ((view_in pass.old).known.drawn ≤ result + self.now.size) }
    {
        self.table
            .shared
            .load::<Counts<Looked>>(&mut pass.seat, TAKEN)
    }

    /// The same for one in the list. If the ring is full, it sleeps from then on, but has still to look whether it is cut.
    pub(crate) fn load_count_listed(&self, pass: &mut Pass<T>) -> u64
        requires ring { pass.old.seat.table_id ≡ self.now.table.shared.table_id }
        requires fresh { 0 < (view_in pass.old).duty.room.fresh }
        ensures pass { IsStill pass.old pass.new }
        ensures full { result + self.now.size ≤ (view_in pass.old).sight.top
            → (w : List Event) × Becomes pass.old pass.new
            (sees_full result w (with_duty Room dozes (view_in pass.old)))
            × SawAllGot (view_in pass.new) }
        ensures room { (view_in pass.old).sight.top < result + self.now.size
            → Becomes pass.old pass.new (sees_taken result (view_in pass.old)) }
        ensures most { result ≤ 4611686018427387904 }
        ensures known { ((view_in pass.old).known.taken ≤ result)
            × ((view_in pass.old).known.drawn ≤ result + self.now.size) }
    {
        self.table
            .shared
            .load::<Counts<Dozes>>(&mut pass.seat, TAKEN)
    }

    /// One that fell asleep looks whether the ring is cut. If so, it is about to leave.
    pub(crate) fn load_before_sleep(&self, pass: &mut Pass<T>) -> u64
        requires ring { pass.old.seat.table_id ≡ self.now.table.shared.table_id }
        requires asleep { 0 < (view_in pass.old).duty.room.asleep }
        requires owes { 0 < (view_in pass.old).duty.room.closing }
        ensures pass { IsStill pass.old pass.new }
        ensures cut { 9223372036854775808 ≤ result
            → Becomes pass.old pass.new (sees_cut (with_duty Room gives_up (view_in pass.old))) }
        ensures open { result < 9223372036854775808
            → Becomes pass.old pass.new (with_duty Room has_closed (view_in pass.old)) }
    {
        self.table
            .shared
            .load::<SeesCut<GivesUp, HasClosed>>(&mut pass.seat, DRAWN)
    }

    /// Draws the position, if it is still the next one. Its slot is then out with the pass.
    pub(crate) fn draw_next<X: Value<T>>(
        &self,
        pass: &mut Pass<T>,
        at: u64,
        new: u64,
        value: &T,
    ) -> u64
        requires ring { pass.old.seat.table_id ≡ self.now.table.shared.table_id }
        requires picked { X.value ≡ Some value.now }
        requires member { (view_in pass.old).role ≡ Member }
        requires idle { (view_in pass.old).half ≡ Nothing }
        requires open { (view_in pass.old).sight.room ≡ Some at }
        requires most { at < 4611686018427387904 }
        requires new { new ≡ at + 1 }
        ensures pass { IsStill pass.old pass.new }
        ensures drawn { result ≡ at → (view_in pass.new
            ≡ with_duty Room looked
            (with_duty Values owes_wake (drew at value.now (view_in pass.old))))
            × (held_by pass.new ≡ (at % self.now.size, None) ∷ held_by pass.old)
            × MaySend (view_in pass.old) }
        ensures missed { result ≢ at → Becomes pass.old pass.new (view_in pass.old) }
    {
        let _ = value;
        self.table
            .shared
            .compare_exchange::<Draws<X, Looked>>(&mut pass.seat, DRAWN, at, new)
    }

    /// The same for one in the list, which is then about to leave.
    pub(crate) fn draw_next_listed<X: Value<T>>(
        &self,
        pass: &mut Pass<T>,
        at: u64,
        new: u64,
        value: &T,
    ) -> u64
        requires ring { pass.old.seat.table_id ≡ self.now.table.shared.table_id }
        requires picked { X.value ≡ Some value.now }
        requires member { (view_in pass.old).role ≡ Member }
        requires fresh { 0 < (view_in pass.old).duty.room.fresh }
        requires idle { (view_in pass.old).half ≡ Nothing }
        requires open { (view_in pass.old).sight.room ≡ Some at }
        requires most { at < 4611686018427387904 }
        requires new { new ≡ at + 1 }
        ensures pass { IsStill pass.old pass.new }
        ensures drawn { result ≡ at → (view_in pass.new
            ≡ with_duty Room done
            (with_duty Values owes_wake (drew at value.now (view_in pass.old))))
            × (held_by pass.new ≡ (at % self.now.size, None) ∷ held_by pass.old)
            × MaySend (view_in pass.old) }
        ensures missed { result ≢ at → Becomes pass.old pass.new (view_in pass.old) }
    {
        let _ = value;
        self.table
            .shared
            .compare_exchange::<Draws<X, Done>>(&mut pass.seat, DRAWN, at, new)
    }

    /// Looks whether the ring is cut.
    pub(crate) fn load_to_cut(&self, pass: &mut Pass<T>) -> u64
        requires ring { pass.old.seat.table_id ≡ self.now.table.shared.table_id }
        ensures pass { IsStill pass.old pass.new }
        ensures cut { 9223372036854775808 ≤ result
            → Becomes pass.old pass.new (sees_cut (view_in pass.old)) }
        ensures open { result < 9223372036854775808
            → Becomes pass.old pass.new (view_in pass.old) }
    {
        self.table
            .shared
            .load::<SeesCut<Same, Same>>(&mut pass.seat, DRAWN)
    }

    /// Cuts the ring, if as many positions are drawn as were seen.
    pub(crate) fn cut_from(&self, pass: &mut Pass<T>, seen: u64, new: u64) -> u64
        requires ring { pass.old.seat.table_id ≡ self.now.table.shared.table_id }
        requires member { (view_in pass.old).role ≡ Member }
        requires open { seen < 9223372036854775808 }
        requires new { new ≡ seen + 9223372036854775808 }
        ensures pass { IsStill pass.old pass.new }
        ensures cut { result ≡ seen
            → Becomes pass.old pass.new (owes_both (did_cut (view_in pass.old))) }
        ensures missed { result ≢ seen → Becomes pass.old pass.new (view_in pass.old) }
    {
        self.table
            .shared
            .compare_exchange::<Cuts>(&mut pass.seat, DRAWN, seen, new)
    }

    // ---- claims
    /// Looks how many positions are claimed.
    pub(crate) fn load_taken(&self, pass: &mut Pass<T>) -> u64
        requires ring { pass.old.seat.table_id ≡ self.now.table.shared.table_id }
        ensures pass { IsStill pass.old pass.new }
        ensures low { Becomes pass.old pass.new (sees_taken result (view_in pass.old)) }
        ensures mark { marked_to (view_in pass.old) ≤ result + 1 }
        ensures most { result ≤ 4611686018427387904 }
        ensures known { (view_in pass.old).known.taken ≤ result }
    {
        self.table.shared.load::<SeesTaken>(&mut pass.seat, TAKEN)
    }

    /// Looks whether the position is marked. It is not above the number claimed that the pass loaded.
    pub(crate) fn load_mark<P: Position>(&self, pass: &mut Pass<T>, at: u64, slot: u64) -> u64
        requires ring { pass.old.seat.table_id ≡ self.now.table.shared.table_id }
        requires picked { P.position ≡ at }
        requires slot { slot ≡ at % self.now.size }
        requires within { slot < self.now.size }
        requires low { at ≤ (view_in pass.old).sight.low }
        ensures pass { IsStill pass.old pass.new }
        ensures marked { 2 * at < result + 2 * slot
            → Becomes pass.old pass.new (sees_mark at (view_in pass.old))
            × (at < 4611686018427387904) }
        ensures unmarked { result + 2 * slot ≤ 2 * at
            → Becomes pass.old pass.new (view_in pass.old) }
        ensures over { KnowsOver (view_in pass.old) → (view_in pass.old).sight.low ≤ at
            → result + 2 * slot ≤ 2 * at }
    {
        self.table
            .shared
            .load::<SeesMark<P>>(&mut pass.seat, word_of(slot))
    }

    /// Looks how many positions are drawn, after a look how many are claimed.
    pub(crate) fn load_drawn(&self, pass: &mut Pass<T>) -> u64
        requires ring { pass.old.seat.table_id ≡ self.now.table.shared.table_id }
        ensures pass { IsStill pass.old pass.new }
        ensures some { (view_in pass.old).sight.low < result % 9223372036854775808
            → Becomes pass.old pass.new
            (sees_drawn (result % 9223372036854775808) (view_in pass.old)) }
        ensures empty { result % 9223372036854775808 ≤ (view_in pass.old).sight.low
            → result < 9223372036854775808
            → (w : List Event) × Becomes pass.old pass.new
            (sees_empty result w (with_duty Values looked (view_in pass.old)))
            × SawAllTaken (view_in pass.new) × ((view_in pass.old).known.drawn ≤ result) }
        ensures over { result % 9223372036854775808 ≤ (view_in pass.old).sight.low
            → 9223372036854775808 ≤ result
            → Becomes pass.old pass.new (told (with_duty Values looked (view_in pass.old))) }
        ensures told { KnowsOver (view_in pass.old)
            → (result % 9223372036854775808 ≤ (view_in pass.old).sight.low)
            × (9223372036854775808 ≤ result) }
    {
        self.table
            .shared
            .load::<Looks<Looked, Looked>>(&mut pass.seat, DRAWN)
    }

    /// The same for one in the list: if no value is there yet, it sleeps from then on.
    pub(crate) fn load_drawn_listed(&self, pass: &mut Pass<T>) -> u64
        requires ring { pass.old.seat.table_id ≡ self.now.table.shared.table_id }
        requires fresh { 0 < (view_in pass.old).duty.values.fresh }
        ensures pass { IsStill pass.old pass.new }
        ensures some { (view_in pass.old).sight.low < result % 9223372036854775808
            → Becomes pass.old pass.new
            (sees_drawn (result % 9223372036854775808) (view_in pass.old)) }
        ensures empty { result % 9223372036854775808 ≤ (view_in pass.old).sight.low
            → result < 9223372036854775808
            → (w : List Event) × Becomes pass.old pass.new
            (sees_empty result w (with_duty Values falls_asleep (view_in pass.old)))
            × SawAllTaken (view_in pass.new) × ((view_in pass.old).known.drawn ≤ result) }
        ensures over { result % 9223372036854775808 ≤ (view_in pass.old).sight.low
            → 9223372036854775808 ≤ result
            → Becomes pass.old pass.new (told (with_duty Values done (view_in pass.old))) }
        ensures told { KnowsOver (view_in pass.old)
            → (result % 9223372036854775808 ≤ (view_in pass.old).sight.low)
            × (9223372036854775808 ≤ result) }
    {
        self.table
            .shared
            .load::<Looks<FallsAsleep, Done>>(&mut pass.seat, DRAWN)
    }

    /// Claims the position, if it is still the first that waits. Its slot is then out with the pass.
    pub(crate) fn claim_from(&self, pass: &mut Pass<T>, at: u64, new: u64) -> u64
        requires ring { pass.old.seat.table_id ≡ self.now.table.shared.table_id }
        requires member { (view_in pass.old).role ≡ Member }
        requires idle { (view_in pass.old).half ≡ Nothing }
        requires ripe { (view_in pass.old).sight.ripe ≡ Some at }
        requires new { new ≡ at + 1 }
        ensures pass { IsStill pass.old pass.new }
        ensures claimed { result ≡ at → (x : T)
            × (view_in pass.new
            ≡ with_duty Room owes_wake (with_duty Values looked (took at x (view_in pass.old))))
            × (held_by pass.new ≡ (at % self.now.size, Some x) ∷ held_by pass.old)
            × MayTake (view_in pass.old) }
        ensures missed { result ≢ at
            → Becomes pass.old pass.new (sees_taken result (view_in pass.old)) × (at < result) }
    {
        self.table
            .shared
            .compare_exchange::<Claims<Looked>>(&mut pass.seat, TAKEN, at, new)
    }

    /// The same for one in the list, which is then about to leave.
    pub(crate) fn claim_listed_from(&self, pass: &mut Pass<T>, at: u64, new: u64) -> u64
        requires ring { pass.old.seat.table_id ≡ self.now.table.shared.table_id }
        requires member { (view_in pass.old).role ≡ Member }
        requires idle { (view_in pass.old).half ≡ Nothing }
        requires fresh { 0 < (view_in pass.old).duty.values.fresh }
        requires ripe { (view_in pass.old).sight.ripe ≡ Some at }
        requires new { new ≡ at + 1 }
        ensures pass { IsStill pass.old pass.new }
        ensures claimed { result ≡ at → (x : T)
            × (view_in pass.new
            ≡ with_duty Room owes_wake (with_duty Values done (took at x (view_in pass.old))))
            × (held_by pass.new ≡ (at % self.now.size, Some x) ∷ held_by pass.old)
            × MayTake (view_in pass.old) }
        ensures missed { result ≢ at
            → Becomes pass.old pass.new (sees_taken result (view_in pass.old)) × (at < result) }
    {
        self.table
            .shared
            .compare_exchange::<Claims<Done>>(&mut pass.seat, TAKEN, at, new)
    }
}
