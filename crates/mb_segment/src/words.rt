//! Each atomic step on the numbers drawn and claimed, and on the state of a position.
ghost use Rattle.std.specs.Prelude.{List, None, Option, Some, [], ℕ, ◌%◌, ◌+◌, ◌<◌, ◌∷◌, ◌≡◌, ◌≢◌, ◌≤◌};
ghost use Rattle.mb_segment.specs.{Becomes, Event, IsStill, MaySend, MayTake, Member, Nothing, SawAllTaken, Spot, did_cut, done, drew};
ghost use Rattle.mb_segment.specs.{falls_asleep, held_by, looked, marked_to, owes_all, owes_wake, sees_cut, sees_empty, sees_full, sees_mark};
ghost use Rattle.mb_segment.specs.{sees_taken, told, took, view_in, with_duty};

use crate::effects::{Done, FallsAsleep, Looked, OwesAll, OwesWake};
use crate::rule::{
    Asks, Claims, Cuts, Draws, Looks, Position, SeesCut, SeesMark, SeesTaken, Value,
};
use crate::segment::{Pass, Segment};
use std::alloc::Allocator;

/// The words: how many positions are drawn, with the top bit once the segment is cut, and how many are claimed. These two
/// and the list's are 64 bytes apart: senders write the one, receivers the other, and all read the list.
pub(crate) const DRAWN: usize = 0;

pub(crate) const TAKEN: usize = 16;

/// The word of the first position's state.
pub(crate) const STATES: usize = 17;

/// The bit of the number drawn that says that the segment is cut.
pub(crate) const CUT: u64 = 9223372036854775808;

/// The word of a position's state.
pub(crate) fn state_of(at: u64) -> usize
    requires { at < 4294967296 }
    ensures { result ≡ at + 17 }
{
    at as usize + STATES
}

impl<T: Drop, A: Allocator + Drop> Segment<T, A> {
    // ---- draws
    /// Looks how many positions are drawn, before a draw.
    pub(crate) fn load_to_draw(&self, pass: &mut Pass<T>) -> u64
        requires segment { pass.old.seat.table_id ≡ self.now.table.shared.table_id }
        ensures pass { IsStill pass.old pass.new }
        ensures cut { 9223372036854775808 ≤ result
            → Becomes pass.old pass.new (sees_cut (view_in pass.old)) }
        ensures full { result < 9223372036854775808 → self.now.size ≤ result
            → Becomes pass.old pass.new (sees_full (view_in pass.old)) }
        ensures open { result < self.now.size
            → Becomes pass.old pass.new (view_in pass.old) }
    {
        self.table.shared.load::<Asks>(&mut pass.seat, DRAWN)
    }

    /// Draws the position, if it is still the next one, and not the last. Its slot is then out with the pass.
    pub(crate) fn draw_next<X: Value<T>>(
        &self,
        pass: &mut Pass<T>,
        at: u64,
        new: u64,
        value: &T,
    ) -> u64
        requires segment { pass.old.seat.table_id ≡ self.now.table.shared.table_id }
        requires picked { X.value ≡ Some value.now }
        requires member { (view_in pass.old).role ≡ Member }
        requires idle { (view_in pass.old).half ≡ Nothing }
        requires room { new < self.now.size }
        requires new { new ≡ at + 1 }
        ensures pass { IsStill pass.old pass.new }
        ensures drawn { result ≡ at
            → (view_in pass.new ≡ with_duty owes_wake (drew at value.now (view_in pass.old)))
            × (held_by pass.new ≡ (at, None) ∷ held_by pass.old) × MaySend at (view_in pass.old) }
        ensures missed { result ≢ at → Becomes pass.old pass.new (view_in pass.old) }
    {
        let _ = value;
        self.table
            .shared
            .compare_exchange::<Draws<OwesWake, X>>(&mut pass.seat, DRAWN, at, new)
    }

    /// The same for the last position. The pass then owes tokens to all that wait.
    pub(crate) fn draw_last<X: Value<T>>(
        &self,
        pass: &mut Pass<T>,
        at: u64,
        new: u64,
        value: &T,
    ) -> u64
        requires segment { pass.old.seat.table_id ≡ self.now.table.shared.table_id }
        requires picked { X.value ≡ Some value.now }
        requires member { (view_in pass.old).role ≡ Member }
        requires idle { (view_in pass.old).half ≡ Nothing }
        requires last { new ≡ self.now.size }
        requires new { new ≡ at + 1 }
        ensures pass { IsStill pass.old pass.new }
        ensures drawn { result ≡ at
            → (view_in pass.new ≡ with_duty owes_all (drew at value.now (view_in pass.old)))
            × (held_by pass.new ≡ (at, None) ∷ held_by pass.old) × MaySend at (view_in pass.old) }
        ensures missed { result ≢ at → Becomes pass.old pass.new (view_in pass.old) }
    {
        let _ = value;
        self.table
            .shared
            .compare_exchange::<Draws<OwesAll, X>>(&mut pass.seat, DRAWN, at, new)
    }

    /// Looks whether the segment is cut.
    pub(crate) fn load_to_cut(&self, pass: &mut Pass<T>) -> u64
        requires segment { pass.old.seat.table_id ≡ self.now.table.shared.table_id }
        ensures pass { IsStill pass.old pass.new }
        ensures cut { 9223372036854775808 ≤ result
            → Becomes pass.old pass.new (sees_cut (view_in pass.old)) }
        ensures open { result < 9223372036854775808
            → Becomes pass.old pass.new (view_in pass.old) }
    {
        self.table.shared.load::<SeesCut>(&mut pass.seat, DRAWN)
    }

    /// Cuts the segment, if as many positions are drawn as were seen. The pass then owes tokens to all that wait.
    pub(crate) fn cut_from(&self, pass: &mut Pass<T>, seen: u64, new: u64) -> u64
        requires segment { pass.old.seat.table_id ≡ self.now.table.shared.table_id }
        requires member { (view_in pass.old).role ≡ Member }
        requires open { seen < 9223372036854775808 }
        requires new { new ≡ seen + 9223372036854775808 }
        ensures pass { IsStill pass.old pass.new }
        ensures cut { result ≡ seen
            → Becomes pass.old pass.new (with_duty owes_all (did_cut (view_in pass.old))) }
        ensures missed { result ≢ seen → Becomes pass.old pass.new (view_in pass.old) }
    {
        self.table
            .shared
            .compare_exchange::<Cuts>(&mut pass.seat, DRAWN, seen, new)
    }

    // ---- claims
    /// Looks how many positions are claimed.
    pub(crate) fn load_taken(&self, pass: &mut Pass<T>) -> u64
        requires segment { pass.old.seat.table_id ≡ self.now.table.shared.table_id }
        ensures pass { IsStill pass.old pass.new }
        ensures low { Becomes pass.old pass.new (sees_taken result (view_in pass.old)) }
        ensures mark { marked_to (view_in pass.old) ≤ result + 1 }
    {
        self.table.shared.load::<SeesTaken>(&mut pass.seat, TAKEN)
    }

    /// Looks whether the position is marked. It is not above the number claimed that the pass loaded.
    pub(crate) fn load_mark<P: Position>(&self, pass: &mut Pass<T>, at: u64) -> u64
        requires segment { pass.old.seat.table_id ≡ self.now.table.shared.table_id }
        requires picked { P.position ≡ at }
        requires within { at < self.now.size }
        requires low { at ≤ (view_in pass.old).sight.low }
        ensures pass { IsStill pass.old pass.new }
        ensures marked { result ≢ 0 → Becomes pass.old pass.new (sees_mark at (view_in pass.old)) }
        ensures unmarked { result ≡ 0 → Becomes pass.old pass.new (view_in pass.old) }
    {
        self.table
            .shared
            .load::<SeesMark<P>>(&mut pass.seat, state_of(at))
    }

    /// Looks how many positions are drawn, after a look how many are claimed.
    pub(crate) fn load_drawn(&self, pass: &mut Pass<T>) -> u64
        requires segment { pass.old.seat.table_id ≡ self.now.table.shared.table_id }
        ensures pass { IsStill pass.old pass.new }
        ensures some { (view_in pass.old).sight.low < result % 9223372036854775808
            → Becomes pass.old pass.new (view_in pass.old) }
        ensures empty { result % 9223372036854775808 ≤ (view_in pass.old).sight.low
            → result < self.now.size → (w : List Event)
            × Becomes pass.old pass.new (sees_empty result w (with_duty looked (view_in pass.old)))
            × SawAllTaken (view_in pass.new) }
        ensures over { result % 9223372036854775808 ≤ (view_in pass.old).sight.low
            → self.now.size ≤ result
            → Becomes pass.old pass.new (told (with_duty looked (view_in pass.old))) }
    {
        self.table
            .shared
            .load::<Looks<Looked, Looked>>(&mut pass.seat, DRAWN)
    }

    /// The same for one in the list: if no value is there yet, it sleeps from then on.
    pub(crate) fn load_drawn_listed(&self, pass: &mut Pass<T>) -> u64
        requires segment { pass.old.seat.table_id ≡ self.now.table.shared.table_id }
        requires fresh { 0 < (view_in pass.old).duty.fresh }
        ensures pass { IsStill pass.old pass.new }
        ensures some { (view_in pass.old).sight.low < result % 9223372036854775808
            → Becomes pass.old pass.new (view_in pass.old) }
        ensures empty { result % 9223372036854775808 ≤ (view_in pass.old).sight.low
            → result < self.now.size → (w : List Event)
            × Becomes pass.old pass.new
            (sees_empty result w (with_duty falls_asleep (view_in pass.old)))
            × SawAllTaken (view_in pass.new) }
        ensures over { result % 9223372036854775808 ≤ (view_in pass.old).sight.low
            → self.now.size ≤ result
            → Becomes pass.old pass.new (told (with_duty done (view_in pass.old))) }
    {
        self.table
            .shared
            .load::<Looks<FallsAsleep, Done>>(&mut pass.seat, DRAWN)
    }

    /// Claims the position, if it is still the first that waits. Its slot is then out with the pass.
    pub(crate) fn claim_from(&self, pass: &mut Pass<T>, at: u64, new: u64) -> u64
        requires segment { pass.old.seat.table_id ≡ self.now.table.shared.table_id }
        requires member { (view_in pass.old).role ≡ Member }
        requires idle { (view_in pass.old).half ≡ Nothing }
        requires ripe { (view_in pass.old).sight.ripe ≡ Some at }
        requires new { new ≡ at + 1 }
        ensures pass { IsStill pass.old pass.new }
        ensures claimed { result ≡ at → (x : T)
            × (view_in pass.new ≡ with_duty looked (took at x (view_in pass.old)))
            × (held_by pass.new ≡ (at, Some x) ∷ held_by pass.old) × MayTake at (view_in pass.old) }
        ensures missed { result ≢ at → Becomes pass.old pass.new (view_in pass.old) }
    {
        self.table
            .shared
            .compare_exchange::<Claims<Looked>>(&mut pass.seat, TAKEN, at, new)
    }

    /// The same for one in the list, which is then about to leave.
    pub(crate) fn claim_listed_from(&self, pass: &mut Pass<T>, at: u64, new: u64) -> u64
        requires segment { pass.old.seat.table_id ≡ self.now.table.shared.table_id }
        requires member { (view_in pass.old).role ≡ Member }
        requires idle { (view_in pass.old).half ≡ Nothing }
        requires fresh { 0 < (view_in pass.old).duty.fresh }
        requires ripe { (view_in pass.old).sight.ripe ≡ Some at }
        requires new { new ≡ at + 1 }
        ensures pass { IsStill pass.old pass.new }
        ensures claimed { result ≡ at → (x : T)
            × (view_in pass.new ≡ with_duty done (took at x (view_in pass.old)))
            × (held_by pass.new ≡ (at, Some x) ∷ held_by pass.old) × MayTake at (view_in pass.old) }
        ensures missed { result ≢ at → Becomes pass.old pass.new (view_in pass.old) }
    {
        self.table
            .shared
            .compare_exchange::<Claims<Done>>(&mut pass.seat, TAKEN, at, new)
    }
}
