//! One consumer's way through the objects of one cell.
use crate::access::{ClaimOp, Stage};
use crate::layout::Layout;
use crate::steps::places_show_prefixes;
use mb_deciding::{Memory, Next, Out, Pc};

pub mod straight;

/// The claim of one consumer on one cell: the object on which it stands, its place there, and how far it has come. It
/// is a plain value, which may be kept between calls.
#[derive(Clone, Copy, PartialEq, Eq, Debug)]
pub struct Claim {
    consumer: u32,
    object: u32,
    place: Pc,
    stage: Stage,
    begun: bool,
}

impl Claim {
    ghost use Rattle.std.specs.Prelude.{◌≡◌, ◌≢◌, ◌<◌, ◌≤◌, ◌+◌, ℕ, Bool, true, List, [], ◌∷◌, length, slice_get, MatchOption, None};
    ghost use Rattle.mb_deciding.specs.Vocabulary.{PcIsAt, IsNext, IsReached, next_from, turns_left, turns_after};
    ghost use Rattle.mb_deciding.specs.Vocabulary.{most_turns};
    ghost use Rattle.mb_claim.specs.{Kind, LastObject, Turn, ClaimOp, ObjectTurn, Going, Undecided, consumer_of, claim_stage, is_begun};
    ghost use Rattle.mb_claim.specs.{FitsLayout, IsClaimIn, IsNextOp, CanClaimFind, IsClaimStep, steps_left, step_of};
    ghost use Rattle.mb_claim.specs.{Pc, stage_for, placed_at, stood_at, quorums_of, kinds_of, consumer_count, most_accesses, IsStanding};

    /// The claim of a consumer that has made no access. The consumer's number has to be below [`Layout::consumers`].
    #[inline(always)]
    pub fn new(layout: &Layout, consumer: u32) -> Claim
        requires { consumer < consumer_count layout.now }
        ensures consumer { consumer_of result ≡ consumer }
        ensures going { claim_stage result ≡ Going }
        ensures fits { FitsLayout layout.now result }
        ensures path { IsClaimIn layout.now result [] }
        ensures bound { steps_left layout.now result ≤ most_accesses layout.now }
        ensures first { IsStanding layout.now consumer 0 consumer result }
    {
        places_show_prefixes();
        Claim {
            consumer,
            object: 0,
            place: layout.kind_of(0).place(&layout.table, consumer),
            stage: Stage::Going,
            begun: false,
        }
    }

    /// The claim of a consumer that has made no access, if each cell has a last object alone ([`Layout::exchange`]).
    #[inline(always)]
    pub fn alone(layout: &Layout, consumer: u32) -> Claim
        requires consumer { consumer < consumer_count layout.now }
        requires alone { kinds_of layout.now ≡ LastObject ∷ [] }
        ensures consumer { consumer_of result ≡ consumer }
        ensures going { claim_stage result ≡ Going }
        ensures path { IsClaimIn layout.now result [] }
        ensures first { IsStanding layout.now consumer 0 consumer result }
    {
        // Only the contract names the layout.
        let _ = layout;
        places_show_prefixes();
        Claim {
            consumer,
            object: 0,
            place: Pc::last(consumer),
            stage: Stage::Going,
            begun: false,
        }
    }

    /// The access that the claim makes next. It needs a claim that is `Going`, and the layout that it was made with.
    #[inline(always)]
    pub fn next(&self, layout: &Layout) -> ClaimOp
        requires going { claim_stage self.now ≡ Going }
        requires fits { FitsLayout layout.now self.now }
        ensures { IsNextOp layout.now self.now result }
    {
        ClaimOp {
            object: self.object,
            op: self.place.next(&layout.table),
        }
    }

    /// Goes on after the next access, and returns how far the claim has come. It needs what [`Claim::next`] needs.
    /// `seen` is the value that a load or an exchange found. It does not count after a store. The random `word` counts
    /// only after a load of a conciliator's word. If the word of the access cannot hold `seen`, nothing more is said of
    /// the stage, and the claim can still be used.
    #[inline(always)]
    pub fn after(&mut self, layout: &Layout, seen: u64, word: u64) -> Stage
        requires going { claim_stage self.old ≡ Going }
        requires fits { FitsLayout layout.now self.old }
        ensures fits { FitsLayout layout.now self.new }
        ensures consumer { consumer_of self.new ≡ consumer_of self.old }
        ensures begun { is_begun self.new ≡ true }
        ensures stage { result ≡ claim_stage self.new }

        // After the access fewer are left, whatever `seen` is. So each claim comes to an end.
        ensures fewer { steps_left layout.now self.new < steps_left layout.now self.old }

        // If the word can hold `seen`, the access is one more on the claim's path.
        ensures path { (xs : List ObjectTurn) (next : ClaimOp) → IsClaimIn layout.now self.old xs
            → IsNextOp layout.now self.old next → CanClaimFind layout.now self.old next seen
            → IsClaimIn layout.now self.new (step_of next.object next.op seen word ∷ xs) }
    {
        match self.place.after(&layout.table, seen, word) {
            Next::Go(place) => {
                self.place = place;
                self.follow(layout, None)
            }
            Next::Out(out) => self.follow(layout, Some(out)),
        }
    }

    /// Makes the claim's next access, and no other, in this memory. Returns how far the claim has come. The call is
    /// [`Claim::next`], [`Memory::perform`] and [`Claim::after`]. It needs what [`Claim::next`] needs, and a memory
    /// that can make the access.
    #[inline(always)]
    pub fn step<M: Memory>(&mut self, layout: &Layout, memory: &mut M, word: u64) -> Stage
        requires going { claim_stage self.old ≡ Going }
        requires fits { FitsLayout layout.now self.old }
        requires may { (next : ClaimOp) → IsNextOp layout.now self.old next
            → M.can_make memory.old next.object next.op }
        ensures fits { FitsLayout layout.now self.new }
        ensures consumer { consumer_of self.new ≡ consumer_of self.old }
        ensures begun { is_begun self.new ≡ true }
        ensures stage { result ≡ claim_stage self.new }
        ensures fewer { steps_left layout.now self.new < steps_left layout.now self.old }

        // The call made the claim's next access, which is one more on the claim's path.
        ensures step { IsClaimStep layout.now self.old
            (λ next seen. M.makes memory.old next.object next.op seen memory.new) word self.new }
    {
        let out = self.place.step(&layout.table, memory, self.object, word);
        self.follow(layout, out)
    }

    /// How far the claim has come.
    #[inline(always)]
    pub fn stage(&self) -> Stage
        ensures { result ≡ claim_stage self.now }
    {
        self.stage
    }

    /// Whether the claim has made an access.
    pub fn begun(&self) -> bool
        ensures { result ≡ is_begun self.now }
    {
        self.begun
    }

    /// Goes on with what an access on the claim's object led to: the output, if there is one. Else the claim has its
    /// new place already.
    #[inline(always)]
    fn follow(&mut self, layout: &Layout, out: Option<Out>) -> Stage
        requires going { claim_stage self.old ≡ Going }
        requires object { self.old.object < length (kinds_of layout.now) }
        requires next { IsNext (quorums_of layout.now) (next_from out self.old.place) }
        ensures fits { FitsLayout layout.now self.new }
        ensures consumer { consumer_of self.new ≡ consumer_of self.old }
        ensures begun { is_begun self.new ≡ true }
        ensures stage { result ≡ claim_stage self.new }
        ensures stays { out ≡ None → self.new ≡ stood_at self.old.place true self.old }

        // If `out` or the new place leaves fewer turns than `pc`, fewer accesses are left than to the claim at `pc`.
        ensures fewer { (pc : Pc)
            → turns_after (quorums_of layout.now) (next_from out self.old.place)
            < turns_left (quorums_of layout.now) pc
            → steps_left layout.now self.new < steps_left layout.now (placed_at pc self.old) }
        ensures path { (pc : Pc) (begun : Bool) (xs : List ObjectTurn) (turn : Turn)
            → IsClaimIn layout.now (stood_at pc begun self.old) xs
            → ((kind : Kind) (v : ℕ) (turns : List Turn)
            → PcIsAt (quorums_of layout.now) kind v pc turns
            → IsReached (quorums_of layout.now) kind v (next_from out self.old.place)
            (turn ∷ turns))
            → IsClaimIn layout.now self.new
            (record { object = self.old.object; turn = turn } ∷ xs) }
    {
        places_show_prefixes();
        self.begun = true;
        match out {
            None => Stage::Going,
            Some(out) if !out.decided => self.pass(layout, out.value),
            Some(out) => {
                let stage = Claim::stage_for(self.consumer, out.value);
                self.stage = stage;
                stage
            }
        }
    }

    /// The stage of a consumer's claim if an object decided this value for it.
    #[inline(always)]
    fn stage_for(consumer: u32, value: u32) -> Stage
        ensures exact { result ≡ stage_for consumer value }
        ensures ended { result ≢ Going }
    {
        if value == consumer {
            Stage::Won
        } else {
            Stage::Lost(value)
        }
    }

    /// Goes on to the next object, or is undecided if there is none. Its object left it undecided with this value.
    #[inline(always)]
    fn pass(&mut self, layout: &Layout, value: u32) -> Stage
        requires object { self.old.object < length (kinds_of layout.now) }
        requires value { value < consumer_count layout.now }
        requires going { self.old.stage ≡ Going }
        ensures same { (self.new.consumer ≡ self.old.consumer) × (self.new.begun ≡ self.old.begun) }
        ensures next { MatchOption (slice_get (kinds_of layout.now) (self.old.object + 1))
            (self.new.stage ≡ Undecided)
            (λ kind. (self.new.stage ≡ Going) × (self.new.object ≡ self.old.object + 1)
            × PcIsAt (quorums_of layout.now) kind value self.new.place []) }
        ensures few { MatchOption (slice_get (kinds_of layout.now) (self.old.object + 1))
            (self.new.stage ≡ Undecided)
            (λ kind. (self.new.stage ≡ Going) × (self.new.object ≡ self.old.object + 1)
            × (turns_left (quorums_of layout.now) self.new.place
            ≤ most_turns (quorums_of layout.now) kind)) }
        ensures stage { result ≡ self.new.stage }
    {
        match layout.kind(self.object + 1) {
            Some(kind) => {
                self.object += 1;
                self.place = kind.place(&layout.table, value);
                Stage::Going
            }
            None => {
                self.stage = Stage::Undecided;
                Stage::Undecided
            }
        }
    }
}
