//! A new claim goes straight through whole objects. It keeps no place in an object meanwhile.
ghost use Rattle.std.specs.Prelude.{◌≡◌, ◌≤◌, true};
ghost use Rattle.mb_claim.specs.declared.claim.straight.TheConstants.{AMPLE};

use super::Claim;
use crate::access::{ClaimOp, Stage};
use crate::layout::Layout;
use crate::steps::places_show_prefixes;
use mb_deciding::steps::paths_are_short;
use mb_deciding::{Drawing, Kind, through_conciliator, through_last, through_ratifier};
use mb_quorum::Quorums;

/// More accesses than a claim can make to one object, over any table: 2 for each of 64 registers, and 10.
const LONGEST: u64 = 138;

/// A budget that is enough for the longest way through all objects of a cell.
const AMPLE: u64 = 8192;

/// Where straight accesses of a claim ended.
#[derive(Clone, Copy)]
pub struct Stretch {
    /// How far the claim has come. If it is going, it is about to make its first access to the object.
    pub stage: Stage,
    /// The number of the object, if the claim is going.
    pub object: u32,
    /// The claim's input to the object, if the claim is going. Also if it has ended, this is some consumer's number.
    pub value: u32,
    /// What is left of the budget.
    pub left: u64,
}

impl Claim {
    ghost use Rattle.std.specs.Prelude.{◌≡◌, ◌≢◌, ◌<◌, ◌≤◌, ◌+◌, ◌*◌, ◌^◌, ℕ, true, false, length, slice_get, Some};
    ghost use Rattle.mb_claim.specs.{Ratifier, LastObject, Going, claim_stage, IsNextOp, AreClaimSteps, DrawsAndMakesNext};
    ghost use Rattle.mb_claim.specs.{quorums_of, kinds_of, consumer_count, cell_words, IsStanding, HasEnd, HasStopped, site_of};
    ghost use Rattle.mb_claim.specs.declared.claim.straight.TheConstants.{LONGEST};

    /// The claim of a consumer before its first access to an object, with this value as its input there. It needs an
    /// object of the layout, and as value the number of one of its consumers.
    #[cold]
    #[inline(never)]
    pub fn standing(layout: &Layout, consumer: u32, object: u32, value: u32) -> Claim
        requires object { object < length (kinds_of layout.now) }
        requires value { value < consumer_count layout.now }
        ensures { IsStanding layout.now consumer object value result }
    {
        Claim {
            consumer,
            object,
            place: layout.kind_of(object).place(&layout.table, value),
            stage: Stage::Going,
            begun: object != 0,
        }
    }

    /// Makes the accesses of a new claim on a cell whose words begin at `begin`. It goes object by object, as long as
    /// 10 accesses and 2 for each quorum register are left. For a last object one is enough. It makes at most `most`
    /// accesses, as that many calls of [`Claim::step`] do. It needs a consumer of the layout, words whose positions
    /// are below 2^64, and a memory that can make each access.
    #[inline(always)]
    pub fn straight<M: Drawing>(
        layout: &Layout,
        memory: &mut M,
        begin: usize,
        consumer: u32,
        most: u64,
    ) -> Stretch
        requires consumer { consumer < consumer_count layout.now }
        requires begin { begin + cell_words layout.now < 2 ^ 64 }
        requires may { (start : Claim) → IsStanding layout.now consumer 0 consumer start
            → (n word : ℕ) (at : Claim) (before mid : M) (next : ClaimOp)
            → AreClaimSteps layout.now (DrawsAndMakesNext M.draws M.makes) start memory.old n
            at before
            → claim_stage at ≡ Going → M.draws before word mid → IsNextOp layout.now at next
            → M.can_make_at mid (site_of layout.now begin next.object) next.op }
        ensures object { result.stage ≡ Going → result.object < length (kinds_of layout.now) }
        ensures value { result.value < consumer_count layout.now }

        // The accesses made are accesses of the claim, and they ended as the result says.
        ensures steps { (start : Claim) → IsStanding layout.now consumer 0 consumer start
            → (n : ℕ) × (end : Claim) × (n + result.left ≡ most)
            × AreClaimSteps layout.now (DrawsAndMakesNext M.draws M.makes) start memory.old n
            end memory.new
            × HasEnd layout.now consumer result end }

        // If the claim is still going, too few accesses are left for the next object.
        ensures goes { HasStopped layout.now result }
    {
        // With an ample budget there is always room, so `room` is 0.
        let ample = is_ample(most);
        let room = Claim::room(layout, ample);
        let mut at = Stretch {
            stage: Stage::Going,
            object: 0,
            value: consumer,
            left: most,
        };
        'objects: while at.left >= room {
            if !Claim::agree(layout, memory, begin, consumer, &mut at) {
                return Claim::settle(layout, memory, begin, consumer, at);
            }
            if at.left < room {
                return at;
            }
            if !Claim::decide(layout, memory, begin, consumer, &mut at) {
                return at;
            }
        }
        Claim::settle(layout, memory, begin, consumer, at)
    }

    /// How much of the budget has to be left before an object.
    #[inline(always)]
    fn room(layout: &Layout, ample: bool) -> u64
        ensures enough { ample ≡ false → 2 * (quorums_of layout.now).registers + 10 ≤ result }
        ensures few { result ≤ 2 * (quorums_of layout.now).registers + 10 }
    {
        if ample {
            0
        } else {
            2 * u64::from(layout.table.registers()) + 10
        }
    }

    /// Goes through the object, if that is a conciliator. Returns whether a ratifier comes next.
    #[inline(always)]
    fn agree<M: Drawing>(
        layout: &Layout,
        memory: &mut M,
        begin: usize,
        consumer: u32,
        at: &mut Stretch,
    ) -> bool
        requires object { at.old.object < length (kinds_of layout.now) }
        requires value { at.old.value < consumer_count layout.now }
        requires room { 10 ≤ at.old.left }
        requires begin { begin + cell_words layout.now < 2 ^ 64 }
        requires may { (start : Claim)
            → IsStanding layout.now consumer at.old.object at.old.value start
            → (n word : ℕ) (at : Claim) (before mid : M) (next : ClaimOp)
            → AreClaimSteps layout.now (DrawsAndMakesNext M.draws M.makes) start memory.old n
            at before
            → claim_stage at ≡ Going → M.draws before word mid → IsNextOp layout.now at next
            → M.can_make_at mid (site_of layout.now begin next.object) next.op }
        ensures stage { at.new.stage ≡ at.old.stage }
        ensures object { at.new.object < length (kinds_of layout.now) }
        ensures further { at.old.object ≤ at.new.object }
        ensures few { at.old.left + LONGEST * at.old.object
            ≤ at.new.left + LONGEST * at.new.object }
        ensures value { at.new.value < consumer_count layout.now }
        ensures next { result ≡ true
            → slice_get (kinds_of layout.now) at.new.object ≡ Some Ratifier }
        ensures last { result ≡ false → (at.new ≡ at.old)
            × (slice_get (kinds_of layout.now) at.old.object ≡ Some LastObject) }
        ensures steps { (start : Claim)
            → IsStanding layout.now consumer at.old.object at.old.value start
            → (n : ℕ) × (mid : Claim) × (n + at.new.left ≡ at.old.left)
            × AreClaimSteps layout.now (DrawsAndMakesNext M.draws M.makes) start memory.old n
            mid memory.new
            × IsStanding layout.now consumer at.new.object at.new.value mid }
    {
        places_show_prefixes();
        match layout.kind_of(at.object) {
            Kind::Conciliator { s } => {
                let site = layout.site(begin, at.object);
                let left = &mut at.left;
                at.value = through_conciliator(&layout.table, memory, site, s, at.value, left);
                at.object += 1;
                true
            }
            Kind::Ratifier => true,
            Kind::LastObject => false,
        }
    }

    /// Goes through the object, a ratifier. Returns whether the claim goes on to another object.
    #[inline(always)]
    fn decide<M: Drawing>(
        layout: &Layout,
        memory: &mut M,
        begin: usize,
        consumer: u32,
        at: &mut Stretch,
    ) -> bool
        requires going { at.old.stage ≡ Going }
        requires object { slice_get (kinds_of layout.now) at.old.object ≡ Some Ratifier }
        requires value { at.old.value < consumer_count layout.now }
        requires consumer { consumer < consumer_count layout.now }
        requires room { 2 * (quorums_of layout.now).registers + 2 ≤ at.old.left }
        requires begin { begin + cell_words layout.now < 2 ^ 64 }
        requires may { (start : Claim)
            → IsStanding layout.now consumer at.old.object at.old.value start
            → (n word : ℕ) (at : Claim) (before mid : M) (next : ClaimOp)
            → AreClaimSteps layout.now (DrawsAndMakesNext M.draws M.makes) start memory.old n
            at before
            → claim_stage at ≡ Going → M.draws before word mid → IsNextOp layout.now at next
            → M.can_make_at mid (site_of layout.now begin next.object) next.op }
        ensures goes { result ≡ true → at.new.stage ≡ Going }
        ensures ends { result ≡ false → at.new.stage ≢ Going }
        ensures object { result ≡ true → at.new.object < length (kinds_of layout.now) }
        ensures further { result ≡ true → at.old.object < at.new.object }
        ensures few { result ≡ true → at.old.left + LONGEST * at.old.object
            ≤ at.new.left + LONGEST * at.new.object }
        ensures value { at.new.value < consumer_count layout.now }
        ensures steps { (start : Claim)
            → IsStanding layout.now consumer at.old.object at.old.value start
            → (n : ℕ) × (end : Claim) × (n + at.new.left ≡ at.old.left)
            × AreClaimSteps layout.now (DrawsAndMakesNext M.draws M.makes) start memory.old n
            end memory.new
            × HasEnd layout.now consumer at.new end }
    {
        places_show_prefixes();
        paths_are_short();
        let site = layout.site(begin, at.object);
        let left = &mut at.left;
        let out = through_ratifier(&layout.table, memory, site, at.value, left);
        at.value = out.value;
        if out.decided {
            at.stage = Claim::stage_for(consumer, out.value);
            return false;
        }
        at.object += 1;
        if at.object == layout.objects() {
            at.stage = Stage::Undecided;
            return false;
        }
        true
    }

    /// Makes the exchange of a last object, if the claim stands before one and an access is left. Else nothing changes.
    #[inline(always)]
    fn settle<M: Drawing>(
        layout: &Layout,
        memory: &mut M,
        begin: usize,
        consumer: u32,
        at: Stretch,
    ) -> Stretch
        requires going { at.stage ≡ Going }
        requires object { at.object < length (kinds_of layout.now) }
        requires value { at.value < consumer_count layout.now }
        requires begin { begin + cell_words layout.now < 2 ^ 64 }
        requires may { (start : Claim)
            → IsStanding layout.now consumer at.object at.value start
            → (n word : ℕ) (at : Claim) (before mid : M) (next : ClaimOp)
            → AreClaimSteps layout.now (DrawsAndMakesNext M.draws M.makes) start memory.old n
            at before
            → claim_stage at ≡ Going → M.draws before word mid → IsNextOp layout.now at next
            → M.can_make_at mid (site_of layout.now begin next.object) next.op }
        ensures object { result.object < length (kinds_of layout.now) }
        ensures stays { result.stage ≡ Going → result ≡ at }
        ensures ends { slice_get (kinds_of layout.now) at.object ≡ Some LastObject → at.left ≢ 0
            → result.stage ≢ Going }
        ensures value { result.value < consumer_count layout.now }
        ensures steps { (start : Claim)
            → IsStanding layout.now consumer at.object at.value start
            → (n : ℕ) × (end : Claim) × (n + result.left ≡ at.left)
            × AreClaimSteps layout.now (DrawsAndMakesNext M.draws M.makes) start memory.old n
            end memory.new
            × HasEnd layout.now consumer result end }
    {
        places_show_prefixes();
        if at.left == 0 {
            return at;
        }
        match layout.kind_of(at.object) {
            Kind::Conciliator { .. } => at,
            Kind::Ratifier => at,
            Kind::LastObject => {
                let site = layout.site(begin, at.object);
                let mut left = at.left;
                let value = through_last(&layout.table, memory, site, at.value, &mut left);
                Stretch {
                    stage: Claim::stage_for(consumer, value),
                    object: at.object,
                    value,
                    left,
                }
            }
        }
    }
}

/// Whether a budget has room for all objects of a cell at their longest.
#[inline(always)]
fn is_ample(most: u64) -> bool
    ensures { result ≡ true → AMPLE ≤ most }
{
    most >= AMPLE
}
