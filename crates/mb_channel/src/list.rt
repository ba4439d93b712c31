//! The list of segments: its lock, which is tried and never waited for, and its ends.
ghost use Rattle.std.specs.Prelude.{ℕ, List as Seq, length, ◌≡◌, ◌≢◌, ◌+◌, ◌<◌, ◌≤◌, ◌∷◌, [], true, false, IfOk, IfSome, OnErr};
ghost use Rattle.mb_channel.specs.Homes.{Finds, HoldsHomes, IsFirst, IsReady, IsWhole, Longer, MayGive, MayLeave, Stands, both};
ghost use Rattle.mb_channel.specs.Homes.{locked, splits_off, unlocked, view_in};
ghost use Rattle.mb_channel.specs.Tallies.{counts_more};
ghost use Rattle.mb_channel.specs.declared.home.Home.{Home};
ghost use Rattle.mb_channel.specs.declared.home.Homes.{Homes};

use crate::home::Homes;
use crate::rule::{
    Change, Counts, Ends, GetsNumber, GivesLock, ListRule, Name, Side, Splits, TakesLock,
};
use crate::view::Knows;
use atomic_table::{Seat, Table};
use std::alloc::{AllocError, Global};
use std::marker::Brand;
use std::sync::Arc;

/// What an end steps with on the list. It has no bytes.
pub type Chair<T> = Seat<Homes<T>, Knows<T>>;

/// The list of a channel. It lives as long as one of its ends, which share it.
pub type SharedList<T> = Arc<List<T>, Global>;

#[derive(Drop)]
pub struct List<T: Drop> {
    pub(crate) table: Table<Homes<T>, Knows<T>, (), ListRule, Global>,
    pub(crate) alloc: Global,
    ghost shape: { (table.shared.table_id.words ≡ 5) × (table.shared.table_id.slots ≡ 1) },
}

impl<T: Drop> List<T> {
    /// A chair that knows nothing gets its number and its name.
    fn number<N: Name>(&self, chair: &mut Chair<T>, name: u32)
        requires picked { N.name ≡ name }
        requires list { chair.old.table_id ≡ self.now.table.shared.table_id }
        requires unborn { ((view_in chair.old).live ≡ false) × (0 < (view_in chair.old).rights) }
        ensures list { (chair.new.table_id ≡ chair.old.table_id) × (chair.new.id ≡ chair.old.id) }
        ensures number { (id : ℕ)
            × (chair.new.me.1 ≡ chair.old.me.1)
            × (view_in chair.new
            ≡ record (view_in chair.old) { live = true; number = id; name = name }) }
    {
        let _ = name;
        self.table.shared.load::<GetsNumber<N>>(chair, 0);
    }

    /// Takes the lock, if it is free.
    pub fn try_lock(&self, chair: &mut Chair<T>) -> bool
        requires list { chair.old.table_id ≡ self.now.table.shared.table_id }
        requires ready { IsReady chair.old.me }
        ensures list { (chair.new.table_id ≡ chair.old.table_id) × (chair.new.id ≡ chair.old.id) }
        ensures locked { result ≡ true → HoldsHomes chair.new.me (λ hs. Finds hs (view_in chair.old)
            × (view_in chair.new ≡ locked hs (view_in chair.old))) }
        ensures missed { result ≡ false → chair.new.me ≡ chair.old.me }
    {
        self.table
            .shared
            .compare_exchange::<TakesLock>(chair, 0, 0, 1)
            == 0
    }

    /// Gives the lock back, and changes the view as the caller's proof picks.
    pub(crate) fn give<F: Change<T>>(&self, chair: &mut Chair<T>)
        requires list { chair.old.table_id ≡ self.now.table.shared.table_id }
        requires lawful { MayGive F.of 1 chair.old.id chair.old.me }
        ensures list { (chair.new.table_id ≡ chair.old.table_id) × (chair.new.id ≡ chair.old.id) }
        ensures view { (view_in chair.new ≡ F.of (unlocked (view_in chair.old)))
            × (chair.new.me.1 ≡ []) }
    {
        self.table.shared.store::<GivesLock<F>>(chair, 0, 0);
    }

    /// Gives the lock back. The list is as it was found, or an end that may do so added a segment.
    pub(crate) fn unlock(&self, chair: &mut Chair<T>)
        requires list { chair.old.table_id ≡ self.now.table.shared.table_id }
        requires held { ((view_in chair.old).live ≡ true) × ((view_in chair.old).holds ≡ true) }
        requires homes { HoldsHomes chair.old.me (MayLeave (view_in chair.old)) }
        ensures list { (chair.new.table_id ≡ chair.old.table_id) × (chair.new.id ≡ chair.old.id) }
        ensures view { (view_in chair.new ≡ unlocked (view_in chair.old)) × (chair.new.me.1 ≡ []) }
    {
        self.give::<Brand>(chair);
    }

    /// Adds a segment at this place, which is behind the last one. The error is [`AllocError`] if the allocator refuses
    /// the memory: then nothing has changed.
    pub(crate) fn add_home(&self, chair: &mut Chair<T>, at: usize) -> Result<(), AllocError>
        requires list { chair.old.table_id ≡ self.now.table.shared.table_id }
        requires homes { HoldsHomes chair.old.me (λ hs. hs ≡ (view_in chair.old).before) }
        requires last { length (view_in chair.old).before ≡ at }
        ensures list { (chair.new.table_id ≡ chair.old.table_id) × (chair.new.id ≡ chair.old.id) }
        ensures view { view_in chair.new ≡ view_in chair.old }
        ensures added { IfOk result (λ _.
            HoldsHomes chair.new.me (Longer at (view_in chair.old).before)) }
        ensures refused { OnErr result
            (HoldsHomes chair.new.me (λ hs. hs ≡ (view_in chair.old).before)) }
    {
        let homes = chair.slot_mut(&self.table.shared, 0);
        homes.append(self.alloc, size_at(at))
    }

    /// A list with no segment, and its first chair, of this name, which counts for a sender and a receiver. The error is
    /// [`AllocError`] if the allocator refuses the memory.
    pub fn new(alloc: Global, name: u32, audited: bool) -> Result<(List<T>, Chair<T>), AllocError>
        ensures list { IfOk result (λ r. r.1.table_id ≡ r.0.table.shared.table_id) }
        ensures first { IfOk result (λ r. IsReady r.1.me × IsFirst (view_in r.1)
            × ((view_in r.1).at ≡ 0) × ((view_in r.1).takes ≡ true)
            × ((view_in r.1).orderly ≡ true) × ((view_in r.1).name ≡ name)
            × ((view_in r.1).sends ≡ 1) × ((view_in r.1).receives ≡ 1)) }
    {
        let homes = no_homes(alloc, audited)?;
        match Table::new(alloc, &[0, 1, 1, 1, 1], homes, &()) {
            Ok((table, mut chair)) => {
                let list = List { table, alloc };
                list.number::<Brand>(&mut chair, name);
                Ok((list, chair))
            }
            Err(refused) => {
                drop(refused);
                Err(AllocError)
            }
        }
    }

    /// Counts for one end more, if the ends still count for as many as were seen.
    pub fn count(&self, chair: &mut Chair<T>, seen: u64, new: u64) -> u64
        requires list { chair.old.table_id ≡ self.now.table.shared.table_id }
        requires live { (view_in chair.old).live ≡ true }
        requires new { new ≡ seen + 1 }
        ensures list { (chair.new.table_id ≡ chair.old.table_id) × (chair.new.id ≡ chair.old.id) }
        ensures held { chair.new.me.1 ≡ chair.old.me.1 }
        ensures done { result ≡ seen → view_in chair.new ≡ counts_more (view_in chair.old) }
        ensures missed { result ≢ seen → view_in chair.new ≡ view_in chair.old }
    {
        self.table
            .shared
            .compare_exchange::<Counts>(chair, 1, seen, new)
    }

    /// A chair for another end, of this name, which begins where this one is. It counts for a sender or a receiver, for
    /// which this one counts no more.
    pub fn another<S: Side>(&self, chair: &mut Chair<T>, name: u32) -> Chair<T>
        requires list { chair.old.table_id ≡ self.now.table.shared.table_id }
        requires ready { IsReady chair.old.me }
        requires counts { (1 < (view_in chair.old).rights) × (S.sends ≤ (view_in chair.old).sends)
            × (S.receives ≤ (view_in chair.old).receives) }
        ensures list { (chair.new.table_id ≡ chair.old.table_id)
            × (result.table_id ≡ chair.old.table_id) }
        ensures left { (view_in chair.new ≡ splits_off S.sends S.receives (view_in chair.old))
            × (chair.new.me.1 ≡ []) }
        ensures new { IsReady result.me × IsFirst (view_in result)
            × ((view_in result).at ≡ (view_in chair.old).at) × ((view_in result).name ≡ name)
            × ((view_in result).takes ≡ (view_in chair.old).takes)
            × ((view_in result).orderly ≡ (view_in chair.old).orderly)
            × ((view_in result).sends ≡ S.sends) × ((view_in result).receives ≡ S.receives)
            × ((view_in result).alone ≡ (view_in chair.old).alone)
            × ((view_in result).shut ≡ (view_in chair.old).shut)
            × ((view_in result).last ≡ (view_in chair.old).last) }
    {
        let mut new = self.table.shared.split_seat::<Splits<S>>(chair);
        self.number::<Brand>(&mut new, name);
        new
    }

    /// Takes back the chair of another end, which has left its segment.
    pub fn give_back(&self, chair: &mut Chair<T>, other: Chair<T>)
        requires list { (chair.old.table_id ≡ self.now.table.shared.table_id)
            × (other.table_id ≡ self.now.table.shared.table_id) }
        requires ready { IsReady chair.old.me × IsReady other.me }
        requires outside { (view_in other).inside ≡ false }
        ensures list { chair.new.table_id ≡ chair.old.table_id }
        ensures both { (chair.new.me.1 ≡ [])
            × (view_in chair.new ≡ both (view_in chair.old) (view_in other)) }
    {
        self.table.shared.join_seat::<Ends>(chair, other);
    }

    /// Ends the list, by an end that counts for so many ends, if these are below 2^64 - 1. The segments that are not freed
    /// come back, with what each end did in which. It is `None` if there are more ends, if one stopped while it had the
    /// lock, or if the ends cannot be counted.
    pub fn end(self, chair: Chair<T>, rights: u64) -> Option<Homes<T>>
        requires list { chair.table_id ≡ self.table.shared.table_id }
        requires ready { IsReady chair.me }
        requires counts { rights < 18446744073709551615 → (view_in chair).rights ≡ rights }
        ensures whole { IfSome result (λ l. (hs : Seq (Home T)) × Stands hs l
            × IsWhole (view_in chair) hs) }
    {
        let List { table, alloc: _ } = self;
        let mut closed = table.close_with(chair);
        let lock = closed.word(0);
        let ends = closed.word(1);
        let homes = closed.take(0);
        closed.free();
        if rights < u64::MAX && lock == 0 && ends == rights {
            Some(homes)
        } else {
            None
        }
    }
}

/// How many positions the segment at this place has.
fn size_at(at: usize) -> u32 {
    if at == 0 { 64 } else { 1024 }
}

fn no_homes<T: Drop>(alloc: Global, audited: bool) -> Result<Vec<Homes<T>>, AllocError>
    ensures { IfOk result (λ v. (l : Homes T) × (v.items ≡ l ∷ []) × (l.list.items ≡ [])
        × (l.first ≡ 0)) }
{
    let mut homes = Vec::new(alloc);
    homes.push(Homes::none(alloc, audited))?;
    Ok(homes)
}
