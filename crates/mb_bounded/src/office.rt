//! The desk under its lock, which is tried again until it is free.
ghost use Rattle.std.specs.Prelude.{IfOk, Some, [], ◌∷◌, ◌≡◌};

use crate::desk::Desk;
use crate::rule::{DeskRule, GivesLock, Side, Splits, TakesLock};
use crate::view::Knows;
use atomic_table::{Seat, Table};
use mb_ring::{Hub, Pass, Ring};
use std::alloc::{AllocError, Global};
use std::sync::Wait;
use std::thread::yield_now;

/// What an end steps with on the lock. It has no bytes.
pub type Chair<T> = Seat<Option<Desk<T>>, Knows<T>>;

#[derive(Drop)]
pub struct Office<T: Drop> {
    pub(crate) table: Table<Option<Desk<T>>, Knows<T>, Ring<T, Global>, DeskRule, Global>,
    ghost shape: { (table.shared.table_id.words ≡ 1) × (table.shared.table_id.slots ≡ 1) },
}

impl<T: Drop> Office<T> {
    ghost use Rattle.std.specs.Prelude.{None, false, true, IfNone, IfSome, ◌+◌, ◌<◌, ◌≤◌};
    ghost use Rattle.mb_ring.specs.Vocabulary.{hub_view};
    ghost use Rattle.mb_bounded.specs.Desks.{Finds, HasCounted, HasHired, HasRetired, HasTaken, IsAsBefore, IsNewPass, IsReady, MayGive, first_view, issued_so};
    ghost use Rattle.mb_bounded.specs.Desks.{knows, locked, newcomer, settled, splits_off};

    /// The desk of this ring, whose hub issued the passes of a sender and a receiver. The first chair counts for both.
    /// The error is [`AllocError`] if the allocator refuses the memory.
    pub(crate) fn new(
        alloc: Global,
        ring: &Ring<T, Global>,
        hub: Hub<T>,
    ) -> Result<(Office<T>, Chair<T>), AllocError>
        requires ring { hub.seat.table_id ≡ ring.now.table.shared.table_id }
        requires hub { hub_view hub ≡ issued_so 2 }
        ensures chair { IfOk result (λ r. (r.1.table_id ≡ r.0.table.shared.table_id)
            × (r.1.me ≡ (first_view ring.now, []))) }
    {
        let desk = Desk {
            hub,
            made: 2,
            senders: 1,
            receivers: 1,
        };
        let desks = one_desk(alloc, desk)?;
        match Table::new(alloc, &[0], desks, ring) {
            Ok((table, chair)) => Ok((Office { table }, chair)),
            Err(refused) => {
                drop(refused);
                Err(AllocError)
            }
        }
    }

    /// Takes the lock, if it is free.
    fn try_lock(&self, chair: &mut Chair<T>) -> bool
        requires office { chair.old.table_id ≡ self.now.table.shared.table_id }
        requires ready { IsReady chair.old.me }
        ensures office { chair.new.table_id ≡ chair.old.table_id }
        ensures locked { result ≡ true → (d : Desk T)
            × (chair.new.me ≡ (locked d (knows chair.old), (0, Some d) ∷ []))
            × Finds (knows chair.old) d }
        ensures missed { result ≡ false → chair.new.me ≡ chair.old.me }
    {
        self.table
            .shared
            .compare_exchange::<TakesLock>(chair, 0, 0, 1)
            == 0
    }

    /// Takes the desk, as soon as nobody else has it.
    pub(crate) fn take<R: Wait>(&self, rt: &R, chair: &mut Chair<T>) -> Desk<T>
        requires office { chair.old.table_id ≡ self.now.table.shared.table_id }
        requires ready { IsReady chair.old.me }
        ensures office { chair.new.table_id ≡ chair.old.table_id }
        ensures taken { chair.new.me ≡ (locked result (knows chair.old), (0, None) ∷ []) }
        ensures desk { Finds (knows chair.old) result }
    {
        for _ in rt.forever() {
            if self.try_lock(chair) {
                match chair.slot_mut(&self.table.shared, 0).take() {
                    Some(desk) => return desk,
                    None => unreachable!(),
                }
            }
            yield_now();
        }
        unreachable!()
    }

    /// Gives it back.
    pub(crate) fn put(&self, chair: &mut Chair<T>, desk: Desk<T>)
        requires office { chair.old.table_id ≡ self.now.table.shared.table_id }
        requires taken { HasTaken chair.old.me }
        requires desk { MayGive (knows chair.old) desk }
        ensures office { chair.new.table_id ≡ chair.old.table_id }
        ensures given { chair.new.me ≡ (settled desk (knows chair.old), []) }
    {
        *chair.slot_mut(&self.table.shared, 0) = Some(desk);
        self.table.shared.store::<GivesLock>(chair, 0, 0);
    }

    /// The chair of an end of this side, for which the first counts no more.
    pub(crate) fn split<S: Side>(&self, chair: &mut Chair<T>) -> Chair<T>
        requires office { chair.old.table_id ≡ self.now.table.shared.table_id }
        requires counts { (S.sends ≤ (knows chair.old).sends)
            × (S.receives ≤ (knows chair.old).receives) }
        ensures office { (chair.new.table_id ≡ chair.old.table_id)
            × (result.table_id ≡ chair.old.table_id) }
        ensures old { chair.new.me
            ≡ (splits_off S.sends S.receives (knows chair.old), chair.old.me.1) }
        ensures new { result.me ≡ (newcomer (knows chair.old).ring S.sends S.receives, []) }
    {
        self.table.shared.split_seat::<Splits<S>>(chair)
    }

    /// The pass and the chair of another end on this side, on which this end is too. It is `None` if 2^64 - 1 ends were
    /// made.
    pub(crate) fn hire<S: Side, R: Wait>(
        &self,
        rt: &R,
        ring: &Ring<T, Global>,
        chair: &mut Chair<T>,
    ) -> Option<(Chair<T>, Pass<T>)>
        requires office { chair.old.table_id ≡ self.now.table.shared.table_id }
        requires ready { IsReady chair.old.me }
        requires ring { (knows chair.old).ring ≡ ring.now }
        requires side { (S.sends ≤ (knows chair.old).sends)
            × (S.receives ≤ (knows chair.old).receives) }
        ensures office { chair.new.table_id ≡ chair.old.table_id }
        ensures ready { IsReady chair.new.me }
        ensures same { IsAsBefore (knows chair.old) (knows chair.new) }
        ensures chair { IfSome result (λ r. (r.0.table_id ≡ chair.old.table_id)
            × (r.0.me ≡ (newcomer ring.now S.sends S.receives, []))) }
        ensures pass { IfSome result (λ r. IsNewPass ring.now r.1) }
        ensures hired { IfSome result
            (λ _. HasHired S.sends S.receives (knows chair.old) (knows chair.new)) }
        ensures none { IfNone result (HasHired 0 0 (knows chair.old) (knows chair.new)) }
    {
        let mut desk = self.take(rt, chair);
        let pass = desk.hire::<S>(ring);
        self.put(chair, desk);
        let pass = pass?;
        Some((self.split::<S>(chair), pass))
    }

    /// Counts for one end less on this side. It tells whether that was the last one there.
    pub(crate) fn retire<S: Side, R: Wait>(&self, rt: &R, chair: &mut Chair<T>) -> bool
        requires office { chair.old.table_id ≡ self.now.table.shared.table_id }
        requires ready { IsReady chair.old.me }
        requires side { (S.sends ≤ (knows chair.old).sends)
            × (S.receives ≤ (knows chair.old).receives) }
        ensures office { chair.new.table_id ≡ chair.old.table_id }
        ensures ready { IsReady chair.new.me }
        ensures less { ((knows chair.new).sends + S.sends ≡ (knows chair.old).sends)
            × ((knows chair.new).receives + S.receives ≡ (knows chair.old).receives) }
        ensures retired { HasRetired S.sends S.receives (knows chair.old) (knows chair.new) }
        ensures last { result ≡ true → (S.sends ≡ 1 → ((knows chair.new).no_sender ≡ true)
            × ((knows chair.new).left_senders ≡ 0))
            × (S.receives ≡ 1 → ((knows chair.new).no_receiver ≡ true)
            × ((knows chair.new).left_receivers ≡ 0)) }
        ensures others { result ≡ false → (S.sends ≡ 1 → 0 < (knows chair.new).left_senders)
            × (S.receives ≡ 1 → 0 < (knows chair.new).left_receivers) }
    {
        let mut desk = self.take(rt, chair);
        let last = desk.retire::<S>();
        self.put(chair, desk);
        last
    }

    /// How many senders and receivers are left.
    pub(crate) fn count<R: Wait>(&self, rt: &R, chair: &mut Chair<T>) -> (u64, u64)
        requires office { chair.old.table_id ≡ self.now.table.shared.table_id }
        requires ready { IsReady chair.old.me }
        ensures office { chair.new.table_id ≡ chair.old.table_id }
        ensures ready { IsReady chair.new.me }
        ensures counted { HasCounted (knows chair.old) (knows chair.new) result.0 result.1 }
        ensures some { ((knows chair.old).sends ≤ result.0)
            × ((knows chair.old).receives ≤ result.1) }
    {
        let desk = self.take(rt, chair);
        let counts = (desk.senders, desk.receivers);
        self.put(chair, desk);
        counts
    }
}

fn one_desk<T: Drop>(alloc: Global, desk: Desk<T>) -> Result<Vec<Option<Desk<T>>>, AllocError>
    ensures { IfOk result (λ v. v.items ≡ Some desk ∷ []) }
{
    let mut desks = Vec::new(alloc);
    desks.push(Some(desk))?;
    Ok(desks)
}
