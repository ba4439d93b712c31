//! An audited channel tells the fates of its values: who sent each, and who received it.
ghost use Rattle.std.specs.Prelude.{◌≡◌, [], Option, true};
ghost use Rattle.mb_channel.specs.Ends.{end_after};
ghost use Rattle.mb_channel.specs.Kept.{kept_after};
ghost use Rattle.mb_channel.specs.Fates.{HasTaken, chair_after, is_fate, told_fates};
ghost use Rattle.mb_channel.specs.Homes.{HoldsHomes, IsReady, unlocked, view_in};
ghost use Rattle.mb_channel.specs.declared.place.Place.{Place};

use crate::end::{End, Receiver, Sender};
use crate::home::Fates;
use crate::kept::KeptSender;
use crate::list::{Chair, List};
use crate::place::Place;
use crate::rule::{GivesFates, Taken};
use mb_segment::Fate;
use std::marker::Brand;

/// What came of a try to take fates.
#[derive(Drop)]
pub enum Audited<T: Drop> {
    /// Those of the oldest segment, which is freed now. Segments are freed in their order, each once.
    Told(Fates<T>),
    /// No segment can be freed now.
    Nothing,
    /// The lock is taken. Yield, and try again.
    Again,
}

impl<T: Drop> Fates<T> {
    /// The first place of the segment.
    pub fn place(&self) -> Place
        ensures { result ≡ record { segment = self.now.segment; number = 0 } }
    {
        Place {
            segment: self.segment,
            number: 0,
        }
    }

    /// The fate of the value at this position of the segment. `None` if no value was sent there.
    pub fn fate(&self, at: u64) -> Option<Fate>
        ensures { result ≡ is_fate self.now at }
    {
        self.left.fate(at)
    }
}

impl<T: Drop> List<T> {
    /// Takes fates out, for an end that has the lock.
    fn take_fates(&self, chair: &mut Chair<T>) -> Option<Fates<T>>
        requires list { chair.old.table_id ≡ self.now.table.shared.table_id }
        requires homes { HoldsHomes chair.old.me (λ hs. hs ≡ (view_in chair.old).before) }
        ensures list { (chair.new.table_id ≡ chair.old.table_id) × (chair.new.id ≡ chair.old.id) }
        ensures view { view_in chair.new ≡ view_in chair.old }
        ensures taken { HasTaken (view_in chair.old).before result chair.new.me.1 }
    {
        let homes = chair.slot_mut(&self.table.shared, 0);
        homes.take_fates()
    }

    /// Gives the lock back, and tells the fates that were taken out. `taken` is what the proof that picks them may use.
    fn give_fates<F: Taken<T>>(&self, chair: &mut Chair<T>, taken: &Option<Fates<T>>)
        requires list { chair.old.table_id ≡ self.now.table.shared.table_id }
        requires held { ((view_in chair.old).live ≡ true) × ((view_in chair.old).holds ≡ true) }
        requires taken { HasTaken (view_in chair.old).before F.told chair.old.me.1 }
        ensures list { (chair.new.table_id ≡ chair.old.table_id) × (chair.new.id ≡ chair.old.id) }
        ensures told { chair.new.me ≡ (told_fates F.told (unlocked (view_in chair.old)), []) }
    {
        let _ = taken;
        self.table.shared.store::<GivesFates<F>>(chair, 0, 0);
    }

    /// Frees the oldest segment, if it can be freed, and takes out its fates.
    pub fn fates(&self, chair: &mut Chair<T>) -> Audited<T>
        requires list { chair.old.table_id ≡ self.now.table.shared.table_id }
        requires ready { IsReady chair.old.me }
        ensures told { chair.new ≡ chair_after result chair.old }
    {
        if !self.try_lock(chair) {
            return Audited::Again;
        }
        let taken = self.take_fates(chair);
        self.give_fates::<Brand>(chair, &taken);
        match taken {
            Some(fates) => Audited::Told(fates),
            None => Audited::Nothing,
        }
    }
}

impl<T: Drop> End<T> {
    fn try_fates(&mut self) -> Audited<T>
        ensures told { self.new ≡ end_after result self.old }
    {
        self.list.fates(&mut self.chair)
    }
}

impl<T: Drop> Sender<T> {
    /// Frees the oldest segment, and takes out its fates. It can be freed once all its values were received and the ends
    /// have left it. In an audited channel no other call frees segments. It never waits. The sender keeps the answer among
    /// its `fates`, and stays as it is otherwise.
    pub fn try_fates(&mut self) -> Audited<T>
        ensures told { self.new.end ≡ end_after result self.old.end }
    {
        self.end.try_fates()
    }
}

impl<T: Drop> Receiver<T> {
    /// Takes fates out, as [`Sender::try_fates`].
    pub fn try_fates(&mut self) -> Audited<T>
        ensures told { self.new.end ≡ end_after result self.old.end }
    {
        self.end.try_fates()
    }
}

impl<T: Drop> KeptSender<T> {
    /// Takes fates out, as [`Sender::try_fates`], whatever the sender owes.
    pub fn try_fates(&mut self) -> Audited<T>
        ensures told { self.new ≡ kept_after result self.old }
    {
        self.list.fates(&mut self.chair)
    }
}
