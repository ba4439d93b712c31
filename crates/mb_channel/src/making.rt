//! Ends are made from one another.
ghost use Rattle.std.specs.Prelude.{◌≡◌, ◌≢◌, ◌++◌, ◌∷◌, ◌+◌, ◌-◌, ◌<◌, ◌≤◌, ◌⊎◌, false, true};
ghost use Rattle.std.specs.Prelude.{IfErr, IfNone, IfOk, IfSome, None, OnErr, OnOk};
ghost use Rattle.std.specs.Arc.{arc_value};
ghost use Rattle.mb_channel.specs.Answers.{IfClosed};
ghost use Rattle.mb_channel.specs.Tallies.{hires_receiver, hires_sender, saw_none};
ghost use Rattle.mb_channel.specs.Closing.{KnowsEnd};
ghost use Rattle.mb_channel.specs.Homes.{IsFirst, IsReady, view_in};
ghost use Rattle.mb_channel.specs.Ends.{AreOfOneChannel, IsBehind, IsFresh, IsLater, IsSame, StaysTold};
ghost use Rattle.mb_channel.specs.Ends.{given_to, got_by, log_of, sent_by, stand_of, view_of};

use crate::channel::Refused;
use crate::end::{End, Receiver, Sender};
use crate::list::{Chair, List, SharedList};
use crate::rule::{AsReceiver, AsSender, Side};
use std::alloc::{AllocError, Global};
use std::sync::Arc;

/// An end of this name that is in no segment, behind the last one or not.
pub(crate) fn end_at<T: Drop>(
    list: SharedList<T>,
    chair: Chair<T>,
    name: u32,
    at: usize,
    behind: bool,
) -> End<T>
    requires list { chair.table_id ≡ (arc_value list).table.shared.table_id }
    requires ready { IsReady chair.me }
    requires first { IsFirst (view_in chair) }
    requires here { (view_in chair).at ≡ at }
    requires name { ((view_in chair).name ≡ name) × (name < 4294967295) }
    requires orderly { (view_in chair).orderly ≡ true }
    requires ended { behind ≡ true → KnowsEnd (view_in chair) }
    ensures behind { result.behind ≡ behind }
    ensures chair { result.chair ≡ chair }
    ensures fresh { IsFresh result }
{
    End {
        list,
        chair,
        at,
        rights: 1,
        name,
        inside: None,
        over: false,
        behind,
    }
}

impl<T: Drop> End<T> {
    ghost use Rattle.mb_channel.specs.declared.channel.Refused.TheVariants.{NoMemory};

    /// Counts for one end more, if the ends still count for as many as were seen. It tells for how many they did.
    fn count(&mut self, seen: u64) -> u64
        requires seen { seen < 18446744073709551615 }
        ensures end { IsSame self.old self.new }
        ensures takes { (view_of self.new).takes ≡ (view_of self.old).takes }
        ensures there { (self.new.inside ≡ self.old.inside) × (self.new.behind ≡ self.old.behind) }
        ensures missed { result ≢ seen → view_of self.new ≡ view_of self.old }
        ensures sent { sent_by self.new ≡ sent_by self.old }
        ensures got { got_by self.new ≡ got_by self.old }
        ensures more { result ≡ seen → (view_of self.new).rights ≡ (view_of self.old).rights + 1 }
    {
        let found = self.list.count(&mut self.chair, seen, seen + 1);
        if found == seen {
            self.rights = self.rights.saturating_add(1);
        }
        found
    }

    /// The same once it succeeds, with a share of the list for the end. It is `None` if so many ends were made that they
    /// cannot be counted.
    pub(crate) fn count_one(&mut self) -> Option<SharedList<T>>
        ensures end { IsSame self.old self.new }
        ensures takes { (view_of self.new).takes ≡ (view_of self.old).takes }
        ensures there { (self.new.inside ≡ self.old.inside) × (self.new.behind ≡ self.old.behind) }
        ensures missed { IfNone result (view_of self.new ≡ view_of self.old) }
        ensures sent { sent_by self.new ≡ sent_by self.old }
        ensures got { got_by self.new ≡ got_by self.old }
        ensures more { IfSome result (λ _. 1 < (view_of self.new).rights) }
        ensures list { IfSome result (λ l.
            self.old.chair.table_id ≡ (arc_value l).table.shared.table_id) }
    {
        let list = Arc::try_clone(&self.list).ok()?;
        let mut seen: u64 = 1;
        for _ in 0..u64::MAX {
            if seen >= u64::MAX {
                return None;
            }
            let found = self.count(seen);
            if found == seen {
                return Some(list);
            }
            seen = found;
        }
        None
    }

    /// Another end, of this name, which begins where this one is. It counts for a sender or a receiver in this one's
    /// place.
    pub(crate) fn split<S: Side>(&mut self, list: SharedList<T>, name: u32) -> End<T>
        requires list { self.old.chair.table_id ≡ (arc_value list).table.shared.table_id }
        requires name { name < 4294967295 }
        requires counts { 1 < (view_of self.old).rights }
        requires sends { S.sends ≤ (view_of self.old).sends }
        requires receives { S.receives ≤ (view_of self.old).receives }
        ensures old { AreOfOneChannel self.old self.new
            × ((view_of self.new).takes ≡ (view_of self.old).takes)
            × ((view_of self.new).number ≡ (view_of self.old).number)
            × ((view_of self.new).name ≡ (view_of self.old).name)
            × ((view_of self.new).ended ≡ (view_of self.old).ended)
            × StaysTold (view_of self.old) (view_of self.new) }
        ensures later { IsLater (stand_of self.old) (stand_of self.new) }
        ensures behind { IsBehind self.old → IsBehind self.new × IsBehind result }
        ensures sent { sent_by self.new ≡ sent_by self.old }
        ensures got { got_by self.new ≡ got_by self.old }
        ensures sends { ((view_of self.new).sends ≡ (view_of self.old).sends - S.sends)
            × ((view_of result).sends ≡ S.sends) }
        ensures receives { ((view_of self.new).receives ≡ (view_of self.old).receives - S.receives)
            × ((view_of result).receives ≡ S.receives) }
        ensures new { AreOfOneChannel self.old result × IsFresh result
            × ((view_of result).takes ≡ (view_of self.old).takes) }
        ensures name { (view_of result).name ≡ name }
    {
        let at = self.at;
        let chair = self.list.another::<S>(&mut self.chair, name);
        if self.rights < u64::MAX {
            self.rights -= 1;
        }
        end_at(list, chair, name, at, self.behind)
    }

    /// Counts for one sender more. [`Refused::Closed`] is told if no sender is left, which the end then knows.
    fn hire_sender(&mut self) -> Result<(), Refused>
        ensures chair { (self.new.chair.table_id ≡ self.old.chair.table_id)
            × (self.new.inside ≡ self.old.inside) × (self.new.behind ≡ self.old.behind) }
        ensures view { OnOk result ((view_of self.new ≡ hires_sender (view_of self.old))
            × ((view_of self.old).alone ≡ false)) }
        ensures same { OnErr result ((view_of self.new ≡ view_of self.old)
            ⊎ (view_of self.new ≡ saw_none (view_of self.old))) }
        ensures none { IfErr result (λ why.
            IfClosed why (view_of self.new ≡ saw_none (view_of self.old))) }
        ensures memory { IfErr result (λ why. why ≢ NoMemory) }
    {
        let mut seen: u64 = 1;
        for _ in 0..u64::MAX {
            if seen >= u64::MAX {
                return Err(Refused::Crowded);
            }
            let found = self.list.hire_sender(&mut self.chair, seen, seen + 1);
            if found == seen {
                return Ok(());
            }
            if found == 0 {
                return Err(Refused::Closed);
            }
            seen = found;
        }
        Err(Refused::Crowded)
    }

    /// A new sender, of this name, which begins where this end is. It is refused if so many ends were made that they
    /// cannot be counted, or, by [`Refused::Closed`], if no sender is left, which the end then knows.
    pub(crate) fn new_sender(&mut self, name: u32) -> Result<Sender<T>, Refused>
        requires name { name < 4294967295 }
        ensures end { IsSame self.old self.new }
        ensures takes { (view_of self.new).takes ≡ (view_of self.old).takes }
        ensures sent { sent_by self.new ≡ sent_by self.old }
        ensures got { got_by self.new ≡ got_by self.old }
        ensures behind { IsBehind self.old
            → IsBehind self.new × IfOk result (λ s. IsBehind s.end) }
        ensures new { IfOk result (λ s. AreOfOneChannel self.old s.end × IsFresh s.end
            × ((view_of s.end).name ≡ name)) }
        ensures none { IfErr result (λ why. IfClosed why ((view_of self.new).alone ≡ true)) }
        ensures memory { IfErr result (λ why. why ≢ NoMemory) }
    {
        let Some(list) = self.count_one() else {
            return Err(Refused::Crowded);
        };
        self.hire_sender()?;
        let end = self.split::<AsSender>(list, name);
        Ok(Sender { end })
    }

    /// Counts for one receiver more. It is `false` if there are so many that they cannot be counted.
    fn hire_receiver(&mut self) -> bool
        requires receiver { 0 < (view_of self.old).receives }
        ensures chair { (self.new.chair.table_id ≡ self.old.chair.table_id)
            × (self.new.inside ≡ self.old.inside) × (self.new.behind ≡ self.old.behind) }
        ensures view { result ≡ true → view_of self.new ≡ hires_receiver (view_of self.old) }
        ensures same { result ≡ false → view_of self.new ≡ view_of self.old }
    {
        let mut seen: u64 = 1;
        for _ in 0..u64::MAX {
            if seen >= u64::MAX {
                return false;
            }
            let found = self.list.hire_receiver(&mut self.chair, seen, seen + 1);
            if found == seen {
                return true;
            }
            seen = found;
        }
        false
    }
}

/// A channel whose ends have no names: its first sender and its first receiver. The error is [`AllocError`] if the
/// allocator refuses the memory.
pub fn unbounded<T: Drop>(alloc: Global) -> Result<(Sender<T>, Receiver<T>), AllocError>
    ensures channel { IfOk result (λ r. AreOfOneChannel r.0.end r.1.end) }
    ensures fresh { IfOk result (λ r. IsFresh r.0.end × IsFresh r.1.end) }
    ensures names { IfOk result
        (λ r. ((view_of r.0.end).name ≡ 0) × ((view_of r.1.end).name ≡ 0)) }
{
    make(alloc, 0, 0, false)
}

/// A channel that keeps its segments until an end takes their fates, by [`Sender::try_fates`]. Its first sender and its
/// first receiver have these names. An end that has 0 has no name, and neither do its fates.
pub fn audited<T: Drop>(
    alloc: Global,
    sender: u32,
    receiver: u32,
) -> Result<(Sender<T>, Receiver<T>), AllocError>
    requires sender { sender < 4294967295 }
    requires receiver { receiver < 4294967295 }
    ensures channel { IfOk result (λ r. AreOfOneChannel r.0.end r.1.end) }
    ensures fresh { IfOk result (λ r. IsFresh r.0.end × IsFresh r.1.end) }
    ensures names { IfOk result
        (λ r. ((view_of r.0.end).name ≡ sender) × ((view_of r.1.end).name ≡ receiver)) }
{
    make(alloc, sender, receiver, true)
}

fn make<T: Drop>(
    alloc: Global,
    sender: u32,
    receiver: u32,
    audited: bool,
) -> Result<(Sender<T>, Receiver<T>), AllocError>
    requires sender { sender < 4294967295 }
    requires receiver { receiver < 4294967295 }
    ensures channel { IfOk result (λ r. AreOfOneChannel r.0.end r.1.end) }
    ensures fresh { IfOk result (λ r. IsFresh r.0.end × IsFresh r.1.end) }
    ensures names { IfOk result
        (λ r. ((view_of r.0.end).name ≡ sender) × ((view_of r.1.end).name ≡ receiver)) }
{
    let (list, chair) = List::new(alloc, receiver, audited)?;
    let list = match Arc::new(alloc, list) {
        Ok(list) => list,
        Err(refused) => {
            drop(refused);
            return Err(AllocError);
        }
    };
    let share = Arc::try_clone(&list)?;
    let mut end = end_at(list, chair, receiver, 0, false);
    // No other end is there, so the ends count for one.
    if end.count(1) != 1 {
        return Err(AllocError);
    }
    let sending = end.split::<AsSender>(share, sender);
    Ok((Sender { end: sending }, Receiver { end }))
}

impl<T: Drop> Sender<T> {
    /// Another sender, of the same name. It is `None` if so many ends were made that they cannot be counted.
    pub fn another(&mut self) -> Option<Sender<T>>
        ensures channel { AreOfOneChannel self.old.end self.new.end }
        ensures logs { log_of self.new.end ≡ log_of self.old.end }
        ensures told { StaysTold (view_of self.old.end) (view_of self.new.end) }
        ensures later { IsLater (stand_of self.old.end) (stand_of self.new.end) }
        ensures behind { IsBehind self.old.end
            → IsBehind self.new.end × IfSome result (λ s. IsBehind s.end) }
        ensures given { given_to self.new.end ≡ given_to self.old.end }
        ensures new { IfSome result (λ s. AreOfOneChannel self.old.end s.end × IsFresh s.end
            × ((view_of s.end).name ≡ (view_of self.old.end).name)) }
    {
        let name = self.end.name;
        self.another_named(name)
    }

    /// The same, of another name.
    pub fn another_named(&mut self, name: u32) -> Option<Sender<T>>
        requires name { name < 4294967295 }
        ensures channel { AreOfOneChannel self.old.end self.new.end }
        ensures logs { log_of self.new.end ≡ log_of self.old.end }
        ensures told { StaysTold (view_of self.old.end) (view_of self.new.end) }
        ensures later { IsLater (stand_of self.old.end) (stand_of self.new.end) }
        ensures behind { IsBehind self.old.end
            → IsBehind self.new.end × IfSome result (λ s. IsBehind s.end) }
        ensures given { given_to self.new.end ≡ given_to self.old.end }
        ensures new { IfSome result (λ s. AreOfOneChannel self.old.end s.end × IsFresh s.end
            × ((view_of s.end).name ≡ name)) }
    {
        self.end.new_sender(name).ok()
    }
}

impl<T: Drop> Receiver<T> {
    /// Another receiver, of the same name, which begins in the same segment.
    pub fn another(&mut self) -> Option<Receiver<T>>
        ensures channel { AreOfOneChannel self.old.end self.new.end }
        ensures logs { log_of self.new.end ≡ log_of self.old.end }
        ensures told { StaysTold (view_of self.old.end) (view_of self.new.end) }
        ensures later { IsLater (stand_of self.old.end) (stand_of self.new.end) }
        ensures behind { IsBehind self.old.end
            → IsBehind self.new.end × IfSome result (λ r. IsBehind r.end) }
        ensures given { given_to self.new.end ≡ given_to self.old.end }
        ensures new { IfSome result (λ r. AreOfOneChannel self.old.end r.end × IsFresh r.end
            × ((view_of r.end).name ≡ (view_of self.old.end).name)) }
    {
        let name = self.end.name;
        self.another_named(name)
    }

    /// The same, of another name.
    pub fn another_named(&mut self, name: u32) -> Option<Receiver<T>>
        requires name { name < 4294967295 }
        ensures channel { AreOfOneChannel self.old.end self.new.end }
        ensures logs { log_of self.new.end ≡ log_of self.old.end }
        ensures told { StaysTold (view_of self.old.end) (view_of self.new.end) }
        ensures later { IsLater (stand_of self.old.end) (stand_of self.new.end) }
        ensures behind { IsBehind self.old.end
            → IsBehind self.new.end × IfSome result (λ r. IsBehind r.end) }
        ensures given { given_to self.new.end ≡ given_to self.old.end }
        ensures new { IfSome result (λ r. AreOfOneChannel self.old.end r.end × IsFresh r.end
            × ((view_of r.end).name ≡ name)) }
    {
        let list = self.end.count_one()?;
        if !self.end.hire_receiver() {
            return None;
        }
        let end = self.end.split::<AsReceiver>(list, name);
        Some(Receiver { end })
    }
}
