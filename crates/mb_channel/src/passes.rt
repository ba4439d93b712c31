//! Passes of the segments in the list: the hubs issue them and take them back.
ghost use Rattle.std.specs.Prelude.{◌≡◌, ◌<◌, ◌≤◌, ◌+◌, ◌-◌, length, true, IfOk, IfErr, IfSome, OnErr, IfNone, ◌++◌, ◌∷◌, [], List};
ghost use Rattle.mb_segment.specs.Seats.{view_in as pass_view};
ghost use Rattle.mb_segment.specs.Vocabulary.{HasLeft, IsFree, IsWhole as SegmentIsWhole, named};
ghost use Rattle.mb_channel.specs.Homes.{At, Changes, HasIssued, HasTakenBack, IsDone, IsFreed, IsNew, Stands, came_back, out_of};
ghost use Rattle.mb_channel.specs.Fates.{IsFateOf};
ghost use Rattle.mb_channel.specs.Visits.{TellsFates};
ghost use Rattle.mb_channel.specs.Tallies.{GoesOnTo};
ghost use Rattle.mb_channel.specs.declared.home.Home.{Home};

use crate::home::{Fates, Home, Homes, Shared};
use mb_segment::{Left, Pass, Segment};
use std::alloc::{AllocError, Global};
use std::collections::VecDeque;
use std::sync::Arc;

impl<T: Drop> Home<T> {
    /// A new segment of this many positions, and its hub.
    fn new(alloc: Global, size: u32) -> Result<Home<T>, AllocError>
        ensures { IfOk result (λ h. IsNew h) }
    {
        let (segment, hub) = Segment::new(alloc, size)?;
        match Arc::new(alloc, segment) {
            Ok(segment) => Ok(Home {
                segment,
                hub,
                out: 0,
                done: false,
            }),
            Err(refused) => {
                drop(refused);
                Err(AllocError)
            }
        }
    }

    /// Takes back a pass of the segment, which saw or not that no value can come any more. It tells whether one did.
    fn take_back(&mut self, pass: Pass<T>, over: bool) -> bool
        requires segment { pass.seat.table_id ≡ self.old.hub.seat.table_id }
        requires free { IsFree pass }
        requires over { over ≡ (pass_view pass).over }
        requires out { 0 < out_of self.old }
        ensures back { HasTakenBack self.old self.new (pass_view pass) }
        ensures done { result ≡ self.new.done }
    {
        self.segment.take_back(&mut self.hub, pass);
        self.out -= 1;
        self.done = self.done || over;
        self.done
    }

    /// Issues a pass of the segment, of this name. It is `None` if so many are out that they cannot be counted.
    fn issue(&mut self, name: u32) -> Option<(Shared<T>, Pass<T>)>
        requires name { name < 4294967295 }
        ensures home { IfSome result (λ r. HasIssued self.old self.new r.0 r.1) }
        ensures pass { IfSome result (λ r. (pass_view r.1 ≡ named name) × IsFree r.1) }
        ensures none { IfNone result (self.new ≡ self.old) }
    {
        let out = self.out.checked_add(1)?;
        let segment = Arc::try_clone(&self.segment).ok()?;
        self.out = out;
        Some((segment, self.segment.issue(&mut self.hub, name)))
    }

    /// Ends the segment, of which no pass is out, and gives out what is left there. It comes back if an end still has a
    /// share of it.
    pub fn end(self) -> Result<Left<T>, Home<T>>
        requires back { out_of self ≡ 0 }
        ensures whole { IfOk result (λ l. (left : List T) × SegmentIsWhole (came_back self) left
            × HasLeft l left × (IsDone self → left ≡ [])) }
        ensures fates { IfOk result (λ l. TellsFates l (came_back self)) }
        ensures shared { IfErr result (λ h. h ≡ self) }
    {
        let Home {
            segment,
            hub,
            out,
            done,
        } = self;
        match Arc::try_unwrap(segment) {
            Ok(segment) => Ok(segment.end(hub)),
            Err(segment) => Err(Home {
                segment,
                hub,
                out,
                done,
            }),
        }
    }

    /// Ends a segment that is done and has no pass out. Any other comes back, and so does one of which an end has a share.
    fn free(self) -> Result<Left<T>, Home<T>>
        ensures freed { IfOk result (λ l. IsFreed self × TellsFates l (came_back self)) }
        ensures kept { IfErr result (λ h. h ≡ self) }
    {
        if !self.done {
            return Err(self);
        }
        if self.out != 0 {
            return Err(self);
        }
        self.end()
    }
}

impl<T: Drop> Homes<T> {
    /// No segment, in a channel that is audited or not.
    pub(crate) fn none(alloc: Global, audited: bool) -> Homes<T>
        ensures { (result.list.items ≡ []) × (result.first ≡ 0) }
    {
        Homes {
            first: 0,
            list: VecDeque::new(alloc),
            audited,
        }
    }

    /// The segment at this place takes back a pass of its own. It tells whether it is done.
    pub(crate) fn take_back(&mut self, at: usize, pass: Pass<T>, over: bool) -> bool
        requires live { self.old.first ≤ at }
        requires there { at - self.old.first < length self.old.list.items }
        requires segment { At self.old.list.items (at - self.old.first)
            (λ h. (pass.seat.table_id ≡ h.hub.seat.table_id) × (0 < out_of h)) }
        requires free { IsFree pass }
        requires over { over ≡ (pass_view pass).over }
        ensures list { Changes self.old.list.items self.new.list.items (at - self.old.first)
            (λ h g. HasTakenBack h g (pass_view pass) × (result ≡ g.done)) }
        ensures first { (self.new.first ≡ self.old.first) × (self.new.audited ≡ self.old.audited) }
    {
        self.list[at - self.first].take_back(pass, over)
    }

    /// The first segment that an end may come to: the oldest, or to send alone the last. `None` if it cannot be counted.
    pub(crate) fn first_for(&self, takes: bool) -> Option<usize>
        ensures { IfSome result (λ k. (self.now.first ≤ k)
            × ((hs : List (Home T)) → Stands hs self.now → GoesOnTo takes hs k)) }
    {
        if takes {
            return Some(self.first);
        }
        self.first.checked_add(self.list.len().saturating_sub(1))
    }

    /// The segment at this place of the list issues a pass of this name.
    pub(crate) fn issue(&mut self, at: usize, name: u32) -> Option<(Shared<T>, Pass<T>)>
        requires name { name < 4294967295 }
        requires there { at < length self.old.list.items }
        ensures some { IfSome result (λ r. Changes self.old.list.items self.new.list.items at
            (λ h g. HasIssued h g r.0 r.1) × (pass_view r.1 ≡ named name) × IsFree r.1) }
        ensures none { IfNone result (self.new.list.items ≡ self.old.list.items) }
        ensures first { (self.new.first ≡ self.old.first) × (self.new.audited ≡ self.old.audited) }
    {
        self.list[at].issue(name)
    }

    /// One more segment, of this many positions, behind the others.
    pub(crate) fn append(&mut self, alloc: Global, size: u32) -> Result<(), AllocError>
        ensures more { IfOk result (λ _. (h : Home T) × IsNew h
            × (self.new.list.items ≡ self.old.list.items ++ h ∷ [])) }
        ensures same { OnErr result (self.new.list.items ≡ self.old.list.items) }
        ensures first { (self.new.first ≡ self.old.first) × (self.new.audited ≡ self.old.audited) }
    {
        self.list.reserve(1)?;
        let home = Home::new(alloc, size)?;
        self.list.push_back_reserved(home);
        Ok(())
    }

    /// Frees the oldest segment, if it is done and nobody has a pass or a share of it, and gives out its fates.
    fn free_first(&mut self) -> Option<Left<T>>
        ensures stands { (hs : List (Home T)) → Stands hs self.old → Stands hs self.new }
        ensures fewer { IfSome result
            (λ _. length self.new.list.items < length self.old.list.items) }
        ensures fates { IfSome result (λ l. (hs : List (Home T)) → Stands hs self.old
            → IsFateOf hs (record { segment = self.old.first; left = l })) }
        ensures next { IfSome result (λ _. self.new.first ≡ self.old.first + 1) }
    {
        if self.first >= usize::MAX {
            return None;
        }
        let Some(home) = self.list.pop_front() else {
            return None;
        };
        match home.free() {
            Ok(left) => {
                self.first += 1;
                Some(left)
            }
            Err(home) => {
                self.list.push_front_reserved(home);
                None
            }
        }
    }

    /// The same, and its fates are dropped.
    fn drop_first(&mut self) -> bool
        ensures stands { (hs : List (Home T)) → Stands hs self.old → Stands hs self.new }
        ensures fewer { result ≡ true → length self.new.list.items < length self.old.list.items }
    {
        match self.free_first() {
            Some(left) => {
                drop(left);
                true
            }
            None => false,
        }
    }

    /// Frees the oldest segments, while they are done and nobody has a pass or a share of them. In an audited channel it
    /// frees none.
    pub(crate) fn sweep(&mut self)
        ensures stands { (hs : List (Home T)) → Stands hs self.old → Stands hs self.new }
        ensures audited { self.old.audited ≡ true → self.new ≡ self.old }
    {
        if self.audited {
            return;
        }
        while self.drop_first() {}
    }

    /// Frees the oldest segment, if it can be freed, and gives out its fates.
    pub(crate) fn take_fates(&mut self) -> Option<Fates<T>>
        ensures stands { (hs : List (Home T)) → Stands hs self.old → Stands hs self.new }
        ensures some { IfSome result (λ f. (hs : List (Home T)) → Stands hs self.old
            → IsFateOf hs f × (self.new.first ≡ f.segment + 1)) }
    {
        let segment = self.first;
        let Some(left) = self.free_first() else {
            return None;
        };
        Some(Fates { segment, left })
    }
}
