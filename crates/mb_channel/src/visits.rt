//! An end comes to a segment of the list, and leaves it.
ghost use Rattle.std.specs.Prelude.{suc, ◌≡◌, ◌<◌, ◌≤◌, ◌⊎◌, [], length, true, false, IfOk, IfErr};
ghost use Rattle.std.specs.Arc.{arc_value};
ghost use Rattle.mb_segment.specs.Seats.{view_in as pass_view};
ghost use Rattle.mb_segment.specs.Vocabulary.{IsFree, named};
ghost use Rattle.mb_channel.specs.Homes.{At, Changes, HasIssued, HasTakenBack, HoldsHomes, IsPassOf, IsReady};
ghost use Rattle.mb_channel.specs.Homes.{MayGive, came_to, left_segment, out_of, unlocked, view_in, went_on};
ghost use Rattle.mb_channel.specs.Tallies.{GoesOnTo, KnowsLast, found_none, told_last};
ghost use Rattle.mb_channel.specs.Answers.{OfCame};

use crate::answers::Came;
use crate::home::Shared;
use crate::list::{Chair, List};
use crate::rule::{Change, Stay};
use mb_segment::Pass;
use std::marker::Brand;

impl<T: Drop> List<T> {
    /// The segment at this place takes back a pass of its own. Then the oldest segments are freed, if they can be. It
    /// tells whether that segment is done.
    fn give_pass(&self, chair: &mut Chair<T>, at: usize, pass: Pass<T>, over: bool) -> bool
        requires list { chair.old.table_id ≡ self.now.table.shared.table_id }
        requires homes { HoldsHomes chair.old.me (λ hs. hs ≡ (view_in chair.old).before) }
        requires segment { At (view_in chair.old).before at
            (λ h. (pass.seat.table_id ≡ h.hub.seat.table_id) × (0 < out_of h)) }
        requires free { IsFree pass }
        requires over { over ≡ (pass_view pass).over }
        ensures list { (chair.new.table_id ≡ chair.old.table_id) × (chair.new.id ≡ chair.old.id) }
        ensures view { view_in chair.new ≡ view_in chair.old }
        ensures homes { HoldsHomes chair.new.me (λ hs.
            Changes (view_in chair.old).before hs at
            (λ h g. HasTakenBack h g (pass_view pass) × (result ≡ g.done))) }
    {
        let homes = chair.slot_mut(&self.table.shared, 0);
        let done = homes.take_back(at, pass, over);
        homes.sweep();
        done
    }

    /// Gives the lock back. `done` is what the proof that picks the change may use.
    fn give_left<F: Change<T>>(&self, chair: &mut Chair<T>, done: bool)
        requires list { chair.old.table_id ≡ self.now.table.shared.table_id }
        requires lawful { MayGive F.of 1 chair.old.id chair.old.me }
        ensures list { (chair.new.table_id ≡ chair.old.table_id) × (chair.new.id ≡ chair.old.id) }
        ensures view { (view_in chair.new ≡ F.of (unlocked (view_in chair.old)))
            × (chair.new.me.1 ≡ []) }
    {
        let _ = done;
        self.give::<F>(chair);
    }

    /// Leaves the segment, under the lock, and gives that back.
    fn part<X: Stay<T>>(&self, chair: &mut Chair<T>, at: usize, pass: Pass<T>, over: bool) -> bool
        requires list { chair.old.table_id ≡ self.now.table.shared.table_id }
        requires picked { X.knew ≡ pass_view pass }
        requires held { ((view_in chair.old).live ≡ true) × ((view_in chair.old).holds ≡ true)
            × ((view_in chair.old).inside ≡ true) × ((view_in chair.old).at ≡ at) }
        requires homes { HoldsHomes chair.old.me (λ hs. hs ≡ (view_in chair.old).before) }
        requires segment { At (view_in chair.old).before at
            (λ h. (pass.seat.table_id ≡ h.hub.seat.table_id) × (0 < out_of h)) }
        requires free { IsFree pass }
        requires over { over ≡ (pass_view pass).over }
        requires poor { (view_in chair.old).takes ≡ false → (pass_view pass).account.got ≡ [] }
        requires named { (pass_view pass).account.name ≡ (view_in chair.old).name }
        ensures list { (chair.new.table_id ≡ chair.old.table_id) × (chair.new.id ≡ chair.old.id) }
        ensures left { (chair.new.me.1 ≡ [])
            × (view_in chair.new
            ≡ left_segment (pass_view pass) result (unlocked (view_in chair.old)))
            × ((pass_view pass).over ≡ true → result ≡ true) }
    {
        let done = self.give_pass(chair, at, pass, over);
        self.give_left::<Brand>(chair, done);
        done
    }

    /// Leaves the segment at this place, to which the pass belongs. `over` says whether the pass saw that no value can
    /// come any more. It tells whether some pass did: then the end may receive in the next segment, if it could in this
    /// one. It gives the pass back in `Err` if the lock is taken.
    pub fn leave(
        &self,
        chair: &mut Chair<T>,
        at: usize,
        pass: Pass<T>,
        over: bool,
    ) -> Result<bool, Pass<T>>
        requires list { chair.old.table_id ≡ self.now.table.shared.table_id }
        requires ready { IsReady chair.old.me }
        requires here { ((view_in chair.old).at ≡ at) × ((view_in chair.old).inside ≡ true) }
        requires pass { IsPassOf (view_in chair.old).place pass × IsFree pass }
        requires over { over ≡ (pass_view pass).over }
        requires poor { (view_in chair.old).takes ≡ false → (pass_view pass).account.got ≡ [] }
        requires named { (pass_view pass).account.name ≡ (view_in chair.old).name }
        ensures list { (chair.new.table_id ≡ chair.old.table_id) × (chair.new.id ≡ chair.old.id) }
        ensures left { IfOk result (λ done. (chair.new.me.1 ≡ [])
            × (view_in chair.new
            ≡ left_segment (pass_view pass) done (unlocked (view_in chair.old)))
            × ((pass_view pass).over ≡ true → done ≡ true)) }
        ensures kept { IfErr result (λ p. (p ≡ pass) × (chair.new.me ≡ chair.old.me)) }
    {
        if !self.try_lock(chair) {
            return Err(pass);
        }
        Ok(self.part::<Brand>(chair, at, pass, over))
    }

    /// The segment at this place issues a pass of this name, if it is there. Of an end that comes to send alone it has to
    /// be the last.
    fn get_pass(&self, chair: &mut Chair<T>, name: u32, at: usize, takes: bool) -> Came<T>
        requires name { name < 4294967295 }
        requires list { chair.old.table_id ≡ self.now.table.shared.table_id }
        requires homes { HoldsHomes chair.old.me (λ hs. hs ≡ (view_in chair.old).before) }
        ensures list { (chair.new.table_id ≡ chair.old.table_id) × (chair.new.id ≡ chair.old.id) }
        ensures view { view_in chair.new ≡ view_in chair.old }
        ensures answer { OfCame result
            (λ s p. HoldsHomes chair.new.me (λ hs.
            Changes (view_in chair.old).before hs at (λ h g. HasIssued h g s p))
            × (pass_view p ≡ named name) × IsFree p
            × (takes ≡ false → suc at ≡ length (view_in chair.old).before))
            (λ k. HoldsHomes chair.new.me (λ hs. hs ≡ (view_in chair.old).before)
            × (at < k) × GoesOnTo takes (view_in chair.old).before k)
            (HoldsHomes chair.new.me (λ hs. hs ≡ (view_in chair.old).before)
            × (length (view_in chair.old).before ≤ at))
            ⊥
            (HoldsHomes chair.new.me (λ hs. hs ≡ (view_in chair.old).before)) }
    {
        let homes = chair.slot_mut(&self.table.shared, 0);
        let Some(next) = homes.first_for(takes) else {
            return Came::Crowded;
        };
        if at < next {
            Came::Gone(next)
        } else if at - homes.first < homes.list.len() {
            match homes.issue(at - homes.first, name) {
                Some((segment, pass)) => Came::Here(segment, pass),
                None => Came::Crowded,
            }
        } else {
            Came::NotYet
        }
    }

    /// Comes to the segment whose hub has just issued the pass, and gives the lock back.
    fn enter<F: Change<T>>(
        &self,
        chair: &mut Chair<T>,
        segment: &Shared<T>,
        pass: &Pass<T>,
        takes: bool,
    )
        requires list { chair.old.table_id ≡ self.now.table.shared.table_id }
        requires picked { F.of ≡ came_to segment.now takes }
        requires held { ((view_in chair.old).live ≡ true) × ((view_in chair.old).holds ≡ true)
            × ((view_in chair.old).inside ≡ false) }
        requires issued { HoldsHomes chair.old.me (λ hs.
            Changes (view_in chair.old).before hs (view_in chair.old).at
            (λ h g. HasIssued h g segment.now pass.now)) }
        requires side { takes ≡ true → (view_in chair.old).takes ≡ true }
        ensures list { (chair.new.table_id ≡ chair.old.table_id) × (chair.new.id ≡ chair.old.id) }
        ensures view { (view_in chair.new
            ≡ came_to segment.now takes (unlocked (view_in chair.old)))
            × (chair.new.me.1 ≡ []) }
    {
        let _ = segment;
        let _ = pass;
        let _ = takes;
        self.give::<F>(chair);
    }

    /// Goes on to the oldest segment that is not freed, or to the last to send alone, and gives the lock back.
    fn go_on<F: Change<T>>(&self, chair: &mut Chair<T>, next: usize, takes: bool)
        requires list { chair.old.table_id ≡ self.now.table.shared.table_id }
        requires picked { F.of ≡ went_on next takes }
        requires held { ((view_in chair.old).live ≡ true) × ((view_in chair.old).holds ≡ true)
            × ((view_in chair.old).inside ≡ false) }
        requires homes { HoldsHomes chair.old.me (λ hs. hs ≡ (view_in chair.old).before) }
        requires far { ((view_in chair.old).at < next)
            × GoesOnTo takes (view_in chair.old).before next }
        ensures list { (chair.new.table_id ≡ chair.old.table_id) × (chair.new.id ≡ chair.old.id) }
        ensures view { (view_in chair.new ≡ went_on next takes (unlocked (view_in chair.old)))
            × (chair.new.me.1 ≡ []) }
    {
        let _ = next;
        let _ = takes;
        self.give::<F>(chair);
    }

    /// Tells an end that it is behind the last segment, for ever, and gives the lock back.
    fn tell_last<F: Change<T>>(&self, chair: &mut Chair<T>, last: usize)
        requires list { chair.old.table_id ≡ self.now.table.shared.table_id }
        requires picked { F.of ≡ told_last last }
        requires held { ((view_in chair.old).live ≡ true) × ((view_in chair.old).holds ≡ true) }
        requires homes { HoldsHomes chair.old.me (λ hs. hs ≡ (view_in chair.old).before) }
        requires last { (length (view_in chair.old).before ≡ last)
            × ((view_in chair.old).at ≡ last) × ((view_in chair.old).orderly ≡ true) }
        requires seen { ((view_in chair.old).shut ≡ true) ⊎ ((view_in chair.old).alone ≡ true) }
        ensures list { (chair.new.table_id ≡ chair.old.table_id) × (chair.new.id ≡ chair.old.id) }
        ensures view { (view_in chair.new ≡ told_last last (unlocked (view_in chair.old)))
            × (chair.new.me.1 ≡ []) }
    {
        let _ = last;
        self.give::<F>(chair);
    }

    /// Tells an end that is behind the last segment whether one may still come, or adds it, and gives the lock back.
    fn tell(&self, chair: &mut Chair<T>, at: usize, adds: bool) -> Came<T>
        requires list { chair.old.table_id ≡ self.now.table.shared.table_id }
        requires held { ((view_in chair.old).live ≡ true) × ((view_in chair.old).holds ≡ true) }
        requires homes { HoldsHomes chair.old.me (λ hs. hs ≡ (view_in chair.old).before) }
        requires last { (length (view_in chair.old).before ≡ at)
            × ((view_in chair.old).at ≡ at) × ((view_in chair.old).orderly ≡ true) }
        ensures list { (chair.new.table_id ≡ chair.old.table_id) × (chair.new.id ≡ chair.old.id) }
        ensures answer { OfCame result (λ _ _. ⊥) (λ _. ⊥)
            ((chair.new.me.1 ≡ [])
            × (view_in chair.new ≡ found_none (unlocked (view_in chair.old))))
            ((chair.new.me.1 ≡ [])
            × KnowsLast at (unlocked (view_in chair.old)) (view_in chair.new))
            ⊥ }
    {
        if self.sees_closed(chair) {
            self.tell_last::<Brand>(chair, at);
            return Came::Closed;
        }
        if self.sees_no_sender(chair) {
            self.tell_last::<Brand>(chair, at);
            return Came::Closed;
        }
        if !adds {
            self.unlock(chair);
            return Came::NotYet;
        }
        let added = self.add_home(chair, at);
        self.unlock(chair);
        match added {
            Ok(()) => Came::Added,
            Err(_) => Came::NotYet,
        }
    }

    /// Comes to the segment at this place under a name, to receive too or to send alone. If there is none yet, it may add
    /// it, but only if it saw under the lock that the list is not closed and that a sender is left. An end that comes has
    /// left each segment before only once nothing could be sent there.
    pub fn come(
        &self,
        chair: &mut Chair<T>,
        name: u32,
        at: usize,
        takes: bool,
        adds: bool,
    ) -> Came<T>
        requires name { name < 4294967295 }
        requires list { chair.old.table_id ≡ self.now.table.shared.table_id }
        requires ready { IsReady chair.old.me }
        requires here { ((view_in chair.old).at ≡ at) × ((view_in chair.old).inside ≡ false) }
        requires side { takes ≡ true → (view_in chair.old).takes ≡ true }
        requires orderly { (view_in chair.old).orderly ≡ true }
        ensures list { (chair.new.table_id ≡ chair.old.table_id) × (chair.new.id ≡ chair.old.id) }
        ensures answer { OfCame result
            (λ s p. (chair.new.me.1 ≡ [])
            × (view_in chair.new ≡ came_to s takes (unlocked (view_in chair.old)))
            × (p.seat.table_id ≡ (arc_value s).table.shared.table_id)
            × (pass_view p ≡ named name) × IsFree p)
            (λ k. (at < k) × (chair.new.me.1 ≡ [])
            × (view_in chair.new ≡ went_on k takes (unlocked (view_in chair.old))))
            ((chair.new.me.1 ≡ []) × (view_in chair.new ≡ found_none (view_in chair.old)))
            ((chair.new.me.1 ≡ []) × KnowsLast at (view_in chair.old) (view_in chair.new))
            (chair.new.me ≡ chair.old.me) }
    {
        if !self.try_lock(chair) {
            return Came::Locked;
        }
        match self.get_pass(chair, name, at, takes) {
            Came::Here(segment, pass) => {
                self.enter::<Brand>(chair, &segment, &pass, takes);
                Came::Here(segment, pass)
            }
            Came::Gone(next) => {
                self.go_on::<Brand>(chair, next, takes);
                Came::Gone(next)
            }
            Came::NotYet | Came::Added => self.tell(chair, at, adds),
            Came::Closed => {
                self.unlock(chair);
                Came::Closed
            }
            Came::Crowded => {
                self.unlock(chair);
                Came::Crowded
            }
            Came::Locked => {
                self.unlock(chair);
                Came::Locked
            }
        }
    }
}
