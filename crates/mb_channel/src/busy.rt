//! A share of a segment, and a pass there that owes something.
ghost use Rattle.std.specs.Prelude.{◌≡◌};
ghost use Rattle.std.specs.Arc.{arc_value};
ghost use Rattle.mb_channel.specs.Owing.{Owes};

use crate::home::Shared;
use crate::inside::{Inside, rested};
use mb_segment::{Leave, Pass, Wake};
use std::sync::Wait;

/// What an end owes in its segment.
#[derive(Clone, Copy, PartialEq, Eq, Debug, Drop)]
pub enum Debt {
    Nothing,
    /// A thread has to be woken, for which a token was given.
    Thread,
    /// A token has to be given to one that sleeps, if one does.
    Token,
    /// A token has to be given to each that sleeps.
    Tokens,
    /// The end has to leave the list of those that wait.
    Leave,
    /// A token has to be given to one that sleeps, if one does. Then the end has to leave the list.
    Unseen,
    /// The end is in the list, and has to look.
    Fresh,
    /// The end sleeps in the list.
    Asleep,
    /// The end took a token, and has to look.
    Look,
}

/// A share of the segment, and a pass there that owes so much. It cannot be dropped.
pub struct Busy<T: Drop> {
    pub(crate) segment: Shared<T>,
    pub(crate) pass: Pass<T>,
    pub(crate) debt: Debt,
    ghost same: { pass.seat.table_id ≡ (arc_value segment).table.shared.table_id },
    ghost owes: { Owes debt pass },
}

impl<T: Drop> Busy<T> {
    ghost use Rattle.std.specs.Prelude.{◌≢◌, IfErr, IfOk};
    ghost use Rattle.mb_channel.specs.declared.busy.Debt.TheVariants as owed;
    ghost use Rattle.mb_channel.specs.Wakes.{Tells, one_if, wakes_by, wakes_in};
    ghost use Rattle.mb_channel.specs.Work.{IsAwake, IsStill, work_in, work_of};

    /// Tries to pay a token.
    fn give_token(&mut self) -> bool
        requires token { self.old.debt ≡ owed.Token }
        ensures still { IsStill (work_of self.old) (work_of self.new) }
        ensures awake { IsAwake self.new }
        ensures wakes { Tells (one_if result) (wakes_by self.old) (wakes_by self.new) }
        ensures told { (wakes_by self.new).untold ≡ 0 }
    {
        match self.segment.wake(&mut self.pass) {
            Wake::Nobody => {
                self.debt = Debt::Nothing;
                false
            }
            Wake::One => {
                self.debt = Debt::Nothing;
                true
            }
            Wake::Again => false,
        }
    }

    /// Tries to pay a token to each.
    fn give_tokens(&mut self) -> bool
        requires tokens { self.old.debt ≡ owed.Tokens }
        ensures still { IsStill (work_of self.old) (work_of self.new) }
        ensures awake { IsAwake self.new }
        ensures wakes { Tells (one_if result) (wakes_by self.old) (wakes_by self.new) }
        ensures told { (wakes_by self.new).untold ≡ 0 }
    {
        match self.segment.wake_all(&mut self.pass) {
            Wake::Nobody => {
                self.debt = Debt::Nothing;
                false
            }
            Wake::One => true,
            Wake::Again => false,
        }
    }

    /// Tries to leave the list.
    pub(crate) fn leave(&mut self)
        requires listed { self.old.debt ≡ owed.Leave }
        ensures still { IsStill (work_of self.old) (work_of self.new) }
        ensures awake { IsAwake self.new }
        ensures wakes { Tells 0 (wakes_by self.old) (wakes_by self.new) }
        ensures told { (wakes_by self.new).untold ≡ 0 }
    {
        match self.segment.leave(&mut self.pass) {
            Leave::Left => self.debt = Debt::Nothing,
            Leave::Owes => self.debt = Debt::Token,
            Leave::Again => {}
        }
    }

    /// Tries to pay a token before it leaves the list.
    fn give_unseen(&mut self) -> bool
        requires unseen { self.old.debt ≡ owed.Unseen }
        ensures still { IsStill (work_of self.old) (work_of self.new) }
        ensures awake { IsAwake self.new }
        ensures wakes { Tells (one_if result) (wakes_by self.old) (wakes_by self.new) }
        ensures told { (wakes_by self.new).untold ≡ 0 }
    {
        match self.segment.wake(&mut self.pass) {
            Wake::Nobody => {
                self.debt = Debt::Leave;
                false
            }
            Wake::One => {
                self.debt = Debt::Leave;
                true
            }
            Wake::Again => false,
        }
    }

    /// One that has to look, or sleeps, owes something else in its place.
    pub(crate) fn give_up(&mut self)
        ensures still { IsStill (work_of self.old) (work_of self.new) }
        ensures awake { IsAwake self.new }
        ensures wakes { Tells 0 (wakes_by self.old) (wakes_by self.new) }
        ensures told { (wakes_by self.new).untold ≡ (wakes_by self.old).untold }
    {
        match self.debt {
            Debt::Fresh => {
                self.segment.go_unseen(&mut self.pass);
                self.debt = Debt::Unseen;
            }
            Debt::Asleep => {
                self.segment.give_up(&mut self.pass);
                self.debt = Debt::Leave;
            }
            Debt::Look => {
                self.segment.hand_on(&mut self.pass);
                self.debt = Debt::Token;
            }
            _ => {}
        }
    }

    /// Tries to pay, with a few accesses. It tells whether a thread has to be woken now. One that sleeps stops to wait.
    pub(crate) fn pay_some(&mut self) -> bool
        ensures still { IsStill (work_of self.old) (work_of self.new) }
        ensures awake { IsAwake self.new }
        ensures wakes { Tells (one_if result) (wakes_by self.old) (wakes_by self.new) }
        ensures told { (wakes_by self.new).untold ≡ 0 }
    {
        match self.debt {
            Debt::Nothing => false,
            Debt::Thread => {
                self.debt = Debt::Nothing;
                true
            }
            Debt::Token => self.give_token(),
            Debt::Tokens => self.give_tokens(),
            Debt::Leave => {
                self.leave();
                false
            }
            Debt::Unseen => self.give_unseen(),
            Debt::Fresh | Debt::Asleep | Debt::Look => {
                self.give_up();
                false
            }
        }
    }

    /// The pass at rest, if it owes nothing any more.
    pub(crate) fn rest(self) -> Result<Inside<T>, Busy<T>>
        ensures rest { IfOk result (λ i. IsStill (work_of self) (work_in i)) }
        ensures wakes { IfOk result (λ i. Tells 0 (wakes_by self) (wakes_in i)) }
        ensures same { IfOk result (λ i. (i.segment ≡ self.segment)
            × (i.pass.seat ≡ self.pass.seat) × (self.debt ≡ owed.Nothing)) }
        ensures back { IfErr result (λ b. (b ≡ self) × (self.debt ≢ owed.Nothing)) }
    {
        if self.debt != Debt::Nothing {
            return Err(self);
        }
        let Busy {
            segment,
            pass,
            debt: _,
        } = self;
        Ok(rested(segment, pass))
    }

    /// Lets go of the pass, whatever it owes.
    pub(crate) fn let_go(self) {
        let Busy {
            segment,
            pass,
            debt: _,
        } = self;
        pass.let_go();
        drop(segment);
    }

    /// Pays all, and wakes the threads.
    #[cold]
    #[inline(never)]
    pub(crate) fn pay<R: Wait>(self, rt: &R) -> Inside<T>
        ensures still { IsStill (work_of self) (work_in result) }
    {
        let mut busy = self;
        // One that was woken may leave its token to another that sleeps.
        if busy.debt == Debt::Leave {
            busy.segment.wake_thread();
        }
        for _ in rt.forever() {
            if busy.pay_some() {
                busy.segment.wake_thread();
            }
            match busy.rest() {
                Ok(inside) => return inside,
                Err(back) => busy = back,
            }
        }
        unreachable!()
    }
}
