//! An end that owes something in the segment where it is.
ghost use Rattle.std.specs.Prelude.{◌≡◌, ◌<◌, [], Some, true, false};
ghost use Rattle.std.specs.Arc.{arc_value};
ghost use Rattle.mb_channel.specs.Homes.{IsReady, view_in};

use crate::attempt::Attempt;
use crate::busy::Busy;
use crate::end::End;
use crate::list::{Chair, SharedList};
use std::sync::Wait;

/// An end that owes something in its segment. It cannot be dropped.
pub struct Debtor<T: Drop> {
    pub(crate) list: SharedList<T>,
    pub(crate) chair: Chair<T>,
    pub(crate) at: usize,
    pub(crate) rights: u64,
    pub(crate) name: u32,
    pub(crate) busy: Busy<T>,
    pub(crate) over: bool,
    ghost same: { chair.table_id ≡ (arc_value list).table.shared.table_id },
    ghost ready: { IsReady chair.me },
    ghost here: { (view_in chair).at ≡ at },
    ghost counts: { 0 < (view_in chair).rights },
    ghost counted: { rights < 18446744073709551615 → (view_in chair).rights ≡ rights },
    ghost called: { (view_in chair).name ≡ name },
    ghost short: { name < 4294967295 },
    ghost named: { busy.pass.seat.me.0.account.name ≡ name },
    ghost inside: { (view_in chair).inside ≡ true },
    ghost place: { (view_in chair).place ≡ Some busy.segment },
    ghost orderly: { (view_in chair).orderly ≡ true },
    ghost poor: { (view_in chair).takes ≡ false → busy.pass.seat.me.0.account.got ≡ [] },
    ghost told: { over ≡ busy.pass.seat.me.0.over },
    ghost room: { at < 18446744073709551615 },
}

/// What came of a try to send in the segment where the end is.
pub enum Step<T: Drop> {
    Sent(End<T>),
    Owes(Debtor<T>),
    /// Another was first. Try again.
    Again(End<T>, T),
    /// The end is in no segment, or no more can be sent there.
    Over(End<T>, T),
}

impl<T: Drop> End<T> {
    ghost use Rattle.std.specs.Prelude.{is_some, true};
    ghost use Rattle.mb_channel.specs.declared.debtor.Step.TheVariants as step;
    ghost use Rattle.mb_channel.specs.Ends.{stand_of};
    ghost use Rattle.mb_channel.specs.Standing.{OfStep};
    ghost use Rattle.mb_channel.specs.Wakes.{Tells, after_step, wakes_of};

    /// Tries to send a value in the segment where the end is.
    pub(crate) fn try_send(self, value: T) -> Step<T>
        ensures answer { OfStep result value (stand_of self) }
        ensures wakes { Tells 0 (wakes_of self) (after_step result) }
        ensures outside { is_some self.inside ≡ false → result ≡ step.Over self value }
    {
        if self.inside.is_none() {
            return Step::Over(self, value);
        }
        self.send_inside(value)
    }

    /// The same of an end that is in a segment.
    #[inline(always)]
    fn send_inside(self, value: T) -> Step<T>
        requires inside { is_some self.inside ≡ true }
        ensures answer { OfStep result value (stand_of self) }
        ensures wakes { Tells 0 (wakes_of self) (after_step result) }
    {
        let (at, rights, name, over) = (self.at, self.rights, self.name, self.over);
        let End {
            list,
            chair,
            inside,
            ..
        } = self;
        let Some(inside) = inside else { unreachable!() };
        let (inside, back) = match inside.try_send(value, name) {
            Attempt::Sent(inside) => (inside, None),
            Attempt::Again(inside, value) => (inside, Some((value, true))),
            Attempt::Over(inside, value) => (inside, Some((value, false))),
            Attempt::Owes(busy) => {
                return Step::Owes(Debtor {
                    list,
                    chair,
                    at,
                    rights,
                    name,
                    busy,
                    over,
                });
            }
        };
        let end = End {
            list,
            chair,
            at,
            rights,
            name,
            inside: Some(inside),
            over,
            behind: false,
        };
        match back {
            None => Step::Sent(end),
            Some((value, true)) => Step::Again(end, value),
            Some((value, false)) => Step::Over(end, value),
        }
    }
}

impl<T: Drop> Debtor<T> {
    ghost use Rattle.std.specs.Prelude.{IfErr, IfOk};
    ghost use Rattle.mb_channel.specs.Ends.{stand_of};
    ghost use Rattle.mb_channel.specs.Standing.{NoMore, stand_with};
    ghost use Rattle.mb_channel.specs.Wakes.{Tells, one_if, wakes_of, wakes_with};
    ghost use Rattle.mb_channel.specs.Work.{IsAwake};

    /// Pays all, and wakes the threads.
    pub(crate) fn pay<R: Wait>(self, rt: &R) -> End<T>
        ensures still { NoMore (stand_with self) (stand_of result) }
        ensures chair { result.chair ≡ self.chair }
    {
        let Debtor {
            list,
            chair,
            at,
            rights,
            name,
            busy,
            over,
        } = self;
        End {
            list,
            chair,
            at,
            rights,
            name,
            inside: Some(busy.pay(rt)),
            over,
            behind: false,
        }
    }

    /// The end, if it owes nothing any more.
    pub(crate) fn rest(self) -> Result<End<T>, Debtor<T>>
        ensures rest { IfOk result (λ e. NoMore (stand_with self) (stand_of e)
            × (e.chair ≡ self.chair)) }
        ensures owes { IfErr result (λ d. NoMore (stand_with self) (stand_with d)
            × (d.chair ≡ self.chair) × (d.busy.debt ≡ self.busy.debt)) }
        ensures wakes { IfOk result (λ e. Tells 0 (wakes_with self) (wakes_of e)) }
        ensures still { IfErr result (λ d. Tells 0 (wakes_with self) (wakes_with d)) }
    {
        let Debtor {
            list,
            chair,
            at,
            rights,
            name,
            busy,
            over,
        } = self;
        match busy.rest() {
            Ok(inside) => Ok(End {
                list,
                chair,
                at,
                rights,
                name,
                inside: Some(inside),
                over,
                behind: false,
            }),
            Err(busy) => Err(Debtor {
                list,
                chair,
                at,
                rights,
                name,
                busy,
                over,
            }),
        }
    }

    /// One that sleeps stops waiting. It has still to leave the list.
    pub(crate) fn give_up(&mut self)
        ensures still { NoMore (stand_with self.old) (stand_with self.new) }
        ensures chair { self.new.chair ≡ self.old.chair }
        ensures wakes { Tells 0 (wakes_with self.old) (wakes_with self.new) }
        ensures awake { IsAwake self.new.busy }
    {
        self.busy.give_up();
    }

    /// Tries to pay, with a few accesses. It tells whether the caller has to wake a thread. The end comes back once it
    /// owes nothing more.
    pub(crate) fn pay_some(self) -> (bool, Result<End<T>, Debtor<T>>)
        ensures paid { IfOk result.1 (λ e. NoMore (stand_with self) (stand_of e)
            × (e.chair ≡ self.chair)) }
        ensures owes { IfErr result.1 (λ d. NoMore (stand_with self) (stand_with d)
            × (d.chair ≡ self.chair) × IsAwake d.busy) }
        ensures wakes { IfOk result.1
            (λ e. Tells (one_if result.0) (wakes_with self) (wakes_of e)) }
        ensures still { IfErr result.1
            (λ d. Tells (one_if result.0) (wakes_with self) (wakes_with d)
            × ((wakes_with d).untold ≡ 0)) }
    {
        let mut debtor = self;
        let wakes = debtor.busy.pay_some();
        (wakes, debtor.rest())
    }
}
