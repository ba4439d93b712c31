//! A sender that its owner keeps in one place, whatever it owes.
ghost use Rattle.std.specs.Prelude.{◌≡◌, ◌<◌, [], true, false, is_some};
ghost use Rattle.std.specs.Arc.{arc_value};
ghost use Rattle.mb_channel.specs.Homes.{IsReady, view_in};
ghost use Rattle.mb_channel.specs.Closing.{KnowsEnd};
ghost use Rattle.mb_channel.specs.Places.{got_at, pass_at, share_at, told_at};
ghost use Rattle.mb_channel.specs.Visits.{name_there};

use crate::busy::{Busy, Debt};
use crate::debtor::Debtor;
use crate::end::{End, Sender};
use crate::inside::Inside;
use crate::list::{Chair, SharedList};
use crate::posting::Posted;
use crate::try_sends::Owing;

/// A sender, whatever it owes. It cannot be dropped. It is for an owner that keeps it in one place, as a handle of C: it
/// sends there, and is not moved.
pub struct KeptSender<T: Drop> {
    pub(crate) list: SharedList<T>,
    pub(crate) chair: Chair<T>,
    pub(crate) at: usize,
    pub(crate) rights: u64,
    pub(crate) name: u32,
    pub(crate) busy: Option<Busy<T>>,
    pub(crate) over: bool,
    pub(crate) behind: bool,
    ghost same: { chair.table_id ≡ (arc_value list).table.shared.table_id },
    ghost ready: { IsReady chair.me },
    ghost here: { (view_in chair).at ≡ at },
    ghost counts: { 0 < (view_in chair).rights },
    ghost counted: { rights < 18446744073709551615 → (view_in chair).rights ≡ rights },
    ghost called: { (view_in chair).name ≡ name },
    ghost short: { name < 4294967295 },
    ghost named: { is_some busy ≡ true → name_there (pass_at busy) ≡ name },
    ghost inside: { (view_in chair).inside ≡ is_some busy },
    ghost place: { is_some busy ≡ true → (view_in chair).place ≡ share_at busy },
    ghost orderly: { (view_in chair).orderly ≡ true },
    ghost poor: { (view_in chair).takes ≡ false → got_at busy ≡ [] },
    ghost told: { over ≡ told_at busy },
    ghost room: { is_some busy ≡ true → at < 18446744073709551615 },
    ghost outside: { behind ≡ true → is_some busy ≡ false },
    ghost ended: { behind ≡ true → KnowsEnd (view_in chair) },
    ghost sends: { (view_in chair).sends ≡ 1 },
}

impl<T: Drop> Inside<T> {
    ghost use Rattle.mb_channel.specs.declared.busy.Debt.TheVariants as owed;

    /// The pass at work. It owes nothing.
    fn at_work(self) -> Busy<T>
        ensures segment { result.segment ≡ self.segment }
        ensures pass { result.pass.seat ≡ self.pass.seat }
        ensures debt { result.debt ≡ owed.Nothing }
    {
        let Inside { segment, pass } = self;
        Busy {
            segment,
            pass: pass.pass(),
            debt: Debt::Nothing,
        }
    }
}

impl<T: Drop> Sender<T> {
    ghost use Rattle.mb_channel.specs.Ends.{log_of, stand_of};
    ghost use Rattle.mb_channel.specs.Kept.{IsSettled, log_kept, stand_kept, wakes_kept};
    ghost use Rattle.mb_channel.specs.Wakes.{wakes_of};

    /// The sender, to be kept.
    pub fn keep(self) -> KeptSender<T>
        ensures stand { stand_kept result ≡ stand_of self.end }
        ensures log { log_kept result ≡ log_of self.end }
        ensures wakes { wakes_kept result ≡ wakes_of self.end }
        ensures behind { result.behind ≡ self.end.behind }
        ensures settled { IsSettled result }
    {
        let Sender { end } = self;
        let End {
            list,
            chair,
            at,
            rights,
            name,
            inside,
            over,
            behind,
        } = end;
        let busy = match inside {
            None => None,
            Some(inside) => Some(inside.at_work()),
        };
        KeptSender {
            list,
            chair,
            at,
            rights,
            name,
            busy,
            over,
            behind,
        }
    }
}

impl<T: Drop> Owing<T> {
    ghost use Rattle.mb_channel.specs.Standing.{stand_with};
    ghost use Rattle.mb_channel.specs.Kept.{stand_kept, wakes_kept};
    ghost use Rattle.mb_channel.specs.Wakes.{wakes_with};

    /// The sender, to be kept.
    pub fn keep(self) -> KeptSender<T>
        ensures stand { stand_kept result ≡ stand_with self.debtor }
        ensures wakes { wakes_kept result ≡ wakes_with self.debtor }
    {
        let Owing { debtor } = self;
        let Debtor {
            list,
            chair,
            at,
            rights,
            name,
            busy,
            over,
        } = debtor;
        KeptSender {
            list,
            chair,
            at,
            rights,
            name,
            busy: Some(busy),
            over,
            behind: false,
        }
    }
}

impl<T: Drop> KeptSender<T> {
    ghost use Rattle.std.specs.Prelude.{IfErr, IfOk};
    ghost use Rattle.mb_channel.specs.Ends.{log_of, stand_of};
    ghost use Rattle.mb_channel.specs.Kept.{IsSettled, OfPosted, log_kept, stand_kept, wakes_kept};
    ghost use Rattle.mb_channel.specs.Standing.{stand_with};
    ghost use Rattle.mb_channel.specs.Wakes.{Tells, wakes_of, wakes_with};
    ghost use Rattle.mb_channel.specs.declared.posting.Posted.TheVariants as posted;

    /// Whether it owes something.
    pub fn owes(&self) -> bool
        ensures settled { result ≡ false → IsSettled self.now }
        ensures owes { result ≡ true → IsSettled self.now → ⊥ }
        ensures before { result ≡ true → self.now.behind ≡ false }
    {
        match &self.busy {
            None => false,
            Some(busy) => busy.debt != Debt::Nothing,
        }
    }

    /// Tries to send a value in the segment where the sender is, behind all that it sent before. A sender that owes
    /// something gives the value back. It makes a few accesses, and wakes nobody.
    #[inline(always)]
    pub fn send_here(&mut self, value: T) -> Posted<T>
        ensures answer { OfPosted result value (stand_kept self.old) (stand_kept self.new)
            (IsSettled self.new) }
        ensures wakes { Tells 0 (wakes_kept self.old) (wakes_kept self.new) }
        ensures outside { is_some self.old.busy ≡ false
            → (result ≡ posted.Back value) × (self.new ≡ self.old) }
        ensures owing { (IsSettled self.old → ⊥)
            → (result ≡ posted.Back value) × (self.new ≡ self.old) }
        ensures chair { self.new.chair ≡ self.old.chair }
    {
        let name = self.name;
        let Some(busy) = &mut self.busy else {
            return Posted::Back(value);
        };
        if busy.debt != Debt::Nothing {
            return Posted::Back(value);
        }
        busy.send_here(value, name)
    }

    /// The sender, or, if it owes something, that.
    pub fn take(self) -> Result<Sender<T>, Owing<T>>
        ensures stand { IfOk result (λ s. stand_of s.end ≡ stand_kept self) }
        ensures log { IfOk result (λ s. log_of s.end ≡ log_kept self) }
        ensures wakes { IfOk result (λ s. wakes_of s.end ≡ wakes_kept self) }
        ensures behind { IfOk result (λ s. s.end.behind ≡ self.behind) }
        ensures settled { IfOk result (λ _. IsSettled self) }
        ensures owing { IfErr result (λ o. stand_with o.debtor ≡ stand_kept self) }
        ensures owes { IfErr result (λ _. IsSettled self → ⊥) }
        ensures owing_wakes { IfErr result (λ o. wakes_with o.debtor ≡ wakes_kept self) }
        ensures before { IfErr result (λ _. self.behind ≡ false) }
    {
        if self.owes() {
            return Err(self.owing());
        }
        Ok(self.settled())
    }

    /// The sender, which owes nothing.
    fn settled(self) -> Sender<T>
        requires settled { IsSettled self }
        ensures stand { stand_of result.end ≡ stand_kept self }
        ensures log { log_of result.end ≡ log_kept self }
        ensures wakes { wakes_of result.end ≡ wakes_kept self }
        ensures behind { result.end.behind ≡ self.behind }
    {
        let KeptSender {
            list,
            chair,
            at,
            rights,
            name,
            busy,
            over,
            behind,
        } = self;
        let Some(busy) = busy else {
            let end = End {
                list,
                chair,
                at,
                rights,
                name,
                inside: None,
                over,
                behind,
            };
            return Sender { end };
        };
        match busy.rest() {
            Ok(inside) => Sender {
                end: End {
                    list,
                    chair,
                    at,
                    rights,
                    name,
                    inside: Some(inside),
                    over,
                    behind,
                },
            },
            Err(_) => unreachable!(),
        }
    }

    /// What the sender owes.
    fn owing(self) -> Owing<T>
        requires owes { IsSettled self → ⊥ }
        ensures stand { stand_with result.debtor ≡ stand_kept self }
        ensures wakes { wakes_with result.debtor ≡ wakes_kept self }
    {
        let KeptSender {
            list,
            chair,
            at,
            rights,
            name,
            busy,
            over,
            behind: _,
        } = self;
        let Some(busy) = busy else { unreachable!() };
        Owing {
            debtor: Debtor {
                list,
                chair,
                at,
                rights,
                name,
                busy,
                over,
            },
        }
    }

    /// Lets go of the sender, whatever it owes.
    pub(crate) fn let_go(self) {
        let KeptSender {
            list,
            chair,
            at: _,
            rights: _,
            name: _,
            busy,
            over: _,
            behind: _,
        } = self;
        match busy {
            None => {}
            Some(busy) => busy.let_go(),
        }
        drop(chair);
        drop(list);
    }
}
