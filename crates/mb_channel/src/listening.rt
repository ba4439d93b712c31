//! An end looks for values, and never waits.
ghost use Rattle.std.specs.Prelude.{◌≡◌, true, IfErr, IfOk, is_some};
ghost use Rattle.mb_channel.specs.Ends.{IsOver, stand_of, view_of};
ghost use Rattle.mb_channel.specs.Polls.{OfLook};
ghost use Rattle.mb_channel.specs.Receives.{SawEmpty};
ghost use Rattle.mb_channel.specs.Standing.{stand_with};
ghost use Rattle.mb_channel.specs.Wakes.{Tells, wakes_of, wakes_with};
ghost use Rattle.mb_channel.specs.Work.{IfAsleep, Sleeps};

use crate::debtor::Debtor;
use crate::end::End;
use crate::heard::Heard;

impl<T: Drop> End<T> {
    /// Looks for a value in the segment where the end is. The end comes back if it is in none, or was told that no value
    /// can come there any more.
    pub(crate) fn poll(self) -> Result<(Debtor<T>, Heard<T>), End<T>>
        requires takes { (view_of self).takes ≡ true }
        ensures looked { IfOk result (λ r. OfLook r.1 (stand_of self) r.0
            × (r.0.chair ≡ self.chair)) }
        ensures saw { IfOk result (λ r. IfAsleep r.1
            (SawEmpty (stand_of self) (stand_with r.0))) }
        ensures back { IfErr result (λ e. (e ≡ self) × IsOver e) }
        ensures wakes { IfOk result (λ r. Tells 0 (wakes_of self) (wakes_with r.0)) }
        ensures inside { IfOk result (λ _. is_some self.inside ≡ true) }
    {
        if self.over || self.inside.is_none() {
            return Err(self);
        }
        let End {
            list,
            chair,
            at,
            rights,
            name,
            inside,
            over: _,
            behind: _,
        } = self;
        let Some(inside) = inside else { unreachable!() };
        let (busy, heard) = inside.poll(name);
        let over = matches!(&heard, Heard::Over);
        Ok((
            Debtor {
                list,
                chair,
                at,
                rights,
                name,
                busy,
                over,
            },
            heard,
        ))
    }
}

impl<T: Drop> Debtor<T> {
    /// One that sleeps takes a token, and looks. It sleeps on if no token is there.
    pub(crate) fn wake_up(self) -> (Debtor<T>, Heard<T>)
        requires takes { self.chair.me.0.takes ≡ true }
        requires asleep { Sleeps self.busy }
        ensures looked { OfLook result.1 (stand_with self) result.0 }
        ensures chair { result.0.chair ≡ self.chair }
        ensures wakes { Tells 0 (wakes_with self) (wakes_with result.0) }
    {
        let mut debtor = self;
        let name = debtor.name;
        let heard = debtor.busy.wake_up(name);
        debtor.over = debtor.over || matches!(&heard, Heard::Over);
        (debtor, heard)
    }
}
