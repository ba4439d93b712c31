//! Senders and receivers.
ghost use Rattle.std.specs.Prelude.{◌≡◌, ◌<◌, [], true, false, is_some};
ghost use Rattle.std.specs.Arc.{arc_value};
ghost use Rattle.mb_channel.specs.Homes.{IsReady, view_in};
ghost use Rattle.mb_channel.specs.Inside.{got_there, pass_there, share_in, told_there};
ghost use Rattle.mb_channel.specs.Visits.{name_there};
ghost use Rattle.mb_channel.specs.Closing.{KnowsEnd};

use crate::inside::Inside;
use crate::list::{Chair, SharedList};
use crate::tried::Tried;
use mb_segment::Received;
use std::mem;
use std::sync::Wait;
use std::time::{Clock, Instant};

/// An end of a channel: where it is, and what it has there. If it is dropped, it never comes back: the channel cannot be
/// ended then, and the segment where it is and those behind stay.
#[derive(Drop)]
pub struct End<T: Drop> {
    pub(crate) list: SharedList<T>,
    pub(crate) chair: Chair<T>,
    pub(crate) at: usize,
    /// For how many ends it counts, if that is below 2^64 - 1.
    pub(crate) rights: u64,
    /// The name under which it sends and receives, or 0.
    pub(crate) name: u32,
    pub(crate) inside: Option<Inside<T>>,
    /// Whether it was told that no value can come any more in the segment where it is.
    pub(crate) over: bool,
    /// Whether it was told that it is behind the last segment, for ever.
    pub(crate) behind: bool,
    ghost same: { chair.table_id ≡ (arc_value list).table.shared.table_id },
    ghost ready: { IsReady chair.me },
    ghost here: { (view_in chair).at ≡ at },
    ghost counts: { 0 < (view_in chair).rights },
    ghost counted: { rights < 18446744073709551615 → (view_in chair).rights ≡ rights },
    ghost called: { (view_in chair).name ≡ name },
    ghost short: { name < 4294967295 },
    ghost named: { is_some inside ≡ true → name_there (pass_there inside) ≡ name },
    ghost inside_: { (view_in chair).inside ≡ is_some inside },
    ghost place: { is_some inside ≡ true → (view_in chair).place ≡ share_in inside },
    ghost orderly: { (view_in chair).orderly ≡ true },
    ghost poor: { (view_in chair).takes ≡ false → got_there inside ≡ [] },
    ghost told: { over ≡ told_there inside },
    ghost room: { is_some inside ≡ true → at < 18446744073709551615 },
    ghost outside: { behind ≡ true → is_some inside ≡ false },
    ghost ended: { behind ≡ true → KnowsEnd (view_in chair) },
}

/// An end that sends.
#[derive(Drop)]
pub struct Sender<T: Drop> {
    pub(crate) end: End<T>,
    ghost sends: { (view_in end.chair).sends ≡ 1 },
}

/// An end that receives.
#[derive(Drop)]
pub struct Receiver<T: Drop> {
    pub(crate) end: End<T>,
    ghost takes: { (view_in end.chair).takes ≡ true },
    ghost sends: { (view_in end.chair).sends ≡ 0 },
    ghost receives: { 0 < (view_in end.chair).receives },
}

impl<T: Drop> End<T> {
    ghost use Rattle.std.specs.Prelude.{Err, IfErr, IfNone, IfSome, None, OnErr, OnOk};
    ghost use Rattle.mb_channel.specs.Ends.{IsOver, SawOver, stand_of, view_of};
    ghost use Rattle.mb_channel.specs.Standing.{NoMore, OneGot, OneSent};

    /// Sends a value in the segment where the end is. It comes back if the end is in none, or if no more can be sent
    /// there.
    #[inline(always)]
    pub(crate) fn send<R: Wait>(&mut self, rt: &R, value: T) -> Result<(), T>
        ensures chair { self.new.chair ≡ self.old.chair }
        ensures sent { OnOk result (OneSent value (stand_of self.old) (stand_of self.new)) }
        ensures back { IfErr result (λ x. (x ≡ value)
            × NoMore (stand_of self.old) (stand_of self.new)) }
        ensures over { OnErr result (SawOver self.new) }
        ensures outside { is_some self.old.inside ≡ false
            → (result ≡ Err value) × (self.new ≡ self.old) }
    {
        let Some(inside) = self.inside.take() else {
            return Err(value);
        };
        let (inside, sent) = inside.send(rt, value, self.name);
        self.inside = Some(inside);
        sent
    }

    /// Receives a value in the segment where the end is. `None` if the end is in none, or if none can come there any
    /// more.
    #[inline(always)]
    pub(crate) fn receive<R: Wait>(&mut self, rt: &R) -> Option<T>
        requires takes { (view_of self.old).takes ≡ true }
        ensures chair { self.new.chair ≡ self.old.chair }
        ensures got { IfSome result (λ x. OneGot x (stand_of self.old) (stand_of self.new)) }
        ensures none { IfNone result (IsOver self.new
            × NoMore (stand_of self.old) (stand_of self.new)) }
        ensures outside { is_some self.old.inside ≡ false
            → (result ≡ None) × (self.new ≡ self.old) }
    {
        let inside = self.inside.take()?;
        let (inside, got) = inside.receive(rt, self.name);
        self.inside = Some(inside);
        if got.is_none() {
            self.over = true;
        }
        got
    }
}

impl<T: Drop> End<T> {
    ghost use Rattle.std.specs.Prelude.{IfNone, IfSome, None};
    ghost use Rattle.mb_segment.specs.Waiting.{OfReceived};
    ghost use Rattle.mb_segment.specs.declared.waiting.Received.TheVariants.{Over};
    ghost use Rattle.mb_channel.specs.Ends.{IsOver, stand_of, view_of};
    ghost use Rattle.mb_channel.specs.Receives.{OfTried, SawEmpty};
    ghost use Rattle.mb_channel.specs.Standing.{NoMore, OneGot};
    ghost use Rattle.mb_channel.specs.Wakes.{Tells, wakes_of};

    /// Receives a value in the segment where the end is, until a deadline. An end that is in none is told that none can
    /// come there.
    pub(crate) fn receive_by<R: Wait + Clock>(&mut self, rt: &R, deadline: Instant) -> Received<T>
        requires takes { (view_of self.old).takes ≡ true }
        ensures chair { self.new.chair ≡ self.old.chair }
        ensures answer { OfReceived result
            (λ x. OneGot x (stand_of self.old) (stand_of self.new))
            (IsOver self.new × NoMore (stand_of self.old) (stand_of self.new))
            (SawEmpty (stand_of self.old) (stand_of self.new)
            × NoMore (stand_of self.old) (stand_of self.new)) }
        ensures outside { is_some self.old.inside ≡ false
            → (result ≡ Over) × (self.new ≡ self.old) }
    {
        let Some(inside) = self.inside.take() else {
            return Received::Over;
        };
        let (inside, got) = inside.receive_by(rt, deadline, self.name);
        self.inside = Some(inside);
        if matches!(&got, Received::Over) {
            self.over = true;
        }
        got
    }

    /// Tries to receive a value in the segment where the end is. `None` if the end is in none, or if none can come there
    /// any more.
    #[inline(always)]
    pub(crate) fn try_receive(&mut self) -> Option<Tried<T>>
        requires takes { (view_of self.old).takes ≡ true }
        ensures chair { self.new.chair ≡ self.old.chair }
        ensures answer { IfSome result (λ t. OfTried t
            (λ x. OneGot x (stand_of self.old) (stand_of self.new))
            (SawEmpty (stand_of self.old) (stand_of self.new)
            × NoMore (stand_of self.old) (stand_of self.new))
            (NoMore (stand_of self.old) (stand_of self.new))) }
        ensures none { IfNone result (IsOver self.new
            × NoMore (stand_of self.old) (stand_of self.new)) }
        ensures outside { is_some self.old.inside ≡ false
            → (result ≡ None) × (self.new ≡ self.old) }
        ensures wakes { Tells 0 (wakes_of self.old) (wakes_of self.new) }
    {
        let inside = self.inside.take()?;
        let (inside, tried) = inside.try_receive(self.name);
        // (a plain write would look whether there is something to drop)
        mem::forget(mem::replace(&mut self.inside, Some(inside)));
        if tried.is_none() {
            self.over = true;
        }
        tried
    }
}
