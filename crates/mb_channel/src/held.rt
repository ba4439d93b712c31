//! An end for a caller that can keep no linear value, as a program in C behind a handle.
ghost use Rattle.std.specs.Prelude.{◌≡◌};

use crate::debtor::Debtor;
use crate::departing::{Cutter, Departing};
use crate::end::Receiver;
use crate::kept::KeptSender;
use crate::polls::{Asleep, Leaving};

/// An end, whatever it owes. It cannot be dropped.
pub enum Held<T: Drop> {
    /// It may owe something for a value that it sent.
    OfSender(KeptSender<T>),
    OfReceiver(Receiver<T>),
    /// It does not sleep, and owes something.
    OfLeaving(Leaving<T>),
    OfAsleep(Asleep<T>),
    /// It goes for good.
    OfDeparting(Departing<T>),
    /// It goes for good, and owes something.
    OfCutter(Cutter<T>),
}

/// The same, and it may be dropped: then nobody pays what it owes, and receivers may sleep beside a value. Who keeps one
/// has to see to that itself.
pub struct Stored<T: Drop> {
    pub held: Held<T>,
}

impl<T: Drop> Stored<T> {
    pub fn new(held: Held<T>) -> Stored<T>
        ensures { result.held ≡ held }
    {
        Stored { held }
    }

    pub fn take(self) -> Held<T>
        ensures { result ≡ self.held }
    {
        let Stored { held } = self;
        held
    }
}

impl<T: Drop> Drop for Stored<T> {
    fn drop(self) {
        match self.take() {
            Held::OfSender(kept) => kept.let_go(),
            Held::OfReceiver(end) => drop(end),
            Held::OfLeaving(Leaving { debtor }) => debtor.let_go(),
            Held::OfAsleep(Asleep { debtor }) => debtor.let_go(),
            Held::OfDeparting(end) => drop(end),
            Held::OfCutter(Cutter { debtor }) => debtor.let_go(),
        }
    }
}

impl<T: Drop> Debtor<T> {
    /// Lets go of an end, whatever it owes.
    fn let_go(self) {
        let Debtor {
            list,
            chair,
            at: _,
            rights: _,
            name: _,
            busy,
            over: _,
        } = self;
        busy.let_go();
        drop(chair);
        drop(list);
    }
}
