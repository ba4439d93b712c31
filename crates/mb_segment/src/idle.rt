//! A pass that owes nothing, which can be moved to another thread, and dropped.
ghost use Rattle.std.specs.Prelude.{[], ◌≡◌};
ghost use Rattle.mb_segment.specs.Moves.{IsCalm};
ghost use Rattle.mb_segment.specs.Seats.{IsFree};

use crate::segment::Pass;
use crate::view::View;
use atomic_table::Seat;

/// A pass that owes nothing, has nothing begun, and is not in the list. If it is dropped, it never comes back to the
/// hub, which cannot end the segment then.
#[derive(Drop)]
pub struct Idle<T> {
    pub(crate) seat: Seat<Option<T>, View<T>>,
    ghost calm: { IsCalm seat.me.0 },
    ghost nothing: { seat.me.1 ≡ [] },
}

impl<T> Pass<T> {
    /// Lets go of a pass, whatever it owes. Nobody pays that: a receiver may then sleep beside a value. It is for the
    /// drop of an owner that can keep no linear value, as a handle of C.
    pub fn let_go(self) {
        let Pass { seat } = self;
        drop(seat);
    }

    /// The pass at rest.
    pub fn rest(self) -> Idle<T>
        requires free { IsFree self }
        ensures { result.seat ≡ self.seat }
    {
        let Pass { seat } = self;
        Idle { seat }
    }
}

impl<T> Idle<T> {
    /// The pass, at work again.
    pub fn pass(self) -> Pass<T>
        ensures same { result.seat ≡ self.seat }
        ensures free { IsFree result }
    {
        let Idle { seat } = self;
        Pass { seat }
    }
}
