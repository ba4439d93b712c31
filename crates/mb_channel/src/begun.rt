//! The two halves of a send and of a receive in a segment.
ghost use Rattle.std.specs.Prelude.{◌≡◌, ◌<◌};
ghost use Rattle.std.specs.Arc.{arc_value};
ghost use Rattle.mb_channel.specs.Begun.{HasBegun};
ghost use Rattle.mb_channel.specs.Wakes.{untold_of};

use crate::busy::{Busy, Debt};
use crate::home::Shared;
use crate::inside::{Inside, rested};
use mb_segment::{Draw, Look, Pass, Wake};

/// A pass that drew a position of its segment and has still to mark it, or that claimed one and has still to read it. Its
/// `debt` is what it owes besides. It cannot be dropped.
pub struct Begun<T: Drop> {
    pub(crate) segment: Shared<T>,
    pub(crate) pass: Pass<T>,
    pub(crate) position: u64,
    pub(crate) debt: Debt,
    ghost same: { pass.seat.table_id ≡ (arc_value segment).table.shared.table_id },
    ghost within: { position < (arc_value segment).size },
    ghost begun: { HasBegun position debt pass },
    ghost told: { untold_of debt ≡ 0 },
}

/// Why no position was drawn or claimed.
#[derive(Clone, Copy, PartialEq, Eq, Debug, Drop)]
pub enum Miss {
    /// Another was first, or a value is being sent.
    Again,
    /// No value is there.
    Empty,
    /// No more can be sent here, or no value can come any more.
    Over,
}

impl<T: Drop> Inside<T> {
    ghost use Rattle.std.specs.Prelude.{true, IfErr, IfOk};
    ghost use Rattle.mb_segment.specs.Moves.{found_empty};
    ghost use Rattle.mb_segment.specs.Vocabulary.{is_over};
    ghost use Rattle.mb_channel.specs.Halves.{HasClaimed, HasDrawn, OfMiss, wakes_at};
    ghost use Rattle.mb_channel.specs.Inside.{SawNothing};
    ghost use Rattle.mb_channel.specs.Wakes.{Tells, wakes_in};
    ghost use Rattle.mb_channel.specs.Work.{IsStill, IsTold, work_in};

    /// Draws a position here for a value.
    #[inline(always)]
    pub(crate) fn draw(self, value: &T) -> Result<Begun<T>, (Inside<T>, Miss)>
        ensures drawn { IfOk result (λ b. HasDrawn value.now (work_in self) b) }
        ensures missed { IfErr result (λ e. IsStill (work_in self) (work_in e.0)
            × OfMiss e.1 (Unit {0}) ⊥ (is_over e.0.pass.seat.me.0 ≡ true)) }
        ensures wakes { IfOk result (λ b. Tells 0 (wakes_in self) (wakes_at b)) }
        ensures told { IfErr result (λ e. Tells 0 (wakes_in self) (wakes_in e.0)) }
    {
        let Inside { segment, pass } = self;
        let mut pass = pass.pass();
        let position = match segment.draw(&mut pass, value) {
            Draw::At(at) => at,
            Draw::Again => return Err((rested(segment, pass), Miss::Again)),
            Draw::Full => return Err((rested(segment, pass), Miss::Over)),
            Draw::Closed => return Err((rested(segment, pass), Miss::Over)),
        };
        if position + 1 == segment.size() {
            return Ok(Begun {
                segment,
                pass,
                position,
                debt: Debt::Tokens,
            });
        }
        Ok(Begun {
            segment,
            pass,
            position,
            debt: Debt::Token,
        })
    }

    /// Claims the next value here.
    #[inline(always)]
    pub(crate) fn claim(self) -> Result<Begun<T>, (Inside<T>, Miss)>
        ensures claimed { IfOk result (λ b. (x : T) × HasClaimed x (work_in self) b) }
        ensures missed { IfErr result (λ e. let v = work_in self in let w = work_in e.0 in
            OfMiss e.1 (IsStill v w) (IsStill v w × SawNothing (found_empty v.pass) w.pass)
            (IsTold v w)) }
        ensures wakes { IfOk result (λ b. Tells 0 (wakes_in self) (wakes_at b)) }
        ensures told { IfErr result (λ e. Tells 0 (wakes_in self) (wakes_in e.0)) }
    {
        let Inside { segment, pass } = self;
        let mut pass = pass.pass();
        match segment.look(&mut pass) {
            Look::Ready(position) => {
                if segment.claim(&mut pass, position) {
                    Ok(Begun {
                        segment,
                        pass,
                        position,
                        debt: Debt::Nothing,
                    })
                } else {
                    Err((rested(segment, pass), Miss::Again))
                }
            }
            Look::Yield => Err((rested(segment, pass), Miss::Again)),
            Look::Empty => Err((rested(segment, pass), Miss::Empty)),
            Look::Over => Err((rested(segment, pass), Miss::Over)),
        }
    }
}

impl<T: Drop> Begun<T> {
    ghost use Rattle.mb_channel.specs.Halves.{IsReading, IsWriting, wakes_at, work_at};
    ghost use Rattle.mb_channel.specs.Wakes.{Tells, wakes_by, wakes_in};
    ghost use Rattle.mb_channel.specs.Work.{IsStill, work_in, work_of};

    /// Marks the position, with the value that it was drawn for. Then it tries to give the token that it owes.
    #[inline(always)]
    pub(crate) fn mark(self, value: T, name: u32) -> Busy<T>
        requires named { self.pass.seat.me.0.account.name ≡ name }
        requires writes { IsWriting value self }
        ensures still { IsStill (work_at self) (work_of result) }
        ensures wakes { Tells 0 (wakes_at self) (wakes_by result) }
    {
        let Begun {
            segment,
            mut pass,
            position,
            debt,
        } = self;
        segment.mark(&mut pass, position, value, name);
        if debt != Debt::Token {
            return Busy {
                segment,
                pass,
                debt,
            };
        }
        let debt = match segment.wake(&mut pass) {
            Wake::Nobody => Debt::Nothing,
            Wake::One => Debt::Thread,
            Wake::Again => Debt::Token,
        };
        Busy {
            segment,
            pass,
            debt,
        }
    }

    /// Reads the value of the position.
    #[inline(always)]
    pub(crate) fn read(self, name: u32) -> (T, Inside<T>)
        requires named { self.pass.seat.me.0.account.name ≡ name }
        requires reads { (x : T) × IsReading x self }
        ensures value { (x : T) → IsReading x self → result.0 ≡ x }
        ensures still { IsStill (work_at self) (work_in result.1) }
        ensures wakes { Tells 0 (wakes_at self) (wakes_in result.1) }
    {
        let Begun {
            segment,
            mut pass,
            position,
            debt: _,
        } = self;
        let value = segment.read(&mut pass, position, name);
        (value, rested(segment, pass))
    }
}
