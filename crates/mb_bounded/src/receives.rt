//! The calls that receive.
ghost use Rattle.std.specs.Prelude.{IfNone, IfSome, None, true, ◌≡◌};
ghost use Rattle.mb_ring.specs.Vocabulary.{OfFound, OfReceived, SawEmpty};
ghost use Rattle.mb_ring.specs.declared.receives.Found.TheVariants.{Over as NoneCanCome};
ghost use Rattle.mb_segment.specs.declared.waiting.Received.TheVariants.{Over};
ghost use Rattle.mb_bounded.specs.Ends.{IsOver, IsSame, NoMore, OneGot, view_of};

use crate::end::Receiver;
use mb_ring::Found;
use mb_segment::Received;
use std::sync::Wait;
use std::time::{Clock, Instant};

impl<T: Drop> Receiver<T> {
    /// Receives the first value, if one waits. [`Found::Empty`] is told only if none waited at a moment of this call. It
    /// does not sleep, but yields while the next value is being written.
    pub fn try_receive<R: Wait>(&mut self, rt: &R) -> Found<T>
        ensures end { IsSame self.old.end self.new.end }
        ensures answer { OfFound result
            (λ x. OneGot x (view_of self.old.end) (view_of self.new.end))
            (SawEmpty (view_of self.old.end) (view_of self.new.end)
            × NoMore (view_of self.old.end) (view_of self.new.end))
            (IsOver self.new × NoMore (view_of self.old.end) (view_of self.new.end)) }
        ensures told { self.old.over ≡ true → (result ≡ NoneCanCome) × (self.new ≡ self.old) }
    {
        if self.over {
            return Found::Over;
        }
        let end = &mut self.end;
        match end.hall.ring.try_receive(rt, &mut end.pass) {
            Found::Value(value) => Found::Value(value),
            Found::Empty => Found::Empty,
            Found::Over => {
                self.over = true;
                Found::Over
            }
        }
    }

    /// Receives the first value that waits, and sleeps until there is one. `None` only if none can come any more.
    pub fn receive<R: Wait>(&mut self, rt: &R) -> Option<T>
        ensures end { IsSame self.old.end self.new.end }
        ensures got { IfSome result (λ x. OneGot x (view_of self.old.end) (view_of self.new.end)) }
        ensures over { IfNone result (IsOver self.new
            × NoMore (view_of self.old.end) (view_of self.new.end)) }
        ensures told { self.old.over ≡ true → (result ≡ None) × (self.new ≡ self.old) }
    {
        if self.over {
            return None;
        }
        let end = &mut self.end;
        match end.hall.ring.receive(rt, &mut end.pass) {
            Some(value) => Some(value),
            None => {
                self.over = true;
                None
            }
        }
    }

    /// The same until a deadline. [`Received::TimedOut`] if that comes first, or if there is no clock. While the next
    /// value is being written, it goes on past the deadline.
    pub fn receive_by<R: Wait + Clock>(&mut self, rt: &R, deadline: Instant) -> Received<T>
        ensures end { IsSame self.old.end self.new.end }
        ensures answer { OfReceived result
            (λ x. OneGot x (view_of self.old.end) (view_of self.new.end))
            (IsOver self.new × NoMore (view_of self.old.end) (view_of self.new.end))
            (SawEmpty (view_of self.old.end) (view_of self.new.end)
            × NoMore (view_of self.old.end) (view_of self.new.end)) }
        ensures told { self.old.over ≡ true → (result ≡ Over) × (self.new ≡ self.old) }
    {
        if self.over {
            return Received::Over;
        }
        let end = &mut self.end;
        match end.hall.ring.receive_by(rt, &mut end.pass, deadline) {
            Received::Value(value) => Received::Value(value),
            Received::TimedOut => Received::TimedOut,
            Received::Over => {
                self.over = true;
                Received::Over
            }
        }
    }
}
