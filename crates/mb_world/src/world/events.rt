//! What an event does to a world.
use super::World;
use super::states::calls_leave_states;
use crate::event::{Answer, Event};
use crate::laws::nothing_is_exact;
use mb_claim::laws::layouts_are_sound;
use std::alloc::Allocator;

impl<A: Allocator + Drop> World<A> {
    ghost use Rattle.std.specs.Prelude.{ℕ, ◌≡◌, ◌↔◌, ◌<◌};
    ghost use Rattle.mb_cells.specs.declared.answer.Look.TheVariants as look;
    ghost use Rattle.mb_world.specs.declared.event.Answer.TheVariants.{Looked};
    ghost use Rattle.mb_world.specs.declared.event.Event.TheVariants as event;
    ghost use Rattle.mb_world.specs.declared.event.Event.TheVariants.{Step};
    ghost use Rattle.mb_world.specs.Setups.{plan_in};
    ghost use Rattle.mb_world.specs.World.{WorldHistory};
    ghost use Rattle.mb_world.specs.WorldState.{IsWorldAfter};
    ghost use Rattle.mb_world.specs.Replay.{IsRefused};
    ghost use Rattle.mb_world.specs.Waiting.{HasNothing};
    ghost use Rattle.mb_world.specs.EventSteps.{EventAdds};

    /// Makes the one access that the event asks for, or none if the event is refused. Returns what was done.
    ///
    /// An event is refused by `NoLane` if there is no such lane, and else by `NoConsumer` if there is no such consumer.
    /// Else a producer's event is refused as the same call of [`mb_cells::Pool`] is. A refused event makes no access,
    /// and changes nothing. A lane's first offer that returns `Full` is not refused: it makes its fetch-add.
    ///
    /// The call takes no memory. Its time depends neither on the setup nor on what was done before.
    #[inline]
    pub fn apply(&mut self, event: Event) -> Answer
        // For every lawful history that leaves the world, the event has the answer returned. The new world is left by
        // this history with the event's access, or by the same history if the event has none.
        ensures adds { (h : WorldHistory) → IsWorldAfter h self.old
            → EventAdds event result self.new h }
        ensures setup { self.new.setup ≡ self.old.setup }

        // A step returns that it found nothing exactly if there is nothing for its consumer on its lane.
        ensures nothing { (h : WorldHistory) (c p word : ℕ) → IsWorldAfter h self.old
            → event ≡ Step c p word
            → (result ≡ Looked look.Nothing) ↔ HasNothing (plan_in self.old.setup) c p h }

        // A refused event changes nothing.
        ensures kept { (h : WorldHistory) → IsWorldAfter h self.old
            → IsRefused (plan_in self.old.setup) event result h → self.new ≡ self.old }
    {
        layouts_are_sound();
        nothing_is_exact();
        match event {
            Event::Offer { lane, item } => {
                if lane < self.setup.producers() {
                    self.offer(lane as u32, item)
                } else {
                    Answer::NoLane
                }
            }
            Event::Push { lane } => {
                if lane < self.setup.producers() {
                    self.push(lane as u32)
                } else {
                    Answer::NoLane
                }
            }
            Event::Finish { lane } => {
                if lane < self.setup.producers() {
                    self.finish(lane as u32)
                } else {
                    Answer::NoLane
                }
            }
            Event::Step {
                consumer,
                lane,
                word,
            } => {
                if lane >= self.setup.producers() {
                    Answer::NoLane
                } else if consumer >= self.setup.consumers() {
                    Answer::NoConsumer
                } else {
                    self.step(consumer as u32, lane as u32, word)
                }
            }
        }
    }

    /// The producer of lane `p` takes a cell for the item.
    #[inline(always)]
    fn offer(&mut self, p: u32, item: u64) -> Answer
        requires { p < (plan_in self.old.setup).lanes }
        ensures adds { (h : WorldHistory) → IsWorldAfter h self.old
            → EventAdds (event.Offer p item) result self.new h }
        ensures setup { self.new.setup ≡ self.old.setup }
        ensures kept { (h : WorldHistory) → IsWorldAfter h self.old
            → IsRefused (plan_in self.old.setup) (event.Offer p item) result h
            → self.new ≡ self.old }
    {
        calls_leave_states();
        Answer::Offered(self.pool.offer(p, item))
    }

    /// The producer of lane `p` stores the item that it offered, or links its cell.
    #[inline(always)]
    fn push(&mut self, p: u32) -> Answer
        requires { p < (plan_in self.old.setup).lanes }
        ensures adds { (h : WorldHistory) → IsWorldAfter h self.old
            → EventAdds (event.Push p) result self.new h }
        ensures setup { self.new.setup ≡ self.old.setup }
        ensures kept { (h : WorldHistory) → IsWorldAfter h self.old
            → IsRefused (plan_in self.old.setup) (event.Push p) result h → self.new ≡ self.old }
    {
        calls_leave_states();
        Answer::Pushed(self.pool.push(p))
    }

    /// The producer of lane `p` stores the end mark.
    #[inline(always)]
    fn finish(&mut self, p: u32) -> Answer
        requires { p < (plan_in self.old.setup).lanes }
        ensures adds { (h : WorldHistory) → IsWorldAfter h self.old
            → EventAdds (event.Finish p) result self.new h }
        ensures setup { self.new.setup ≡ self.old.setup }
        ensures kept { (h : WorldHistory) → IsWorldAfter h self.old
            → IsRefused (plan_in self.old.setup) (event.Finish p) result h
            → self.new ≡ self.old }
    {
        calls_leave_states();
        Answer::Finished(self.pool.finish(p))
    }
}
