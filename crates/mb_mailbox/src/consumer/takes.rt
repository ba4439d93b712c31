//! A take: polls of a lane one after another, past the items that are lost.
use super::passing::pass;
use super::places::place_at;
use super::{Consumer, Poll};
use crate::laws::takes_are_short;
use crate::mailbox::Mailbox;
use mb_world::Place;
use rand_core::Rng;
use std::alloc::Allocator;

impl<A: Allocator + Drop> Consumer<A> {
    ghost use Rattle.std.specs.Prelude.{◌≡◌, ◌+◌, ◌<◌};
    ghost use Rattle.mb_mailbox.specs.Came.{HasGonePast, PollCameTo, TakeCameTo};
    ghost use Rattle.mb_mailbox.specs.Consumers.{IsConsumerOf};
    ghost use Rattle.mb_mailbox.specs.Jobs.{accesses_made};

    /// Makes accesses on a lane until one has a result that is no loss, or until it has made `most` of them. It goes on
    /// past items that it loses, and each of them gets its note. A take is calls of [`Consumer::poll`], each with what
    /// is left of `most`, up to the first that does not return [`Poll::Lost`]. It returns what that call returns, so it
    /// never returns `Lost`. [`Poll::Spent`] comes only after `most` accesses. [`Poll::NoLane`] comes first, if there
    /// is no such lane, and changes nothing. It takes no lock and no memory.
    ///
    /// An item that is lost takes one access for its link and at most [`max_steps`](mb_claim::Layout::max_steps) for
    /// its claim. An item that is taken takes one more. So a take is never `Spent` if `most` is above `max_steps` plus 1
    /// times the number of cells plus 1.
    #[inline(always)]
    pub fn take<B: Allocator + Drop, R: Rng>(
        &mut self,
        mailbox: &Mailbox<B>,
        lane: u64,
        most: u64,
        rng: &mut R,
    ) -> Poll
        requires belongs { IsConsumerOf mailbox.now self.old }
        ensures came { TakeCameTo mailbox.now lane most result (R.stream rng.old) (R.stream rng.new)
            self.old self.new }
        ensures belongs { IsConsumerOf mailbox.now self.new }
    {
        let Some(lane) = self.lane_of(mailbox, lane) else {
            return Poll::NoLane;
        };
        takes_are_short();
        let mut left = most;
        'items: loop {
            if let Some(answer) = self.pass_lost(mailbox, lane, &mut left, rng) {
                self.keeps_its_parts();
                return answer;
            }
            // A copy goes in, so that `left` itself can stay in a register.
            let mut rest = left;
            match self.poll_apart(mailbox, lane, &mut rest, rng) {
                Poll::Lost(_) => left = rest,
                answer => {
                    self.keeps_its_parts();
                    return answer;
                }
            }
        }
    }

    /// A poll with the clauses of [`Consumer::poll_rest`], as a call of its own, so that the rest of a take is short.
    #[inline(never)]
    fn poll_apart<B: Allocator + Drop, R: Rng>(
        &mut self,
        mailbox: &Mailbox<B>,
        lane: u32,
        left: &mut u64,
        rng: &mut R,
    ) -> Poll
        requires belongs { IsConsumerOf mailbox.now self.old }
        requires lane { lane < mailbox.now.cells.size.lanes }
        ensures came { PollCameTo mailbox.now lane left.old result (R.stream rng.old)
            (R.stream rng.new) self.old self.new }
        ensures left { accesses_made self.new + left.new ≡ accesses_made self.old + left.old }
        ensures belongs { IsConsumerOf mailbox.now self.new }
    {
        self.poll_rest::<B, R, true>(mailbox, lane, left, rng)
    }

    /// Goes past items that it loses, if each cell has a last object alone and no claim is held on the lane. Stops if
    /// fewer than three accesses are left. If a poll comes to an answer that is no loss, it returns that answer.
    #[inline(always)]
    fn pass_lost<B: Allocator + Drop, R: Rng>(
        &mut self,
        mailbox: &Mailbox<B>,
        lane: u32,
        left: &mut u64,
        rng: &mut R,
    ) -> Option<Poll>
        requires belongs { IsConsumerOf mailbox.now self.old }
        requires lane { lane < mailbox.now.cells.size.lanes }
        ensures gone { HasGonePast lane left.old left.new result (R.stream rng.old)
            (R.stream rng.new) self.old self.new }
        ensures belongs { IsConsumerOf mailbox.now self.new }
    {
        if !mailbox.claims.layout().is_alone() {
            return None;
        }
        let Consumer { fields } = self;
        let Place::Before(at) = place_at(&fields.places, lane as usize) else {
            return None;
        };
        pass(fields, mailbox, lane, at, left, rng)
    }
}
