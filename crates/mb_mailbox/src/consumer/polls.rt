//! A poll: the consumer's place, and what it does from there.
use super::moves::{answers_tell_lanes, consumers_move_on, places_tell_steps};
use super::places::place_at;
use super::pursuit::{run_held, run_new};
use super::standing::claims_begin_objects;
use super::{Consumer, Poll};
use crate::mailbox::Mailbox;
use mb_cells::Look;
use mb_cells::laws::looks_tell_links;
use mb_world::Place;
use rand_core::Rng;
use std::alloc::Allocator;

impl<A: Allocator + Drop> Consumer<A> {
    ghost use Rattle.std.specs.Prelude.{◌≡◌, ◌<◌, ◌≤◌, ◌+◌, None, IfSome};
    ghost use Rattle.mb_mailbox.specs.Came.{PollCameTo};
    ghost use Rattle.mb_mailbox.specs.Consumers.{IsConsumerOf};
    ghost use Rattle.mb_mailbox.specs.Jobs.{accesses_made};

    /// Makes accesses on a lane until one has a result, or until it has made as many as the budget allows. Lanes count
    /// from 0. It draws one word from the source for each access of a claim. A claim that the budget cuts short is kept,
    /// and the next poll of the lane goes on with it. The result is [`Poll::Spent`] if the budget is 0, never if it is
    /// at least [`max_steps`](mb_claim::Layout::max_steps) plus 2. [`Poll::NoLane`] comes first, if there is no such
    /// lane, and changes nothing. A poll takes no lock and no memory.
    pub fn poll<B: Allocator + Drop, R: Rng>(
        &mut self,
        mailbox: &Mailbox<B>,
        lane: u64,
        budget: u64,
        rng: &mut R,
    ) -> Poll
        requires belongs { IsConsumerOf mailbox.now self.old }
        ensures came { PollCameTo mailbox.now lane budget result (R.stream rng.old)
            (R.stream rng.new) self.old self.new }
        ensures belongs { IsConsumerOf mailbox.now self.new }
    {
        let mut left = budget;
        match self.lane_of(mailbox, lane) {
            Some(lane) => self.poll_rest::<B, R, false>(mailbox, lane, &mut left, rng),
            None => Poll::NoLane,
        }
    }

    /// The lane of this number, if there is one.
    #[inline(always)]
    pub(super) fn lane_of<B: Allocator + Drop>(
        &self,
        mailbox: &Mailbox<B>,
        lane: u64,
    ) -> Option<u32>
        requires belongs { IsConsumerOf mailbox.now self.now }
        ensures none { result ≡ None → mailbox.now.cells.size.lanes ≤ lane }
        ensures some { IfSome result (λ p. (p ≡ lane) × (p < mailbox.now.cells.size.lanes)) }
    {
        // Only the contract names the mailbox.
        let _ = mailbox;
        if lane >= self.fields.places.len() as u64 {
            return None;
        }
        Some(lane as u32)
    }

    /// A poll of a lane that there is, with the clauses of [`Consumer::poll`]. Its budget is `left`. Afterwards `left`
    /// is what the poll did not use.
    // `IN_TAKE` is true in takes. So polls and takes have copies of their own, and a function with one caller can be
    // inlined.
    #[inline(always)]
    pub(super) fn poll_rest<B: Allocator + Drop, R: Rng, const IN_TAKE: bool>(
        &mut self,
        mailbox: &Mailbox<B>,
        lane: u32,
        left: &mut u64,
        rng: &mut R,
    ) -> Poll
        requires belongs { IsConsumerOf mailbox.now self.old }
        requires lane { lane < mailbox.now.cells.size.lanes }
        ensures came { PollCameTo mailbox.now lane left.old result (R.stream rng.old)
            (R.stream rng.new) self.old self.new }
        ensures left { accesses_made self.new + left.new ≡ accesses_made self.old + left.old }
        ensures belongs { IsConsumerOf mailbox.now self.new }
    {
        if *left == 0 {
            return Poll::Spent;
        }
        consumers_move_on();
        places_tell_steps();
        answers_tell_lanes();
        looks_tell_links();
        claims_begin_objects();
        self.fields.reader.has_history();
        let Consumer { fields } = self;
        let at = match place_at(&fields.places, lane as usize) {
            Place::Before(at) => at,
            Place::At { cell, claim } => {
                let _ = (cell, claim);
                return run_held(fields, mailbox, lane, left, rng);
            }
        };
        *left -= 1;
        let cell = match mailbox.cells.look(&mut fields.reader, at) {
            Look::Nothing => return Poll::Nothing,
            Look::Ended => return Poll::Ended,
            Look::Cell(cell) => cell,
        };

        // The contract of `ClaimSeat::consumer` says that the number is one of the mailbox's. So a claim may begin.
        fields.seat.consumer();
        run_new::<A, B, R, IN_TAKE>(fields, mailbox, lane, cell, left, rng)
    }
}
