//! The crew: who puts jobs, who runs them, and who reports progress. Each has a thread of its own,
//! if threads can be started.
ghost use Rattle.std.specs.Prelude.{All, IfOk, OnOk};
ghost use Rattle.mb_mailbox.specs.Consumers.{IsConsumerOf};
ghost use Rattle.mb_mailbox.specs.Hubs.{IsHubOf};
ghost use Rattle.mb_mailbox.specs.Producers.{IsProducerOf};
ghost use Rattle.example_jobs.specs.Crew.{IsOf};

use crate::asked::{Asked, MAX_LANES};
use crate::board::Board;
use crate::progress::tell;
use anyhow::Result;
use mb_mailbox::{Consumer, Hub, Mailbox, Poll, Producer, Put};
use rand::{SeedableRng, make_rng};
use rand_chacha::ChaCha8Rng;
use std::alloc::Global;
use std::random::RandomSource;
use std::thread::yield_now;
use std::time::Clock;

/// The most accesses that a worker makes on a lane before it goes to the next.
const BUDGET: u64 = 64;

/// A member of the crew.
#[derive(Drop)]
pub enum Member {
    /// Puts the jobs from the first of these numbers on and below the second.
    Producer(Producer<Global>, (u64, u64)),
    /// Takes jobs, from this lane on, with random words from this source.
    Worker(Consumer<Global>, ChaCha8Rng, usize),
    /// Reports progress.
    Teller,
}

impl Member {
    /// Does all that the member has to do.
    pub fn work<R: Clock + Eprint>(
        &mut self,
        rt: &R,
        mailbox: &Mailbox<Global>,
        board: &Board,
        asked: &Asked,
    )
        requires belongs { IsOf mailbox.now self.old }
        ensures belongs { IsOf mailbox.now self.new }
    {
        match self {
            Member::Producer(producer, jobs) => put_jobs(mailbox, producer, *jobs),
            Member::Worker(consumer, source, first) => {
                run_jobs(mailbox, consumer, source, *first, board, asked);
                board.go_home();
            }
            Member::Teller => tell(rt, board),
        }
    }
}

/// Puts the jobs of one producer in their order, and then ends its lane, so that workers know that no job follows.
fn put_jobs(mailbox: &Mailbox<Global>, producer: &mut Producer<Global>, jobs: (u64, u64))
    requires belongs { IsProducerOf mailbox.now producer.old }
    ensures belongs { IsProducerOf mailbox.now producer.new }
{
    for job in jobs.0..jobs.1 {
        match producer.put(mailbox, job) {
            // Every worker can find the job from now on.
            Put::Linked => {}
            // There is no cell left, now and for ever. The job is not in the mailbox, so it is still the producer's.
            // `Closed` does not occur, since the lane is ended only after this loop.
            Put::Full | Put::Closed => break,
        }
    }
    producer.finish(mailbox);
}

/// Takes jobs until each lane has ended or the shift is over, and runs those that it takes. It goes round the lanes,
/// from lane `first` on: fewer workers meet on a lane if each begins on another one.
fn run_jobs(
    mailbox: &Mailbox<Global>,
    consumer: &mut Consumer<Global>,
    source: &mut ChaCha8Rng,
    first: usize,
    board: &Board,
    asked: &Asked,
)
    requires belongs { IsConsumerOf mailbox.now consumer.old }
    ensures belongs { IsConsumerOf mailbox.now consumer.new }
{
    let lanes = asked.lanes();
    let shift = asked.shift();
    let mut ended = [false; MAX_LANES];
    let mut open = lanes;
    let mut lane = if first < lanes { first } else { 0 };
    let mut taken = 0;
    // Rattle wants every loop to end. This one would, after more passes than anybody lives to see.
    for turn in 0..u64::MAX {
        if taken == shift || open == 0 {
            break;
        }
        if !ended[lane] {
            match consumer.poll(mailbox, lane as u64, BUDGET, source) {
                // This worker has won the job, and nobody else ever will. If it stops before it has run the job, nobody
                // runs it: at most once is not exactly once.
                Poll::Took(job) => {
                    board.run(job);
                    taken += 1;
                }
                // Only the worker of this number can win the job, so there is nothing to do here.
                Poll::Lost(_) => {}
                // This worker does not know who has won the job, if anybody has. It must not run it: the report will
                // say.
                Poll::Undecided => {}
                // The budget is used up. The consumer keeps its claim, and the next poll of the lane goes on with it.
                Poll::Spent => {}
                // No further job is linked yet: time for something else, such as the next lane.
                Poll::Nothing => yield_now(),
                // No further job comes on this lane. `NoLane` does not occur, since there are as many lanes as
                // producers.
                Poll::Ended | Poll::NoLane => {
                    ended[lane] = true;
                    open = open.saturating_sub(1);
                }
            }
        }
        lane = if lane + 1 < lanes { lane + 1 } else { 0 };
    }
}

/// Makes the next worker, with a consumer of the mailbox and random words of its own.
fn new_worker<R: RandomSource + AllocGlobal>(
    rt: &R,
    mailbox: &Mailbox<Global>,
    hub: &mut Hub<Global>,
    asked: &Asked,
    number: u64,
) -> Result<Member>
    requires belongs { IsHubOf mailbox.now hub.old }
    ensures hub { OnOk result (IsHubOf mailbox.now hub.new) }
    ensures member { IfOk result (λ member. IsOf mailbox.now member) }
{
    let consumer = hub.consumer(rt.alloc(), mailbox)?;
    let source = match asked.seed {
        Some(seed) => ChaCha8Rng::seed_from_u64(seed.wrapping_add(number)),
        None => make_rng(rt)?,
    };
    Ok(Member::Worker(consumer, source, asked.first_lane(number)))
}

/// Hires all producers and workers of the mailbox, and a teller if `tells` holds. The producers come first: if no
/// thread can be started, one member works after the other, and the producers have to be done before the workers.
pub fn hire<R: RandomSource + AllocGlobal>(
    rt: &R,
    mailbox: &Mailbox<Global>,
    hub: &mut Hub<Global>,
    asked: &Asked,
    tells: bool,
) -> Result<Vec<Member>>
    requires belongs { IsHubOf mailbox.now hub.old }
    ensures hub { OnOk result (IsHubOf mailbox.now hub.new) }
    ensures crew { IfOk result (λ crew. All (IsOf mailbox.now) crew.items) }
{
    let mut crew = Vec::new(rt.alloc());
    for number in 0..asked.producers {
        let producer = hub.producer(rt.alloc(), mailbox)?;
        crew.push(Member::Producer(producer, asked.jobs_of(number)))?;
    }
    for worker in 0..asked.workers {
        crew.push(new_worker(rt, mailbox, hub, asked, worker)?)?;
    }
    if tells {
        crew.push(Member::Teller)?;
    }
    Ok(crew)
}

/// Returns all producers and consumers to the hub.
pub fn take_in(mailbox: &Mailbox<Global>, hub: &mut Hub<Global>, crew: Vec<Member>)
    requires hub { IsHubOf mailbox.now hub.old }
    requires crew { All (IsOf mailbox.now) crew.items }
    ensures hub { IsHubOf mailbox.now hub.new }
{
    for member in crew {
        match member {
            Member::Producer(producer, _) => hub.take_producer(mailbox, producer),
            Member::Worker(consumer, _, _) => hub.take_consumer(mailbox, consumer),
            Member::Teller => {}
        }
    }
}
