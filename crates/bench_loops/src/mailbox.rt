//! Mailboxes that threads can share, used by one thread. A producer puts items into each. Then each consumer polls it
//! to its end, or takes until the end, except in `puts`.
ghost use Rattle.mb_mailbox.specs.Consumers.{IsConsumerOf};
ghost use Rattle.mb_mailbox.specs.Hubs.{IsHubOf};
ghost use Rattle.mb_mailbox.specs.Producers.{IsProducerOf};

use crate::choice::Choice;
use mb_mailbox::{Consumer, Hub, HubFault, Mailbox, Poll, Producer, Put};
use rand_core::Rng;
use std::alloc::{AllocError, Allocator};
use std::fmt;

/// The counts of all mailboxes together.
#[derive(Clone, Copy, Debug, Default)]
pub struct Post {
    /// How many items producers put.
    pub items: u64,
    /// How many calls of consumers ended with a note.
    pub notes: u64,
    /// The sum of the items that consumers took.
    pub taken: u64,
}

impl Post {
    /// Counts an item that a consumer took, and its note.
    pub fn add(&mut self, item: u64) {
        self.notes = self.notes.wrapping_add(1);
        self.taken = self.taken.wrapping_add(item);
    }
}

impl fmt::Display for Post {
    fn fmt<W: fmt::Write>(&self, f: &mut fmt::Formatter<W>) -> fmt::Result {
        let Post {
            items,
            notes,
            taken,
        } = self;
        write!(f, "{items} items, {notes} notes, {taken} taken in sum")
    }
}

/// Makes `choice.times` mailboxes with a producer each, which puts this many items, and nothing else.
pub fn puts<A: Allocator + Copy + Drop>(
    alloc: A,
    choice: &Choice,
    items: u64,
) -> Result<Post, AllocError> {
    let mut post = Post::default();
    for time in 0..choice.times {
        let (mailbox, mut hub) = Mailbox::new(alloc, choice.setup.copy())?;
        let put = fill(alloc, &mailbox, &mut hub, items, time, false);
        drop(mailbox);
        drop(hub);
        post.items = post.items.wrapping_add(put?);
    }
    Ok(post)
}

/// Makes and fills `choice.times` mailboxes, one after the other. Each consumer reads each mailbox to its end, by takes
/// or by polls.
// `BY_TAKES` says which. It is a constant, so that a loop of polls has no code of a take.
pub fn mailboxes<A: Allocator + Copy + Drop, R: Rng, const BY_TAKES: bool>(
    alloc: A,
    choice: &Choice,
    rng: &mut R,
) -> Result<Post, AllocError> {
    let mut post = Post::default();
    for time in 0..choice.times {
        let (mailbox, mut hub) = Mailbox::new(alloc, choice.setup.copy())?;
        let put = fill(alloc, &mailbox, &mut hub, choice.setup.cells(), time, true);
        let read = read_all::<A, R, BY_TAKES>(alloc, &mailbox, &mut hub, rng, &mut post);
        drop(mailbox);
        drop(hub);
        post.items = post.items.wrapping_add(put?);
        read?;
    }
    Ok(post)
}

/// Makes a producer, which puts this many items and ends its lane if `ends`. Then it is dropped. Returns how many
/// items were linked.
fn fill<A: Allocator + Copy + Drop>(
    alloc: A,
    mailbox: &Mailbox<A>,
    hub: &mut Hub<A>,
    items: u64,
    time: u64,
    ends: bool,
) -> Result<u64, AllocError>
    requires { IsHubOf mailbox.now hub.old }
    ensures { IsHubOf mailbox.now hub.new }
{
    match hub.producer(alloc, mailbox) {
        Ok(mut producer) => {
            let linked = put_all(mailbox, &mut producer, items, time);
            if ends {
                producer.finish(mailbox);
            }
            drop(producer);
            Ok(linked)
        }
        Err(_) => Err(AllocError),
    }
}

/// Puts this many items: numbers that go on after those of the mailboxes before. Returns how many were linked.
#[inline(always)]
fn put_all<A: Allocator + Drop>(
    mailbox: &Mailbox<A>,
    producer: &mut Producer<A>,
    items: u64,
    time: u64,
) -> u64
    requires belongs { IsProducerOf mailbox.now producer.old }
    ensures belongs { IsProducerOf mailbox.now producer.new }
{
    let first = time.wrapping_mul(items);
    let mut linked = 0u64;
    for number in 0..items {
        if producer.put(mailbox, first.wrapping_add(number)) == Put::Linked {
            linked = linked.wrapping_add(1);
        }
    }
    linked
}

/// Each consumer that the hub can still issue polls the lane, or takes from it, until nothing more comes.
fn read_all<A: Allocator + Copy + Drop, R: Rng, const BY_TAKES: bool>(
    alloc: A,
    mailbox: &Mailbox<A>,
    hub: &mut Hub<A>,
    rng: &mut R,
    post: &mut Post,
) -> Result<(), AllocError>
    requires belongs { IsHubOf mailbox.now hub.old }
{
    for _ in 0..u64::MAX {
        match hub.consumer(alloc, mailbox) {
            Ok(mut consumer) => {
                if BY_TAKES {
                    take(mailbox, &mut consumer, rng, post)
                } else {
                    read(mailbox, &mut consumer, rng, post)
                }
            }
            Err(HubFault::AllGiven) => break,
            Err(HubFault::NoMemory) => return Err(AllocError),
        }
    }
    Ok(())
}

/// A consumer polls the lane until nothing more comes, and its notes are counted.
fn read<A: Allocator + Drop, R: Rng>(
    mailbox: &Mailbox<A>,
    consumer: &mut Consumer<A>,
    rng: &mut R,
    post: &mut Post,
)
    requires belongs { IsConsumerOf mailbox.now consumer.old }
{
    for _ in 0..u64::MAX {
        match consumer.poll(mailbox, 0, u64::MAX, rng) {
            Poll::Took(item) => post.add(item),
            Poll::Lost(_) | Poll::Undecided => post.notes = post.notes.wrapping_add(1),
            Poll::Spent => {}
            Poll::Nothing | Poll::Ended | Poll::NoLane => break,
        }
    }
}

/// A consumer takes until nothing more comes, and its results that have an item are counted.
fn take<A: Allocator + Drop, R: Rng>(
    mailbox: &Mailbox<A>,
    consumer: &mut Consumer<A>,
    rng: &mut R,
    post: &mut Post,
)
    requires belongs { IsConsumerOf mailbox.now consumer.old }
{
    for _ in 0..u64::MAX {
        match consumer.take(mailbox, 0, u64::MAX, rng) {
            Poll::Took(item) => post.add(item),
            Poll::Undecided => post.notes = post.notes.wrapping_add(1),
            Poll::Lost(_) | Poll::Spent => {}
            Poll::Nothing | Poll::Ended | Poll::NoLane => break,
        }
    }
}
