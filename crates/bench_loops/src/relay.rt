//! A mailbox that threads can share, used by one thread. Each item is put, and polled before the next one is put.
ghost use Rattle.mb_mailbox.specs.Consumers.{IsConsumerOf};
ghost use Rattle.mb_mailbox.specs.Hubs.{IsHubOf};
ghost use Rattle.mb_mailbox.specs.Producers.{IsProducerOf};

use crate::choice::Choice;
use crate::mailbox::Post;
use mb_mailbox::{Consumer, Hub, Mailbox, Poll, Producer, Put};
use rand_core::Rng;
use std::alloc::{AllocError, Allocator};

/// Passes `choice.times` items through one mailbox. One of its consumers polls.
pub fn relay<A: Allocator + Copy + Drop, R: Rng>(
    alloc: A,
    choice: &Choice,
    rng: &mut R,
) -> Result<Post, AllocError> {
    let mut post = Post::default();
    let (mailbox, mut hub) = Mailbox::new(alloc, choice.setup.copy())?;
    let passed = pass_all(alloc, &mailbox, &mut hub, choice.times, rng, &mut post);
    drop(mailbox);
    drop(hub);
    passed?;
    Ok(post)
}

/// Passes this many items, from 0 on, from a new producer to a new consumer. Then both are dropped.
fn pass_all<A: Allocator + Copy + Drop, R: Rng>(
    alloc: A,
    mailbox: &Mailbox<A>,
    hub: &mut Hub<A>,
    items: u64,
    rng: &mut R,
    post: &mut Post,
) -> Result<(), AllocError>
    requires { IsHubOf mailbox.now hub.old }
{
    let mut producer = match hub.producer(alloc, mailbox) {
        Ok(producer) => producer,
        Err(_) => return Err(AllocError),
    };
    let passed = match hub.consumer(alloc, mailbox) {
        Ok(mut consumer) => {
            pass(mailbox, &mut producer, &mut consumer, items, rng, post);
            drop(consumer);
            Ok(())
        }
        Err(_) => Err(AllocError),
    };
    drop(producer);
    passed
}

/// Passes this many items, from 0 on, from the producer to the consumer: each is put, and polled for once.
#[inline(always)]
fn pass<A: Allocator + Drop, R: Rng>(
    mailbox: &Mailbox<A>,
    producer: &mut Producer<A>,
    consumer: &mut Consumer<A>,
    items: u64,
    rng: &mut R,
    post: &mut Post,
)
    requires producer { IsProducerOf mailbox.now producer.old }
    requires consumer { IsConsumerOf mailbox.now consumer.old }
{
    for item in 0..items {
        if producer.put(mailbox, item) == Put::Linked {
            post.items = post.items.wrapping_add(1);
        }
        if let Poll::Took(taken) = consumer.poll(mailbox, 0, u64::MAX, rng) {
            post.add(taken);
        }
    }
}
