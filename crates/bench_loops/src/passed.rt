//! Mailboxes used by one thread, in which each consumer takes once after each put.
use crate::choice::Choice;
use crate::mailbox::Post;
use mb_bound::BoundHub;
use mb_mailbox::{Poll, Put};
use rand_core::Rng;
use std::alloc::{AllocError, Allocator};

/// Makes `choice.times` mailboxes, and puts an item for each cell. After each put each consumer takes once.
pub fn passed<A: Allocator + Copy + Drop, R: Rng>(
    alloc: A,
    choice: &Choice,
    rng: &mut R,
) -> Result<Post, AllocError> {
    let mut post = Post::default();
    for time in 0..choice.times {
        let hub = BoundHub::new(alloc, 0, choice.setup.copy())?;
        pass_all(alloc, hub, choice.setup.cells(), time, rng, &mut post)?;
    }
    Ok(post)
}

/// A new producer puts this many items, and after each put each new consumer takes once. The items are numbers, and go
/// on after those of the mailboxes before.
fn pass_all<A: Allocator + Copy + Drop, R: Rng>(
    alloc: A,
    mut hub: BoundHub<A>,
    items: u64,
    time: u64,
    rng: &mut R,
    post: &mut Post,
) -> Result<(), AllocError> {
    let Ok(mut producer) = hub.producer(alloc) else {
        return Err(AllocError);
    };
    let mut consumers = Vec::new(alloc);
    for _ in 0..hub.consumers_left() {
        match hub.consumer(alloc) {
            Ok(consumer) => consumers.push(consumer)?,
            Err(_) => return Err(AllocError),
        }
    }
    let first = time.wrapping_mul(items);
    for number in 0..items {
        if producer.put(first.wrapping_add(number)) == Put::Linked {
            post.items = post.items.wrapping_add(1);
        }
        for consumer in consumers.as_mut_slice() {
            if let Poll::Took(item) = consumer.take(0, u64::MAX, rng) {
                post.add(item);
            }
        }
    }
    Ok(())
}
