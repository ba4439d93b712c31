//! An item that one thread puts, another reads at once, over one mailbox behind a `&`.
ghost use Rattle.mb_mailbox.specs.Consumers.{IsConsumerOf};
ghost use Rattle.mb_mailbox.specs.Hubs.{IsHubOf};
ghost use Rattle.mb_mailbox.specs.Producers.{IsProducerOf};

use crate::compare::same;
use crate::trials::reads;
use mb_mailbox::{Consumer, Hub, Mailbox, Poll, Producer, Put};
use mb_quorum::TableName;
use mb_world::{Report, Setup};
use std::alloc::Global;
use std::process::Abort;
use std::thread::{Threads, join};
use test_support::Zeros;

/// The report of a mailbox whose producers and consumers were all returned. If one was not, the test fails.
fn gathered(
    rt: &impl Abort,
    alloc: Global,
    mailbox: Mailbox<Global>,
    hub: Hub<Global>,
) -> Report<Global>
    requires { IsHubOf mailbox hub }
{
    match mailbox.gather(alloc, hub) {
        Ok(report) => report,
        Err(_) => rt.panic("no report"),
    }
}

/// Puts an item in another thread. Returns the producer and the result of the put.
fn put_elsewhere<R: Threads + Sync>(
    rt: &R,
    mailbox: &Mailbox<Global>,
    producer: Producer<Global>,
    x: u64,
) -> (Producer<Global>, Put)
    requires { IsProducerOf mailbox.now producer }
    ensures { IsProducerOf mailbox.now result.0 }
{
    let (put, ()) = join(
        rt,
        || -> (Producer<Global>, Put)
            requires { IsProducerOf mailbox.now producer }
            ensures { IsProducerOf mailbox.entry.now result.0 }
        { put_one(mailbox, producer, x) },
        || (),
    );
    put
}

/// Puts an item in this thread. Returns the producer and the result of the put.
fn put_one(
    mailbox: &Mailbox<Global>,
    mut producer: Producer<Global>,
    x: u64,
) -> (Producer<Global>, Put)
    requires { IsProducerOf mailbox.now producer }
    ensures { IsProducerOf mailbox.now result.0 }
{
    let put = producer.put(mailbox, x);
    (producer, put)
}

/// The hub issues a producer and a consumer.
fn give_both(
    rt: &impl Abort,
    alloc: Global,
    mailbox: &Mailbox<Global>,
    hub: &mut Hub<Global>,
) -> (Producer<Global>, Consumer<Global>)
    requires { IsHubOf mailbox.now hub.old }
    ensures hub { IsHubOf mailbox.now hub.new }
    ensures producer { IsProducerOf mailbox.now result.0 }
    ensures consumer { IsConsumerOf mailbox.now result.1 }
{
    let producer = hub.producer(alloc, mailbox).expect(rt, "no producer");
    let consumer = hub.consumer(alloc, mailbox).expect(rt, "no consumer");
    (producer, consumer)
}

/// Checks that an item put by another thread is taken by the next poll, and that the poll after it finds nothing.
fn is_read_back<R: Threads + Sync + Abort>(
    rt: &R,
    mailbox: &Mailbox<Global>,
    producer: Producer<Global>,
    consumer: &mut Consumer<Global>,
    x: u64,
) -> Producer<Global>
    requires producer { IsProducerOf mailbox.now producer }
    requires consumer { IsConsumerOf mailbox.now consumer.old }
    ensures producer { IsProducerOf mailbox.now result }
    ensures consumer { IsConsumerOf mailbox.now consumer.new }
{
    let (producer, put) = put_elsewhere(rt, mailbox, producer, x);
    let mut words = Zeros::default();
    let first = consumer.poll(mailbox, 0, 100, &mut words);
    let second = consumer.poll(mailbox, 0, 100, &mut words);
    same(
        rt,
        &(put, first, second),
        &(Put::Linked, Poll::Took(x), Poll::Nothing),
    );
    producer
}

/// Puts four items and reads each back before the next. Then the hub takes the producer and the consumer back.
fn read_back_four<R: Abort + Threads + Sync>(
    rt: &R,
    alloc: Global,
    mailbox: &Mailbox<Global>,
    hub: &mut Hub<Global>,
)
    requires { IsHubOf mailbox.now hub.old }
    ensures { IsHubOf mailbox.now hub.new }
{
    let (producer, mut consumer) = give_both(rt, alloc, mailbox, hub);
    let producer = is_read_back(rt, mailbox, producer, &mut consumer, 1);
    let producer = is_read_back(rt, mailbox, producer, &mut consumer, 2);
    let producer = is_read_back(rt, mailbox, producer, &mut consumer, 3);
    let producer = is_read_back(rt, mailbox, producer, &mut consumer, 4);
    take_both(mailbox, hub, producer, consumer);
}

#[test]
fn each_item_is_read_back_at_once(rt: HostRuntime) {
    let setup = Setup::new(1, 1, 4, 1, TableName::Bits).expect(&rt, "no setup");
    let (mailbox, mut hub) = Mailbox::new(rt.alloc(), setup).expect(&rt, "no mailbox");
    read_back_four(&rt, rt.alloc(), &mailbox, &mut hub);
    let report = gathered(&rt, rt.alloc(), mailbox, hub);
    let want = "lane 0 open put 1 2 3 4\nleft 0\ndiary 0 0 took 1 took 2 took 3 took 4\n";
    reads(&rt, rt.alloc(), report, want);
}

/// Returns a producer and a consumer to the hub.
fn take_both(
    mailbox: &Mailbox<Global>,
    hub: &mut Hub<Global>,
    producer: Producer<Global>,
    consumer: Consumer<Global>,
)
    requires hub { IsHubOf mailbox.now hub.old }
    requires producer { IsProducerOf mailbox.now producer }
    requires consumer { IsConsumerOf mailbox.now consumer }
    ensures { IsHubOf mailbox.now hub.new }
{
    hub.take_producer(mailbox, producer);
    hub.take_consumer(mailbox, consumer);
}
