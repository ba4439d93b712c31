//! A producer puts an item, and two consumers compete for it.
#![tactic(auto)]

use anyhow::Result;
use mb_mailbox::{Mailbox, Poll, Put};
use mb_quorum::TableName;
use mb_script::report_text;
use mb_world::{Report, Setup};
use rand::make_rng;
use rand_chacha::ChaCha8Rng;
use std::alloc::Global;

fn main(rt: HostRuntime) -> Result<()> {
    let mut source: ChaCha8Rng = make_rng(&rt)?;
    // One producer, two consumers, four cells with four pairs of deciding objects each, over the table of bits.
    let (mailbox, mut hub) = Mailbox::new(rt.alloc(), Setup::new(1, 2, 4, 4, TableName::Bits)?)?;
    let mut producer = hub.producer(rt.alloc(), &mailbox)?;
    let mut one = hub.consumer(rt.alloc(), &mailbox)?;
    let mut two = hub.consumer(rt.alloc(), &mailbox)?;

    // Each of the three may run in a thread of its own. Here one comes after the other. Lane 0 is the first producer's.
    let put = producer.put(&mailbox, 7);
    let first = one.poll(&mailbox, 0, 1000, &mut source);
    let second = two.poll(&mailbox, 0, 1000, &mut source);

    // The hub takes back what it issued. Then `gather` ends the mailbox and returns the report.
    hub.take_producer(&mailbox, producer);
    hub.take_consumer(&mailbox, one);
    hub.take_consumer(&mailbox, two);
    let report = mailbox.gather(rt.alloc(), hub).map_err(|(why, _, _)| why)?;
    tell(&rt, put, first, second, &report)
}

/// Prints the results of the put and the polls, and the report.
fn tell<R: AllocGlobal + Print>(
    rt: &R,
    put: Put,
    first: Poll,
    second: Poll,
    report: &Report<Global>,
) -> Result<()> {
    let text = report_text(rt.alloc(), report)?;
    print!(rt; "{put:?}\n{first:?}\n{second:?}\n{text}")?;
    Ok(())
}
