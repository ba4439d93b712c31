//! Threads that make ends of a channel with a bound at random, give them back or drop them, and send and receive in each
//! of the ways.
ghost use Rattle.std.specs.Prelude.{◌<◌};

use mb_bounded::{Found, Received, Receiver, Sender, bounded};
use std::alloc::{AllocError, Global};
use std::process::Abort;
use std::sync::Wait;
use std::test::Fail;
use std::thread;
use std::thread::{Threads, join};
use std::time::{Clock, Duration, Instant};

/// How many values each thread tries to send.
const MANY: u64 = 20_000;

/// Numbers that look random, all from one seed.
#[derive(Drop)]
struct Draws {
    state: u64,
}

impl Draws {
    fn next(&mut self, below: u64) -> u64
        requires { 0 < below }
    {
        self.state = self
            .state
            .wrapping_mul(6_364_136_223_846_793_005)
            .wrapping_add(1_442_695_040_888_963_407);
        (self.state >> 33) % below
    }
}

/// How many values went through, and their sum.
#[derive(Clone, Copy, PartialEq, Eq, Drop)]
struct Sum {
    count: u64,
    total: u64,
}

impl Sum {
    fn add(&mut self, count: u64, total: u64) {
        self.count = self.count.wrapping_add(count);
        self.total = self.total.wrapping_add(total);
    }
}

/// Twenty microseconds from now.
fn soon<R: Clock>(rt: &R) -> Option<Instant> {
    let now = Instant::now(rt).ok()?;
    now.checked_add(Duration::from_micros(20))
}

/// Sends a value, or gives up. Returns whether it was sent.
fn send_one<R: Wait + Clock>(rt: &R, sender: &mut Sender<u64>, way: u64, value: u64) -> bool {
    let sent = match (way, soon(rt)) {
        (0, _) => sender.try_send(rt, value),
        (1, Some(deadline)) => sender.send_by(rt, value, deadline),
        _ => sender.send(rt, value),
    };
    sent.is_ok()
}

/// Receives a value, or gives up. The error says that none can come any more.
fn receive_one<R: Wait + Clock>(
    rt: &R,
    receiver: &mut Receiver<u64>,
    way: u64,
) -> Result<Option<u64>, ()> {
    match (way, soon(rt)) {
        (0, _) => match receiver.try_receive(rt) {
            Found::Value(value) => Ok(Some(value)),
            Found::Empty => Ok(None),
            Found::Over => Err(()),
        },
        (1, Some(deadline)) => match receiver.receive_by(rt, deadline) {
            Received::Value(value) => Ok(Some(value)),
            Received::TimedOut => Ok(None),
            Received::Over => Err(()),
        },
        _ => match receiver.receive(rt) {
            Some(value) => Ok(Some(value)),
            None => Err(()),
        },
    }
}

/// Sends by this end, and by others that it makes. Returns what was sent.
fn send_many<R: Wait + Clock>(rt: &R, sender: Sender<u64>, seed: u64) -> Sum {
    let mut sender = sender;
    let mut draws = Draws { state: seed };
    let mut sum = Sum { count: 0, total: 0 };
    for number in 0..MANY {
        let value = seed.wrapping_mul(1_000_000).wrapping_add(number);
        let way = draws.next(6);
        let sent = if draws.next(8) > 0 {
            send_one(rt, &mut sender, way, value)
        } else if let Some(other) = sender.another_sender(rt) {
            let mut other = other;
            let sent = send_one(rt, &mut other, way, value);
            if draws.next(2) == 0 {
                drop(other.retire(rt));
            }
            sent
        } else {
            false
        };
        if sent {
            sum.add(1, value);
        }
    }
    sum
}

/// Receives by this end, and by others that it makes, until no value can come. Returns what was received.
fn receive_many<R: Wait + Clock>(rt: &R, receiver: Receiver<u64>, seed: u64) -> Sum {
    let mut receiver = receiver;
    let mut draws = Draws { state: seed };
    let mut sum = Sum { count: 0, total: 0 };
    for _ in rt.forever() {
        let way = draws.next(6);
        let got = if draws.next(8) > 0 {
            receive_one(rt, &mut receiver, way)
        } else if let Some(other) = receiver.another_receiver(rt) {
            let mut other = other;
            let got = receive_one(rt, &mut other, way);
            if draws.next(2) == 0 {
                drop(other.retire(rt));
            }
            got
        } else {
            Ok(None)
        };
        match got {
            Ok(Some(value)) => sum.add(1, value),
            Ok(None) => {}
            Err(()) => break,
        }
    }
    sum
}

/// Adds up what threads did.
fn all(sums: &[Sum]) -> Sum {
    let mut sum = Sum { count: 0, total: 0 };
    for one in sums {
        sum.add(one.count, one.total);
    }
    sum
}

/// All send. Then the channel is closed.
fn senders<R: Threads + Wait + Clock + Sync>(
    rt: &R,
    jobs: Vec<(Sender<u64>, u64)>,
    closer: Sender<u64>,
) -> Result<Sum, AllocError> {
    let mut closer = closer;
    let sums = thread::map_vec(rt, jobs, &|job| send_many(rt, job.0, job.1));
    closer.close(rt);
    Ok(all(sums?.as_slice()))
}

/// All receive.
fn receivers<R: Threads + Wait + Clock + Sync>(
    rt: &R,
    jobs: Vec<(Receiver<u64>, u64)>,
) -> Result<Sum, AllocError> {
    let sums = thread::map_vec(rt, jobs, &|job| receive_many(rt, job.0, job.1))?;
    Ok(all(sums.as_slice()))
}

/// So many threads send, and as many receive. Returns what was sent, and what was received.
fn run<R: Threads + Wait + Clock + Abort + Sync>(
    rt: &R,
    alloc: Global,
    bound: u32,
    pairs: u64,
) -> Result<(Sum, Sum), AllocError>
    requires { 0 < bound }
{
    let (mut sender, mut receiver) = bounded::<u64>(alloc, bound)?;
    let mut sending = Vec::new(alloc);
    let mut receiving = Vec::new(alloc);
    for seed in 0..pairs {
        let another = sender.another_sender(rt).expect(rt, "an end");
        sending.push((another, seed))?;
        let another = receiver.another_receiver(rt).expect(rt, "an end");
        receiving.push((another, seed))?;
    }
    let (sent, got) = join(
        rt,
        move || senders(rt, sending, sender),
        move || receivers(rt, receiving),
    );
    Ok((sent?, got?))
}

#[test]
fn ends_come_and_go_at_random(rt: HostRuntime) -> Result<(), Fail> {
    let (sent, got) = run(&rt, rt.alloc(), 3, 4)?;
    assert!(rt; sent == got && 0 < sent.count);
    Ok(())
}
