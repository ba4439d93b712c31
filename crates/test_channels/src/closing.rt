//! A channel is closed, or loses its last sender, while receivers sleep. They get what is left, and are told so.
ghost use Rattle.mb_channel.specs.Ends.{AreOfOneChannel};
ghost use Rattle.std.specs.Thread.{IsSync};

use mb_channel::{Receiver, Refused, Sender, unbounded};
use std::alloc::{AllocError, Global};
use std::process::Abort;
use std::sync::Wait;
use std::test::Fail;
use std::thread::{Threads, join, sleep};
use std::time::{Clock, Duration};

/// Receives until the channel is closed. Returns how many values came, and their sum.
fn drain<R: Wait>(rt: &R, receiver: Receiver<u64>) -> (u64, u64) {
    let mut receiver = receiver;
    let mut count: u64 = 0;
    let mut sum: u64 = 0;
    for _ in rt.forever() {
        match receiver.receive(rt) {
            Ok(value) => {
                count = count.wrapping_add(1);
                sum = sum.wrapping_add(value);
            }
            Err(Refused::Closed) => break,
            Err(_) => {}
        }
    }
    (count, sum)
}

/// Two threads do so. Returns how many values came in all, and their sum.
fn drain_both<R: Threads + Wait + Sync>(rt: &R, a: Receiver<u64>, b: Receiver<u64>) -> (u64, u64)
    requires sync { IsSync R.row }
{
    let (x, y) = join(rt, move || drain(rt, a), move || drain(rt, b));
    (x.0.wrapping_add(y.0), x.1.wrapping_add(y.1))
}

/// Sends the numbers below this one, in order.
fn send_all<R: Wait>(rt: &R, sender: Sender<u64>, many: u64) -> Sender<u64>
    ensures channel { AreOfOneChannel sender.end result.end }
{
    let mut sender = sender;
    for value in 0..many {
        drop(sender.send(rt, value));
    }
    sender
}

/// Sends the numbers below this one, waits until the receivers have got them and sleep, and closes the channel. Returns
/// whether a further value came back, as it was closed.
fn close_after<R: Wait + Clock>(rt: &R, sender: Sender<u64>, many: u64) -> bool {
    let mut sender = send_all(rt, sender, many);
    sleep(rt, Duration::from_millis(30));
    sender.close(rt);
    matches!(&sender.send(rt, 7), Err(refused) if refused.why == Refused::Closed)
}

/// Or gives the sender back. Returns whether it was the last.
fn give_after<R: Wait + Clock>(rt: &R, sender: Sender<u64>, many: u64, to: Receiver<u64>) -> bool
    requires channel { AreOfOneChannel to.end sender.end }
{
    let sender = send_all(rt, sender, many);
    sleep(rt, Duration::from_millis(30));
    let mut to = to;
    to.give_sender(rt, sender)
}

fn run_close<R: Threads + Wait + Clock + Abort + Sync>(
    rt: &R,
    alloc: Global,
    many: u64,
) -> Result<((u64, u64), bool), AllocError> {
    let (sender, mut a) = unbounded::<u64>(alloc)?;
    let b = a.another().expect(rt, "an end");
    Ok(join(
        rt,
        move || drain_both(rt, a, b),
        move || close_after(rt, sender, many),
    ))
}

fn run_give<R: Threads + Wait + Clock + Abort + Sync>(
    rt: &R,
    alloc: Global,
    many: u64,
) -> Result<((u64, u64), bool), AllocError> {
    let (sender, mut to) = unbounded::<u64>(alloc)?;
    let a = to.another().expect(rt, "an end");
    let b = to.another().expect(rt, "an end");
    Ok(join(
        rt,
        move || drain_both(rt, a, b),
        move || give_after(rt, sender, many, to),
    ))
}

#[test]
fn close_wakes_those_that_sleep(rt: HostRuntime) -> Result<(), Fail> {
    assert!(rt; run_close(&rt, rt.alloc(), 100)? == ((100, 4950), true));
    Ok(())
}

#[test]
fn the_last_sender_wakes_those_that_sleep(rt: HostRuntime) -> Result<(), Fail> {
    assert!(rt; run_give(&rt, rt.alloc(), 100)? == ((100, 4950), true));
    Ok(())
}

#[test]
fn a_receiver_closes_and_gets_what_is_left(rt: HostRuntime) -> Result<(), Fail> {
    let (sender, mut receiver) = unbounded::<u64>(rt.alloc())?;
    drop(send_all(&rt, sender, 70));
    let closed = receiver.close(&rt);
    let got = drain(&rt, receiver);
    assert!(rt; (closed, got) == (true, (70, 2415)));
    Ok(())
}

#[test]
fn what_was_left_at_the_end_comes_out(rt: HostRuntime) -> Result<(), Fail> {
    let (mut sender, mut receiver) = unbounded::<u64>(rt.alloc())?;
    drop(sender.send(&rt, 1));
    receiver.give_sender(&rt, sender);
    let ending = receiver.end(&rt).expect(&rt, "all are back");
    let mut rest = ending.finish().ok().expect(&rt, "nobody is inside");
    assert!(rt; (rest.next(), rest.next()) == (Some(1), None));
    Ok(())
}
