//! A receiver gives a value back. It stands behind all others, and somebody else can take it.
ghost use Rattle.std.specs.Thread.{IsSync};

use mb_channel::{NotSent, Receiver, Refused, unbounded};
use std::alloc::{AllocError, Global};
use std::process::Abort;
use std::sync::Wait;
use std::test::Fail;
use std::thread::{Threads, join, sleep};
use std::time::{Clock, Duration};

fn receive_one<R: Wait>(rt: &R, receiver: Receiver<u64>) -> Option<u64> {
    let mut receiver = receiver;
    receiver.receive(rt).ok()
}

/// Waits until the others sleep, and gives the value back. Returns whether that was refused.
fn give_later<R: Wait + Clock>(rt: &R, receiver: Receiver<u64>, value: u64) -> bool {
    let mut receiver = receiver;
    sleep(rt, Duration::from_millis(30));
    receiver.give_back(rt, value).is_err()
}

/// One thread receives the value that another gives back.
fn hand_over<R: Threads + Wait + Clock + Abort + Sync>(
    rt: &R,
    alloc: Global,
) -> Result<(Option<u64>, bool), AllocError>
    requires sync { IsSync R.row }
{
    let (sender, mut receiver) = unbounded::<u64>(alloc)?;
    let other = receiver.another().expect(rt, "an end");
    let got = join(
        rt,
        move || receive_one(rt, other),
        move || give_later(rt, receiver, 7),
    );
    drop(sender);
    Ok(got)
}

/// Whether this value came back, since the channel is closed.
fn came_back(given: Result<(), NotSent<u64>>, value: u64) -> bool {
    matches!(&given, Err(refused) if refused.value == value && refused.why == Refused::Closed)
}

#[test]
fn it_wakes_one_that_sleeps(rt: HostRuntime) -> Result<(), Fail> {
    assert!(rt; hand_over(&rt, rt.alloc())? == (Some(7), false));
    Ok(())
}

#[test]
fn it_comes_behind_all_that_were_sent(rt: HostRuntime) -> Result<(), Fail> {
    let (mut sender, mut receiver) = unbounded::<u64>(rt.alloc())?;
    for value in 0..70 {
        drop(sender.send(&rt, value));
    }
    let first = receiver.receive(&rt);
    assert!(rt; (first, receiver.give_back(&rt, 0).is_ok()) == (Ok(0), true));
    let mut last = 70;
    for _ in 0..70 {
        last = receiver.receive(&rt).unwrap_or(70);
    }
    assert!(rt; last == 0);
    Ok(())
}

#[test]
fn it_comes_back_if_no_sender_is_left(rt: HostRuntime) -> Result<(), Fail> {
    let (mut sender, mut receiver) = unbounded::<u64>(rt.alloc())?;
    drop(sender.send(&rt, 1));
    drop(receiver.receive(&rt));
    receiver.give_sender(&rt, sender);
    assert!(rt; came_back(receiver.give_back(&rt, 1), 1));
    Ok(())
}

#[test]
fn it_comes_back_if_the_channel_is_closed(rt: HostRuntime) -> Result<(), Fail> {
    let (mut sender, mut receiver) = unbounded::<u64>(rt.alloc())?;
    drop(sender.send(&rt, 1));
    drop(receiver.receive(&rt));
    sender.close(&rt);
    assert!(rt; came_back(receiver.give_back(&rt, 1), 1));
    Ok(())
}

#[test]
fn its_sender_is_given_back(rt: HostRuntime) -> Result<(), Fail> {
    let (sender, mut receiver) = unbounded::<u64>(rt.alloc())?;
    drop(receiver.give_back(&rt, 1));
    receiver.give_sender(&rt, sender);
    let ending = receiver.end(&rt).expect(&rt, "all are back");
    let mut rest = ending.finish().ok().expect(&rt, "nobody is inside");
    assert!(rt; (rest.next(), rest.next()) == (Some(1), None));
    Ok(())
}
