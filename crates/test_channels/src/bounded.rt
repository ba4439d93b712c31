//! Each call of a channel with a bound once. Then threads that sleep: until a value or room comes, and until the last end
//! of the other side goes.
ghost use Rattle.mb_bounded.specs.Ends.{IsMate};

use mb_bounded::{Found, Left, NotSent, Received, Receiver, Sender, bounded};
use std::alloc::{AllocError, Global};
use std::process::Abort;
use std::sync::Wait;
use std::test::Fail;
use std::thread::{Threads, join, sleep};
use std::time::{Clock, Duration, Instant};

#[test]
fn one_call_after_the_other(rt: HostRuntime) -> Result<(), Fail> {
    let now = Instant::now(&rt)?;
    let soon = now.checked_add(Duration::from_millis(20)).unwrap_or(now);
    let (mut sender, mut receiver) = bounded::<u64>(rt.alloc(), 2)?;
    let mut other = sender.another_sender(&rt).expect(&rt, "an end");
    let late = receiver.receive_by(&rt, soon);
    drop(sender.send(&rt, 7));
    drop(other.try_send(&rt, 8));
    let full = sender.send_by(&rt, 9, soon);
    let bounds = (sender.bound(), receiver.bound());
    let lens = (sender.len(&rt), receiver.len(&rt));
    let first = receiver.receive(&rt);
    let counts = (sender.count(&rt), receiver.count(&rt));
    let early = other.retire(&rt).was_last();
    receiver.close(&rt);
    let second = receiver.try_receive(&rt);
    sender.close(&rt);
    let none = receiver.receive(&rt);
    assert!(rt; matches!(&late, Received::TimedOut) && matches!(&full, Err(NotSent::Full(9))));
    assert!(rt; matches!(&second, Found::Value(8)) && none.is_none() && !early);
    assert!(rt; (first, bounds, lens, counts) == (Some(7), (2, 2), (2, 2), ((2, 1), (2, 1))));
    Ok(())
}

/// Ends the channel by its receiver, once the sender is back. Returns what is left.
fn end_with_receiver<R: Wait>(
    rt: &R,
    alloc: Global,
    receiver: Receiver<u64>,
    sender: Sender<u64>,
) -> Result<Option<Left<u64>>, AllocError>
    requires mates { IsMate sender.end receiver.end }
{
    let mut others = Vec::new(alloc);
    others.push(sender.retire(rt))?;
    Ok(receiver.end(rt, others).ok())
}

fn left_with_receiver<R: Wait + Abort>(rt: &R, alloc: Global) -> Result<Option<u64>, AllocError> {
    let (mut sender, receiver) = bounded::<u64>(alloc, 2)?;
    drop(sender.send(rt, 1));
    let ended = end_with_receiver(rt, alloc, receiver, sender)?;
    Ok(ended.expect(rt, "all are back").next())
}

/// Ends it by its sender, once the receiver is back. Returns what is left.
fn end_with_sender<R: Wait>(
    rt: &R,
    alloc: Global,
    sender: Sender<u64>,
    receiver: Receiver<u64>,
) -> Result<Option<Left<u64>>, AllocError>
    requires mates { IsMate sender.end receiver.end }
{
    let mut others = Vec::new(alloc);
    others.push(receiver.retire(rt))?;
    Ok(sender.end(rt, others).ok())
}

fn left_with_sender<R: Wait + Abort>(rt: &R, alloc: Global) -> Result<Option<u64>, AllocError> {
    let (mut sender, receiver) = bounded::<u64>(alloc, 2)?;
    drop(sender.send(rt, 1));
    let ended = end_with_sender(rt, alloc, sender, receiver)?;
    Ok(ended.expect(rt, "all are back").next())
}

#[test]
fn what_is_left_at_the_end_comes_out(rt: HostRuntime) -> Result<(), Fail> {
    assert!(rt; left_with_receiver(&rt, rt.alloc())? == Some(1));
    assert!(rt; left_with_sender(&rt, rt.alloc())? == Some(1));
    Ok(())
}

/// After a pause, sends 1 and 2. Returns whether both were sent.
fn send_two<R: Wait + Clock>(rt: &R, sender: Sender<u64>, pause: Duration) -> bool {
    let mut sender = sender;
    sleep(rt, pause);
    sender.send(rt, 1).is_ok() && sender.send(rt, 2).is_ok()
}

/// After a pause, receives two values.
fn receive_two<R: Wait + Clock>(
    rt: &R,
    receiver: Receiver<u64>,
    pause: Duration,
) -> (Option<u64>, Option<u64>) {
    let mut receiver = receiver;
    sleep(rt, pause);
    let first = receiver.receive(rt);
    (first, receiver.receive(rt))
}

/// One thread sends two values through one place, and another receives both. Returns whether all was as it should be.
fn pass_two<R: Threads + Wait + Clock + Sync>(
    rt: &R,
    alloc: Global,
    before_send: Duration,
    before_receive: Duration,
) -> Result<bool, AllocError> {
    let (sender, receiver) = bounded::<u64>(alloc, 1)?;
    let (sent, got) = join(
        rt,
        move || send_two(rt, sender, before_send),
        move || receive_two(rt, receiver, before_receive),
    );
    Ok(sent && got == (Some(1), Some(2)))
}

/// It hangs if who gives a token wakes no thread: a receiver sleeps, and then a sender.
#[test]
fn those_that_sleep_are_woken(rt: HostRuntime) -> Result<(), Fail> {
    let pause = Duration::from_millis(50);
    assert!(rt; pass_two(&rt, rt.alloc(), pause, Duration::ZERO)?);
    assert!(rt; pass_two(&rt, rt.alloc(), Duration::ZERO, pause)?);
    Ok(())
}

/// Sends 2. Returns whether the channel was closed.
fn is_refused<R: Wait>(rt: &R, sender: Sender<u64>) -> bool {
    let mut sender = sender;
    let sent = sender.send(rt, 2);
    matches!(&sent, Err(NotSent::Closed(2)))
}

/// Waits until the other end sleeps, and gives this one back. Returns whether it was the last of its side.
fn leaves_late<R: Wait + Clock>(rt: &R, receiver: Receiver<u64>) -> bool {
    sleep(rt, Duration::from_millis(30));
    receiver.retire(rt).was_last()
}

fn receiver_leaves<R: Threads + Wait + Clock + Sync>(
    rt: &R,
    alloc: Global,
) -> Result<(bool, bool), AllocError> {
    let (mut sender, receiver) = bounded::<u64>(alloc, 1)?;
    drop(sender.send(rt, 1));
    Ok(join(
        rt,
        move || is_refused(rt, sender),
        move || leaves_late(rt, receiver),
    ))
}

/// Returns whether no value comes any more.
fn is_over<R: Wait>(rt: &R, receiver: Receiver<u64>) -> bool {
    let mut receiver = receiver;
    receiver.receive(rt).is_none()
}

fn goes_late<R: Wait + Clock>(rt: &R, sender: Sender<u64>) -> bool {
    sleep(rt, Duration::from_millis(30));
    sender.retire(rt).was_last()
}

fn sender_goes<R: Threads + Wait + Clock + Sync>(
    rt: &R,
    alloc: Global,
) -> Result<(bool, bool), AllocError> {
    let (sender, receiver) = bounded::<u64>(alloc, 1)?;
    Ok(join(
        rt,
        move || is_over(rt, receiver),
        move || goes_late(rt, sender),
    ))
}

#[test]
fn the_last_receiver_wakes_those_that_send(rt: HostRuntime) -> Result<(), Fail> {
    assert!(rt; receiver_leaves(&rt, rt.alloc())? == (true, true));
    Ok(())
}

#[test]
fn the_last_sender_wakes_those_that_receive(rt: HostRuntime) -> Result<(), Fail> {
    assert!(rt; sender_goes(&rt, rt.alloc())? == (true, true));
    Ok(())
}
