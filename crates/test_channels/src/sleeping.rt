//! Threads over the channel's calls that never wait: two receivers sleep, and a sender wakes them. A receiver also sleeps
//! where it has to add the segment.
ghost use Rattle.std.specs.Thread.{IsSync};

use crate::ways::awake;
use mb_channel::{Asleep, Receiver, Sender, Sending, unbounded};
use std::alloc::{AllocError, Global};
use std::process::Abort;
use std::sync::Wait;
use std::test::Fail;
use std::thread::{Threads, join, yield_now};

/// Sleeps until it is woken. Returns a value if it found one, and the receiver.
fn sleep_on<R: Wait>(rt: &R, asleep: Asleep<u64>) -> (Option<u64>, Receiver<u64>) {
    let mut asleep = asleep;
    for _ in rt.forever() {
        asleep.sleep(rt);
        match awake(rt, asleep.wake_up()) {
            Ok(still) => asleep = still,
            Err(found) => return found,
        }
    }
    unreachable!()
}

/// Polls once, and sleeps if no value is there.
fn poll<R: Wait>(rt: &R, receiver: Receiver<u64>) -> (Option<u64>, Receiver<u64>) {
    match awake(rt, receiver.poll_receive()) {
        Ok(asleep) => sleep_on(rt, asleep),
        Err(found) => found,
    }
}

/// Receives values up to this one, which is the last. Returns their sum.
fn receive_to<R: Wait>(rt: &R, receiver: Receiver<u64>, last: u64) -> u64 {
    let mut receiver = receiver;
    let mut sum: u64 = 0;
    for _ in rt.forever() {
        let (value, back) = poll(rt, receiver);
        receiver = back;
        match value {
            Some(value) if value == last => break,
            Some(value) => sum = sum.wrapping_add(value),
            None => yield_now(),
        }
    }
    drop(receiver);
    sum
}

/// Sends a value, and wakes whoever has to be woken.
fn send_one<R: Wait>(rt: &R, sender: Sender<u64>, value: u64) -> Sender<u64> {
    let mut sender = sender;
    let mut value = value;
    for _ in rt.forever() {
        match sender.try_send(value) {
            Sending::Sent(sender) => return sender,
            Sending::Owes(owing) => return owing.pay(rt),
            Sending::Again(back, unsent) => {
                sender = back;
                value = unsent;
            }
            Sending::Refused(back, unsent) => {
                sender = back;
                value = unsent.value;
            }
        }
        yield_now();
    }
    unreachable!()
}

/// Sends the values up to this one, and that one twice.
fn send_to<R: Wait>(rt: &R, sender: Sender<u64>, last: u64) -> Sender<u64> {
    let mut sender = sender;
    for value in 0..last {
        sender = send_one(rt, sender, value);
    }
    sender = send_one(rt, sender, last);
    send_one(rt, sender, last)
}

/// Two threads receive, and a third sends. Returns the sum of what was received.
fn run_three<R: Threads + Wait + Abort + Sync>(
    rt: &R,
    alloc: Global,
    last: u64,
) -> Result<u64, AllocError> {
    let (sender, mut a) = unbounded::<u64>(alloc)?;
    let b = a.another().expect(rt, "an end");
    let ((x, y), sender) = join(
        rt,
        move || -> (u64, u64)
            requires { IsSync R.row }
        {
            join(
                rt,
                move || receive_to(rt, a, last),
                move || receive_to(rt, b, last),
            )
        },
        move || send_to(rt, sender, last),
    );
    drop(sender);
    Ok(x.wrapping_add(y))
}

#[test]
fn sleepers_are_woken(rt: HostRuntime) -> Result<(), Fail> {
    let all = run_three(&rt, rt.alloc(), 3000)?;
    assert!(rt; all == 4498500);
    Ok(())
}

/// Polls, and tells another thread so. Then it sleeps until this value comes. Whether it slept, and received that value.
fn sleep_for<R: Wait>(rt: &R, receiver: Receiver<u64>, polled: Sender<u64>, last: u64) -> bool {
    let found = awake(rt, receiver.poll_receive());
    drop(send_one(rt, polled, 0));
    match found {
        Ok(asleep) => match sleep_on(rt, asleep) {
            (Some(value), receiver) => {
                drop(receiver);
                value == last
            }
            (None, receiver) => receive_to(rt, receiver, last) == 0,
        },
        Err((_, receiver)) => {
            drop(receiver);
            false
        }
    }
}

/// Sends a value, once another thread has polled.
fn send_after<R: Wait>(
    rt: &R,
    sender: Sender<u64>,
    polled: Receiver<u64>,
    value: u64,
) -> Sender<u64> {
    let mut polled = polled;
    drop(polled.receive(rt));
    drop(polled);
    send_one(rt, sender, value)
}

/// A receiver takes so many values, which are all, and falls asleep. Then another thread sends one more, and wakes it.
/// Whether it slept, and received that value.
fn is_woken<R: Threads + Wait + Abort + Sync>(
    rt: &R,
    alloc: Global,
    sender: Sender<u64>,
    receiver: Receiver<u64>,
    many: u64,
) -> Result<bool, AllocError> {
    let (tell, hear) = unbounded::<u64>(alloc)?;
    let mut receiver = receiver;
    for _ in 0..many {
        let (_, back) = poll(rt, receiver);
        receiver = back;
    }
    let (woken, sender) = join(
        rt,
        move || sleep_for(rt, receiver, tell, 7),
        move || send_after(rt, sender, hear, 7),
    );
    drop(sender);
    Ok(woken)
}

#[test]
fn a_receiver_sleeps_past_the_last_segment(rt: HostRuntime) -> Result<(), Fail> {
    let (sender, receiver) = unbounded::<u64>(rt.alloc())?;
    let sender = send_to(&rt, sender, 62);
    // The last poll of a full segment says that it is over.
    let woken = is_woken(&rt, rt.alloc(), sender, receiver, 65)?;
    assert!(rt; woken);
    Ok(())
}
