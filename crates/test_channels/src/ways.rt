//! Calls of the channel that never wait, in one thread, and what an end tells another one.

use mb_channel::{Asleep, Polled, Receiver, Sender, Sending, unbounded};
use std::sync::Wait;
use std::test::Fail;

/// What a receiver has that does not sleep: a value, or none.
pub(crate) fn awake<R: Wait>(
    rt: &R,
    polled: Polled<u64>,
) -> Result<Asleep<u64>, (Option<u64>, Receiver<u64>)> {
    match polled {
        Polled::Took(receiver, value) => Err((Some(value), receiver)),
        Polled::TookOwing(leaving, value) => Err((Some(value), leaving.pay(rt))),
        Polled::Sleeps(asleep) => Ok(asleep),
        Polled::Again(receiver) => Err((None, receiver)),
        Polled::Owes(leaving) => Err((None, leaving.pay(rt))),
        Polled::Refused(receiver, _) => Err((None, receiver)),
    }
}

/// Sends a value to a receiver that sleeps. Whether it was given a token, so that a thread has to be woken.
fn wakes<R: Wait>(rt: &R, sender: Sender<u64>, value: u64) -> bool {
    match sender.try_send(value) {
        Sending::Owes(owing) => match owing.pay_some() {
            (wakes, Ok(sender)) => {
                drop(sender);
                wakes
            }
            (_, Err(owing)) => {
                drop(owing.pay(rt));
                false
            }
        },
        Sending::Sent(_) => false,
        Sending::Again(_, _) => false,
        Sending::Refused(_, _) => false,
    }
}

/// A receiver falls asleep, gets a token, and gives up. Whether it got one, and how often it paid.
fn give_up_with_a_token<R: Wait>(
    rt: &R,
    sender: Sender<u64>,
    receiver: Receiver<u64>,
) -> (bool, u64) {
    let Ok(asleep) = awake(rt, receiver.poll_receive()) else {
        return (false, 0);
    };
    let woken = wakes(rt, sender, 8);
    let place = asleep.place();
    let mut leaving = asleep.give_up();
    if leaving.place() != place {
        drop(leaving.pay(rt));
        return (woken, 0);
    }
    for times in 1..9 {
        match leaving.pay_some() {
            (_, Ok(receiver)) => {
                drop(receiver);
                return (woken, times);
            }
            (_, Err(back)) => leaving = back,
        }
    }
    drop(leaving.pay(rt));
    (woken, 9)
}

#[test]
fn a_sleeper_gives_up_with_a_token(rt: HostRuntime) -> Result<(), Fail> {
    let (sender, receiver) = unbounded::<u64>(rt.alloc())?;
    // It no longer waits. It leaves with the token, and finds that nobody else sleeps.
    assert!(rt; give_up_with_a_token(&rt, sender, receiver) == (true, 2));
    Ok(())
}

/// A sender tells how far it knows, and another one learns that, and so does the receiver once it has received the value.
#[test]
fn ends_learn_what_another_knows(rt: HostRuntime) -> Result<(), Fail> {
    let (mut sender, mut receiver) = unbounded::<u64>(rt.alloc())?;
    let mut other = sender.another().expect(&rt, "an end");
    drop(sender.send(&rt, 1));
    let place = sender.known();
    let told = other.learn(place);
    let early = receiver.learn(place);
    drop(receiver.receive(&rt));
    let late = receiver.learn(place);
    let back = receiver.known();
    assert!(rt; (told, early, late, sender.learn(back)) == (true, false, true, true));
    Ok(())
}

#[test]
fn ends_count_what_waits(rt: HostRuntime) -> Result<(), Fail> {
    let (mut sender, mut receiver) = unbounded::<u64>(rt.alloc())?;
    let none = (sender.len(&rt), receiver.try_len());
    for value in 0..100 {
        drop(sender.send(&rt, value));
    }
    let all = receiver.len(&rt);
    for _ in 0..30 {
        drop(receiver.receive(&rt));
    }
    // 34 wait in the first segment, and 36 in the second.
    let most = (sender.try_len(), receiver.len(&rt));
    for _ in 0..50 {
        drop(receiver.receive(&rt));
    }
    let few = (sender.len(&rt), receiver.try_len());
    assert!(rt; none == (0, Some(0)) && all == 100);
    assert!(rt; most == (Some(70), 70) && few == (20, Some(20)));
    Ok(())
}
