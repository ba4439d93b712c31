//! A segment: a receiver that sleeps, and each call that may wait once.
ghost use Rattle.std.specs.Prelude.{◌≡◌};

use mb_segment::{Fate, Idle, NotSent, Received, Segment};
use std::alloc::{AllocError, Global};
use std::sync::Wait;
use std::test::Fail;
use std::thread::{Threads, join, sleep};
use std::time::{Clock, Duration, Instant};

fn receive_one<R: Wait>(rt: &R, segment: &Segment<u64>, idle: Idle<u64>) -> Option<u64>
    requires segment { idle.seat.table_id ≡ segment.now.table.shared.table_id }
    requires name { idle.seat.me.0.account.name ≡ 0 }
{
    let mut pass = idle.pass();
    let got = segment.receive(rt, &mut pass, 0);
    drop(pass.rest());
    got
}

/// Sends 7, after a pause in which the other thread falls asleep.
fn send_late<R: Wait + Clock>(rt: &R, segment: &Segment<u64>, idle: Idle<u64>) -> bool
    requires segment { idle.seat.table_id ≡ segment.now.table.shared.table_id }
    requires name { idle.seat.me.0.account.name ≡ 0 }
{
    sleep(rt, Duration::from_millis(50));
    let mut pass = idle.pass();
    let sent = segment.send(rt, &mut pass, 7, 0).is_ok();
    drop(pass.rest());
    sent
}

fn run_two<R: Threads + Wait + Clock + Sync>(
    rt: &R,
    alloc: Global,
) -> Result<(Option<u64>, bool), AllocError> {
    let (segment, mut hub) = Segment::<u64>::new(alloc, 4)?;
    let w = &segment;
    let a = w.issue(&mut hub, 0).rest();
    let b = w.issue(&mut hub, 0).rest();
    Ok(join(
        rt,
        move || -> Option<u64>
            requires { (a.seat.table_id ≡ w.now.table.shared.table_id)
                × (a.seat.me.0.account.name ≡ 0) }
        { receive_one(rt, w, a) },
        move || -> bool
            requires { (b.seat.table_id ≡ w.now.table.shared.table_id)
                × (b.seat.me.0.account.name ≡ 0) }
        { send_late(rt, w, b) },
    ))
}

/// It hangs if who gives the token wakes no thread.
#[test]
fn a_sleeper_is_woken(rt: HostRuntime) -> Result<(), Fail> {
    assert!(rt; run_two(&rt, rt.alloc())? == (Some(7), true));
    Ok(())
}

fn fate(receiver: Option<u32>) -> Fate {
    Fate {
        sender: Some(7),
        receiver,
    }
}

#[test]
fn one_call_after_the_other(rt: HostRuntime) -> Result<(), Fail> {
    let now = Instant::now(&rt)?;
    let soon = now.checked_add(Duration::from_millis(20)).unwrap_or(now);
    let (segment, mut hub) = Segment::<u64>::new(rt.alloc(), 2)?;
    let mut sender = segment.issue(&mut hub, 7);
    let mut receiver = segment.issue(&mut hub, 8);
    let none = segment.receive_by(&rt, &mut receiver, soon, 8);
    drop(segment.send(&rt, &mut sender, 1, 7));
    drop(segment.send(&rt, &mut sender, 2, 7));
    let full = segment.send(&rt, &mut sender, 3, 7);
    let drawn = segment.learn_drawn(&mut receiver);
    let first = segment.receive(&rt, &mut receiver, 8);
    let taken = segment.learn_taken(&mut sender);
    segment.close(&rt, &mut sender);
    segment.take_back(&mut hub, sender);
    segment.take_back(&mut hub, receiver);
    let size = segment.size();
    let mut left = segment.end(hub);
    let rest = (left.next(), left.next());
    let fates = (left.fate(0), left.fate(1), left.fate(2));
    assert!(rt; matches!(&none, Received::TimedOut) && matches!(&full, Err(NotSent::Full(3))));
    assert!(rt; (size, drawn, first, taken, rest) == (2, 2, Some(1), 1, (Some(2), None)));
    assert!(rt; fates == (Some(fate(Some(8))), Some(fate(None)), None));
    Ok(())
}
