//! Each call of a ring that may wait once, in one thread. The tests of channels with a bound have threads over a ring.

use mb_ring::{Found, NotSent, Ring};
use mb_segment::Received;
use std::test::Fail;
use std::time::{Duration, Instant};

#[test]
fn one_call_after_the_other(rt: HostRuntime) -> Result<(), Fail> {
    let now = Instant::now(&rt)?;
    let soon = now.checked_add(Duration::from_millis(20)).unwrap_or(now);
    let (ring, mut hub) = Ring::<u64>::new(rt.alloc(), 2)?;
    let mut pass = ring.issue(&mut hub).rest().pass();
    let none = ring.receive_by(&rt, &mut pass, soon);
    drop(ring.try_send(&rt, &mut pass, 1));
    drop(ring.send(&rt, &mut pass, 2));
    let full = ring.send_by(&rt, &mut pass, 3, soon);
    let numbers = (ring.size(), ring.len(&rt, &mut pass));
    let first = ring.receive(&rt, &mut pass);
    drop(ring.send(&rt, &mut pass, 3));
    ring.close(&rt, &mut pass);
    let second = ring.try_receive(&rt, &mut pass);
    ring.take_back(&mut hub, pass);
    let mut left = ring.end(hub);
    let rest = (left.next(), left.next());
    assert!(rt; matches!(&none, Received::TimedOut) && matches!(&full, Err(NotSent::Full(3))));
    assert!(rt; matches!(&second, Found::Value(2)));
    assert!(rt; (numbers, first, rest) == ((2, 2), Some(1), (Some(3), None)));
    Ok(())
}
