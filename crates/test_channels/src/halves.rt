//! A send and a receive in two halves each: a draw and a mark, a claim and a read.

use mb_channel::{Claiming, Drawing, Place, Receiver, Refused, Sender, unbounded};
use std::sync::Wait;
use std::test::Fail;
use std::thread::yield_now;

/// Why no value was claimed.
#[derive(Clone, Copy, PartialEq, Eq, Debug, Drop)]
enum Nothing {
    Empty,
    Again,
    Refused(Refused),
}

/// Draws a place for a value, and marks it.
fn put<R: Wait>(rt: &R, sender: Sender<u64>, value: u64) -> (Sender<u64>, Place) {
    let mut sender = sender;
    for _ in rt.forever() {
        match sender.draw(&value) {
            Drawing::At(drawn) => {
                let place = drawn.place();
                return match drawn.mark(value) {
                    Ok(sender) => (sender, place),
                    Err(owing) => (owing.pay(rt), place),
                };
            }
            Drawing::Again(back) => sender = back,
            Drawing::Refused(back, _) => sender = back,
        }
        yield_now();
    }
    unreachable!()
}

/// Claims the next value, and reads it.
fn take(receiver: Receiver<u64>) -> (Receiver<u64>, Result<(u64, Place), Nothing>) {
    match receiver.claim() {
        Claiming::At(claimed) => {
            let place = claimed.place();
            let (value, receiver) = claimed.read();
            (receiver, Ok((value, place)))
        }
        Claiming::Empty(receiver) => (receiver, Err(Nothing::Empty)),
        Claiming::Again(receiver) => (receiver, Err(Nothing::Again)),
        Claiming::Refused(receiver, why) => (receiver, Err(Nothing::Refused(why))),
    }
}

#[test]
fn halves_go_past_a_segment(rt: HostRuntime) -> Result<(), Fail> {
    let (mut sender, mut receiver) = unbounded::<u64>(rt.alloc())?;
    let mut right = true;
    let mut place = (0, 0);
    for value in 0..66 {
        let (back, drawn) = put(&rt, sender, value);
        sender = back;
        place = (drawn.segment(), drawn.number());
        let (back, taken) = take(receiver);
        receiver = back;
        right = right && taken == Ok((value, drawn));
    }
    assert!(rt; right && place == (1, 1));
    let (_, none) = take(receiver);
    assert!(rt; none == Err(Nothing::Empty));
    Ok(())
}

/// A sender draws a place, and another one sends 2. Then a receiver tries, the first sender marks its place for 1, and the
/// receiver tries twice more. Returns what it got.
fn late<R: Wait>(
    rt: &R,
    first: Sender<u64>,
    second: Sender<u64>,
    receiver: Receiver<u64>,
) -> [Result<u64, Nothing>; 3] {
    let drawn = match first.draw(&1) {
        Drawing::At(drawn) => drawn,
        Drawing::Again(_) => return [Err(Nothing::Empty); 3],
        Drawing::Refused(_, why) => return [Err(Nothing::Refused(why)); 3],
    };
    drop(put(rt, second, 2));
    let (receiver, early) = take(receiver);
    match drawn.mark(1) {
        Ok(sender) => drop(sender),
        Err(owing) => drop(owing.pay(rt)),
    }
    let (receiver, one) = take(receiver);
    let (_, two) = take(receiver);
    [early.map(|t| t.0), one.map(|t| t.0), two.map(|t| t.0)]
}

#[test]
fn a_drawn_place_keeps_receivers_waiting(rt: HostRuntime) -> Result<(), Fail> {
    let (mut first, receiver) = unbounded::<u64>(rt.alloc())?;
    let second = first.another().expect(&rt, "an end");
    assert!(rt; late(&rt, first, second, receiver) == [Err(Nothing::Again), Ok(1), Ok(2)]);
    Ok(())
}

/// Whether a draw is refused, since the channel is closed.
fn is_closed<R: Wait>(rt: &R, sender: Sender<u64>) -> bool {
    match sender.draw(&6) {
        Drawing::At(drawn) => {
            match drawn.mark(6) {
                Ok(sender) => drop(sender),
                Err(owing) => drop(owing.pay(rt)),
            }
            false
        }
        Drawing::Again(_) => false,
        Drawing::Refused(_, why) => why == Refused::Closed,
    }
}

#[test]
fn a_closed_channel_refuses_both_halves(rt: HostRuntime) -> Result<(), Fail> {
    let (sender, receiver) = unbounded::<u64>(rt.alloc())?;
    let (mut sender, place) = put(&rt, sender, 5);
    sender.close(&rt);
    let refused = is_closed(&rt, sender);
    let (receiver, left) = take(receiver);
    let (_, none) = take(receiver);
    assert!(rt; refused && left == Ok((5, place)));
    assert!(rt; none == Err(Nothing::Refused(Refused::Closed)));
    Ok(())
}
