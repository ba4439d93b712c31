//! A round: values through a channel of its own, until all workers have stopped and the channel has ended.
ghost use Rattle.std.specs.Prelude.{All, IfOk};
ghost use Rattle.std.specs.Thread.{IsSync};
ghost use Rattle.mb_channel.specs.declared.end.End.{End};
ghost use Rattle.mb_channel.specs.Ends.{AreOfOneChannel};
ghost use Rattle.test_channel.specs.Crew.{IsReceiving, IsSending, IsThere};

use crate::account::{Account, add, now};
use crate::crew::{give_all, receive_all, receivers, send_all, senders};
use crate::draws::{Draws, Drops, Sent};
use mb_channel::{Ending, Receiver, Sender, unbounded};
use std::alloc::AllocError;
use std::sync::Wait;
use std::thread::{Threads, join};
use std::time::Clock;

/// Bytes for the pills and for the end, if all other memory is in use.
const RESERVE: usize = 1 << 16;

/// How many values a short round has at most.
pub const SHORT: u64 = 2048;

/// What a round has.
#[derive(Clone, Copy)]
pub struct Round {
    pub seed: u64,
    pub senders: u64,
    pub receivers: u64,
    /// The first of its values.
    pub first: u64,
    /// How many values each sender sends.
    pub each: u64,
    pub drops: Drops,
}

impl Round {
    /// A half of the soak, whose values take many segments. In the first half all ends are given back.
    pub fn soak(seed: u64, half: u64, values: u64) -> Round {
        Round {
            seed: seed.wrapping_add(half),
            senders: 4,
            receivers: 4,
            first: half.wrapping_mul(values / 2),
            each: values / 8,
            drops: if half == 0 {
                Drops::Nothing
            } else {
                Drops::Unused
            },
        }
    }

    /// A short round. In each second one ends are dropped wherever they are.
    pub fn short(seed: u64, number: u64) -> Round {
        let seed = seed.wrapping_add(number.wrapping_mul(64));
        let mut draws = Draws::new(seed, 63, Drops::Nothing);
        Round {
            seed,
            senders: draws.below(2).saturating_add(1),
            receivers: draws.below(2).saturating_add(1),
            first: number.wrapping_mul(SHORT),
            each: draws.below(9),
            drops: if number % 2 == 0 {
                Drops::Nothing
            } else {
                Drops::Anything
            },
        }
    }
}

/// Sends a pill for each receiver. It is tried again if it is refused.
fn send_pills<R: Wait>(rt: &R, account: &Account, sender: Sender<Sent>, many: u64) -> Sender<Sent>
    ensures { AreOfOneChannel sender.end result.end }
{
    let mut sender = sender;
    let mut sent = 0u64;
    for _ in rt.forever() {
        if sent >= many {
            break;
        }
        match sender.send(rt, Sent::Pill) {
            Ok(()) => sent = sent.saturating_add(1),
            Err(_) => add(&account.refused, 1),
        }
    }
    sender
}

/// Counts what a channel had left. The end is tried again, since memory may be refused.
fn count_left(account: &Account, ending: Ending<Sent>) {
    let finished = match ending.finish() {
        Ok(rest) => Ok(rest),
        Err(ending) => ending.finish(),
    };
    let Ok(rest) = finished else {
        add(&account.misjudged, 1);
        return;
    };
    let mut rest = rest;
    for _ in 0..u64::MAX {
        if rest.next().is_none() {
            break;
        }
        add(&account.left, 1);
    }
}

/// Ends the channel by its last receiver, which succeeds exactly if no end was dropped.
fn end<R: Wait>(rt: &R, account: &Account, last: Receiver<Sent>, is_whole: bool) {
    let ending = last.end(rt);
    if ending.is_some() != is_whole {
        add(&account.misjudged, 1);
    }
    if let Some(ending) = ending {
        count_left(account, ending);
    }
}

/// Makes a round. The error is that there was no memory for its workers.
pub fn run<R: AllocGlobal + Clock + Threads + Wait + Sync>(
    rt: &R,
    round: &Round,
    account: &Account,
) -> Result<(), AllocError> {
    let reserve = Vec::<u8>::with_capacity(rt.alloc(), RESERVE)?;
    let (mut sender, mut last) = unbounded::<Sent>(rt.alloc())?;
    let sending = senders(rt, rt.alloc(), &mut sender, &mut last, round)?;
    let receiving = receivers(rt, rt.alloc(), &mut last, round)?;
    let dropped = now(&account.dropped);
    let (each, pills) = (round.each, round.receivers);
    let (received, (sent, sender)) = join(
        rt,
        move || -> Result<Vec<Receiver<Sent>>, AllocError>
            requires { IsSync R.row }
            ensures { IfOk result (λ ends. (e : End Sent)
                → All (IsReceiving e) receiving.items → All (IsThere e) ends.items) }
        { receive_all(rt, account, receiving) },
        move || -> (Result<Vec<Receiver<Sent>>, AllocError>, Sender<Sent>)
            requires { IsSync R.row }
            ensures { IfOk result.0 (λ ends. (e : End Sent)
                → All (IsSending e) sending.items → All (IsThere e) ends.items)
                × AreOfOneChannel sender.end result.1.end }
        {
            let sent = send_all(rt, account, sending, each);
            drop(reserve);
            (sent, send_pills(rt, account, sender, pills))
        },
    );
    give_all(rt, &mut last, received?);
    give_all(rt, &mut last, sent?);
    last.give_sender(rt, sender);
    end(rt, account, last, now(&account.dropped) == dropped);
    Ok(())
}
