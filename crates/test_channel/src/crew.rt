//! The workers of a round.
ghost use Rattle.std.specs.Prelude.{All, IfOk};
ghost use Rattle.mb_channel.specs.declared.end.End.{End};
ghost use Rattle.mb_channel.specs.Ends.{AreOfOneChannel};
ghost use Rattle.test_channel.specs.Crew.{IsReceiving, IsSending, IsThere};

use crate::account::Account;
use crate::draws::{Draws, Sent};
use crate::receiving::Receiving;
use crate::round::Round;
use crate::sending::Sending;
use mb_channel::{Receiver, Sender};
use std::alloc::{AllocError, Global};
use std::sync::Wait;
use std::thread::{Threads, map_vec};
use std::time::Clock;

/// The workers that send, each with a sender that is made from this one, and with a receiver.
pub fn senders<R: Wait>(
    rt: &R,
    alloc: Global,
    sender: &mut Sender<Sent>,
    receiver: &mut Receiver<Sent>,
    round: &Round,
) -> Result<Vec<Sending>, AllocError>
    requires channel { AreOfOneChannel receiver.old.end sender.old.end }
    ensures sender { AreOfOneChannel receiver.old.end sender.new.end }
    ensures receiver { AreOfOneChannel receiver.old.end receiver.new.end }
    ensures crew { IfOk result (λ crew. (e : End Sent)
        → AreOfOneChannel e receiver.old.end → All (IsSending e) crew.items) }
{
    let mut crew = Vec::new(alloc);
    for number in 0..round.senders {
        let sending = Sending {
            sender: sender.another().ok_or(AllocError)?,
            keeper: receiver.another().ok_or(AllocError)?,
            draws: Draws::new(round.seed, number, round.drops),
            first: round.first.wrapping_add(number.wrapping_mul(round.each)),
            is_patient: true,
        };
        crew.push(sending)?;
    }
    Ok(crew)
}

/// The workers that receive, each with a receiver that is made from this one.
pub fn receivers<R: Wait>(
    rt: &R,
    alloc: Global,
    receiver: &mut Receiver<Sent>,
    round: &Round,
) -> Result<Vec<Receiving>, AllocError>
    ensures receiver { AreOfOneChannel receiver.old.end receiver.new.end }
    ensures crew { IfOk result (λ crew. (e : End Sent)
        → AreOfOneChannel e receiver.old.end → All (IsReceiving e) crew.items) }
{
    let mut crew = Vec::new(alloc);
    for number in 0..round.receivers {
        let mut next = Vec::new(alloc);
        for _ in 0..round.senders {
            next.push(0)?;
        }
        let receiving = Receiving {
            receiver: receiver.another().ok_or(AllocError)?,
            draws: Draws::new(round.seed, number.wrapping_add(32), round.drops),
            next,
            first: round.first,
            each: round.each,
        };
        crew.push(receiving)?;
    }
    Ok(crew)
}

/// Sends all values, each worker in a thread. Returns the receivers to which the senders were given back.
pub fn send_all<R: Clock + Threads + Wait + Sync>(
    rt: &R,
    account: &Account,
    crew: Vec<Sending>,
    each: u64,
) -> Result<Vec<Receiver<Sent>>, AllocError>
    ensures ends { IfOk result (λ ends. (e : End Sent)
        → All (IsSending e) crew.items → All (IsThere e) ends.items) }
{
    map_vec(rt, crew, &|worker| worker.work(rt, account, each))
}

/// Receives until each worker had a pill, each in a thread. Returns their receivers.
pub fn receive_all<R: Clock + Threads + Wait + Sync>(
    rt: &R,
    account: &Account,
    crew: Vec<Receiving>,
) -> Result<Vec<Receiver<Sent>>, AllocError>
    ensures ends { IfOk result (λ ends. (e : End Sent)
        → All (IsReceiving e) crew.items → All (IsThere e) ends.items) }
{
    map_vec(rt, crew, &|worker| worker.work(rt, account))
}

/// Gives all these ends back to one of them.
pub fn give_all<R: Wait>(rt: &R, to: &mut Receiver<Sent>, ends: Vec<Receiver<Sent>>)
    requires ends { All (IsThere to.old.end) ends.items }
    ensures to { AreOfOneChannel to.old.end to.new.end }
{
    let mut ends = ends;
    for _ in 0..ends.len() {
        if let Some(end) = ends.pop() {
            to.give_receiver(rt, end);
        }
    }
}
