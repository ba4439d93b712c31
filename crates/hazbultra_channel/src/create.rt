//! The calls that make a channel and its ends.
ghost use Rattle.std.specs.Prelude.{◌≡◌, ◌≢◌, ◌↔◌, ◌⊎◌, IfErr, IfOk, IfSome, None, Some};
ghost use Rattle.hazbultra_channel.specs.Ends.{AreNew, EndMade, EndWent, IsAnother, IsAtRest, IsEnd, StaysSo, WasTold};
ghost use Rattle.mb_channel.specs.declared.held.Held.TheVariants as held;
ghost use Rattle.hazbultra_channel.specs.declared.codes.TheConstants.{AGAIN, BAD_HANDLE, CROWDED, DONE, NO_MEMORY};

use crate::codes::{AGAIN, BAD_HANDLE, CROWDED, DONE, NO_MEMORY};
use crate::handle::End;
use crate::thing::Thing;
use mb_channel::{Held, KeptSender, Stored, unbounded};
use std::alloc::Global;
use std::mem;

/// Makes a channel, with a sender and a receiver. The call returns `BAD_HANDLE` if one of the two handles leads to
/// something already, and `NO_MEMORY` if memory ran out. After each of these nothing has changed.
#[unsafe(no_mangle)]
pub extern "C" fn hz_channel_new(alloc: Global, sender: &mut End, receiver: &mut End) -> u32
    ensures made { result ≡ DONE → EndWent AreNew sender.new.block.thing receiver.new.block.thing }
    ensures bad { (result ≡ BAD_HANDLE)
        ↔ ((sender.old.block.thing ≢ None) ⊎ (receiver.old.block.thing ≢ None)) }
    ensures codes { (result ≡ DONE) ⊎ (result ≡ NO_MEMORY) ⊎ (result ≡ BAD_HANDLE) }
    ensures same_sender { result ≢ DONE → sender.new.block.thing ≡ sender.old.block.thing }
    ensures same { result ≢ DONE → receiver.new.block.thing ≡ receiver.old.block.thing }
{
    if !sender.is_none() || !receiver.is_none() {
        return BAD_HANDLE;
    }
    let Some((sends, receives)) = new_ends(alloc) else {
        return NO_MEMORY;
    };
    let Ok(sending) = Box::new(alloc, sends) else {
        return NO_MEMORY;
    };
    let Ok(receiving) = Box::new(alloc, receives) else {
        return NO_MEMORY;
    };
    sender.give(sending);
    receiver.give(receiving);
    DONE
}

/// A sender and a receiver of a new channel, if there is memory.
fn new_ends(alloc: Global) -> Option<(Thing, Thing)>
    ensures { IfSome result (λ p. EndWent AreNew (Some p.0) (Some p.1)) }
{
    let (sends, receives) = unbounded::<u64>(alloc).ok()?;
    Some((
        Thing::OfEnd(Stored::new(Held::OfSender(sends.keep()))),
        Thing::OfEnd(Stored::new(Held::OfReceiver(receives))),
    ))
}

/// Makes another end of the same kind, sender or receiver, at the place of this one. The call returns `BAD_HANDLE` if
/// `end` leads to no end, or if `other` leads to something already. It returns `AGAIN` if the end owes something, sleeps
/// or goes for good. `CROWDED` says that the ends cannot be counted any more, and `NO_MEMORY` that memory ran out. Only
/// `DONE` makes an end.
#[unsafe(no_mangle)]
pub extern "C" fn hz_channel_another(alloc: Global, end: &mut End, other: &mut End) -> u32
    ensures made { result ≡ DONE → EndWent IsAnother end.old.block.thing other.new.block.thing }
    ensures end { result ≡ DONE → EndWent StaysSo end.old.block.thing end.new.block.thing }
    ensures refused { result ≢ DONE → result ≢ BAD_HANDLE → result ≢ NO_MEMORY
        → EndWent StaysSo end.old.block.thing end.new.block.thing }
    ensures told_on { EndMade WasTold end.old.block.thing → EndMade WasTold end.new.block.thing }
    ensures bad { (result ≡ BAD_HANDLE)
        ↔ ((EndMade IsEnd end.old.block.thing → ⊥) ⊎ (other.old.block.thing ≢ None)) }
    ensures kept { (result ≡ BAD_HANDLE) ⊎ (result ≡ NO_MEMORY)
        → end.new.block.thing ≡ end.old.block.thing }
    ensures same { result ≢ DONE → other.new.block.thing ≡ other.old.block.thing }
    ensures codes { (result ≡ DONE) ⊎ (result ≡ AGAIN) ⊎ (result ≡ CROWDED)
        ⊎ (result ≡ NO_MEMORY) ⊎ (result ≡ BAD_HANDLE) }
{
    if !other.is_none() {
        return BAD_HANDLE;
    }
    let Some(opened) = end.lend() else {
        return BAD_HANDLE;
    };
    let Thing::OfEnd(stored) = mem::replace(opened, Thing::OfNothing) else {
        return BAD_HANDLE;
    };
    let Ok(mut room) = Box::new(alloc, Thing::OfNothing) else {
        *opened = Thing::OfEnd(stored);
        return NO_MEMORY;
    };
    let (held, made) = make_another(stored.take());
    *opened = Thing::OfEnd(Stored::new(held));
    match made {
        Ok(made) => {
            *room = Thing::OfEnd(Stored::new(made));
            other.give(room);
            DONE
        }
        Err(code) => code,
    }
}

/// Makes another end of the same kind, or tells the code of the reason why not.
fn make_another(held: Held<u64>) -> (Held<u64>, Result<Held<u64>, u32>)
    ensures same { StaysSo held result.0 }
    ensures made { IfOk result.1 (IsAnother held) }
    ensures told_on { WasTold held → WasTold result.0 }
    ensures codes { IfErr result.1 (λ code. (code ≡ AGAIN) ⊎ (code ≡ CROWDED)) }
{
    match held {
        Held::OfSender(kept) if !kept.owes() => another_sender(kept),
        Held::OfReceiver(receiver) => {
            let mut receiver = receiver;
            match receiver.another() {
                Some(made) => (Held::OfReceiver(receiver), Ok(Held::OfReceiver(made))),
                None => (Held::OfReceiver(receiver), Err(CROWDED)),
            }
        }
        other => (other, Err(AGAIN)),
    }
}

fn another_sender(kept: KeptSender<u64>) -> (Held<u64>, Result<Held<u64>, u32>)
    requires { IsAtRest (held.OfSender kept) }
    ensures same { StaysSo (held.OfSender kept) result.0 }
    ensures made { IfOk result.1 (IsAnother (held.OfSender kept)) }
    ensures told_on { WasTold (held.OfSender kept) → WasTold result.0 }
    ensures codes { IfErr result.1 (λ code. code ≡ CROWDED) }
{
    let mut sender = match kept.take() {
        Ok(sender) => sender,
        Err(owing) => return (Held::OfSender(owing.keep()), Err(CROWDED)),
    };
    match sender.another() {
        Some(made) => (
            Held::OfSender(sender.keep()),
            Ok(Held::OfSender(made.keep())),
        ),
        None => (Held::OfSender(sender.keep()), Err(CROWDED)),
    }
}
