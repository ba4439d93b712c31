//! The calls that send and receive.
ghost use Rattle.std.specs.Prelude.{◌≡◌, ◌≢◌, ◌↔◌, ◌⊎◌, ◌<◌, Some};
ghost use Rattle.mb_channel.specs.Standing.{OneGot, OneSent};
ghost use Rattle.mb_channel.specs.Wakes.{Tells};
ghost use Rattle.mb_channel.specs.declared.held.Held.TheVariants as held;
ghost use Rattle.hazbultra_channel.specs.Ends.{EndMade, EndWent, FellAsleep, FoundNothing, Got, GotNothing};
ghost use Rattle.hazbultra_channel.specs.Ends.{IsAsleep, IsAtRest, IsNoWake, IsReceiving, IsRefusal, IsSending, IsWake};
ghost use Rattle.hazbultra_channel.specs.Ends.{OnlyTold, ReceivesInVain, SendsInVain, WasTold, place_held, stand_held, wakes_held};
ghost use Rattle.hazbultra_channel.specs.declared.codes.TheConstants.{AGAIN, BAD_HANDLE, CLOSED, CROWDED, DONE};
ghost use Rattle.hazbultra_channel.specs.declared.codes.TheConstants.{NOTHING, SLEEPS, TOOK};

use crate::codes::{AGAIN, BAD_HANDLE, DONE, NOTHING, SLEEPS, TOOK, code_of};
use crate::handle::End;
use crate::paying::{pay_some, pay_there};
use crate::thing::{Thing, WakeOut};
use mb_channel::{Asleep, Held, KeptSender, Polled, Posted, Receiver, Sending, Stored, Tried};
use std::mem;

/// Sends a value, behind all that the sender sent before. The call returns `DONE` if it was sent. Else it was not:
/// `AGAIN` if another was first, or the sender still owes something; `CLOSED`, `CROWDED` or `NO_MEMORY` if it is
/// refused; `BAD_HANDLE` if the handle leads to no sender.
#[unsafe(no_mangle)]
pub extern "C" fn hz_channel_send(sender: &mut End, value: u64, wake: &mut WakeOut) -> u32
    ensures sent { result ≡ DONE
        → EndWent (λ h k. OneSent value (stand_held h) (stand_held k)
        × Tells wake.new.threads (wakes_held h) (wakes_held k))
        sender.old.block.thing sender.new.block.thing }
    ensures unsent { result ≢ DONE → result ≢ BAD_HANDLE
        → EndWent (OnlyTold wake.new.threads) sender.old.block.thing sender.new.block.thing }
    ensures closed { result ≡ CLOSED → EndMade WasTold sender.new.block.thing }
    ensures rest { result ≢ BAD_HANDLE → wake.new.owes ≡ 0
        → EndMade IsAtRest sender.new.block.thing }
    ensures still_closed { EndMade SendsInVain sender.old.block.thing → result ≡ CLOSED }
    ensures bad { (result ≡ BAD_HANDLE) ↔ (EndMade IsSending sender.old.block.thing → ⊥) }
    ensures same { result ≡ BAD_HANDLE → sender.new.block.thing ≡ sender.old.block.thing }
    ensures still { result ≢ BAD_HANDLE → EndMade IsSending sender.new.block.thing }
    ensures codes { (result ≡ DONE) ⊎ (result ≡ AGAIN) ⊎ IsRefusal result
        ⊎ (result ≡ BAD_HANDLE) }
    ensures wake { IsWake wake.new }
    ensures no_wake { result ≡ BAD_HANDLE → IsNoWake wake.new }
    ensures place { 0 < wake.new.threads
        → EndMade (λ k. wake.new.place ≡ place_held k) sender.new.block.thing }
{
    wake.threads = 0;
    wake.owes = 0;
    let Some(opened) = sender.lend() else {
        return BAD_HANDLE;
    };
    let posted = match &mut *opened {
        Thing::OfEnd(stored) => match &mut stored.held {
            Held::OfSender(kept) => kept.send_here(value),
            _ => return BAD_HANDLE,
        },
        Thing::OfNothing => return BAD_HANDLE,
    };
    match posted {
        Posted::Sent => DONE,
        Posted::Owes => {
            pay_there(opened, wake);
            DONE
        }
        Posted::Again(_) => AGAIN,
        Posted::Back(_) => send_further(opened, value, wake),
    }
}

/// The same where more is to do than to send in one segment.
#[cold]
#[inline(never)]
fn send_further(opened: &mut Thing, value: u64, wake: &mut WakeOut) -> u32
    requires sender { EndMade IsSending (Some opened.old) }
    requires nothing { (wake.old.threads ≡ 0) × (wake.old.owes ≡ 0) }
    ensures sent { result ≡ DONE
        → EndWent (λ h k. OneSent value (stand_held h) (stand_held k)
        × Tells wake.new.threads (wakes_held h) (wakes_held k))
        (Some opened.old) (Some opened.new) }
    ensures unsent { result ≢ DONE
        → EndWent (OnlyTold wake.new.threads) (Some opened.old) (Some opened.new) }
    ensures closed { result ≡ CLOSED → EndMade WasTold (Some opened.new) }
    ensures still_closed { EndMade WasTold (Some opened.old) → result ≡ CLOSED }
    ensures rest { wake.new.owes ≡ 0 → EndMade IsAtRest (Some opened.new) }
    ensures codes { (result ≡ DONE) ⊎ (result ≡ AGAIN) ⊎ IsRefusal result }
    ensures still { EndMade IsSending (Some opened.new) }
    ensures wake { IsWake wake.new }
    ensures place { 0 < wake.new.threads
        → EndMade (λ k. wake.new.place ≡ place_held k) (Some opened.new) }
{
    let Thing::OfEnd(stored) = mem::replace(opened, Thing::OfNothing) else {
        unreachable!()
    };
    let (held, code) = match stored.take() {
        Held::OfSender(kept) => send(kept, value, wake),
        _ => unreachable!(),
    };
    *opened = Thing::OfEnd(Stored::new(held));
    code
}

fn send(kept: KeptSender<u64>, value: u64, wake: &mut WakeOut) -> (Held<u64>, u32)
    requires { (wake.old.threads ≡ 0) × (wake.old.owes ≡ 0) }
    ensures sent { result.1 ≡ DONE
        → OneSent value (stand_held (held.OfSender kept)) (stand_held result.0)
        × Tells wake.new.threads (wakes_held (held.OfSender kept)) (wakes_held result.0) }
    ensures unsent { result.1 ≢ DONE
        → OnlyTold wake.new.threads (held.OfSender kept) result.0 }
    ensures closed { result.1 ≡ CLOSED → WasTold result.0 }
    ensures still_closed { WasTold (held.OfSender kept) → result.1 ≡ CLOSED }
    ensures rest { wake.new.owes ≡ 0 → IsAtRest result.0 }
    ensures codes { (result.1 ≡ DONE) ⊎ (result.1 ≡ AGAIN) ⊎ IsRefusal result.1 }
    ensures sending { IsSending result.0 }
    ensures wake { IsWake wake.new }
    ensures place { 0 < wake.new.threads → wake.new.place ≡ place_held result.0 }
{
    let sender = match kept.take() {
        Ok(sender) => sender,
        Err(owing) => return (pay_some(Held::OfSender(owing.keep()), wake), AGAIN),
    };
    match sender.try_send(value) {
        Sending::Sent(sender) => (Held::OfSender(sender.keep()), DONE),
        Sending::Owes(owing) => (pay_some(Held::OfSender(owing.keep()), wake), DONE),
        Sending::Again(sender, _) => (Held::OfSender(sender.keep()), AGAIN),
        Sending::Refused(sender, unsent) => (Held::OfSender(sender.keep()), code_of(unsent.why)),
    }
}

/// Receives the next value, and goes to sleep if there is none: then the code is `SLEEPS`. Let the thread sleep until
/// it is woken at this place, and call again. Each other code ends the sleep. `TOOK` writes a value. After any
/// other code none was received. `AGAIN` says that another was first, that there is no memory, or that the receiver
/// still owes something. `CLOSED` says that no value can come any more, and `CROWDED` that the receive is refused. The
/// code is `BAD_HANDLE` if the handle leads to no receiver.
#[unsafe(no_mangle)]
pub extern "C" fn hz_channel_receive(receiver: &mut End, value: &mut u64, wake: &mut WakeOut) -> u32
    ensures took { result ≡ TOOK
        → EndWent (λ h k. OneGot value.new (stand_held h) (stand_held k)
        × Tells wake.new.threads (wakes_held h) (wakes_held k))
        receiver.old.block.thing receiver.new.block.thing }
    ensures none { result ≢ TOOK → result ≢ BAD_HANDLE
        → EndWent (OnlyTold wake.new.threads) receiver.old.block.thing receiver.new.block.thing }
    ensures sleeps { result ≡ SLEEPS → EndMade IsAsleep receiver.new.block.thing }
    ensures looked { result ≡ SLEEPS
        → EndWent FellAsleep receiver.old.block.thing receiver.new.block.thing }
    ensures place { (result ≡ SLEEPS) ⊎ (0 < wake.new.threads)
        → EndMade (λ k. wake.new.place ≡ place_held k) receiver.new.block.thing }
    ensures closed { result ≡ CLOSED → EndMade WasTold receiver.new.block.thing }
    ensures still_closed { EndMade ReceivesInVain receiver.old.block.thing → result ≡ CLOSED }
    ensures rest { result ≢ SLEEPS → result ≢ BAD_HANDLE → wake.new.owes ≡ 0
        → EndMade IsAtRest receiver.new.block.thing }
    ensures bad { (result ≡ BAD_HANDLE) ↔ (EndMade IsReceiving receiver.old.block.thing → ⊥) }
    ensures same { result ≡ BAD_HANDLE → receiver.new.block.thing ≡ receiver.old.block.thing }
    ensures still { result ≢ BAD_HANDLE → EndMade IsReceiving receiver.new.block.thing }
    ensures kept { result ≢ TOOK → value.new ≡ value.old }
    ensures codes { (result ≡ TOOK) ⊎ (result ≡ SLEEPS) ⊎ (result ≡ AGAIN)
        ⊎ (result ≡ CLOSED) ⊎ (result ≡ CROWDED) ⊎ (result ≡ BAD_HANDLE) }
    ensures wake { IsWake wake.new }
    ensures no_wake { (result ≡ BAD_HANDLE) ⊎ (result ≡ SLEEPS) → IsNoWake wake.new }
{
    wake.threads = 0;
    wake.owes = 0;
    let Some(opened) = receiver.lend() else {
        return BAD_HANDLE;
    };
    let Thing::OfEnd(stored) = mem::replace(opened, Thing::OfNothing) else {
        return BAD_HANDLE;
    };
    let (held, code) = match stored.take() {
        Held::OfReceiver(receiver) => receive(receiver, value, wake),
        Held::OfAsleep(asleep) => wake_up(asleep, value, wake),
        Held::OfLeaving(leaving) => (pay_some(Held::OfLeaving(leaving), wake), AGAIN),
        other => (other, BAD_HANDLE),
    };
    *opened = Thing::OfEnd(Stored::new(held));
    code
}

fn receive(receiver: Receiver<u64>, value: &mut u64, wake: &mut WakeOut) -> (Held<u64>, u32)
    requires { (wake.old.threads ≡ 0) × (wake.old.owes ≡ 0) }
    ensures took { result.1 ≡ TOOK
        → OneGot value.new (stand_held (held.OfReceiver receiver)) (stand_held result.0)
        × Tells wake.new.threads (wakes_held (held.OfReceiver receiver)) (wakes_held result.0) }
    ensures none { result.1 ≢ TOOK
        → OnlyTold wake.new.threads (held.OfReceiver receiver) result.0 }
    ensures sleeps { result.1 ≡ SLEEPS → IsAsleep result.0 }
    ensures looked { result.1 ≡ SLEEPS → FellAsleep (held.OfReceiver receiver) result.0 }
    ensures place { (result.1 ≡ SLEEPS) ⊎ (0 < wake.new.threads)
        → wake.new.place ≡ place_held result.0 }
    ensures closed { result.1 ≡ CLOSED → WasTold result.0 }
    ensures still_closed { WasTold (held.OfReceiver receiver) → result.1 ≡ CLOSED }
    ensures rest { result.1 ≢ SLEEPS → wake.new.owes ≡ 0 → IsAtRest result.0 }
    ensures codes { (result.1 ≡ TOOK) ⊎ (result.1 ≡ SLEEPS) ⊎ (result.1 ≡ AGAIN)
        ⊎ (result.1 ≡ CLOSED) ⊎ (result.1 ≡ CROWDED) }
    ensures good { result.1 ≢ BAD_HANDLE }
    ensures receiving { IsReceiving result.0 }
    ensures kept { result.1 ≢ TOOK → value.new ≡ value.old }
    ensures wake { IsWake wake.new }
    ensures no_wake { result.1 ≡ SLEEPS → IsNoWake wake.new }
{
    match receiver.poll_receive() {
        Polled::Took(receiver, taken) => {
            *value = taken;
            (Held::OfReceiver(receiver), TOOK)
        }
        Polled::TookOwing(leaving, taken) => {
            *value = taken;
            (pay_some(Held::OfLeaving(leaving), wake), TOOK)
        }
        Polled::Sleeps(asleep) => {
            wake.place = asleep.place() as u64;
            (Held::OfAsleep(asleep), SLEEPS)
        }
        Polled::Again(receiver) => (Held::OfReceiver(receiver), AGAIN),
        Polled::Owes(leaving) => (pay_some(Held::OfLeaving(leaving), wake), AGAIN),
        Polled::Refused(receiver, why) => (Held::OfReceiver(receiver), code_of(why)),
    }
}

/// The same for a receiver that sleeps.
fn wake_up(asleep: Asleep<u64>, value: &mut u64, wake: &mut WakeOut) -> (Held<u64>, u32)
    requires { (wake.old.threads ≡ 0) × (wake.old.owes ≡ 0) }
    ensures took { result.1 ≡ TOOK
        → OneGot value.new (stand_held (held.OfAsleep asleep)) (stand_held result.0)
        × Tells wake.new.threads (wakes_held (held.OfAsleep asleep)) (wakes_held result.0) }
    ensures none { result.1 ≢ TOOK
        → OnlyTold wake.new.threads (held.OfAsleep asleep) result.0 }
    ensures sleeps { result.1 ≡ SLEEPS → IsAsleep result.0 }
    ensures place { (result.1 ≡ SLEEPS) ⊎ (0 < wake.new.threads)
        → wake.new.place ≡ place_held result.0 }
    ensures codes { (result.1 ≡ TOOK) ⊎ (result.1 ≡ SLEEPS) ⊎ (result.1 ≡ AGAIN) }
    ensures good { result.1 ≢ BAD_HANDLE }
    ensures rest { result.1 ≢ SLEEPS → wake.new.owes ≡ 0 → IsAtRest result.0 }
    ensures receiving { IsReceiving result.0 }
    ensures kept { result.1 ≢ TOOK → value.new ≡ value.old }
    ensures wake { IsWake wake.new }
    ensures no_wake { result.1 ≡ SLEEPS → IsNoWake wake.new }
{
    match asleep.wake_up() {
        Polled::Took(receiver, taken) => {
            *value = taken;
            (Held::OfReceiver(receiver), TOOK)
        }
        Polled::TookOwing(leaving, taken) => {
            *value = taken;
            (pay_some(Held::OfLeaving(leaving), wake), TOOK)
        }
        Polled::Sleeps(asleep) => {
            wake.place = asleep.place() as u64;
            (Held::OfAsleep(asleep), SLEEPS)
        }
        Polled::Again(receiver) => (Held::OfReceiver(receiver), AGAIN),
        Polled::Owes(leaving) => (pay_some(Held::OfLeaving(leaving), wake), AGAIN),
        Polled::Refused(_, _) => unreachable!(),
    }
}

/// Receives the next value, without going to sleep. `TOOK` writes it. Else none was received: `NOTHING` if at a moment
/// of this call nothing waited; `AGAIN` if that is not known, or the receiver sleeps or owes something; else as for
/// `hz_channel_receive`.
#[unsafe(no_mangle)]
pub extern "C" fn hz_channel_try_receive(receiver: &mut End, value: &mut u64) -> u32
    ensures took { result ≡ TOOK → EndWent (Got value.new)
        receiver.old.block.thing receiver.new.block.thing }
    ensures none { result ≢ TOOK → result ≢ BAD_HANDLE
        → EndWent GotNothing receiver.old.block.thing receiver.new.block.thing }
    ensures nothing { result ≡ NOTHING
        → EndWent FoundNothing receiver.old.block.thing receiver.new.block.thing }
    ensures closed { result ≡ CLOSED → EndMade WasTold receiver.new.block.thing }
    ensures still_closed { EndMade ReceivesInVain receiver.old.block.thing → result ≡ CLOSED }
    ensures bad { (result ≡ BAD_HANDLE) ↔ (EndMade IsReceiving receiver.old.block.thing → ⊥) }
    ensures same { result ≡ BAD_HANDLE → receiver.new.block.thing ≡ receiver.old.block.thing }
    ensures kept { result ≢ TOOK → value.new ≡ value.old }
    ensures codes { (result ≡ TOOK) ⊎ (result ≡ NOTHING) ⊎ (result ≡ AGAIN)
        ⊎ (result ≡ CLOSED) ⊎ (result ≡ CROWDED) ⊎ (result ≡ BAD_HANDLE) }
{
    let Some(opened) = receiver.lend() else {
        return BAD_HANDLE;
    };
    match opened {
        Thing::OfEnd(stored) => match &mut stored.held {
            Held::OfReceiver(receiver) => try_receive(receiver, value),
            Held::OfLeaving(_) | Held::OfAsleep(_) => AGAIN,
            _ => BAD_HANDLE,
        },
        Thing::OfNothing => BAD_HANDLE,
    }
}

#[inline(always)]
fn try_receive(receiver: &mut Receiver<u64>, value: &mut u64) -> u32
    ensures took { result ≡ TOOK
        → Got value.new (held.OfReceiver receiver.old) (held.OfReceiver receiver.new) }
    ensures none { result ≢ TOOK
        → GotNothing (held.OfReceiver receiver.old) (held.OfReceiver receiver.new) }
    ensures nothing { result ≡ NOTHING
        → FoundNothing (held.OfReceiver receiver.old) (held.OfReceiver receiver.new) }
    ensures closed { result ≡ CLOSED → WasTold (held.OfReceiver receiver.new) }
    ensures still_closed { WasTold (held.OfReceiver receiver.old) → result ≡ CLOSED }
    ensures codes { (result ≡ TOOK) ⊎ (result ≡ NOTHING) ⊎ (result ≡ AGAIN)
        ⊎ (result ≡ CLOSED) ⊎ (result ≡ CROWDED) }
    ensures kept { result ≢ TOOK → value.new ≡ value.old }
{
    match receiver.try_receive() {
        Ok(Tried::Value(taken)) => {
            *value = taken;
            TOOK
        }
        Ok(Tried::Empty) => NOTHING,
        Ok(Tried::Again) => AGAIN,
        Err(why) => code_of(why),
    }
}
