//! The calls that close a channel, and let an end go.
ghost use Rattle.std.specs.Prelude.{◌≡◌, ◌≢◌, ◌↔◌, ◌⊎◌, ◌<◌, IfNone, IfSome, None};
ghost use Rattle.mb_channel.specs.Standing.{HasCut};
ghost use Rattle.mb_channel.specs.declared.held.Held.TheVariants as held;
ghost use Rattle.hazbultra_channel.specs.Ends.{EndMade, EndWent, HasRetired, IsAsleep, IsAtRest, IsEnd, IsGoing, MayGo};
ghost use Rattle.hazbultra_channel.specs.Ends.{IsNoWake, IsSending, IsWake, OnlyTold, Retires, WasTold, place_held};
ghost use Rattle.hazbultra_channel.specs.declared.codes.TheConstants.{AGAIN, BAD_HANDLE, DONE};

use crate::codes::{AGAIN, BAD_HANDLE, DONE};
use crate::handle::End;
use crate::paying::pay_some;
use crate::thing::{Thing, WakeOut};
use mb_channel::{Departing, Held, KeptSender, Stored};
use std::mem;

/// Closes the channel, for ever. The call returns `DONE` if that is done, `AGAIN` if it has to be called again, and
/// `BAD_HANDLE` if the handle leads to no sender.
#[unsafe(no_mangle)]
pub extern "C" fn hz_channel_close(sender: &mut End, wake: &mut WakeOut) -> u32
    ensures told { result ≢ BAD_HANDLE
        → EndWent (OnlyTold wake.new.threads) sender.old.block.thing sender.new.block.thing }
    ensures done { result ≡ DONE → EndMade WasTold sender.new.block.thing }
    ensures told_on { EndMade WasTold sender.old.block.thing
        → EndMade WasTold sender.new.block.thing }
    ensures rest { result ≢ BAD_HANDLE → wake.new.owes ≡ 0
        → EndMade IsAtRest sender.new.block.thing }
    ensures bad { (result ≡ BAD_HANDLE) ↔ (EndMade IsSending sender.old.block.thing → ⊥) }
    ensures same { result ≡ BAD_HANDLE → sender.new.block.thing ≡ sender.old.block.thing }
    ensures still { result ≢ BAD_HANDLE → EndMade IsSending sender.new.block.thing }
    ensures codes { (result ≡ DONE) ⊎ (result ≡ AGAIN) ⊎ (result ≡ BAD_HANDLE) }
    ensures wake { IsWake wake.new }
    ensures no_wake { result ≡ BAD_HANDLE → IsNoWake wake.new }
    ensures place { 0 < wake.new.threads
        → EndMade (λ k. wake.new.place ≡ place_held k) sender.new.block.thing }
{
    wake.threads = 0;
    wake.owes = 0;
    let Some(opened) = sender.lend() else {
        return BAD_HANDLE;
    };
    let Thing::OfEnd(stored) = mem::replace(opened, Thing::OfNothing) else {
        return BAD_HANDLE;
    };
    let (held, code) = match stored.take() {
        Held::OfSender(kept) => close(kept, wake),
        other => (other, BAD_HANDLE),
    };
    *opened = Thing::OfEnd(Stored::new(held));
    code
}

fn close(kept: KeptSender<u64>, wake: &mut WakeOut) -> (Held<u64>, u32)
    requires { (wake.old.threads ≡ 0) × (wake.old.owes ≡ 0) }
    ensures told { OnlyTold wake.new.threads (held.OfSender kept) result.0 }
    ensures done { result.1 ≡ DONE → WasTold result.0 }
    ensures told_on { WasTold (held.OfSender kept) → WasTold result.0 }
    ensures rest { wake.new.owes ≡ 0 → IsAtRest result.0 }
    ensures codes { (result.1 ≡ DONE) ⊎ (result.1 ≡ AGAIN) }
    ensures sending { IsSending result.0 }
    ensures wake { IsWake wake.new }
    ensures place { 0 < wake.new.threads → wake.new.place ≡ place_held result.0 }
{
    let sender = match kept.take() {
        Ok(sender) => sender,
        Err(owing) => return (pay_some(Held::OfSender(owing.keep()), wake), AGAIN),
    };
    match sender.try_close() {
        Ok((sender, true)) => (Held::OfSender(sender.keep()), DONE),
        Ok((sender, false)) => (Held::OfSender(sender.keep()), AGAIN),
        Err(owing) => (pay_some(Held::OfSender(owing.keep()), wake), AGAIN),
    }
}

/// Lets an end go for good. The call returns `DONE` if that is done: the end owed nothing, and the handle leads to
/// nothing. It returns `AGAIN` if it has to be called again, and `BAD_HANDLE` if the handle leads to no end. An end
/// that has to be freed again can do nothing else.
#[unsafe(no_mangle)]
pub extern "C" fn hz_channel_free(end: &mut End, wake: &mut WakeOut) -> u32
    ensures done { result ≡ DONE → (end.new.block.thing ≡ None)
        × EndMade MayGo end.old.block.thing }
    ensures again { result ≡ AGAIN
        → EndWent (IsGoing wake.new.threads) end.old.block.thing end.new.block.thing }
    ensures retires { result ≡ AGAIN
        → EndWent Retires end.old.block.thing end.new.block.thing }
    ensures rest { result ≡ AGAIN → wake.new.owes ≡ 0 → EndMade IsAtRest end.new.block.thing }
    ensures bad { (result ≡ BAD_HANDLE) ↔ (EndMade IsEnd end.old.block.thing → ⊥) }
    ensures same { result ≡ BAD_HANDLE → end.new.block.thing ≡ end.old.block.thing }
    ensures codes { (result ≡ DONE) ⊎ (result ≡ AGAIN) ⊎ (result ≡ BAD_HANDLE) }
    ensures wake { IsWake wake.new }
    ensures no_wake { result ≢ AGAIN → IsNoWake wake.new }
    ensures place { 0 < wake.new.threads
        → EndMade (λ k. wake.new.place ≡ place_held k) end.new.block.thing }
{
    wake.threads = 0;
    wake.owes = 0;
    let Some(mut opened) = end.take() else {
        return BAD_HANDLE;
    };
    let Thing::OfEnd(stored) = mem::replace(&mut *opened, Thing::OfNothing) else {
        end.give(opened);
        return BAD_HANDLE;
    };
    match go(stored.take(), wake) {
        None => DONE,
        Some(held) => {
            *opened = Thing::OfEnd(Stored::new(held));
            end.give(opened);
            AGAIN
        }
    }
}

/// A step of an end that goes. `None` once it has gone.
fn go(held: Held<u64>, wake: &mut WakeOut) -> Option<Held<u64>>
    requires { (wake.old.threads ≡ 0) × (wake.old.owes ≡ 0) }
    ensures gone { IfNone result (MayGo held) }
    ensures going { IfSome result (IsGoing wake.new.threads held) }
    ensures retires { IfSome result (Retires held) }
    ensures rest { wake.new.owes ≡ 0 → IfSome result IsAtRest }
    ensures wake { IsWake wake.new }
    ensures no_wake { IfNone result (IsNoWake wake.new) }
    ensures place { 0 < wake.new.threads
        → IfSome result (λ k. wake.new.place ≡ place_held k) }
{
    match held {
        // It stays in the handle until it has cut what it has to.
        Held::OfSender(kept) => Some(retire(kept, wake)),
        Held::OfReceiver(receiver) => depart(receiver.retire(), wake),
        Held::OfDeparting(departing) => depart(departing, wake),
        owing => Some(pay_some(owing, wake)),
    }
}

fn retire(kept: KeptSender<u64>, wake: &mut WakeOut) -> Held<u64>
    requires { (wake.old.threads ≡ 0) × (wake.old.owes ≡ 0) }
    ensures going { IsGoing wake.new.threads (held.OfSender kept) result }
    ensures retires { Retires (held.OfSender kept) result }
    ensures rest { wake.new.owes ≡ 0 → IsAtRest result }
    ensures wake { IsWake wake.new }
    ensures place { 0 < wake.new.threads → wake.new.place ≡ place_held result }
{
    match kept.take() {
        Ok(sender) => match sender.try_retire() {
            Ok(departing) => Held::OfDeparting(departing),
            Err(sender) => Held::OfSender(sender.keep()),
        },
        Err(owing) => pay_some(Held::OfSender(owing.keep()), wake),
    }
}

fn depart(departing: Departing<u64>, wake: &mut WakeOut) -> Option<Held<u64>>
    requires { (wake.old.threads ≡ 0) × (wake.old.owes ≡ 0) }
    ensures gone { IfNone result (HasCut departing) }
    ensures going { IfSome result (OnlyTold wake.new.threads (held.OfDeparting departing)) }
    ensures retired { HasRetired (held.OfDeparting departing) → IfSome result HasRetired }
    ensures awake { IfSome result (λ k. IsAsleep k → ⊥) }
    ensures rest { wake.new.owes ≡ 0 → IfSome result IsAtRest }
    ensures wake { IsWake wake.new }
    ensures no_wake { IfNone result (IsNoWake wake.new) }
    ensures place { 0 < wake.new.threads
        → IfSome result (λ k. wake.new.place ≡ place_held k) }
{
    match departing.try_go() {
        Ok(None) => None,
        Ok(Some(departing)) => Some(Held::OfDeparting(departing)),
        Err(cutter) => Some(pay_some(Held::OfCutter(cutter), wake)),
    }
}
