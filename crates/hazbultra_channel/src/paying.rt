//! What an end owes, paid in small steps.
ghost use Rattle.std.specs.Prelude.{◌≡◌, ◌≢◌, ◌↔◌, ◌⊎◌, ◌<◌, Some};
ghost use Rattle.mb_channel.specs.Wakes.{one_if};
ghost use Rattle.mb_channel.specs.declared.held.Held.TheVariants as held;
ghost use Rattle.hazbultra_channel.specs.Ends.{EndMade, EndWent, HasPaid, HasRetired, IsAtRest, IsEnd};
ghost use Rattle.hazbultra_channel.specs.Ends.{IsNoWake, IsWake, OwedPaid, WasTold, place_held};
ghost use Rattle.hazbultra_channel.specs.declared.codes.TheConstants.{AGAIN, BAD_HANDLE, DONE};

use crate::codes::{AGAIN, BAD_HANDLE, DONE};
use crate::handle::End;
use crate::thing::{Thing, WakeOut};
use mb_channel::{Cutter, Held, KeptSender, Leaving, Owing, Stored};
use std::mem;

/// Pays what the end owes, in a few accesses. If it sleeps, it stops waiting. The call returns `DONE` if the end owes
/// nothing any more, `AGAIN` if it still does, and `BAD_HANDLE` if the handle leads to no end.
#[unsafe(no_mangle)]
pub extern "C" fn hz_channel_pay(end: &mut End, wake: &mut WakeOut) -> u32
    ensures paid { result ≢ BAD_HANDLE
        → EndWent (HasPaid wake.new.threads) end.old.block.thing end.new.block.thing }
    ensures done { result ≡ DONE → EndMade IsAtRest end.new.block.thing }
    ensures rest { result ≢ BAD_HANDLE → wake.new.owes ≡ 0
        → EndMade IsAtRest end.new.block.thing }
    ensures told_on { EndMade WasTold end.old.block.thing → EndMade WasTold end.new.block.thing }
    ensures retired { EndMade HasRetired end.old.block.thing
        → EndMade HasRetired end.new.block.thing }
    ensures bad { (result ≡ BAD_HANDLE) ↔ (EndMade IsEnd end.old.block.thing → ⊥) }
    ensures same { result ≡ BAD_HANDLE → end.new.block.thing ≡ end.old.block.thing }
    ensures codes { (result ≡ DONE) ⊎ (result ≡ AGAIN) ⊎ (result ≡ BAD_HANDLE) }
    ensures wake { IsWake wake.new }
    ensures no_wake { result ≡ BAD_HANDLE → IsNoWake wake.new }
    ensures owes { result ≡ DONE → wake.new.owes ≡ 0 }
    ensures place { 0 < wake.new.threads
        → EndMade (λ k. wake.new.place ≡ place_held k) end.new.block.thing }
{
    wake.threads = 0;
    wake.owes = 0;
    let Some(opened) = end.lend() else {
        return BAD_HANDLE;
    };
    pay_there(opened, wake)
}

/// Pays what the end in the box owes, in a few accesses.
#[cold]
#[inline(never)]
pub(crate) fn pay_there(opened: &mut Thing, wake: &mut WakeOut) -> u32
    requires nothing { (wake.old.threads ≡ 0) × (wake.old.owes ≡ 0) }
    ensures paid { result ≢ BAD_HANDLE
        → EndWent (HasPaid wake.new.threads) (Some opened.old) (Some opened.new) }
    ensures done { result ≡ DONE → EndMade IsAtRest (Some opened.new) }
    ensures rest { result ≢ BAD_HANDLE → wake.new.owes ≡ 0
        → EndMade IsAtRest (Some opened.new) }
    ensures told_on { EndMade WasTold (Some opened.old) → EndMade WasTold (Some opened.new) }
    ensures retired { EndMade HasRetired (Some opened.old) → EndMade HasRetired (Some opened.new) }
    ensures bad { (result ≡ BAD_HANDLE) ↔ (EndMade IsEnd (Some opened.old) → ⊥) }
    ensures same { result ≡ BAD_HANDLE → opened.new ≡ opened.old }
    ensures codes { (result ≡ DONE) ⊎ (result ≡ AGAIN) ⊎ (result ≡ BAD_HANDLE) }
    ensures wake { IsWake wake.new }
    ensures no_wake { result ≡ BAD_HANDLE → IsNoWake wake.new }
    ensures owes { result ≡ DONE → wake.new.owes ≡ 0 }
    ensures place { 0 < wake.new.threads
        → EndMade (λ k. wake.new.place ≡ place_held k) (Some opened.new) }
{
    let Thing::OfEnd(stored) = mem::replace(opened, Thing::OfNothing) else {
        return BAD_HANDLE;
    };
    *opened = Thing::OfEnd(Stored::new(pay_some(stored.take(), wake)));
    if wake.owes == 0 { DONE } else { AGAIN }
}

/// Pays what an end owes, in a few accesses.
#[cold]
#[inline(never)]
pub(crate) fn pay_some(held: Held<u64>, wake: &mut WakeOut) -> Held<u64>
    ensures paid { HasPaid wake.new.threads held result }
    ensures stays { IsAtRest held → result ≡ held }
    ensures told_on { WasTold held → WasTold result }
    ensures retired { HasRetired held → HasRetired result }
    ensures rest { wake.new.owes ≡ 0 → IsAtRest result }
    ensures wake { IsWake wake.new }
    ensures place { 0 < wake.new.threads → wake.new.place ≡ place_held result }
{
    tell(wake, 0, false, false);
    match held {
        Held::OfSender(kept) => pay_sender(kept, wake),
        Held::OfLeaving(leaving) => pay_leaving(leaving, wake),
        Held::OfAsleep(asleep) => pay_leaving(asleep.give_up(), wake),
        Held::OfCutter(cutter) => pay_cutter(cutter, wake),
        rest => rest,
    }
}

fn tell(wake: &mut WakeOut, place: usize, woken: bool, owes: bool)
    ensures threads { wake.new.threads ≡ one_if woken }
    ensures owes { wake.new.owes ≡ one_if owes }
    ensures wake { IsWake wake.new }
    ensures place { wake.new.place ≡ place }
{
    *wake = WakeOut {
        place: place as u64,
        threads: u32::from(woken),
        owes: u32::from(owes),
    };
}

fn pay_sender(kept: KeptSender<u64>, wake: &mut WakeOut) -> Held<u64>
    requires { (wake.old.threads ≡ 0) × (wake.old.owes ≡ 0) }
    ensures paid { HasPaid wake.new.threads (held.OfSender kept) result }
    ensures stays { IsAtRest (held.OfSender kept) → result ≡ held.OfSender kept }
    ensures rest { wake.new.owes ≡ 0 → IsAtRest result }
    ensures told_on { WasTold (held.OfSender kept) → WasTold result }
    ensures wake { IsWake wake.new }
    ensures place { 0 < wake.new.threads → wake.new.place ≡ place_held result }
{
    if !kept.owes() {
        return Held::OfSender(kept);
    }
    match kept.take() {
        Ok(sender) => Held::OfSender(sender.keep()),
        Err(owing) => pay_owing(owing, wake),
    }
}

fn pay_owing(owing: Owing<u64>, wake: &mut WakeOut) -> Held<u64>
    ensures paid { OwedPaid wake.new.threads owing result }
    ensures rest { wake.new.owes ≡ 0 → IsAtRest result }
    ensures wake { IsWake wake.new }
    ensures place { wake.new.place ≡ place_held result }
{
    let place = owing.place();
    let (woken, rest) = owing.pay_some();
    match rest {
        Ok(sender) => {
            tell(wake, place, woken, false);
            Held::OfSender(sender.keep())
        }
        Err(owing) => {
            tell(wake, place, woken, true);
            Held::OfSender(owing.keep())
        }
    }
}

fn pay_leaving(leaving: Leaving<u64>, wake: &mut WakeOut) -> Held<u64>
    ensures paid { HasPaid wake.new.threads (held.OfLeaving leaving) result }
    ensures rest { wake.new.owes ≡ 0 → IsAtRest result }
    ensures wake { IsWake wake.new }
    ensures place { wake.new.place ≡ place_held result }
{
    let place = leaving.place();
    let (woken, rest) = leaving.pay_some();
    match rest {
        Ok(receiver) => {
            tell(wake, place, woken, false);
            Held::OfReceiver(receiver)
        }
        Err(leaving) => {
            tell(wake, place, woken, true);
            Held::OfLeaving(leaving)
        }
    }
}

fn pay_cutter(cutter: Cutter<u64>, wake: &mut WakeOut) -> Held<u64>
    ensures paid { HasPaid wake.new.threads (held.OfCutter cutter) result }
    ensures retired { HasRetired (held.OfCutter cutter) → HasRetired result }
    ensures rest { wake.new.owes ≡ 0 → IsAtRest result }
    ensures wake { IsWake wake.new }
    ensures place { wake.new.place ≡ place_held result }
{
    let place = cutter.place();
    let (woken, rest) = cutter.pay_some();
    match rest {
        Ok(departing) => {
            tell(wake, place, woken, false);
            Held::OfDeparting(departing)
        }
        Err(cutter) => {
            tell(wake, place, woken, true);
            Held::OfCutter(cutter)
        }
    }
}
