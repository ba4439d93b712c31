//! The calls that take producers and consumers back, end a mailbox, and free what a handle leads to.
ghost use Rattle.std.specs.Prelude.{◌≡◌, ◌≢◌, ◌↔◌, ◌⊎◌, ◌+◌, ◌<◌, None};
ghost use Rattle.mb_mailbox.specs.Imports.{consumer_count};
ghost use Rattle.mb_mailbox.specs.Gathering.{FullTakesAll, IsGathered, IsReportIn};
ghost use Rattle.mb_mailbox.specs.Gathering.{UndecidedHasCompany, count_missing};
ghost use Rattle.mb_mailbox.specs.declared.gather.GatherFault.TheVariants.{Missing, NoMemory};
ghost use Rattle.hazbultra.specs.Apart.{AreApart, IsApartFrom};
ghost use Rattle.hazbultra.specs.Calls.{HasTakenBack, HubMade, HubTold, HubWent, IsHub};
ghost use Rattle.hazbultra.specs.Refusals.{IsOfAnotherMailbox, IsPart};
ghost use Rattle.hazbultra.specs.declared.codes.TheConstants.{BAD_HANDLE, DONE, MISSING};
ghost use Rattle.hazbultra.specs.declared.codes.TheConstants.{NO_MEMORY, OTHER_MAILBOX};

use crate::boundary::MissingOut;
use crate::codes::{BAD_HANDLE, DONE, MISSING, NO_MEMORY, OTHER_MAILBOX};
use crate::handle::Handle;
use crate::thing::{SeededConsumer, Thing};
use mb_bound::BoundHub;
use mb_mailbox::GatherFault;
use std::alloc::Global;
use std::mem;

/// Takes a producer or consumer back. Its handle then leads to nothing. Returns `BAD_HANDLE` if `hub` leads to no hub
/// or `part` to neither, `OTHER_MAILBOX` if the two mailboxes have different numbers. After both nothing has changed.
#[unsafe(no_mangle)]
pub extern "C" fn hz_take_back(hub: &mut Handle, part: &mut Handle) -> u32
    requires { AreApart hub.old.block.thing part.old.block.thing }
    ensures taken { result ≡ DONE → HubWent (λ h k. HasTakenBack h part.old.block.thing k)
        hub.old.block.thing hub.new.block.thing }
    ensures gone { result ≡ DONE → part.new.block.thing ≡ None }
    ensures bad { (result ≡ BAD_HANDLE)
        ↔ (IsHub hub.old.block.thing × IsPart part.old.block.thing → ⊥) }
    ensures other { (result ≡ OTHER_MAILBOX)
        ↔ HubMade (λ h. IsOfAnotherMailbox h part.old.block.thing) hub.old.block.thing }
    ensures codes { (result ≡ DONE) ⊎ (result ≡ BAD_HANDLE) ⊎ (result ≡ OTHER_MAILBOX) }
    ensures same_hub { result ≢ DONE → hub.new.block.thing ≡ hub.old.block.thing }
    ensures same { result ≢ DONE → part.new.block.thing ≡ part.old.block.thing }
{
    let Some(opened) = hub.lend() else {
        return BAD_HANDLE;
    };
    match opened {
        Thing::OfHub(bound) => take_back(bound, part),
        _ => BAD_HANDLE,
    }
}

/// Takes back what the handle leads to, with the codes of [`hz_take_back`].
fn take_back(hub: &mut BoundHub<Global>, part: &mut Handle) -> u32
    requires { IsApartFrom hub.old part.old.block.thing }
    ensures taken { result ≡ DONE → HasTakenBack hub.old part.old.block.thing hub.new }
    ensures gone { result ≡ DONE → part.new.block.thing ≡ None }
    ensures bad { (result ≡ BAD_HANDLE) ↔ (IsPart part.old.block.thing → ⊥) }
    ensures other { (result ≡ OTHER_MAILBOX) ↔ IsOfAnotherMailbox hub.old part.old.block.thing }
    ensures codes { (result ≡ DONE) ⊎ (result ≡ BAD_HANDLE) ⊎ (result ≡ OTHER_MAILBOX) }
    ensures same_hub { result ≢ DONE → hub.new ≡ hub.old }
    ensures same { result ≢ DONE → part.new.block.thing ≡ part.old.block.thing }
{
    let Some(mut opened) = part.take() else {
        return BAD_HANDLE;
    };
    let (thing, code) = match mem::replace(&mut *opened, Thing::OfNothing) {
        Thing::OfProducer(producer) => match hub.take_producer(producer) {
            Ok(()) => return DONE,
            Err(producer) => (Thing::OfProducer(producer), OTHER_MAILBOX),
        },
        Thing::OfConsumer(SeededConsumer { consumer, source }) => {
            match hub.take_consumer(consumer) {
                Ok(()) => return DONE,
                Err(consumer) => {
                    let seeded = SeededConsumer { consumer, source };
                    (Thing::OfConsumer(seeded), OTHER_MAILBOX)
                }
            }
        }
        thing => (thing, BAD_HANDLE),
    };
    *opened = thing;
    part.give(opened);
    code
}

/// Ends the mailbox. The report takes over the box of its hub. The call returns `BAD_HANDLE` if `hub` leads to no hub
/// or `report` to something already. It returns `MISSING`, and writes how many, if some were not returned, and
/// `NO_MEMORY` if memory ran out. After each of these the hub is as it was.
#[unsafe(no_mangle)]
pub extern "C" fn hz_gather(
    alloc: Global,
    hub: &mut Handle,
    report: &mut Handle,
    missing: &mut MissingOut,
) -> u32
    ensures main_theorem { result ≡ DONE → HubTold (λ h r. IsGathered h.mailbox h.hub r)
        hub.old.block.thing report.new.block.thing }
    ensures lists { result ≡ DONE → HubTold (λ h r. IsReportIn h.mailbox.cells.size.lanes
        (consumer_count h.mailbox.claims.layout) h.hub r)
        hub.old.block.thing report.new.block.thing }
    ensures full { result ≡ DONE → HubTold (λ h r. FullTakesAll h.mailbox h.hub r)
        hub.old.block.thing report.new.block.thing }
    ensures undecided { result ≡ DONE → HubTold (λ h r. UndecidedHasCompany r)
        hub.old.block.thing report.new.block.thing }
    ensures gone { result ≡ DONE → hub.new.block.thing ≡ None }
    ensures missing { result ≡ MISSING
        → HubMade (λ h. (missing.new.producers ≡ count_missing h.hub.puts)
        × (missing.new.consumers ≡ count_missing h.hub.records)) hub.old.block.thing }
    ensures out { result ≡ MISSING
        → HubMade (λ h. 0 < count_missing h.hub.puts + count_missing h.hub.records)
        hub.old.block.thing }
    ensures all_back { (result ≡ DONE) ⊎ (result ≡ NO_MEMORY)
        → HubMade (λ h. count_missing h.hub.puts + count_missing h.hub.records ≡ 0)
        hub.old.block.thing }
    ensures untold { result ≢ MISSING → missing.new ≡ missing.old }
    ensures bad { (result ≡ BAD_HANDLE)
        ↔ (IsHub hub.old.block.thing × (report.old.block.thing ≡ None) → ⊥) }
    ensures codes { (result ≡ DONE) ⊎ (result ≡ MISSING) ⊎ (result ≡ NO_MEMORY)
        ⊎ (result ≡ BAD_HANDLE) }
    ensures same_hub { result ≢ DONE → hub.new.block.thing ≡ hub.old.block.thing }
    ensures same { result ≢ DONE → report.new.block.thing ≡ report.old.block.thing }
{
    if !report.is_none() {
        return BAD_HANDLE;
    }
    let Some(opened) = hub.lend() else {
        return BAD_HANDLE;
    };
    match mem::replace(opened, Thing::OfNothing) {
        Thing::OfHub(bound) => match bound.gather(alloc) {
            Ok(made) => {
                *opened = Thing::OfReport(made);
                mem::swap(hub, report);
                DONE
            }
            Err((why, bound)) => {
                *opened = Thing::OfHub(bound);
                tell(why, missing)
            }
        },
        thing => {
            *opened = thing;
            BAD_HANDLE
        }
    }
}

/// Returns the code of a refusal. If producers or consumers are missing, the call writes how many.
fn tell(why: GatherFault, missing: &mut MissingOut) -> u32
    ensures missing { result ≡ MISSING
        → why ≡ Missing missing.new.producers missing.new.consumers }
    ensures no_memory { result ≡ NO_MEMORY → why ≡ NoMemory }
    ensures untold { result ≢ MISSING → missing.new ≡ missing.old }
    ensures codes { (result ≡ MISSING) ⊎ (result ≡ NO_MEMORY) }
{
    match why {
        GatherFault::Missing(producers, consumers) => {
            *missing = MissingOut {
                producers,
                consumers,
            };
            MISSING
        }
        GatherFault::NoMemory => NO_MEMORY,
    }
}

/// Frees what the handle leads to, if anything. The handle then leads to nothing. No clause says that the memory goes
/// back to the allocator: the tests in C count the blocks that are out.
#[unsafe(no_mangle)]
pub extern "C" fn hz_free(handle: &mut Handle)
    ensures { handle.new.block.thing ≡ None }
{
    drop(handle.take());
}
