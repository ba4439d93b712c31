//! The calls that make a mailbox, its producers and its consumers.
ghost use Rattle.std.specs.Prelude.{ℕ, ◌≡◌, ◌≢◌, ◌↔◌, ◌⊎◌, ◌≤◌, IfErr, IfOk, None, Some, false, length, true};
ghost use Rattle.mb_quorum.specs.declared.table.TableName.{TableName};
ghost use Rattle.mb_quorum.specs.declared.table.TableName.TheVariants.{Bits};
ghost use Rattle.mb_world.specs.Setups.{large_refusal, plan_in, shaped_plan};
ghost use Rattle.mb_world.specs.declared.setup.SetupFault.{SetupFault};
ghost use Rattle.mb_mailbox.specs.Vocabulary.{consumer_count, new_producer, plan_at};
ghost use Rattle.mb_mailbox.specs.Hubs.{IsNewConsumer, hub_empty, with_consumer, with_producer};
ghost use Rattle.hazbultra.specs.Calls.{ConsumerMade, HubGave, HubGaveConsumer, HubMade, HubWent, IsHub, ProducerMade, source_of, table_numbered};
ghost use Rattle.hazbultra.specs.Refusals.{plan_asked, refusal_of, setup_code};
ghost use Rattle.hazbultra.specs.declared.codes.TheConstants.{ALL_GIVEN, BAD_HANDLE, DONE, NO_MEMORY};

use crate::boundary::SetupIn;
use crate::codes::{
    ALL_GIVEN, BAD_HANDLE, BAD_TABLE, DONE, NO_MEMORY, code_of_hub, code_of_setup, table_of,
};
use crate::handle::Handle;
use crate::thing::{SeededConsumer, Thing};
use mb_bound::BoundHub;
use mb_claim::Shape;
use mb_world::Setup;
use rand_chacha::ChaCha8Rng;
use rand_core::SeedableRng;
use std::alloc::Global;

/// The setup that C asks for, or the code of its refusal. (If this were inlined, its setups would lie on the stack of
/// the call that makes the mailbox.)
#[inline(never)]
fn setup_of(wanted: &SetupIn) -> Result<Setup, u32>
    ensures made { IfOk result (λ setup. (name : TableName)
        → table_numbered wanted.now.table ≡ Some name
        → plan_in setup ≡ plan_asked wanted.now name) }
    ensures accepted { IfOk result (λ _. refusal_of wanted.now ≡ None) }
    ensures refused { IfErr result (λ code. (refusal_of wanted.now ≡ Some code)
        × (code ≢ DONE) × (code ≢ BAD_HANDLE)) }
{
    let Some(table) = table_of(wanted.table) else {
        return Err(BAD_TABLE);
    };
    let shape = Shape {
        fast: wanted.fast,
        last: wanted.last,
    };
    let (producers, consumers, cells) = (wanted.producers, wanted.consumers, wanted.cells);
    if wanted.pairs == 0 && wanted.last && !wanted.fast {
        return exchanges_of(producers, consumers, cells);
    }
    match Setup::large(producers, consumers, cells, wanted.pairs, table) {
        Ok(setup) => Ok(setup.shaped(shape)),
        Err(why) => Err(code_of_setup(why)),
    }
}

/// The setup of exchanges alone for these numbers, or the code of its refusal. (Not inlined, as [`setup_of`] is not.)
#[inline(never)]
fn exchanges_of(producers: u64, consumers: u64, cells: u64) -> Result<Setup, u32>
    ensures made { IfOk result (λ setup. plan_in setup
        ≡ shaped_plan (record { fast = false; last = true }) producers consumers cells 0 Bits) }
    ensures accepted { IfOk result (λ _. large_refusal producers consumers cells 1 ≡ None) }
    ensures refused { IfErr result (λ code. (why : SetupFault) × (code ≡ setup_code why)
        × (large_refusal producers consumers cells 1 ≡ Some why)) }
{
    match Setup::exchange(producers, consumers, cells) {
        Ok(setup) => Ok(setup),
        Err(why) => Err(code_of_setup(why)),
    }
}

/// Makes a mailbox of this setup, and its hub. No other mailbox of the process may have the number `id`. The call
/// returns `BAD_HANDLE` if `hub` leads to something already, and else the code of the first fault of the setup. If
/// there is none, it returns `NO_MEMORY` if memory ran out. After each of these nothing has changed.
#[unsafe(no_mangle)]
pub extern "C" fn hz_mailbox_new(alloc: Global, id: u64, setup: &SetupIn, hub: &mut Handle) -> u32
    ensures made { result ≡ DONE → (name : TableName) → table_numbered setup.now.table ≡ Some name
        → HubMade (λ h. (h.id ≡ id) × (plan_at h.mailbox ≡ plan_asked setup.now name)
        × (h.hub ≡ hub_empty h.mailbox)) hub.new.block.thing }
    ensures bad { (result ≡ BAD_HANDLE) ↔ (hub.old.block.thing ≢ None) }
    ensures refused { hub.old.block.thing ≡ None → (code : ℕ) → refusal_of setup.now ≡ Some code
        → result ≡ code }
    ensures accepted { hub.old.block.thing ≡ None → refusal_of setup.now ≡ None
        → (result ≡ DONE) ⊎ (result ≡ NO_MEMORY) }
    ensures same { result ≢ DONE → hub.new.block.thing ≡ hub.old.block.thing }
{
    if !hub.is_none() {
        return BAD_HANDLE;
    }
    let setup = match setup_of(setup) {
        Ok(setup) => setup,
        Err(code) => return code,
    };
    let Ok(made) = BoundHub::new(alloc, id, setup) else {
        return NO_MEMORY;
    };
    let Ok(room) = Box::new(alloc, Thing::OfHub(made)) else {
        return NO_MEMORY;
    };
    hub.give(room);
    DONE
}

/// Makes the producer of the next lane, and writes the lane's number. The call returns `BAD_HANDLE` if `hub` leads to
/// no hub or `producer` to something already, `ALL_GIVEN` if each lane's producer was issued, and `NO_MEMORY` if memory
/// ran out. After each of these nothing has changed.
#[unsafe(no_mangle)]
pub extern "C" fn hz_producer_new(
    alloc: Global,
    hub: &mut Handle,
    producer: &mut Handle,
    lane: &mut u64,
) -> u32
    ensures given { result ≡ DONE
        → HubGave (λ h p. p ≡ record {
          id = h.id;
          mailbox = h.mailbox;
          producer = new_producer h.mailbox (length h.hub.puts);
        }) hub.old.block.thing producer.new.block.thing }
    ensures lane { result ≡ DONE
        → HubMade (λ h. lane.new ≡ length h.hub.puts) hub.old.block.thing }
    ensures hub { result ≡ DONE
        → HubWent (λ h k. k ≡ record h { hub = with_producer h.hub })
        hub.old.block.thing hub.new.block.thing }
    ensures bad { (result ≡ BAD_HANDLE)
        ↔ (IsHub hub.old.block.thing × (producer.old.block.thing ≡ None) → ⊥) }
    ensures all_given { (result ≡ ALL_GIVEN)
        ↔ HubMade (λ h. h.mailbox.cells.size.lanes ≤ length h.hub.puts) hub.old.block.thing
        × (producer.old.block.thing ≡ None) }
    ensures codes { (result ≡ DONE) ⊎ (result ≡ BAD_HANDLE) ⊎ (result ≡ ALL_GIVEN)
        ⊎ (result ≡ NO_MEMORY) }
    ensures same_hub { result ≢ DONE → hub.new.block.thing ≡ hub.old.block.thing }
    ensures same { result ≢ DONE → producer.new.block.thing ≡ producer.old.block.thing }
    ensures kept { result ≢ DONE → lane.new ≡ lane.old }
{
    if !producer.is_none() {
        return BAD_HANDLE;
    }
    let Some(opened) = hub.lend() else {
        return BAD_HANDLE;
    };
    match opened {
        Thing::OfHub(bound) => issue_producer(alloc, bound, producer, lane),
        _ => BAD_HANDLE,
    }
}

/// What [`hz_producer_new`] does, for an opened hub. The box is made first, so if memory runs out, the hub has issued
/// no number.
fn issue_producer(
    alloc: Global,
    hub: &mut BoundHub<Global>,
    producer: &mut Handle,
    lane: &mut u64,
) -> u32
    ensures given { result ≡ DONE → ProducerMade (λ p. p ≡ record {
      id = hub.old.id;
      mailbox = hub.old.mailbox;
      producer = new_producer hub.old.mailbox (length hub.old.hub.puts);
    }) producer.new.block.thing }
    ensures lane { result ≡ DONE → lane.new ≡ length hub.old.hub.puts }
    ensures hub { result ≡ DONE → hub.new ≡ record hub.old { hub = with_producer hub.old.hub } }
    ensures all_given { (result ≡ ALL_GIVEN)
        ↔ (hub.old.mailbox.cells.size.lanes ≤ length hub.old.hub.puts) }
    ensures codes { (result ≡ DONE) ⊎ (result ≡ ALL_GIVEN) ⊎ (result ≡ NO_MEMORY) }
    ensures same_hub { result ≢ DONE → hub.new ≡ hub.old }
    ensures same { result ≢ DONE → producer.new.block.thing ≡ producer.old.block.thing }
    ensures kept { result ≢ DONE → lane.new ≡ lane.old }
{
    if hub.lanes_left() == 0 {
        return ALL_GIVEN;
    }
    let Ok(mut room) = Box::new(alloc, Thing::OfNothing) else {
        return NO_MEMORY;
    };
    match hub.producer(alloc) {
        Ok(made) => {
            *lane = u64::from(made.lane());
            *room = Thing::OfProducer(made);
            producer.give(room);
            DONE
        }
        Err(why) => code_of_hub(why),
    }
}

/// Makes the consumer of the next number, and writes that number. Its random words are those of ChaCha8 from this seed,
/// of the stream of its number. If each claim is one exchange, they are 0. The call returns `BAD_HANDLE` if `hub` leads to
/// no hub or `consumer` to something already, `ALL_GIVEN` if all consumers were issued, and `NO_MEMORY` if memory ran
/// out. After each of these nothing has changed.
#[unsafe(no_mangle)]
pub extern "C" fn hz_consumer_new(
    alloc: Global,
    hub: &mut Handle,
    seed: &[u8; 32],
    consumer: &mut Handle,
    number: &mut u64,
) -> u32
    ensures given { result ≡ DONE
        → HubGaveConsumer (λ h c. (c.consumer.id ≡ h.id) × (c.consumer.mailbox ≡ h.mailbox)
        × (c.source ≡ source_of h.mailbox.claims.layout seed.now (length h.hub.records))
        × IsNewConsumer h.mailbox h.hub c.consumer.consumer)
        hub.old.block.thing consumer.new.block.thing }
    ensures number { result ≡ DONE
        → HubMade (λ h. number.new ≡ length h.hub.records) hub.old.block.thing }
    ensures hub { result ≡ DONE
        → HubWent (λ h k. k ≡ record h { hub = with_consumer h.hub })
        hub.old.block.thing hub.new.block.thing }
    ensures bad { (result ≡ BAD_HANDLE)
        ↔ (IsHub hub.old.block.thing × (consumer.old.block.thing ≡ None) → ⊥) }
    ensures all_given { (result ≡ ALL_GIVEN)
        ↔ HubMade (λ h. consumer_count h.mailbox.claims.layout ≤ length h.hub.records)
        hub.old.block.thing × (consumer.old.block.thing ≡ None) }
    ensures codes { (result ≡ DONE) ⊎ (result ≡ BAD_HANDLE) ⊎ (result ≡ ALL_GIVEN)
        ⊎ (result ≡ NO_MEMORY) }
    ensures same_hub { result ≢ DONE → hub.new.block.thing ≡ hub.old.block.thing }
    ensures same { result ≢ DONE → consumer.new.block.thing ≡ consumer.old.block.thing }
    ensures kept { result ≢ DONE → number.new ≡ number.old }
{
    if !consumer.is_none() {
        return BAD_HANDLE;
    }
    let Some(opened) = hub.lend() else {
        return BAD_HANDLE;
    };
    match opened {
        Thing::OfHub(bound) => issue_consumer(alloc, bound, seed, consumer, number),
        _ => BAD_HANDLE,
    }
}

/// What [`hz_consumer_new`] does, for an opened hub. The box is made first, so if memory runs out, the hub has issued
/// no number.
fn issue_consumer(
    alloc: Global,
    hub: &mut BoundHub<Global>,
    seed: &[u8; 32],
    consumer: &mut Handle,
    number: &mut u64,
) -> u32
    ensures given { result ≡ DONE → ConsumerMade (λ c. (c.consumer.id ≡ hub.old.id)
        × (c.consumer.mailbox ≡ hub.old.mailbox)
        × (c.source ≡ source_of hub.old.mailbox.claims.layout seed.now (length hub.old.hub.records))
        × IsNewConsumer hub.old.mailbox hub.old.hub c.consumer.consumer)
        consumer.new.block.thing }
    ensures number { result ≡ DONE → number.new ≡ length hub.old.hub.records }
    ensures hub { result ≡ DONE → hub.new ≡ record hub.old { hub = with_consumer hub.old.hub } }
    ensures all_given { (result ≡ ALL_GIVEN)
        ↔ (consumer_count hub.old.mailbox.claims.layout ≤ length hub.old.hub.records) }
    ensures codes { (result ≡ DONE) ⊎ (result ≡ ALL_GIVEN) ⊎ (result ≡ NO_MEMORY) }
    ensures same_hub { result ≢ DONE → hub.new ≡ hub.old }
    ensures same { result ≢ DONE → consumer.new.block.thing ≡ consumer.old.block.thing }
    ensures kept { result ≢ DONE → number.new ≡ number.old }
{
    if hub.consumers_left() == 0 {
        return ALL_GIVEN;
    }
    let Ok(mut room) = Box::new(alloc, Thing::OfNothing) else {
        return NO_MEMORY;
    };
    match hub.consumer(alloc) {
        Ok(made) => {
            *number = u64::from(made.number());
            let source = source_for(hub, seed, made.number());
            *room = Thing::OfConsumer(SeededConsumer {
                consumer: made,
                source,
            });
            consumer.give(room);
            DONE
        }
        Err(why) => code_of_hub(why),
    }
}

/// The source of random words for the consumer of this number. If a claim makes one access alone, which is an exchange,
/// there is none: it looks at no random word.
fn source_for(hub: &BoundHub<Global>, seed: &[u8; 32], number: u32) -> Option<ChaCha8Rng>
    ensures { result ≡ source_of hub.now.mailbox.claims.layout seed.now number }
{
    if hub.max_steps() == 1 {
        return None;
    }
    let mut source = ChaCha8Rng::from_seed(*seed);
    source.set_stream(u64::from(number));
    Some(source)
}
