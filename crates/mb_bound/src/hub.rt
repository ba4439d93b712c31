//! The hub of a mailbox, kept together with it.
use crate::consumer::BoundConsumer;
use crate::producer::BoundProducer;
use mb_cells::NoMemory;
use mb_mailbox::{GatherFault, Hub, HubFault, Mailbox, consumers_left, lanes_left};
use mb_world::{Report, Setup};
use std::alloc::{AllocError, Allocator};
use std::marker::Model;
use std::sync::Arc;

/// A mailbox with its hub, which issues producers and consumers and takes them back.
#[derive(Drop)]
pub struct BoundHub<A: Allocator + Drop> {
    pub(crate) id: u64,
    pub(crate) mailbox: Arc<Mailbox<A>, A>,
    pub(crate) hub: Hub<A>,
}

// The invariant is that the hub belongs to the mailbox.
impl<A: Allocator + Drop> Model for BoundHub<A> {
    ghost use Rattle.std.specs.Arc.{arc_value};
    ghost use Rattle.mb_bound.specs.Bound.{BoundHubView};
    ghost use Rattle.mb_mailbox.specs.Hubs.{IsHubOf};

    ghost Value = { BoundHubView };

    ghost view = { λ h. record { id = h.id; mailbox = arc_value h.mailbox; hub = h.hub } };

    ghost invariant = { λ h. IsHubOf (arc_value h.mailbox) h.hub };
}

impl<A: Allocator + Drop> BoundHub<A> {
    ghost use Rattle.std.specs.Prelude.{◌≡◌, ◌≢◌, ◌↔◌, ◌≤◌, ◌-◌, Err, IfErr, IfOk, IsOk, None, OnErr, Some, length, slice_get};
    ghost use Rattle.mb_bound.specs.Bound.{AreNamedApart};
    ghost use Rattle.mb_claim.specs.Vocabulary.{most_accesses};
    ghost use Rattle.mb_mailbox.specs.Imports.{consumer_count};
    ghost use Rattle.mb_mailbox.specs.declared.hub.HubFault.TheVariants.{AllGiven};
    ghost use Rattle.mb_mailbox.specs.Hubs.{IsHubOf, new_producer, with_producer};
    ghost use Rattle.mb_mailbox.specs.Hubs.{with_taken_consumer, with_taken_producer};

    /// The number of the mailbox.
    pub fn id(&self) -> u64
        ensures { result ≡ self.now.id }
    {
        self.id
    }

    /// The most accesses that a claim of the mailbox can make.
    pub fn max_steps(&self) -> u64
        ensures { result ≡ most_accesses self.now.mailbox.claims.layout }
    {
        self.mailbox.max_steps()
    }

    /// How many lanes were not issued yet.
    pub fn lanes_left(&self) -> usize
        ensures { result ≡ self.now.mailbox.cells.size.lanes - length self.now.hub.puts }
    {
        lanes_left(&self.mailbox, &self.hub)
    }

    /// How many consumers were not issued yet.
    pub fn consumers_left(&self) -> usize
        ensures { result ≡ consumer_count self.now.mailbox.claims.layout
            - length self.now.hub.records }
    {
        consumers_left(&self.mailbox, &self.hub)
    }

    /// A law: the hub is that of the mailbox that it is kept with.
    pub fn is_bound(&self)
        ensures { IsHubOf self.now.mailbox self.now.hub }
    {
        let _ = &self.hub;
    }

    /// Issues the producer of the next lane, as [`Hub::producer`] does, with the same errors. After an error nothing has
    /// changed.
    pub fn producer(&mut self, alloc: A) -> Result<BoundProducer<A>, HubFault>
        ensures all_given { (result ≡ Err AllGiven)
            ↔ (self.old.mailbox.cells.size.lanes ≤ length self.old.hub.puts) }
        ensures producer { IfOk result (λ given. given ≡ record {
          id = self.old.id;
          mailbox = self.old.mailbox;
          producer = new_producer self.old.mailbox (length self.old.hub.puts);
        }) }
        ensures hub { IfOk result (λ _.
            self.new ≡ record self.old { hub = with_producer self.old.hub }) }
        ensures refused { OnErr result (self.new ≡ self.old) }
    {
        if lanes_left(&self.mailbox, &self.hub) == 0 {
            return Err(HubFault::AllGiven);
        }
        let Ok(mailbox) = Arc::try_clone(&self.mailbox) else {
            return Err(HubFault::NoMemory);
        };
        let producer = self.hub.producer(alloc, &self.mailbox)?;
        Ok(BoundProducer {
            id: self.id,
            mailbox,
            producer,
        })
    }

    /// Takes a producer back, as [`Hub::take_producer`] does. If its mailbox has another number, the producer comes
    /// back as the error. The call needs that equal numbers mean one mailbox.
    pub fn take_producer(&mut self, producer: BoundProducer<A>) -> Result<(), BoundProducer<A>>
        requires { AreNamedApart self.old.id self.old.mailbox producer.id producer.mailbox }
        ensures taken { IsOk result ↔ (self.old.id ≡ producer.id) }
        ensures was_out { IfOk result (λ _.
            slice_get self.old.hub.puts producer.producer.seat.lane ≡ Some None) }
        ensures hub { IfOk result (λ _. self.new ≡ record self.old {
          hub = with_taken_producer producer.producer self.old.hub;
        }) }
        ensures other { IfErr result (λ back. (back ≡ producer) × (self.old.id ≢ producer.id)) }
        ensures refused { OnErr result (self.new ≡ self.old) }
    {
        if producer.id != self.id {
            return Err(producer);
        }
        let BoundProducer {
            id: _,
            mailbox: _,
            producer,
        } = producer;
        self.hub.take_producer(&self.mailbox, producer);
        Ok(())
    }

    /// Takes a consumer back, as [`Hub::take_consumer`] does. If its mailbox has another number, the consumer comes
    /// back as the error. The call needs that equal numbers mean one mailbox.
    pub fn take_consumer(&mut self, consumer: BoundConsumer<A>) -> Result<(), BoundConsumer<A>>
        requires { AreNamedApart self.old.id self.old.mailbox consumer.id consumer.mailbox }
        ensures taken { IsOk result ↔ (self.old.id ≡ consumer.id) }
        ensures was_out { IfOk result (λ _.
            slice_get self.old.hub.records consumer.consumer.seat.consumer ≡ Some None) }
        ensures hub { IfOk result (λ _. self.new ≡ record self.old {
          hub = with_taken_consumer consumer.consumer self.old.hub;
        }) }
        ensures other { IfErr result (λ back. (back ≡ consumer) × (self.old.id ≢ consumer.id)) }
        ensures refused { OnErr result (self.new ≡ self.old) }
    {
        if consumer.id != self.id {
            return Err(consumer);
        }
        let BoundConsumer {
            id: _,
            mailbox: _,
            consumer,
        } = consumer;
        self.hub.take_consumer(&self.mailbox, consumer);
        Ok(())
    }
}

impl<A: Allocator + Clone + Drop> BoundHub<A> {
    ghost use Rattle.std.specs.Prelude.{◌≡◌, ◌↔◌, ◌+◌, ◌<◌, ◌≤◌, Err, IfErr, IfOk, OnErr, length};
    ghost use Rattle.mb_world.specs.Plan.{size_of};
    ghost use Rattle.mb_world.specs.Setups.{layout_of, plan_in};
    ghost use Rattle.mb_mailbox.specs.declared.gather.GatherFault.TheVariants.{Missing, NoMemory};
    ghost use Rattle.mb_mailbox.specs.declared.hub.HubFault.TheVariants.{AllGiven};
    ghost use Rattle.mb_mailbox.specs.Imports.{consumer_count};
    ghost use Rattle.mb_mailbox.specs.Gathering.{FullTakesAll, IsGathered, IsReportIn, UndecidedHasCompany, count_missing};
    ghost use Rattle.mb_mailbox.specs.Hubs.{IsNewConsumer, hub_empty, with_consumer};
    ghost use Rattle.mb_mailbox.specs.Mailboxes.{plan_at};

    /// A new mailbox of this setup, and its hub. `id` is its number. If producers or consumers of another mailbox may
    /// come to this hub, that mailbox needs another number. The prover asks for this only when one is taken back. The
    /// error is [`NoMemory`] if memory is refused.
    pub fn new(alloc: A, id: u64, setup: Setup) -> Result<BoundHub<A>, NoMemory>
        ensures id { IfOk result (λ made. made.id ≡ id) }
        ensures plan { IfOk result (λ made. plan_at made.mailbox ≡ plan_in setup) }
        ensures size { IfOk result (λ made. made.mailbox.cells.size ≡ size_of (plan_in setup)) }
        ensures layout { IfOk result (λ made. made.mailbox.claims.layout ≡ layout_of setup) }
        ensures empty { IfOk result (λ made. made.hub ≡ hub_empty made.mailbox) }
    {
        let (mailbox, hub) = Mailbox::new(alloc.clone()?, setup)?;
        match Arc::new(alloc, mailbox) {
            Ok(mailbox) => Ok(BoundHub { id, mailbox, hub }),
            Err(_) => Err(AllocError),
        }
    }

    /// Issues the consumer of the next number, as [`Hub::consumer`] does, with the same errors. After an error nothing
    /// has changed.
    pub fn consumer(&mut self, alloc: A) -> Result<BoundConsumer<A>, HubFault>
        ensures all_given { (result ≡ Err AllGiven)
            ↔ (consumer_count self.old.mailbox.claims.layout ≤ length self.old.hub.records) }
        ensures consumer { IfOk result (λ given.
            IsNewConsumer self.old.mailbox self.old.hub given.consumer) }
        ensures given { IfOk result (λ given.
            (given.id ≡ self.old.id) × (given.mailbox ≡ self.old.mailbox)) }
        ensures hub { IfOk result (λ _.
            self.new ≡ record self.old { hub = with_consumer self.old.hub }) }
        ensures refused { OnErr result (self.new ≡ self.old) }
    {
        if consumers_left(&self.mailbox, &self.hub) == 0 {
            return Err(HubFault::AllGiven);
        }
        let Ok(mailbox) = Arc::try_clone(&self.mailbox) else {
            return Err(HubFault::NoMemory);
        };
        let consumer = self.hub.consumer(alloc, &self.mailbox)?;
        Ok(BoundConsumer {
            id: self.id,
            mailbox,
            consumer,
        })
    }

    /// Ends the mailbox, and returns the report of what its producers and consumers did, as [`Mailbox::gather`] does.
    /// After an error the hub comes back as it was. If all were returned, the error is [`GatherFault::NoMemory`].
    pub fn gather(self, alloc: A) -> Result<Report<A>, (GatherFault, BoundHub<A>)>
        ensures missing { 0 < count_missing self.hub.puts + count_missing self.hub.records
            → result ≡ Err
            (Missing (count_missing self.hub.puts) (count_missing self.hub.records), self) }
        ensures refused { count_missing self.hub.puts + count_missing self.hub.records ≡ 0
            → IfErr result (λ e. e.0 ≡ NoMemory) }
        ensures same { IfErr result (λ e. e.1 ≡ self) }
        ensures lists { IfOk result (λ r. IsReportIn self.mailbox.cells.size.lanes
            (consumer_count self.mailbox.claims.layout) self.hub r) }
        ensures main_theorem { IfOk result (λ r. IsGathered self.mailbox self.hub r) }
        ensures full { IfOk result (λ r. FullTakesAll self.mailbox self.hub r) }
        ensures undecided { IfOk result (λ r. UndecidedHasCompany r) }
    {
        let BoundHub { id, mailbox, hub } = self;
        let (producers, consumers) = mailbox.missing(&hub);
        if producers > 0 || consumers > 0 {
            let why = GatherFault::Missing(producers, consumers);
            return Err((why, BoundHub { id, mailbox, hub }));
        }
        match mailbox.draft(alloc, hub) {
            Ok(draft) => match Arc::try_unwrap(mailbox) {
                Ok(mailbox) => Ok(mailbox.gather_with(draft)),
                // (This never happens: all were taken back, so nobody else holds the mailbox.)
                Err(mailbox) => {
                    let hub = draft.undone();
                    Err((GatherFault::NoMemory, BoundHub { id, mailbox, hub }))
                }
            },
            Err(hub) => Err((GatherFault::NoMemory, BoundHub { id, mailbox, hub })),
        }
    }
}
