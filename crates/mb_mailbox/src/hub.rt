//! The hub of a mailbox, which issues producers and consumers and takes them back.
ghost use Rattle.std.specs.Prelude.{◌≡◌, ◌≤◌, []};
ghost use Rattle.mb_mailbox.specs.NewConsumers.{AreHeads};

use crate::consumer::{Consumer, ConsumerFields};
use crate::mailbox::Mailbox;
use crate::notes::Notes;
use crate::producer::Producer;
use crate::spare::trim;
use crate::taken::{ConsumerRecord, PutList};
use arrayvec::ArrayVec;
use mb_cells::Cursor;
use mb_cells::laws::{lanes_share_cells, parts_tell_lanes};
use mb_cells::steps::parts_have_accesses;
use mb_shared_cells::CellHub;
use mb_shared_claims::ClaimHub;
use mb_world::Place;
use mb_world::steps::parts_fit_on;
use std::alloc::Allocator;
use std::error::Error;
use std::fmt;
use std::marker::Model;

/// Why no producer or consumer was issued.
#[derive(Clone, Copy, PartialEq, Eq, Debug)]
pub enum HubFault {
    /// The hub has issued all producers, or all consumers, of the setup.
    AllGiven,
    /// The allocator refused the memory that the producer or consumer needs.
    NoMemory,
}

impl fmt::Display for HubFault {
    fn fmt<W: fmt::Write>(&self, f: &mut fmt::Formatter<W>) -> fmt::Result {
        f.write_str(match self {
            HubFault::AllGiven => "all numbers of the mailbox were given",
            HubFault::NoMemory => "out of memory",
        })
    }
}

impl Error for HubFault {}

/// The hub issues producers and consumers by their numbers, and takes them back.
#[derive(Drop)]
pub struct Hub<A: Allocator + Drop> {
    pub(crate) cells: CellHub,
    pub(crate) claims: ClaimHub,
    pub(crate) puts: Vec<Option<PutList<A>>, A>,
    pub(crate) records: Vec<Option<ConsumerRecord<A>>, A>,
}

impl<A: Allocator + Drop> Model for Hub<A> {
    ghost use Rattle.std.specs.Prelude.{◌≤◌, vec_capacity};
    ghost use Rattle.mb_mailbox.specs.Imports.{claims_at};
    ghost use Rattle.mb_mailbox.specs.Hubs.{HubView, IsHub};

    ghost Value = { HubView };

    ghost view = { λ h. record {
      cells = h.cells;
      claims = h.claims;
      puts = h.puts.items;
      records = h.records.items;
    } };

    ghost invariant = { λ h. IsHub (record {
      cells = h.cells;
      claims = h.claims;
      puts = h.puts.items;
      records = h.records.items;
    })
        × (h.cells.table.size.lanes ≤ vec_capacity h.puts)
        × ((claims_at h.claims.table).table.values ≤ vec_capacity h.records) };
}

impl<A: Allocator + Drop> Hub<A> {
    ghost use Rattle.std.specs.Prelude.{◌≡◌, ◌↔◌, ◌≤◌, Err, IfOk, None, OnErr, Some, length, slice_get};
    ghost use Rattle.mb_mailbox.specs.declared.hub.HubFault.TheVariants.{AllGiven};
    ghost use Rattle.mb_shared_cells.specs.Vocabulary.{IsRollOf};
    ghost use Rattle.mb_mailbox.specs.Imports.{History};
    ghost use Rattle.mb_mailbox.specs.Consumers.{IsConsumerOf};
    ghost use Rattle.mb_mailbox.specs.Hubs.{IsHub, IsHubOf, new_producer, with_producer};
    ghost use Rattle.mb_mailbox.specs.Hubs.{with_taken_consumer, with_taken_producer};
    ghost use Rattle.mb_mailbox.specs.Producers.{IsProducerOf};

    /// `IsHub` holds of each hub, and the parts of the cells that were returned to it are those of one lawful history.
    /// This computes nothing: its contract is a law of all hubs.
    pub fn has_history(&self)
        ensures kept { IsHub self.now }
        ensures pool { (pool : History)
            × IsRollOf self.now.cells.table.size self.now.cells.roll pool }
    {
        self.cells.has_history();
    }

    /// Issues the producer of the next lane, which has put nothing. Lanes are issued in order, from 0 on.
    /// [`HubFault::AllGiven`] comes exactly if each lane of the mailbox was issued. Else the error can only be
    /// [`HubFault::NoMemory`]. After an error nothing has changed.
    pub fn producer<B: Allocator + Drop>(
        &mut self,
        alloc: A,
        mailbox: &Mailbox<B>,
    ) -> Result<Producer<A>, HubFault>
        requires belongs { IsHubOf mailbox.now self.old }
        ensures all_given { (result ≡ Err AllGiven)
            ↔ (mailbox.now.cells.size.lanes ≤ length self.old.puts) }
        ensures producer { IfOk result (λ given.
            given ≡ new_producer mailbox.now (length self.old.puts)) }
        ensures hub { IfOk result (λ _. self.new ≡ with_producer self.old) }
        ensures refused { OnErr result (self.new ≡ self.old) }
        ensures belongs { IsHubOf mailbox.now self.new }
    {
        if self.puts.len() >= mailbox.lanes as usize {
            return Err(HubFault::AllGiven);
        }
        let Ok(items) = Vec::with_capacity(alloc, mailbox.claims.cells() as usize) else {
            return Err(HubFault::NoMemory);
        };
        let Ok(seat) = mailbox.cells.enroll_lane(&mut self.cells) else {
            unreachable!()
        };
        self.puts.push_reserved(None);
        Ok(Producer { seat, items })
    }

    /// Takes a producer back, even before its lane has ended. Its part and its items then belong to the hub, as they
    /// are, for the report. Its number is not issued again. Memory that its list does not need goes back to the
    /// allocator.
    pub fn take_producer<B: Allocator + Drop>(
        &mut self,
        mailbox: &Mailbox<B>,
        producer: Producer<A>,
    )
        requires hub { IsHubOf mailbox.now self.old }
        requires producer { IsProducerOf mailbox.now producer }
        ensures was_out { slice_get self.old.puts producer.seat.lane ≡ Some None }
        ensures hub { self.new ≡ with_taken_producer producer self.old }
        ensures belongs { IsHubOf mailbox.now self.new }
    {
        lanes_share_cells();
        parts_have_accesses();
        parts_tell_lanes();
        let Producer { seat, mut items } = producer;
        seat.has_history();
        let lane = seat.lane();
        let ended = seat.has_ended();
        trim(&mut items);
        mailbox.cells.take_lane(&mut self.cells, seat);
        self.puts[lane as usize] = Some(PutList { items, ended });
    }

    /// Takes a consumer back, even while it holds claims. Its parts, its places and its notes then belong to the hub,
    /// as they are, for the report. Its number is not issued again. Memory that its notes do not need goes back to the
    /// allocator.
    pub fn take_consumer<B: Allocator + Drop>(
        &mut self,
        mailbox: &Mailbox<B>,
        consumer: Consumer<A>,
    )
        requires hub { IsHubOf mailbox.now self.old }
        requires consumer { IsConsumerOf mailbox.now consumer }
        ensures was_out { slice_get self.old.records consumer.seat.consumer ≡ Some None }
        ensures hub { self.new ≡ with_taken_consumer consumer self.old }
        ensures belongs { IsHubOf mailbox.now self.new }
    {
        let ConsumerFields {
            reader,
            seat,
            places,
            mut notes,
        } = consumer.fields;
        let number = seat.consumer();
        notes.trim();
        mailbox.cells.take_reader(&mut self.cells, reader);
        mailbox.claims.take_in(&mut self.claims, seat);
        self.records[number as usize] = Some(ConsumerRecord { places, notes });
    }
}

impl<A: Allocator + Clone + Drop> Hub<A> {
    ghost use Rattle.std.specs.Prelude.{◌≡◌, ◌↔◌, ◌≤◌, Err, IfOk, OnErr, length};
    ghost use Rattle.mb_mailbox.specs.declared.hub.HubFault.TheVariants.{AllGiven};
    ghost use Rattle.mb_mailbox.specs.Imports.{consumer_count};
    ghost use Rattle.mb_mailbox.specs.Hubs.{IsHubOf, IsNewConsumer, with_consumer};

    /// Issues the consumer of the next number, which has done nothing. Numbers are issued in order, from 0 on.
    /// [`HubFault::AllGiven`] comes exactly if all numbers of the mailbox were issued. Else the error can only be
    /// [`HubFault::NoMemory`]. After an error nothing has changed.
    pub fn consumer<B: Allocator + Drop>(
        &mut self,
        alloc: A,
        mailbox: &Mailbox<B>,
    ) -> Result<Consumer<A>, HubFault>
        requires belongs { IsHubOf mailbox.now self.old }
        ensures all_given { (result ≡ Err AllGiven)
            ↔ (consumer_count mailbox.now.claims.layout ≤ length self.old.records) }
        ensures consumer { IfOk result (λ given. IsNewConsumer mailbox.now self.old given) }
        ensures hub { IfOk result (λ _. self.new ≡ with_consumer self.old) }
        ensures refused { OnErr result (self.new ≡ self.old) }
        ensures belongs { IsHubOf mailbox.now self.new }
    {
        parts_fit_on();
        if self.records.len() >= mailbox.claims.layout().consumers() as usize {
            return Err(HubFault::AllGiven);
        }
        let Ok(notes) = Notes::new(alloc, mailbox.lanes, mailbox.claims.cells() as usize) else {
            return Err(HubFault::NoMemory);
        };
        let Ok(seat) = mailbox.claims.enroll(&mut self.claims) else {
            unreachable!()
        };
        let reader = mailbox.cells.enroll_reader(&mut self.cells);
        self.records.push_reserved(None);
        let mut fields = ConsumerFields {
            reader,
            seat,
            places: ArrayVec::new(),
            notes,
        };
        before_heads(&mut fields.places, mailbox.lanes);
        Ok(Consumer { fields })
    }
}

/// Adds the places of a consumer that has done nothing: before the head of each lane. They go straight into the
/// consumer. A list that is returned would be copied, and it is long.
#[inline(always)]
fn before_heads(places: &mut ArrayVec<Place, 16>, lanes: u32)
    requires few { lanes ≤ 16 }
    requires none { places.old.items ≡ [] }
    ensures { AreHeads lanes places.new.items }
{
    for p in 0..lanes {
        places.push(Place::Before(Cursor::head(p)));
    }
}
