//! The end of a mailbox: the report of all that was returned.
mod draft;
mod fill;
mod reports;
mod sound;

ghost use Rattle.std.specs.Prelude.{◌≡◌, ◌≤◌, length};
ghost use Rattle.mb_mailbox.specs.Gathering.{count_missing};

use crate::gather::fill::fill_lanes;
use crate::hub::Hub;
use crate::mailbox::Mailbox;
pub use draft::Draft;
use mb_claim::laws::layouts_are_sound;
use mb_world::Report;
use sound::gathering_is_sound;
use std::alloc::Allocator;
use std::error::Error;
use std::fmt;

/// Why there is no report.
#[derive(Clone, Copy, PartialEq, Eq, Debug)]
pub enum GatherFault {
    /// This many producers, and this many consumers, were issued and not returned.
    Missing(u32, u32),
    /// The allocator refused room for the report.
    NoMemory,
}

impl fmt::Display for GatherFault {
    fn fmt<W: fmt::Write>(&self, f: &mut fmt::Formatter<W>) -> fmt::Result {
        match self {
            GatherFault::Missing(producers, consumers) => write!(
                f,
                "{producers} producers and {consumers} consumers were not taken in"
            ),
            GatherFault::NoMemory => f.write_str("out of memory"),
        }
    }
}

impl Error for GatherFault {}

impl<A: Allocator + Clone + Drop> Mailbox<A> {
    ghost use Rattle.std.specs.Prelude.{◌≡◌, ◌+◌, ◌<◌, Err, IfErr, IfOk};
    ghost use Rattle.mb_mailbox.specs.declared.gather.GatherFault.TheVariants.{Missing, NoMemory};
    ghost use Rattle.mb_mailbox.specs.Imports.{consumer_count};
    ghost use Rattle.mb_mailbox.specs.Gathering.{FullTakesAll, IsGathered, IsReportIn, UndecidedHasCompany, count_missing};
    ghost use Rattle.mb_mailbox.specs.Hubs.{IsHubOf};

    /// Ends the mailbox, and returns the report: the items put, the notes, and what is left. The fault is
    /// [`GatherFault::Missing`] exactly if a producer or consumer was issued and not returned. Else it can only be
    /// [`GatherFault::NoMemory`]. After a fault mailbox and hub come back as they were, and `gather` may be called
    /// again.
    pub fn gather(
        self,
        alloc: A,
        hub: Hub<A>,
    ) -> Result<Report<A>, (GatherFault, Mailbox<A>, Hub<A>)>
        requires belongs { IsHubOf self hub }

        // The fault is `Missing` if somebody is missing, else only `NoMemory`. Mailbox and hub come back as they were.
        ensures missing { 0 < count_missing hub.puts + count_missing hub.records
            → result
            ≡ Err (Missing (count_missing hub.puts) (count_missing hub.records), self, hub) }
        ensures refused { count_missing hub.puts + count_missing hub.records ≡ 0
            → IfErr result (λ e. e ≡ (NoMemory, self, hub)) }
        ensures same { IfErr result (λ e. (e.1 ≡ self) × (e.2 ≡ hub)) }

        // The report has the items and notes of all that were returned.
        ensures lists { IfOk result (λ r.
            IsReportIn self.cells.size.lanes (consumer_count self.claims.layout) hub r) }

        // All accesses returned make two sound histories. The report is of these, and the main theorem holds of it.
        ensures main_theorem { IfOk result (λ r. IsGathered self hub r) }

        // If a producer found no cell, as many items are put as there are cells. If a note is undecided, two consumers
        // or more competed for the item.
        ensures full { IfOk result (λ r. FullTakesAll self hub r) }
        ensures undecided { IfOk result (λ r. UndecidedHasCompany r) }
    {
        let (producers, consumers) = self.missing(&hub);
        if producers > 0 || consumers > 0 {
            return Err((GatherFault::Missing(producers, consumers), self, hub));
        }
        match self.draft(alloc, hub) {
            Ok(draft) => Ok(self.gather_with(draft)),
            Err(hub) => Err((GatherFault::NoMemory, self, hub)),
        }
    }

    /// How many producers, and how many consumers, were issued and not returned.
    pub fn missing(&self, hub: &Hub<A>) -> (u32, u32)
        requires belongs { IsHubOf self.now hub.now }
        ensures producers { result.0 ≡ count_missing hub.now.puts }
        ensures consumers { result.1 ≡ count_missing hub.now.records }
    {
        layouts_are_sound();
        hub.has_history();
        let _ = &self.cells;
        (
            missing(hub.puts.as_slice()),
            missing(hub.records.as_slice()),
        )
    }

    /// Makes the report of what was returned so far, but for the items put, with all the room that it needs. If memory
    /// is refused, the hub comes back as it was.
    pub fn draft(&self, alloc: A, hub: Hub<A>) -> Result<Draft<A>, Hub<A>>
        requires belongs { IsHubOf self.now hub }
        ensures drafted { IfOk result (λ draft. draft ≡ hub) }
        ensures refused { IfErr result (λ back. back ≡ hub) }
    {
        layouts_are_sound();
        match hub.outline(alloc, self.lanes, self.claims.layout().consumers()) {
            Ok(outline) => Ok(Draft { hub, outline }),
            Err(_) => Err(hub),
        }
    }

    /// Ends the mailbox with a draft that was made after all were returned. It takes no memory, so it cannot fail.
    pub fn gather_with(self, draft: Draft<A>) -> Report<A>
        requires belongs { IsHubOf self draft }
        requires producers { count_missing draft.puts ≡ 0 }
        requires consumers { count_missing draft.records ≡ 0 }

        // What `gather` promises of its report holds of this one.
        ensures lists { IsReportIn self.cells.size.lanes (consumer_count self.claims.layout)
            draft result }
        ensures main_theorem { IsGathered self draft result }
        ensures full { FullTakesAll self draft result }
        ensures undecided { UndecidedHasCompany result }
    {
        gathering_is_sound();
        layouts_are_sound();
        let Mailbox {
            lanes: _,
            cells,
            claims,
        } = self;
        let Draft { hub, outline } = draft;
        let Hub {
            cells: lanes_hub,
            claims: claims_hub,
            puts,
            records: _,
        } = hub;
        let Report {
            lanes: mut reports,
            diaries,
        } = outline;
        fill_lanes(&mut reports, puts);
        cells.close(lanes_hub);
        claims.close(claims_hub);
        Report {
            lanes: reports,
            diaries,
        }
    }
}

/// How many of those issued were not returned. The list has `None` for each of them.
fn missing<T: Drop>(given: &[Option<T>]) -> u32
    requires { length given.now ≤ 64 }
    ensures { result ≡ count_missing given.now }
{
    let mut count = 0;
    for one in given {
        if one.is_none() {
            count += 1;
        }
    }
    count
}
