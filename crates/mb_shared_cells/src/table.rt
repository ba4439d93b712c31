//! The table, its hub, and the seats of lanes and readers. Each `has_history` computes nothing: its contract is a law
//! of all hubs, of all lanes' seats, or of all readers' seats.
mod accesses;
mod enrollment;
mod lanes;
mod readers;

ghost use Rattle.std.specs.Prelude.{◌≡◌};
ghost use Rattle.mb_shared_cells.specs.Rule.{roster_of};

use crate::rule::CellsRule;
use crate::views::View;
use atomic_table::{Seat, Table};
use mb_cells::laws::{lanes_refuse_by_what_was_done, parts_tell_lanes};
use mb_cells::steps::{history_extends, words_follow_steps};
use mb_cells::{Finish, Lane, NoMemory, PoolSize};
use std::alloc::Allocator;
use std::error::Error;
use std::fmt;
use std::marker::Model;

/// The words of a pool of cells, on which threads make single atomic steps, each with a seat of its own. Between any
/// two steps some lawful history leaves the pool's words as they are. Its parts are those of the seats and the hub.
#[derive(Drop)]
pub struct SharedCells<A: Allocator + Drop> {
    table: Table<(), View, PoolSize, CellsRule, A>,
    size: PoolSize,
}

impl<A: Allocator + Drop> Model for SharedCells<A> {
    ghost use Rattle.std.specs.Prelude.{◌≡◌, ◌+◌, ◌<◌, ◌^◌};
    ghost use Rattle.mb_shared_cells.specs.Rule.{roster_of};
    ghost use Rattle.mb_shared_cells.specs.Shown.{CellsName};

    ghost Value = { CellsName };

    ghost view = { λ t. record { id = t.table.shared.table_id; size = t.size } };

    // The rule is that of this size, whose numbers are below 2^32. The table has the pool's words and the roster alone.
    ghost invariant = { λ t. (t.table.shared.key ≡ t.size)
        × (t.table.shared.table_id.words ≡ roster_of t.size + 1)
        × (t.table.shared.table_id.slots ≡ 0) × (t.size.lanes < 2 ^ 32) × (t.size.cells < 2 ^ 32) };
}

/// Where the roster lies in a table of this size: after the words of the pool.
fn roster(size: PoolSize) -> usize
    ensures { result ≡ roster_of size }
{
    1 + size.lanes as usize + size.cells as usize + size.cells as usize
}

/// The hub of a table. It issues the seats, and takes them back with what was done on them.
#[derive(Drop)]
pub struct CellHub {
    seat: Seat<(), View>,
    given: u32,
}

impl Model for CellHub {
    ghost use Rattle.mb_shared_cells.specs.Seats.{IsHubSeat, hub_shown};
    ghost use Rattle.mb_shared_cells.specs.Shown.{CellHubView};

    ghost Value = { CellHubView };

    ghost view = { λ h. hub_shown h.seat.table_id h.seat.me };

    ghost invariant = { λ h. IsHubSeat h.seat.me h.given };
}

/// All lanes of the table were issued.
#[derive(Clone, Copy, PartialEq, Eq, Debug)]
pub struct AllGiven;

impl fmt::Display for AllGiven {
    fn fmt<W: fmt::Write>(&self, f: &mut fmt::Formatter<W>) -> fmt::Result {
        f.write_str("all numbers were given")
    }
}

impl Error for AllGiven {}

/// The seat of a lane's producer.
#[derive(Drop)]
pub struct LaneSeat {
    seat: Seat<(), View>,
    number: u32,
    place: Lane,
}

impl Model for LaneSeat {
    ghost use Rattle.mb_shared_cells.specs.Seats.{IsLaneSeat, lane_shown};
    ghost use Rattle.mb_shared_cells.specs.Shown.{LaneSeatView};

    ghost Value = { LaneSeatView };

    ghost view = { λ s. lane_shown s.seat.table_id s.seat.me s.number s.place };

    ghost invariant = { λ s. IsLaneSeat s.seat.me s.number s.place };
}

/// The seat of a reader.
#[derive(Drop)]
pub struct ReaderSeat {
    seat: Seat<(), View>,
}

impl Model for ReaderSeat {
    ghost use Rattle.mb_shared_cells.specs.Seats.{IsReaderSeat, reader_shown};
    ghost use Rattle.mb_shared_cells.specs.Shown.{ReaderSeatView};

    ghost Value = { ReaderSeatView };

    ghost view = { λ s. reader_shown s.seat.table_id s.seat.me };

    ghost invariant = { λ s. IsReaderSeat s.seat.me };
}

impl<A: Allocator + Clone + Drop> SharedCells<A> {
    ghost use Rattle.std.specs.Prelude.{◌≡◌, IfOk};
    ghost use Rattle.mb_shared_cells.specs.{empty_roll};

    /// A table of empty lanes and unused cells, and its hub. All memory that it will ever need is reserved here. The
    /// error is [`NoMemory`] if the allocator refuses a part of it.
    pub fn new(alloc: A, lanes: u32, cells: u32) -> Result<(SharedCells<A>, CellHub), NoMemory>
        ensures size { IfOk result (λ r. r.0.size ≡ record { lanes = lanes; cells = cells }) }
        ensures hub { IfOk result (λ r. r.1 ≡ record { table = r.0; roll = empty_roll }) }
    {
        history_extends();
        words_follow_steps();
        let size = PoolSize { lanes, cells };
        let words = vec![in alloc.clone()?; 0u64; roster(size) + 1]?;
        let (table, seat) = Table::of_words(alloc, words.as_slice(), &size)?;
        Ok((SharedCells { table, size }, CellHub { seat, given: 0 }))
    }
}

impl<A: Allocator + Drop> SharedCells<A> {
    ghost use Rattle.std.specs.Prelude.{◌≡◌};
    ghost use Rattle.mb_cells.specs.Vocabulary.{History};
    ghost use Rattle.mb_shared_cells.specs.{IsRollOf};

    /// How many lanes and cells the table has.
    #[inline(always)]
    pub fn size(&self) -> PoolSize
        ensures { result ≡ self.now.size }
    {
        self.size
    }

    /// Ends the table. All parts that the hub has taken back are those of one lawful history.
    pub fn close(self, hub: CellHub)
        requires { hub.table ≡ self }
        ensures { (h : History) × IsRollOf self.size hub.roll h }
    {
        let CellHub { seat, given: _ } = hub;
        let SharedCells { table, size: _ } = self;
        table.close_with(seat).free();
    }
}

impl CellHub {
    ghost use Rattle.mb_cells.specs.Vocabulary.{History};
    ghost use Rattle.mb_shared_cells.specs.{IsRollOf};

    /// The parts that were returned are those of one lawful history.
    pub fn has_history(&self)
        ensures { (h : History) × IsRollOf self.now.table.size self.now.roll h }
    {
        // Naming a field makes the hub's invariant known.
        let _ = &self.seat;
    }
}

impl LaneSeat {
    ghost use Rattle.std.specs.Prelude.{◌≡◌, ◌<◌};
    ghost use Rattle.mb_cells.specs.Vocabulary.{IsLaneAfter, has_ended};
    ghost use Rattle.mb_cells.specs.declared.access.Process.TheVariants.{Producer};
    ghost use Rattle.mb_shared_cells.specs.{HasHistory};

    /// The number of the lane.
    pub fn lane(&self) -> u32
        ensures { result ≡ self.now.lane }
    {
        self.number
    }

    /// Whether the producer has stored the end mark of the lane.
    pub fn has_ended(&self) -> bool
        ensures { result ≡ has_ended self.now.lane self.now.part }
    {
        lanes_refuse_by_what_was_done();
        parts_tell_lanes();
        self.place.finish_refusal() == Some(Finish::Closed)
    }

    /// Some lawful history has the lane's part, and the producer stands at the place of that part. The table has the
    /// lane.
    pub fn has_history(&self)
        ensures history { HasHistory self.now.table.size (Producer self.now.lane) self.now.part }
        ensures place { IsLaneAfter self.now.table.size.cells self.now.lane self.now.place
            self.now.part }
        ensures within { self.now.lane < self.now.table.size.lanes }
    {
        // Naming a field makes the seat's invariant known.
        let _ = &self.seat;
    }
}

impl ReaderSeat {
    ghost use Rattle.mb_cells.specs.declared.access.Process.TheVariants.{Reader};
    ghost use Rattle.mb_shared_cells.specs.{HasHistory};

    /// Some lawful history has the reader's part.
    pub fn has_history(&self)
        ensures { HasHistory self.now.table.size (Reader self.now.reader) self.now.part }
    {
        // Naming a field makes the seat's invariant known.
        let _ = &self.seat;
    }
}
