//! The hub issues seats and takes them back.
use super::{AllGiven, CellHub, LaneSeat, ReaderSeat, SharedCells, roster};
use crate::rule::{Draws, Parts, TakesIn};
use mb_cells::Lane;
use mb_cells::steps::{history_extends, lanes_lead_on, words_follow_steps};
use std::alloc::Allocator;

impl<A: Allocator + Drop> SharedCells<A> {
    ghost use Rattle.std.specs.Prelude.{◌≡◌, ◌↔◌, ◌≤◌, [], length, Some, None, slice_get, IsErr, IfOk, OnErr};
    ghost use Rattle.mb_cells.specs.Vocabulary.{new_lane};
    ghost use Rattle.mb_cells.specs.declared.access.Process.TheVariants.{Producer, Reader};
    ghost use Rattle.mb_shared_cells.specs.{roll_with_lane, roll_with_part, roll_with_reader};

    /// Issues the seat of the next lane, with an empty part. Lanes have the numbers 0, 1, .. in this order. One
    /// fetch-add of the roster draws the number, and is in no history. The error is [`AllGiven`] if all lanes of the
    /// table were issued, and then nothing changes.
    pub fn enroll_lane(&self, hub: &mut CellHub) -> Result<LaneSeat, AllGiven>
        requires { hub.old.table ≡ self.now }
        ensures all_given { IsErr result ↔ (self.now.size.lanes ≤ length hub.old.roll.lanes) }
        ensures seat { IfOk result (λ s. s ≡ record {
          table = self.now;
          lane = length hub.old.roll.lanes;
          place = new_lane;
          part = [];
        }) }
        ensures hub { IfOk result (λ _.
            hub.new ≡ record { table = self.now; roll = roll_with_lane hub.old.roll }) }
        ensures err { OnErr result (hub.new ≡ hub.old) }
    {
        if hub.given >= self.size.lanes {
            return Err(AllGiven);
        }
        history_extends();
        lanes_lead_on();
        words_follow_steps();
        let number = hub.given;
        let roster = roster(self.size);
        self.table
            .shared
            .fetch_add::<Draws>(&mut hub.seat, roster, 1);
        let seat = self.table.shared.split_seat::<Parts>(&mut hub.seat);
        hub.given += 1;
        Ok(LaneSeat {
            seat,
            number,
            place: Lane::new(),
        })
    }

    /// Issues the seat of a new reader, with an empty part. It knows the parts of the lanes that were returned so far.
    /// Nothing is drawn for it.
    pub fn enroll_reader(&self, hub: &mut CellHub) -> ReaderSeat
        requires { hub.old.table ≡ self.now }
        ensures seat { result ≡ record {
          table = self.now;
          reader = length hub.old.roll.readers;
          known = hub.old.roll.lanes;
          part = [];
        } }
        ensures hub { hub.new ≡ record { table = self.now; roll = roll_with_reader hub.old.roll } }
    {
        history_extends();
        ReaderSeat {
            seat: self.table.shared.split_seat::<Parts>(&mut hub.seat),
        }
    }

    /// Takes a lane's seat back, at any time. The hub then has its part as it is. The call loads the table's first word
    /// once, which is in no history.
    pub fn take_lane(&self, hub: &mut CellHub, seat: LaneSeat)
        requires hub { hub.old.table ≡ self.now }
        requires seat { seat.table ≡ self.now }
        ensures was_out { slice_get hub.old.roll.lanes seat.lane ≡ Some None }
        ensures hub { hub.new ≡ record {
          table = self.now;
          roll = roll_with_part (Producer seat.lane) seat.part hub.old.roll;
        } }
    {
        let LaneSeat {
            seat,
            number: _,
            place: _,
        } = seat;
        self.table.shared.join_seat::<Parts>(&mut hub.seat, seat);
        self.table.shared.load::<TakesIn>(&mut hub.seat, 0);
    }

    /// Takes a reader's seat back, as [`take_lane`](SharedCells::take_lane) does.
    pub fn take_reader(&self, hub: &mut CellHub, seat: ReaderSeat)
        requires hub { hub.old.table ≡ self.now }
        requires seat { seat.table ≡ self.now }
        ensures was_out { slice_get hub.old.roll.readers seat.reader ≡ Some None }
        ensures hub { hub.new ≡ record {
          table = self.now;
          roll = roll_with_part (Reader seat.reader) seat.part hub.old.roll;
        } }
    {
        let ReaderSeat { seat } = seat;
        self.table.shared.join_seat::<Parts>(&mut hub.seat, seat);
        self.table.shared.load::<TakesIn>(&mut hub.seat, 0);
    }
}
