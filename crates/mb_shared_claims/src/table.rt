//! The table: the words of the claims, and the roster.
mod step;
mod straight;
mod zeros;

use crate::hub::{AllGiven, ClaimHub};
use crate::rule::{ClaimsRule, Draws, Issues, Settles, TakesIn};
use crate::seat::ClaimSeat;
use crate::view::{TableSize, View};
use atomic_table::Table;
use mb_claim::Layout;
use mb_claim::laws::layouts_are_sound;
use mb_claim::steps::{addresses_are_apart, histories_begin_with_zeros, other_words_are_free};
use std::alloc::{AllocError as NoMemory, Allocator};
use std::marker::Model;
use zeros::zeros;

/// The words of the claims on some cells, which threads share, and the roster after them. As many threads as there are
/// seats may use it at once, each by a `&`.
#[derive(Drop)]
pub struct SharedClaims<A: Allocator + Drop> {
    table: Table<(), View, TableSize, ClaimsRule, A>,
    size: TableSize,
}

impl<A: Allocator + Drop> Model for SharedClaims<A> {
    ghost use Rattle.mb_shared_claims.specs.Seats.{IsTable, TableView};

    ghost Value = { TableView };

    ghost view = { λ t. record {
      id = t.table.shared.table_id;
      layout = t.size.layout;
      cells = t.size.cells;
    } };

    ghost invariant = { λ t. IsTable t.table.shared.table_id t.table.shared.key t.size };
}

impl<A: Allocator + Clone + Drop> SharedClaims<A> {
    ghost use Rattle.std.specs.Prelude.{◌≡◌, ◌≤◌, [], IfOk};
    ghost use Rattle.mb_shared_claims.specs.{MAX_LARGE_CELLS, name_of};

    /// A table of this layout with `cells` cells, at most 2^24, all words 0, and its hub, with no number issued. It
    /// allocates all that the table will ever need. The error is [`NoMemory`] if the allocator refuses a part of that.
    pub fn new(
        alloc: A,
        layout: Layout,
        cells: u32,
    ) -> Result<(SharedClaims<A>, ClaimHub), NoMemory>
        requires { cells ≤ MAX_LARGE_CELLS }
        ensures layout { IfOk result (λ made. made.0.layout ≡ layout) }
        ensures cells { IfOk result (λ made. made.0.cells ≡ cells) }
        ensures hub { IfOk result (λ made. made.1 ≡ record { table = name_of made.0; roll = [] }) }
    {
        layouts_are_sound();
        addresses_are_apart();
        histories_begin_with_zeros();
        let words = zeros(alloc.clone()?, layout.words(cells) + 1)?;
        let size = TableSize { layout, cells };
        let (table, seat) = Table::of_words(alloc, words.as_slice(), &size)?;
        let hub = ClaimHub {
            seat,
            given: 0,
            out: 0,
        };
        Ok((SharedClaims { table, size }, hub))
    }
}

impl<A: Allocator + Drop> SharedClaims<A> {
    ghost use Rattle.std.specs.Prelude.{◌≡◌, ◌↔◌, ◌≤◌, [], ◌∷◌, ◌++◌, length, slice_set};
    ghost use Rattle.std.specs.Prelude.{Some, None, IsErr, IfOk, OnErr};
    ghost use Rattle.mb_claim.specs.Vocabulary.{claims_in, consumer_count};
    ghost use Rattle.mb_shared_claims.specs.{name_of, IsOut, count_out, taken_part, AreOfOneHistory};

    /// The objects of each cell.
    pub fn layout(&self) -> &Layout
        ensures { result.now ≡ self.now.layout }
    {
        &self.size.layout
    }

    /// How many cells there are.
    pub fn cells(&self) -> u32
        ensures { result ≡ self.now.cells }
    {
        self.size.cells
    }

    /// Issues the seat of the next number: 0 first, then 1, and so on to the last of the layout's consumers. One
    /// fetch-add of the roster draws it, and is in no history. The error is [`AllGiven`] exactly if the last was
    /// issued, and then nothing changes.
    pub fn enroll(&self, hub: &mut ClaimHub) -> Result<ClaimSeat, AllGiven>
        requires { hub.old.table ≡ name_of self.now }
        ensures all_given { IsErr result ↔ (consumer_count self.now.layout ≤ length hub.old.roll) }
        ensures seat { IfOk result (λ seat. seat ≡ record {
          table = hub.old.table;
          consumer = length hub.old.roll;
          part = [];
        }) }
        ensures hub { IfOk result (λ _. hub.new ≡ record {
          table = hub.old.table;
          roll = hub.old.roll ++ None ∷ [];
        }) }
        ensures refused { OnErr result (hub.new ≡ hub.old) }
    {
        histories_begin_with_zeros();
        other_words_are_free();
        if hub.given >= self.size.layout.consumers() {
            return Err(AllGiven);
        }
        let roster = self.size.layout.words(self.size.cells);
        let number = self
            .table
            .shared
            .fetch_add::<Draws>(&mut hub.seat, roster, 1);
        let seat = self.table.shared.split_seat::<Issues>(&mut hub.seat);
        hub.given += 1;
        hub.out += 1;
        Ok(ClaimSeat {
            seat,
            consumer: number as u32,
        })
    }

    /// Takes a seat back. Its part goes to the hub, to the place of its number. It makes one load, in no history.
    pub fn take_in(&self, hub: &mut ClaimHub, seat: ClaimSeat)
        requires hub { hub.old.table ≡ name_of self.now }
        requires seat { seat.table ≡ name_of self.now }
        ensures was_out { IsOut hub.old.roll seat.consumer }
        ensures hub { hub.new ≡ record {
          table = hub.old.table;
          roll = slice_set hub.old.roll seat.consumer (Some seat.part);
        } }
    {
        let ClaimSeat { seat, consumer: _ } = seat;
        self.table.shared.join_seat::<TakesIn>(&mut hub.seat, seat);
        self.table.shared.load::<Settles>(&mut hub.seat, 0);
        hub.out -= 1;
    }

    /// Ends the table, once all seats that were issued are returned. The parts of all consumers are then those of one
    /// lawful history of claims.
    pub fn close(self, hub: ClaimHub)
        requires table { hub.table ≡ name_of self }
        requires all_in { count_out hub.roll ≡ 0 }
        ensures { AreOfOneHistory (claims_in self.layout self.cells) (taken_part hub.roll) }
    {
        let ClaimHub {
            seat,
            given: _,
            out: _,
        } = hub;
        let SharedClaims { table, size: _ } = self;
        table.close_with(seat).free();
    }
}
