//! One access of a seat: one atomic step of the table.
use super::SharedCells;
use crate::rule::{AccessSpec, MakeAccess};
use crate::views::View;
use atomic_table::Seat;
use mb_cells::Word;
use mb_cells::laws::numbers_are_issued_once;
use mb_cells::steps::{
    accesses_lengthen_one_part, addresses_are_apart, history_extends, words_follow_steps,
};
use std::alloc::Allocator;

impl<A: Allocator + Drop> SharedCells<A> {
    ghost use Rattle.std.specs.Prelude.{◌≡◌, ◌<◌, ◌^◌};
    ghost use Rattle.mb_cells.specs.Vocabulary.{address_of};
    ghost use Rattle.mb_cells.specs.declared.access.PoolAct.TheVariants.{FetchAdd, Load, Store};
    ghost use Rattle.mb_cells.specs.declared.access.Word.TheVariants.{Counter};
    ghost use Rattle.mb_shared_cells.specs.Seats.{CanFetch, CanLoad, CanStore};
    ghost use Rattle.mb_shared_cells.specs.Views.{MakesAccess};

    /// The address of a word in the table.
    pub(super) fn address(&self, word: Word) -> usize
        ensures { result ≡ address_of self.now.size word }
    {
        let heads = 1;
        let links = heads + self.size.lanes as usize;
        let items = links + self.size.cells as usize;
        match word {
            Word::Counter => 0,
            Word::Head(p) => heads + p as usize,
            Word::Link(k) => links + k as usize,
            Word::Item(k) => items + k as usize,
        }
    }

    /// Loads the word at this address, with a reader's seat.
    pub(super) fn load<W: AccessSpec>(
        &self,
        seat: &mut Seat<(), View>,
        word: Word,
        address: usize,
    ) -> u64
        requires picked { (W.word ≡ word) × (W.act ≡ (λ n. Load n)) }
        requires table { seat.old.table_id ≡ self.now.id }
        requires address { address ≡ address_of self.now.size word }
        requires can { CanLoad self.now.size word seat.old.me }
        ensures table { seat.new.table_id ≡ seat.old.table_id }
        ensures makes { MakesAccess word (Load result) seat.old.me seat.new.me }
        ensures few { self.now.size.cells < 2 ^ 32 }
    {
        // Only the contract names the word.
        let _ = word;
        accesses_lengthen_one_part();
        addresses_are_apart();
        history_extends();
        words_follow_steps();
        self.table.shared.load::<MakeAccess<W>>(seat, address)
    }

    /// Stores a value in a word with a lane's seat.
    pub(super) fn store<W: AccessSpec>(&self, seat: &mut Seat<(), View>, word: Word, value: u64)
        requires picked { (W.word ≡ word) × (W.act ≡ (λ n. Store n)) }
        requires table { seat.old.table_id ≡ self.now.id }
        requires can { CanStore self.now.size word value seat.old.me }
        ensures table { seat.new.table_id ≡ seat.old.table_id }
        ensures makes { MakesAccess word (Store value) seat.old.me seat.new.me }
    {
        accesses_lengthen_one_part();
        addresses_are_apart();
        history_extends();
        words_follow_steps();
        let address = self.address(word);
        self.table
            .shared
            .store::<MakeAccess<W>>(seat, address, value);
    }

    /// Adds one to the counter for an item, with a lane's seat. Returns what the counter held before.
    pub(super) fn fetch_add<W: AccessSpec>(&self, seat: &mut Seat<(), View>, item: u64) -> u64
        requires picked { (W.word ≡ Counter) × (W.act ≡ (λ n. FetchAdd item n)) }
        requires table { seat.old.table_id ≡ self.now.id }
        requires can { CanFetch self.now.size item seat.old.me }
        ensures table { seat.new.table_id ≡ seat.old.table_id }
        ensures makes { MakesAccess Counter (FetchAdd item result) seat.old.me seat.new.me }
    {
        // Only the contract names the item.
        let _ = item;
        accesses_lengthen_one_part();
        addresses_are_apart();
        numbers_are_issued_once();
        history_extends();
        words_follow_steps();
        self.table.shared.fetch_add::<MakeAccess<W>>(seat, 0, 1)
    }
}
