//! What a reader does with its seat.
ghost use Rattle.std.specs.Prelude.{◌≡◌};
ghost use Rattle.mb_cells.specs.Vocabulary.{address_of, word_of};
ghost use Rattle.mb_cells.specs.declared.size.PoolSize.{PoolSize};

use super::{ReaderSeat, SharedCells};
use mb_cells::laws::{cells_stand_once, loads_tell_what_stays, looks_tell_links, parts_tell_lanes};
use mb_cells::steps::{accesses_lengthen_one_part, accesses_stay_within, history_extends};
use mb_cells::{Cursor, END, Look, Word};
use std::alloc::Allocator;
use std::marker::Brand;

/// The address of the link at the cursor, in a table of this many lanes.
#[inline(always)]
fn link_address(lanes: u32, cursor: Cursor) -> usize
    ensures { (size : PoolSize) → size.lanes ≡ lanes → result ≡ address_of size (word_of cursor) }
{
    match cursor {
        Cursor::Head(p) => 1 + p as usize,
        Cursor::Past(k) => 1 + lanes as usize + k as usize,
    }
}

impl<A: Allocator + Drop> SharedCells<A> {
    ghost use Rattle.std.specs.Prelude.{◌≡◌, ◌<◌, ◌^◌, ℕ, Some, slice_get, true};
    ghost use Rattle.mb_cells.specs.Vocabulary.{Gave, History, MayRead, is_of_lane, linked_cells, look_after};
    ghost use Rattle.mb_cells.specs.Vocabulary.{look_of, value_in, word_of};
    ghost use Rattle.mb_cells.specs.declared.access.Word.TheVariants.{Item};
    ghost use Rattle.mb_cells.specs.declared.answer.Look.TheVariants as look;
    ghost use Rattle.mb_shared_cells.specs.{ItemMakes, LookMakes};

    /// The link at the cursor, by one load. It is 0 if nothing comes yet, and `END` after the last cell of a lane that has
    /// ended. Else it is one more than the next cell's number. A reader may load the head of each lane, and the link of
    /// each cell that it met. The caller passes the number of lanes, so that a loop can keep this number in a register.
    #[inline(always)]
    pub fn link(&self, seat: &mut ReaderSeat, cursor: Cursor, lanes: u32) -> u64
        requires table { seat.old.table ≡ self.now }
        requires lanes { lanes ≡ self.now.size.lanes }
        requires may { MayRead self.now.size.lanes (word_of cursor) seat.old.part }
        ensures makes { LookMakes seat.old cursor (look_of result) seat.new }
        ensures table { seat.new.table ≡ self.now }
        ensures reader { seat.new.reader ≡ seat.old.reader }
        ensures known_lanes { seat.new.known ≡ seat.old.known }

        // What was met stays met. A cell that is found is met too, and is one of the table's. Its number fits a `u32`.
        ensures met { (k : ℕ) → Gave k seat.old.part → Gave k seat.new.part }
        ensures gave { (k : ℕ) → look_of result ≡ look.Cell k → Gave k seat.new.part }
        ensures within { (k : ℕ) → look_of result ≡ look.Cell k → k < self.now.size.cells }
        ensures few { self.now.size.cells < 2 ^ 32 }

        // On a lane that was returned before the reader was issued, the link says what that lane's producer left.
        ensures known { (p : ℕ) (theirs : History) → slice_get seat.old.known p ≡ Some (Some theirs)
            → is_of_lane p (linked_cells p theirs) (word_of cursor) ≡ true
            → look_of result ≡ look_after cursor theirs }
    {
        accesses_lengthen_one_part();
        accesses_stay_within();
        cells_stand_once();
        loads_tell_what_stays();
        looks_tell_links();
        history_extends();
        parts_tell_lanes();
        let address = link_address(lanes, cursor);
        self.load::<Brand>(&mut seat.seat, cursor.word(), address)
    }

    /// What comes after the cursor, by one load: nothing yet, a cell, or the end mark. A reader may look at the head of
    /// each lane, and past each cell that it met.
    pub fn look(&self, seat: &mut ReaderSeat, cursor: Cursor) -> Look
        requires table { seat.old.table ≡ self.now }
        requires may { MayRead self.now.size.lanes (word_of cursor) seat.old.part }
        ensures makes { LookMakes seat.old cursor result seat.new }
        ensures table { seat.new.table ≡ self.now }
        ensures reader { seat.new.reader ≡ seat.old.reader }
        ensures known_lanes { seat.new.known ≡ seat.old.known }

        // What was met stays met. A cell that is found is met too, and is one of the table's.
        ensures met { (k : ℕ) → Gave k seat.old.part → Gave k seat.new.part }
        ensures gave { (k : ℕ) → result ≡ look.Cell k → Gave k seat.new.part }
        ensures within { (k : ℕ) → result ≡ look.Cell k → k < self.now.size.cells }

        // On a lane that was returned before the reader was issued, the result is what that lane's producer left.
        ensures known { (p : ℕ) (theirs : History) → slice_get seat.old.known p ≡ Some (Some theirs)
            → is_of_lane p (linked_cells p theirs) (word_of cursor) ≡ true
            → result ≡ look_after cursor theirs }
    {
        let link = self.link(seat, cursor, self.size.lanes);
        if link == 0 {
            Look::Nothing
        } else if link == END {
            Look::Ended
        } else {
            Look::Cell((link - 1) as u32)
        }
    }

    /// The item of cell `k`, which this reader met, by one load.
    pub fn item(&self, seat: &mut ReaderSeat, k: u32) -> u64
        requires table { seat.old.table ≡ self.now }
        requires may { Gave k seat.old.part }
        ensures makes { ItemMakes seat.old k result seat.new }
        ensures met { (j : ℕ) → Gave j seat.old.part → Gave j seat.new.part }
        ensures table { seat.new.table ≡ self.now }
        ensures reader { seat.new.reader ≡ seat.old.reader }
        ensures known_lanes { seat.new.known ≡ seat.old.known }

        // On a lane that was returned before the reader was issued, the result is what that lane's producer left.
        ensures known { (p : ℕ) (theirs : History) → slice_get seat.old.known p ≡ Some (Some theirs)
            → is_of_lane p (linked_cells p theirs) (Item k) ≡ true
            → result ≡ value_in (Item k) theirs }
    {
        accesses_lengthen_one_part();
        accesses_stay_within();
        history_extends();
        parts_tell_lanes();
        let word = Word::Item(k);
        self.load::<Brand>(&mut seat.seat, word, self.address(word))
    }
}
