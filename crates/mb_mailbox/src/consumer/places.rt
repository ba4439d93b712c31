//! Reads and sets the places of a consumer, by the numbers of lanes. A note comes with a place past a cell.
ghost use Rattle.std.specs.Prelude.{◌≡◌, ◌<◌, Some, slice_get, slice_set};
ghost use Rattle.arrayvec.specs.ArrayVec.{array_vec_len};
ghost use Rattle.mb_cells.specs.declared.cursor.Cursor.TheVariants.{Past};
ghost use Rattle.mb_mailbox.specs.Imports.{Gave, ItemMakes, Took};
ghost use Rattle.mb_mailbox.specs.NoteLists.{HasRoom, NotesGrow};
ghost use Rattle.mb_world.specs.declared.place.Place.TheVariants.{At, Before};

use crate::mailbox::Mailbox;
use crate::notes::Notes;
use arrayvec::ArrayVec;
use mb_cells::Cursor;
use mb_claim::Claim;
use mb_shared_cells::ReaderSeat;
use mb_world::{Note, Place};
use std::alloc::Allocator;

/// The consumer's place on lane `p`.
#[inline(always)]
pub(super) fn place_at(places: &ArrayVec<Place, 16>, p: usize) -> Place
    requires { p < array_vec_len places.now }
    ensures { slice_get places.now.items p ≡ Some result }
{
    places.as_slice()[p]
}

/// Makes this the place on lane `p`.
#[inline(always)]
pub(super) fn set_place(places: &mut ArrayVec<Place, 16>, p: usize, place: Place)
    requires { p < array_vec_len places.old }
    ensures { places.new.items ≡ slice_set places.old.items p place }
{
    places.as_mut_slice()[p] = place;
}

/// Makes the place on lane `p` be at cell `k`, with this claim there.
#[inline(always)]
pub(super) fn stay(places: &mut ArrayVec<Place, 16>, p: usize, k: u32, claim: Claim)
    requires { p < array_vec_len places.old }
    ensures { places.new.items ≡ slice_set places.old.items p (At k claim) }
{
    set_place(places, p, Place::At { cell: k, claim });
}

/// Makes the place on lane `p` be before the link at this cursor.
#[inline(always)]
pub(super) fn stand(places: &mut ArrayVec<Place, 16>, p: usize, at: Cursor)
    requires { p < array_vec_len places.old }
    ensures { places.new.items ≡ slice_set places.old.items p (Before at) }
{
    // If the place is before a link already, only its cursor changes, not all the words of a place.
    match &mut places.as_mut_slice()[p] {
        Place::Before(before) => *before = at,
        place => *place = Place::Before(at),
    }
}

/// Makes the place on this lane be past cell `k`, and adds this note to the lane's.
#[inline(always)]
pub(super) fn leave<A: Allocator + Drop>(
    places: &mut ArrayVec<Place, 16>,
    notes: &mut Notes<A>,
    lane: u32,
    k: u32,
    note: Note,
)
    requires place { lane < array_vec_len places.old }
    requires room { HasRoom lane notes.old }
    ensures place { places.new.items ≡ slice_set places.old.items lane (Before (Past k)) }
    ensures notes { NotesGrow lane (Some note) notes.old notes.new }
{
    stand(places, lane as usize, Cursor::past(k));
    notes.push(lane, note);
}

/// Loads the item of cell `k`, makes the place on this lane be past the cell, and adds the `Took` note.
#[inline(always)]
pub(super) fn take<A: Allocator + Drop, B: Allocator + Drop>(
    places: &mut ArrayVec<Place, 16>,
    notes: &mut Notes<A>,
    reader: &mut ReaderSeat,
    mailbox: &Mailbox<B>,
    lane: u32,
    k: u32,
) -> u64
    requires table { reader.old.table ≡ mailbox.now.cells }
    requires may { Gave k reader.old.part }
    requires place { lane < array_vec_len places.old }
    requires room { HasRoom lane notes.old }
    ensures makes { ItemMakes reader.old k result reader.new }
    ensures place { places.new.items ≡ slice_set places.old.items lane (Before (Past k)) }
    ensures notes { NotesGrow lane (Some (Took result)) notes.old notes.new }
{
    let item = mailbox.cells.item(reader, k);
    leave(places, notes, lane, k, Note::Took(item));
    item
}
