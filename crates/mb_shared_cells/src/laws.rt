//! What the rule of a table says, the law that each kind of step keeps it, and laws of what the calls of seats return.
//! The functions compute nothing: their contracts are the laws. Their proofs are in `proofs/laws/`, one folder for each.
//! They use the lemmas of `proofs/`.
//!
//! Between any two steps of any seats, the words and the views of a table are a state of the cells. The rule of each
//! table says so: [`CellsRule`](crate::rule::CellsRule). It is checked at each step.
ghost use Rattle.std.specs.Prelude.{◌≡◌, ◌≢◌, ◌+◌, ◌<◌, ◌≤◌, ◌^◌, ◌∷◌, ◌++◌, ℕ, List, Some, None, [], length, replicate, false};
ghost use Rattle.std.specs.Prelude.{slice_get, slice_index, slice_set, true};
ghost use Rattle.mb_cells.specs.Vocabulary.{Entry, Has, HasMet, History, IsLaneAfter, IsLanePrefix, IsMemoryOf, IsPoolLawful, IsStart};
ghost use Rattle.mb_cells.specs.Vocabulary.{MayRead, address_of, block_after, fetch, has_ended, linked_cells, load};
ghost use Rattle.mb_cells.specs.Vocabulary.{next_link, part, place_past, push_store, put_list, store, word_of};
ghost use Rattle.mb_cells.specs.declared.answer.Finish.TheVariants as finish;
ghost use Rattle.mb_cells.specs.declared.answer.Look.TheVariants as look;
ghost use Rattle.mb_cells.specs.declared.answer.Offer.TheVariants as offer;
ghost use Rattle.mb_cells.specs.declared.answer.Push.TheVariants as push;
ghost use Rattle.mb_shared_cells.specs.{FinishMakes, IsCellsState, IsTableState, IsViewAt, KnowsLanes, LaneSeatView};
ghost use Rattle.mb_shared_cells.specs.{LookMakes, MayComeNext, OfferMakes, PartList, PushMakes, ReaderSeatView, Seating};
ghost use Rattle.mb_shared_cells.specs.{StandsAt, TellsPartAt, empty_roll, roll_with_lane, roll_with_part, roll_with_reader, roster_of};
ghost use Rattle.mb_shared_cells.specs.Types.{Counter, Cursor, END, Empty, Hub, HubDraws, HubJoins, Item, Member};
ghost use Rattle.mb_shared_cells.specs.Types.{PoolAccess, PoolSize, Process, Producer, Push, Reader, Roll, View, Word};

use mb_cells::laws::{
    cells_stand_once, looks_tell_links, numbers_are_issued_once, parts_tell_lanes,
    readers_follow_lanes, words_lead_through_lanes,
};
use mb_cells::steps::{
    accesses_lengthen_one_part, accesses_stay_within, addresses_are_apart, history_extends,
    lanes_lead_on, put_lists_grow, words_follow_steps,
};

/// What holds of each state of the cells. No process is in two views ([`processes_stand_once`]).
pub fn states_have_one_history()
    // Some lawful history leaves the words. Its parts are exactly those that the views have. The parts of lanes that a
    // seat knows are parts of it, too.
    ensures history { (size : PoolSize) (words : List ℕ) (views : List View)
        → IsCellsState size words views
        → (h : History) × IsMemoryOf size words h
        × ((seat : ℕ) (who : Process) (done : History) → TellsPartAt views seat who done
        → done ≡ part who h)
        × ((who : Process) → part who h ≢ [] → (seat : ℕ) × TellsPartAt views seat who (part who h))
        × ((seat : ℕ) (own : PoolSize) (who : Process) (known : PartList) (done : History)
        → IsViewAt views seat (Member own who known done) → KnowsLanes known h) }

    // Each lane in a view is one of those that the roster counts.
    ensures numbers { (size : PoolSize) (words : List ℕ) (views : List View) (seat p : ℕ)
        (done : History) → IsCellsState size words views → TellsPartAt views seat (Producer p) done
        → p < slice_index words (roster_of size) }

    // While the hub neither draws nor joins, the roster holds the number that the next lane gets.
    ensures next { (size own : PoolSize) (words : List ℕ) (views : List View) (id : ℕ) (roll : Roll)
        → IsCellsState size words views → IsViewAt views id (Hub own roll)
        → slice_index words (roster_of size) ≡ length roll.lanes }
{}

/// Each kind of step leads from a state to a state. It changes only the view of the seat that makes it, with two
/// exceptions: issuing a lane or a reader adds the view of its seat, and a seat returned has no part any more.
pub fn steps_keep_states()
    // A table whose words are 0, with its hub alone, is a state, if the end mark is the link of none of its cells.
    ensures new { (size : PoolSize) → size.cells < END
        → IsCellsState size (replicate (roster_of size + 1) 0) (Hub size empty_roll ∷ []) }

    // One law holds of each access, be it a load, a store or a fetch-add. It has no case for other seats. Which
    // accesses may come next is said by `accesses_may_come_next`.
    ensures access { (size own : PoolSize) (words : List ℕ) (views : List View) (id : ℕ)
        (known : PartList) (done : History) (a : PoolAccess)
        → IsCellsState size words views → IsViewAt views id (Member own a.process known done)
        → MayComeNext size words a done
        → IsCellsState size (block_after size a words)
        (slice_set views id (Member own a.process known (a ∷ done))) }

    // If not all lanes are issued, the hub draws the next one's number by a fetch-add on the roster. Then it issues the
    // number, by a split of its view. It issues a reader's seat by a split alone, with the parts of lanes returned.
    ensures draw { (size own : PoolSize) (words : List ℕ) (views : List View) (id : ℕ) (roll : Roll)
        → IsCellsState size words views → IsViewAt views id (Hub own roll)
        → length roll.lanes < size.lanes
        → IsCellsState size
        (slice_set words (roster_of size) (slice_index words (roster_of size) + 1))
        (slice_set views id (HubDraws own roll)) }
    ensures give_lane { (size own : PoolSize) (words : List ℕ) (views : List View) (id : ℕ)
        (roll : Roll) → IsCellsState size words views → IsViewAt views id (HubDraws own roll)
        → IsCellsState size words (slice_set views id (Hub own (roll_with_lane roll))
        ++ Member own (Producer (length roll.lanes)) [] [] ∷ []) }
    ensures give_reader { (size own : PoolSize) (words : List ℕ) (views : List View) (id : ℕ)
        (roll : Roll) → IsCellsState size words views → IsViewAt views id (Hub own roll)
        → IsCellsState size words (slice_set views id (Hub own (roll_with_reader roll))
        ++ Member own (Reader (length roll.readers)) roll.lanes [] ∷ []) }

    // The hub takes a seat back by a join of its view. The load after it puts the seat's part into the roll.
    ensures take { (size own its : PoolSize) (words : List ℕ) (views : List View) (id other : ℕ)
        (roll : Roll) (who : Process) (known : PartList) (done : History)
        → IsCellsState size words views → IsViewAt views id (Hub own roll)
        → IsViewAt views other (Member its who known done)
        → IsCellsState size words
        (slice_set (slice_set views id (HubJoins own roll who done)) other Empty) }
    ensures settle { (size own : PoolSize) (words : List ℕ) (views : List View) (id : ℕ)
        (roll : Roll) (who : Process) (done : History)
        → IsCellsState size words views → IsViewAt views id (HubJoins own roll who done)
        → IsCellsState size words (slice_set views id (Hub own (roll_with_part who done roll))) }
{
    accesses_lengthen_one_part();
    accesses_stay_within();
    addresses_are_apart();
    words_follow_steps();
}

/// Which accesses may come next. What the process of an access has done says so, whatever other seats did.
pub fn accesses_may_come_next()
    // A reader may load a head, and the words of a cell that its loads led it to. It finds what the word holds.
    ensures load { (size : PoolSize) (words : List ℕ) (r : ℕ) (w : Word) (done : History)
        → MayRead size.lanes w done
        → MayComeNext size words (load r w (slice_index words (address_of size w))) done }

    // A producer may make a store with which its path goes on: of an item, a link or the end mark.
    ensures store { (size : PoolSize) (words : List ℕ) (p : ℕ) (w : Word) (value : ℕ)
        (done : History) → IsLanePrefix size.cells p (store p w value ∷ done)
        → MayComeNext size words (store p w value) done }

    // A producer may make a fetch-add with which its path goes on, and which finds what the counter holds, if that
    // number and the item are below 2^64.
    ensures fetch_add { (size : PoolSize) (words : List ℕ) (p item : ℕ) (done : History)
        → let n = slice_index words (address_of size Counter) in
        let e : Entry = record { cell = n; value = item } in
        item < 2 ^ 64 → n < 2 ^ 64 → IsLanePrefix size.cells p (fetch p e ∷ done)
        → MayComeNext size words (fetch p e) done }
{
    accesses_stay_within();
    history_extends();
    lanes_lead_on();
}

/// At every moment the counter is at most the number of cells and lanes together, and the roster at most the number of
/// lanes.
pub fn words_stay_in_bounds()
    ensures counter { (size : PoolSize) (words : List ℕ) (views : List View)
        → IsCellsState size words views
        → slice_index words (address_of size Counter) ≤ size.cells + size.lanes }
    ensures roster { (size : PoolSize) (words : List ℕ) (views : List View)
        → IsCellsState size words views → slice_index words (roster_of size) ≤ size.lanes }
{
    numbers_are_issued_once();
}

/// No process is in two views.
pub fn processes_stand_once()
    ensures { (size : PoolSize) (words : List ℕ) (views : List View) (t : Seating) (one other : ℕ)
        (who : Process) → IsTableState size words views t
        → StandsAt views one who → StandsAt views other who → one ≡ other }
{}

/// What a reader finds on a lane that was returned before the reader was issued. It finds nothing only past all cells
/// of a lane that has not ended. It finds the end mark only past all cells of a lane that has ended. It finds no cell
/// but the next.
pub fn known_lanes_are_read_whole()
    ensures nothing { (old new : ReaderSeatView) (at : Cursor) (p : ℕ) (theirs : History)
        (ks : List ℕ) → slice_get old.known p ≡ Some (Some theirs) → HasMet old.reader p ks old.part
        → word_of at ≡ place_past p ks → LookMakes old at look.Nothing new
        → (ks ≡ linked_cells p theirs) × (has_ended p theirs ≡ false) }
    ensures ended { (old new : ReaderSeatView) (at : Cursor) (p : ℕ) (theirs : History)
        (ks : List ℕ) → slice_get old.known p ≡ Some (Some theirs) → HasMet old.reader p ks old.part
        → word_of at ≡ place_past p ks → LookMakes old at look.Ended new
        → (ks ≡ linked_cells p theirs) × (has_ended p theirs ≡ true) }
    ensures cell { (old new : ReaderSeatView) (at : Cursor) (p k : ℕ) (theirs : History)
        (ks : List ℕ) → slice_get old.known p ≡ Some (Some theirs) → HasMet old.reader p ks old.part
        → word_of at ≡ place_past p ks → LookMakes old at (look.Cell k) new
        → IsStart (k ∷ ks) (linked_cells p theirs) }
{
    cells_stand_once();
    looks_tell_links();
    history_extends();
    parts_tell_lanes();
    readers_follow_lanes();
    words_lead_through_lanes();
}

/// A load past the cells that a reader met on a lane finds nothing only if no other cell is linked there before it, and
/// the lane has not ended. So each lawful history has a moment at which the reader had met the whole lane.
pub fn lanes_are_empty_if_nothing_is_found()
    ensures { (size : PoolSize) (later before : History) (r p : ℕ) (ks : List ℕ)
        → IsPoolLawful size (later ++ load r (place_past p ks) 0 ∷ before)
        → HasMet r p ks (part (Reader r) before)
        → (linked_cells p before ≡ ks) × (has_ended p before ≡ false) }
{
    cells_stand_once();
    history_extends();
    parts_tell_lanes();
    readers_follow_lanes();
    words_lead_through_lanes();
}

/// An offer that got a cell and the two pushes after it make three accesses, which put the item at the end of the
/// lane's list.
pub fn three_calls_put_an_item()
    ensures part { (old offered stored new : LaneSeatView) (x k : ℕ) (one two : Push)
        → OfferMakes old x (offer.Cell k) offered → PushMakes offered one stored
        → PushMakes stored two new
        → new.part ≡ store old.lane (next_link old.lane old.place) (k + 1)
        ∷ store old.lane (Item k) x ∷ fetch old.lane (record { cell = k; value = x }) ∷ old.part }
    ensures put { (old offered stored new : LaneSeatView) (x k : ℕ) (one two : Push)
        → OfferMakes old x (offer.Cell k) offered → PushMakes offered one stored
        → PushMakes stored two new
        → put_list old.lane new.part
        ≡ put_list old.lane old.part ++ record { cell = k; value = x } ∷ [] }
    ensures answers { (old offered stored new : LaneSeatView) (x k : ℕ) (one two : Push)
        → OfferMakes old x (offer.Cell k) offered → PushMakes offered one stored
        → PushMakes stored two new → (one ≡ push.Item k) × (two ≡ push.Link k) }

    // After these calls a further push would be idle.
    ensures idle { (old offered stored new : LaneSeatView) (x k : ℕ) (one two : Push)
        → OfferMakes old x (offer.Cell k) offered → PushMakes offered one stored
        → PushMakes stored two new → push_store new.lane new.place ≡ None }
{
    accesses_lengthen_one_part();
    history_extends();
    parts_tell_lanes();
    put_lists_grow();
}

/// An offer that returns Full puts nothing, and neither does the end mark. Full comes only if a fetch-add of this
/// producer found a number past the cells.
pub fn full_offers_and_end_marks_put_nothing()
    ensures full { (old new : LaneSeatView) (x : ℕ) → OfferMakes old x offer.Full new
        → put_list old.lane new.part ≡ put_list old.lane old.part }
    ensures found { (old new : LaneSeatView) (x : ℕ)
        → IsLaneAfter old.table.size.cells old.lane old.place old.part
        → OfferMakes old x offer.Full new
        → (e : Entry) × (Has new.part (fetch old.lane e) × (old.table.size.cells ≤ e.cell)) }
    ensures ended { (old new : LaneSeatView) → FinishMakes old finish.Ended new
        → put_list old.lane new.part ≡ put_list old.lane old.part }
{
    accesses_lengthen_one_part();
    history_extends();
    parts_tell_lanes();
    put_lists_grow();
}
