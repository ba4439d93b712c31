//! Laws over the lawful histories of a pool, and over lists of its calls. The functions compute nothing: their
//! contracts are the laws. If the prover needs help with a law, its proof is in `proofs/laws`, in a folder of its name.
//! It uses the lemmas of `proofs`.
ghost use Rattle.std.specs.Prelude.{◌≡◌, ◌≢◌, ◌↔◌, ◌+◌, ◌-◌, ◌<◌, ◌≤◌, ◌⊎◌, ◌∷◌, ◌++◌, ◌^◌, ℕ, List, [], Bool, true};
ghost use Rattle.std.specs.Prelude.{filter, if◌then◌else◌, length, None, Some, false};
ghost use Rattle.mb_cells.specs.{AllLinked, IsLaneAfter, Lane, items_put, push_store};
ghost use Rattle.mb_cells.specs.{Call, Counter, END, Entry, FetchAdd, Gave, Has, HasLoaded, HasMade, HasMet, Head};
ghost use Rattle.mb_cells.specs.{History, IsAfter, IsAnswerBy, IsLinkWord, IsOnceEach, IsPoolLawful, IsReaderPath};
ghost use Rattle.mb_cells.specs.{IsStart, Item, Link, Offered, PoolAccess, PoolSize, PoolState, Producer, Reader};
ghost use Rattle.mb_cells.specs.{Reads, WasGivenBy, WasIssued, Word, cell_count, fetch, fetch_adds_by};
ghost use Rattle.mb_cells.specs.{fetch_adds_on, has_ended, is_of_lane, item_in, item_of, lane_count, lane_end};
ghost use Rattle.mb_cells.specs.{lane_end_by, linked_cells, linked_cells_by, look_after, look_in, look_of, part, part_on};
ghost use Rattle.mb_cells.specs.{HasFoundNone, HasPending, finish_refusal, offer_refusal};
ghost use Rattle.mb_cells.specs.{place_past, put_list, put_list_by, stored_by, value_in};
ghost use Rattle.mb_cells.specs.declared.cursor.Cursor.TheVariants as cursor;
ghost use Rattle.mb_cells.specs.declared.answer.Finish.TheVariants as finish;
ghost use Rattle.mb_cells.specs.declared.answer.Offer.TheVariants as offer;
ghost use Rattle.mb_cells.specs.declared.answer.Look.TheVariants as look;

/// The cells that a reader has met on a lane are the first cells of that lane, in the order of linking.
pub fn readers_follow_lanes()
    ensures met { (size : PoolSize) (h : History) (r p : ℕ) (ks : List ℕ) → IsPoolLawful size h
        → HasMet r p ks h → IsStart ks (linked_cells p h) }

    // The same holds of the cells that a reader has met by its own part.
    ensures part { (size : PoolSize) (h : History) (r p : ℕ) (ks : List ℕ) → IsPoolLawful size h
        → HasMet r p ks (part (Reader r) h) → IsStart ks (linked_cells p h) }

    // A reader has met the same cells by its own part as by the whole history.
    ensures own { (h : History) (r p : ℕ) (ks : List ℕ) → HasMet r p ks h
        → HasMet r p ks (part (Reader r) h) }
    ensures whole { (h : History) (r p : ℕ) (ks : List ℕ) → HasMet r p ks (part (Reader r) h)
        → HasMet r p ks h }

    // The cells that a reader has met on a lane before cell k are always the same.
    ensures one_way { (size : PoolSize) (h : History) (r p k : ℕ) (ks js : List ℕ)
        → IsPoolLawful size h → HasMet r p (k ∷ ks) h → HasMet r p (k ∷ js) h → ks ≡ js }

    // Each cell that a reader loaded a link to is one that it met on some lane.
    ensures chains { (size : PoolSize) (h : History) (r k : ℕ) → IsPoolLawful size h
        → Gave k (part (Reader r) h) → (p : ℕ) × ((ks : List ℕ) × HasMet r p (k ∷ ks) h) }

    // A reader that loaded the link or the item of a cell had loaded a link to that cell.
    ensures link { (size : PoolSize) (h : History) (r k v : ℕ) → IsPoolLawful size h
        → HasLoaded r (Link k) v h → Gave k (part (Reader r) h) }
    ensures item { (size : PoolSize) (h : History) (r k v : ℕ) → IsPoolLawful size h
        → HasLoaded r (Item k) v h → Gave k (part (Reader r) h) }
{}

/// What any list of calls does, said by the calls and their answers alone.
pub fn calls_put_items()
    // From the head on, looks and items give the items put, in their order. Then a look gives Ended if a finish of the
    // lane returned it, and else Nothing.
    ensures reads { (size : PoolSize) (p : ℕ) (calls : List Call) (s : PoolState)
        → HasMade size calls s → p < size.lanes
        → Reads (λ at. look_in at s) (λ k. item_in k s)
        (cursor.Head p) (put_list_by p calls) (lane_end_by p calls) }

    // What each call returns follows from the calls before it.
    ensures answers { (size : PoolSize) (c : Call) (older : List Call) (s : PoolState)
        → HasMade size (c ∷ older) s → IsAnswerBy size.cells c older }

    // A cell's number is the number of earlier fetch-adds. Full comes only if no cell is left. The counter
    // holds the number of fetch-adds.
    ensures cell { (size : PoolSize) (p x k : ℕ) (older : List Call) (s : PoolState)
        → HasMade size (Offered p x (offer.Cell k) ∷ older) s
        → (k ≡ fetch_adds_by older) × (k < size.cells) }
    ensures full { (size : PoolSize) (p x : ℕ) (older : List Call) (s : PoolState)
        → HasMade size (Offered p x offer.Full ∷ older) s → size.cells ≤ fetch_adds_by older }
    ensures issued { (size : PoolSize) (p x k : ℕ) (older : List Call) (s : PoolState)
        → HasMade size (Offered p x offer.Full ∷ older) s → k < size.cells
        → WasGivenBy k older }
    ensures counter { (size : PoolSize) (calls : List Call) (s : PoolState) → HasMade size calls s
        → s.words.counter ≡ fetch_adds_by calls }

    // Each cell is linked into one lane at most, and at most once there.
    ensures lane { (size : PoolSize) (p q k : ℕ) (calls : List Call) (s : PoolState)
        → HasMade size calls s
        → Has (linked_cells_by p calls) k → Has (linked_cells_by q calls) k → p ≡ q }
    ensures once { (size : PoolSize) (p : ℕ) (calls : List Call) (s : PoolState)
        → HasMade size calls s → IsOnceEach (linked_cells_by p calls) }

    // Each linked cell, and the lane that it is in, are of the pool.
    ensures within { (size : PoolSize) (p k : ℕ) (calls : List Call) (s : PoolState)
        → HasMade size calls s → Has (linked_cells_by p calls) k
        → (p < lane_count s) × (k < cell_count s) }
{}

/// An end mark is its producer's last access, and a reader that loaded it has met all cells of the lane.
pub fn end_marks_are_last()
    // Once a lane has ended, its producer makes no access.
    ensures producer { (size : PoolSize) (later older : History) (p : ℕ)
        → IsPoolLawful size (later ++ older) → has_ended p older ≡ true
        → part (Producer p) later ≡ [] }

    // A reader that has loaded a lane's end mark, from its head or from a link, has met all cells linked there.
    ensures all { (size : PoolSize) (h : History) (r p : ℕ) (w : Word) → IsPoolLawful size h
        → IsLinkWord w → is_of_lane p (linked_cells p h) w ≡ true → HasLoaded r w END h
        → HasMet r p (linked_cells p h) h }

    // If a reader loaded the end mark past cells that it met, they are all cells of the lane, and the lane has ended.
    ensures reader { (size : PoolSize) (h : History) (r p : ℕ) (ks : List ℕ) → IsPoolLawful size h
        → HasMet r p ks h → HasLoaded r (place_past p ks) END h → ks ≡ linked_cells p h }
    ensures told { (size : PoolSize) (h : History) (r p : ℕ) (ks : List ℕ) → IsPoolLawful size h
        → HasMet r p ks h → HasLoaded r (place_past p ks) END h → has_ended p h ≡ true }
{}

/// The end mark is the greatest word of 64 bits.
pub fn end_marks_are_all_ones()
    ensures { END ≡ 2 ^ 64 - 1 }
{}

/// A cell of the pool is linked into one lane at most, and at most once there.
pub fn cells_stand_once()
    ensures lane { (size : PoolSize) (h : History) (p q k : ℕ) → IsPoolLawful size h
        → Has (linked_cells p h) k → Has (linked_cells q h) k → p ≡ q }
    ensures once { (size : PoolSize) (h : History) (p : ℕ) → IsPoolLawful size h
        → IsOnceEach (linked_cells p h) }
    ensures within { (size : PoolSize) (h : History) (p k : ℕ) → IsPoolLawful size h
        → Has (linked_cells p h) k → (p < size.lanes) × (k < size.cells) }

    // So a lane has at most as many cells as the pool, and at most as many items.
    ensures few { (size : PoolSize) (h : History) (p : ℕ) → IsPoolLawful size h
        → length (linked_cells p h) ≤ size.cells }
    ensures put { (size : PoolSize) (h : History) (p : ℕ) → IsPoolLawful size h
        → length (put_list p h) ≤ size.cells }
{}

/// All lanes together have at most as many items as the pool has cells. If a producer found no cell, and each cell that
/// a producer got is linked, they have just as many.
pub fn lanes_share_cells()
    ensures few { (size : PoolSize) (h : History) → IsPoolLawful size h
        → items_put size.lanes h ≤ size.cells }
    ensures all { (size : PoolSize) (h : History) (p : ℕ) (e : Entry) → IsPoolLawful size h
        → Has h (fetch p e) → size.cells ≤ e.cell → AllLinked size h
        → items_put size.lanes h ≡ size.cells }

    // A producer whose next push would be idle has linked each cell that it got.
    ensures idle { (size : PoolSize) (h : History) (p : ℕ) (lane : Lane) (e : Entry)
        → IsPoolLawful size h → IsLaneAfter size.cells p lane (part (Producer p) h)
        → push_store p lane ≡ None → Has h (fetch p e) → e.cell < size.cells
        → Has (linked_cells p h) e.cell }
{}

/// The words lead from a lane's head through the cells put, to the end mark or to 0.
pub fn words_lead_through_lanes()
    ensures reads { (size : PoolSize) (h : History) (p : ℕ) → IsPoolLawful size h
        → Reads (λ at. look_after at h) (λ k. value_in (Item k) h)
        (cursor.Head p) (put_list p h) (lane_end p h) }
    ensures next { (size : PoolSize) (h : History) (p k : ℕ) (later ks : List ℕ)
        → IsPoolLawful size h → later ++ k ∷ ks ≡ linked_cells p h
        → value_in (place_past p ks) h ≡ k + 1 }
    ensures end { (size : PoolSize) (h : History) (p : ℕ) → IsPoolLawful size h
        → value_in (place_past p (linked_cells p h)) h ≡ (if has_ended p h then END else 0) }
    ensures items { (size : PoolSize) (h : History) (p k : ℕ) → IsPoolLawful size h
        → Has (linked_cells p h) k → value_in (Item k) h ≡ item_of k h }
{}

/// On each lane a pool shows the put list of any history that leaves the pool. Then it shows the end mark, or nothing.
pub fn pools_show_lanes()
    ensures { (h : History) (s : PoolState) (p : ℕ) → IsAfter h s → p < lane_count s
        → Reads (λ at. look_in at s) (λ k. item_in k s)
        (cursor.Head p) (put_list p h) (lane_end p h) }
{}

/// A load of a head or link gives 0, or what that word holds from then on. A load of an item gives the item put.
pub fn loads_tell_what_stays()
    ensures link { (size : PoolSize) (h : History) (r v : ℕ) (w : Word) → IsPoolLawful size h
        → IsLinkWord w → HasLoaded r w v h → (v ≡ 0) ⊎ (v ≡ value_in w h) }

    // A load of a lane's head or link gives 0 or the next cell. Past the last cell it gives 0 or the end mark.
    ensures next { (size : PoolSize) (h : History) (r p k v : ℕ) (later ks : List ℕ)
        → IsPoolLawful size h → later ++ k ∷ ks ≡ linked_cells p h
        → HasLoaded r (place_past p ks) v h → (v ≡ 0) ⊎ (v ≡ k + 1) }
    ensures end { (size : PoolSize) (h : History) (r p v : ℕ) → IsPoolLawful size h
        → HasLoaded r (place_past p (linked_cells p h)) v h
        → (v ≡ 0) ⊎ ((v ≡ END) × (has_ended p h ≡ true)) }

    // A load of an item gives the item put. Its cell is linked, and so is each cell that a reader loaded a link to.
    ensures item { (size : PoolSize) (h : History) (r k v : ℕ) → IsPoolLawful size h
        → HasLoaded r (Item k) v h → v ≡ item_of k h }
    ensures item_put { (size : PoolSize) (h : History) (r k v : ℕ) → IsPoolLawful size h
        → HasLoaded r (Item k) v h → (p : ℕ) × Has (linked_cells p h) k }
    ensures cell_put { (size : PoolSize) (h : History) (r k : ℕ) → IsPoolLawful size h
        → Gave k (part (Reader r) h) → (p : ℕ) × Has (linked_cells p h) k }
{}

/// The answer of a look says what the head or link that was loaded holds.
pub fn looks_tell_links()
    ensures nothing { (v : ℕ) → look_of v ≡ look.Nothing → v ≡ 0 }
    ensures ended { (v : ℕ) → look_of v ≡ look.Ended → v ≡ END }
    ensures cell { (v k : ℕ) → look_of v ≡ look.Cell k → (v ≡ k + 1) × (v ≢ END) }
{}

/// The counter is bounded, and each number below it was given by one fetch-add.
pub fn numbers_are_issued_once()
    ensures bound { (size : PoolSize) (h : History) → IsPoolLawful size h
        → value_in Counter h ≤ size.cells + size.lanes }
    ensures given { (size : PoolSize) (h : History) (p : ℕ) (e : Entry) → IsPoolLawful size h
        → Has h (fetch p e) → e.cell < value_in Counter h }
    ensures issued { (size : PoolSize) (h : History) (k : ℕ) → IsPoolLawful size h
        → k < value_in Counter h → WasIssued k h }
    ensures once { (size : PoolSize) (h : History) (p q : ℕ) (e f : Entry) → IsPoolLawful size h
        → Has h (fetch p e) → Has h (fetch q f) → e.cell ≡ f.cell → fetch p e ≡ fetch q f }

    // A fetch-add finds no cell only if none is left.
    ensures refused { (size : PoolSize) (h : History) (p k : ℕ) (e : Entry) → IsPoolLawful size h
        → Has h (fetch p e) → size.cells ≤ e.cell → k < size.cells → WasIssued k h }

    // The counter holds the number of fetch-adds, and each of them finds the number of the older ones.
    ensures counter { (size : PoolSize) (h : History) → IsPoolLawful size h
        → value_in Counter h ≡ fetch_adds_on Counter h }
    ensures found { (size : PoolSize) (later older : History) (a : PoolAccess) (x n : ℕ)
        → IsPoolLawful size (later ++ a ∷ older) → a.act ≡ FetchAdd x n
        → n ≡ fetch_adds_on a.word older }
{}

/// Each load of a reader is on some lane, and its loads on one lane are a reader path by themselves.
pub fn readers_keep_to_lanes()
    ensures part { (size : PoolSize) (h : History) (r p : ℕ) → IsPoolLawful size h
        → IsReaderPath size.lanes (part_on r p h) }
    ensures all { (size : PoolSize) (h : History) (r : ℕ) (a : PoolAccess) → IsPoolLawful size h
        → Has (part (Reader r) h) a → (p : ℕ) × (is_of_lane p (linked_cells p h) a.word ≡ true) }

    // Accesses are a reader path if each passes a test, and for each test those that pass it are a reader path.
    ensures whole { (lanes : ℕ) (test : ℕ → PoolAccess → Bool) (done : History)
        → ((a : PoolAccess) → Has done a → (p : ℕ) × (test p a ≡ true))
        → ((p : ℕ) → IsReaderPath lanes (filter (test p) done)) → IsReaderPath lanes done }
{}

/// A producer's own part says what its words hold and what its lane has.
pub fn parts_tell_lanes()
    // If one producer alone stores to a word, its part says what the word holds.
    ensures alone { (h : History) (p : ℕ) (w : Word)
        → ((a : PoolAccess) (v : ℕ) → Has h a → a.word ≡ w → stored_by a.act ≡ Some v
        → a.process ≡ Producer p) → value_in w h ≡ value_in w (part (Producer p) h) }

    // A producer alone stores to its head, and to the item and the link of each cell that it got.
    ensures head { (size : PoolSize) (h : History) (p : ℕ) → IsPoolLawful size h
        → value_in (Head p) h ≡ value_in (Head p) (part (Producer p) h) }
    ensures item { (size : PoolSize) (h : History) (p : ℕ) (e : Entry) → IsPoolLawful size h
        → Has h (fetch p e)
        → value_in (Item e.cell) h ≡ value_in (Item e.cell) (part (Producer p) h) }
    ensures link { (size : PoolSize) (h : History) (p : ℕ) (e : Entry) → IsPoolLawful size h
        → Has h (fetch p e)
        → value_in (Link e.cell) h ≡ value_in (Link e.cell) (part (Producer p) h) }

    // A producer's part also says which cells are linked, whether the lane has ended, and which items are put.
    ensures linked { (h : History) (p : ℕ)
        → linked_cells p h ≡ linked_cells p (part (Producer p) h) }
    ensures ended { (h : History) (p : ℕ)
        → has_ended p h ≡ has_ended p (part (Producer p) h) }
    ensures put { (size : PoolSize) (h : History) (p : ℕ) → IsPoolLawful size h
        → put_list p h ≡ put_list p (part (Producer p) h) }

    // A producer got each cell that it linked. So its part says what the words of these cells hold.
    ensures taken { (size : PoolSize) (h : History) (p k : ℕ) → IsPoolLawful size h
        → Has (linked_cells p h) k → (e : Entry) × ((e.cell ≡ k) × Has h (fetch p e)) }
    ensures linked_item { (size : PoolSize) (h : History) (p k : ℕ) → IsPoolLawful size h
        → Has (linked_cells p h) k
        → value_in (Item k) h ≡ value_in (Item k) (part (Producer p) h) }
    ensures linked_link { (size : PoolSize) (h : History) (p k : ℕ) → IsPoolLawful size h
        → Has (linked_cells p h) k
        → value_in (Link k) h ≡ value_in (Link k) (part (Producer p) h) }
{}

/// A lane refuses a call exactly because of what its producer has done.
pub fn lanes_refuse_by_what_was_done()
    // An offer returns `Closed` after the end mark, `Busy` while an item has a cell that is not linked, and `Full`
    // after a fetch-add that found no cell, until the end mark. Otherwise it is not refused.
    ensures closed { (size : PoolSize) (h : History) (p : ℕ) (lane : Lane) → IsPoolLawful size h
        → IsLaneAfter size.cells p lane (part (Producer p) h)
        → (offer_refusal lane ≡ Some offer.Closed) ↔ (has_ended p h ≡ true) }
    ensures busy { (size : PoolSize) (h : History) (p : ℕ) (lane : Lane) → IsPoolLawful size h
        → IsLaneAfter size.cells p lane (part (Producer p) h)
        → (offer_refusal lane ≡ Some offer.Busy) ↔ HasPending size.cells p h }
    ensures full { (size : PoolSize) (h : History) (p : ℕ) (lane : Lane) → IsPoolLawful size h
        → IsLaneAfter size.cells p lane (part (Producer p) h)
        → (offer_refusal lane ≡ Some offer.Full)
        ↔ ((has_ended p h ≡ false) × HasFoundNone size.cells p h) }
    ensures free { (size : PoolSize) (h : History) (p : ℕ) (lane : Lane) → IsPoolLawful size h
        → IsLaneAfter size.cells p lane (part (Producer p) h)
        → has_ended p h ≡ false → (HasPending size.cells p h → ⊥)
        → (HasFoundNone size.cells p h → ⊥) → offer_refusal lane ≡ None }

    // A push is idle exactly if no item is pending: none has a cell that is not linked.
    ensures idle { (size : PoolSize) (h : History) (p : ℕ) (lane : Lane) → IsPoolLawful size h
        → IsLaneAfter size.cells p lane (part (Producer p) h)
        → (push_store p lane ≡ None) ↔ (HasPending size.cells p h → ⊥) }

    // A finish is refused like an offer, but never with `Full`.
    ensures finish_closed { (size : PoolSize) (h : History) (p : ℕ) (lane : Lane)
        → IsPoolLawful size h → IsLaneAfter size.cells p lane (part (Producer p) h)
        → (finish_refusal lane ≡ Some finish.Closed) ↔ (has_ended p h ≡ true) }
    ensures finish_busy { (size : PoolSize) (h : History) (p : ℕ) (lane : Lane)
        → IsPoolLawful size h → IsLaneAfter size.cells p lane (part (Producer p) h)
        → (finish_refusal lane ≡ Some finish.Busy) ↔ HasPending size.cells p h }
    ensures finish_free { (size : PoolSize) (h : History) (p : ℕ) (lane : Lane)
        → IsPoolLawful size h → IsLaneAfter size.cells p lane (part (Producer p) h)
        → has_ended p h ≡ false → (HasPending size.cells p h → ⊥) → finish_refusal lane ≡ None }
{}
