//! What builders of worlds and of tables need: one more access, the places of producers, the words of the pool and
//! their addresses, and states. The functions compute nothing: their contracts are the laws. Their proofs are in
//! `proofs/steps/`, one folder for each. They use the lemmas of `proofs/`.
//!
//! A table of shared words needs [`words_follow_steps`]: its words and parts are those of one lawful history. An access
//! of a producer may follow if its lane goes on with it ([`lanes_lead_on`]), and a reader's load if its loads led to
//! the word. [`history_extends`] then gives the longer history. By [`accesses_stay_within`] the word is in the pool.
ghost use Rattle.std.specs.Prelude.{◌≡◌, ◌+◌, ◌<◌, ◌≤◌, ◌⊎◌, ◌∷◌, ◌++◌, ◌^◌, ◌≢◌, ℕ, List, Some, None, length};
ghost use Rattle.std.specs.Prelude.{slice_index, unwrap_or, []};
ghost use Rattle.mb_cells.specs.{ActFits, Counter, END, Entry, Has, History, IsAfter, LaneIsAt, IsLaneAfter};
ghost use Rattle.mb_cells.specs.{IsLanePrefix, IsLinkWord, IsPoolLawful, IsPoolWord, PoolIsSound, IsStateOf, IsLaneWord};
ghost use Rattle.mb_cells.specs.{Item, Lane, LoadGoesOn, MayRead, Phase, PoolAccess, PoolSize, PoolState, Process};
ghost use Rattle.mb_cells.specs.{Producer, Reader, ReadsLast, SameSize, Steps, Word, address_of, block_after};
ghost use Rattle.mb_cells.specs.{entry_at, fetch, fetch_adds_on, finish_refusal, lane_after_finish};
ghost use Rattle.mb_cells.specs.{lane_after_offer, lane_after_push, load, new_lane, next_link, offer_refusal, part};
ghost use Rattle.mb_cells.specs.{parts_after, push_store, put_list, store, stored_by, value_in, pool_words};
ghost use Rattle.mb_cells.specs.Place.{Open};

/// Lawful histories grow by one access after another.
pub fn history_extends()
    ensures empty { (size : PoolSize) → size.cells < END → IsPoolLawful size [] }
    ensures older { (size : PoolSize) (later older : History) → IsPoolLawful size (later ++ older)
        → IsPoolLawful size older }

    // A producer's access may follow if its lane path goes on with it, and the access is true to memory.
    ensures producer { (size : PoolSize) (h : History) (a : PoolAccess) (p : ℕ)
        → IsPoolLawful size h → a.process ≡ Producer p → p < size.lanes
        → ActFits a.act → ReadsLast a.word a.act h
        → IsLanePrefix size.cells p (a ∷ part (Producer p) h) → IsPoolLawful size (a ∷ h) }

    // A reader's load may follow if the reader may load the word.
    ensures reader { (size : PoolSize) (h : History) (r : ℕ) (w : Word) → IsPoolLawful size h
        → MayRead size.lanes w (part (Reader r) h)
        → IsPoolLawful size (load r w (value_in w h) ∷ h) }
{}

/// What one access adds to a history: one access to one part, and at most one value in one word.
pub fn accesses_lengthen_one_part()
    ensures own { (h : History) (a : PoolAccess) → part a.process (a ∷ h) ≡ a ∷ part a.process h }
    ensures others { (h : History) (a : PoolAccess) (who : Process) → a.process ≢ who
        → part who (a ∷ h) ≡ part who h }
    ensures word { (h : History) (a : PoolAccess)
        → value_in a.word (a ∷ h) ≡ unwrap_or (stored_by a.act) (value_in a.word h) }
    ensures words { (h : History) (a : PoolAccess) (w : Word) → a.word ≢ w
        → value_in w (a ∷ h) ≡ value_in w h }
    ensures added { (h : History) (p : ℕ) (e : Entry)
        → fetch_adds_on Counter (fetch p e ∷ h) ≡ fetch_adds_on Counter h + 1 }
    ensures counter { (h : History) (a : PoolAccess) → a.word ≢ Counter
        → fetch_adds_on Counter (a ∷ h) ≡ fetch_adds_on Counter h }

    // Two processes are equal or not, and so are two words.
    ensures processes { (a b : Process) → (a ≡ b) ⊎ (a ≢ b) }
    ensures names { (v w : Word) → (v ≡ w) ⊎ (v ≢ w) }
{}

/// A part has the accesses of its process, and no others.
pub fn parts_have_accesses()
    ensures only { (h : History) (who : Process) (a : PoolAccess) → Has (part who h) a
        → Has h a × (a.process ≡ who) }
    ensures all { (h : History) (who : Process) (a : PoolAccess) → Has h a → a.process ≡ who
        → Has (part who h) a }
{}

/// A prefix of a lane path puts its producer at one place. The producer goes on from there step by step.
pub fn places_lead_on()
    ensures start { (cells p : ℕ) → LaneIsAt cells p [] Open [] }
    ensures step { (cells p : ℕ) (es fs : List Entry) (was now : Phase) (a : PoolAccess)
        (done : History) → Steps cells p es was a fs now → LaneIsAt cells p es was done
        → LaneIsAt cells p fs now (a ∷ done) }
    ensures prefix { (cells p : ℕ) (es : List Entry) (phase : Phase) (done : History)
        → LaneIsAt cells p es phase done → IsLanePrefix cells p done }
    ensures place { (cells p : ℕ) (done : History) → IsLanePrefix cells p done
        → (es : List Entry) × ((phase : Phase) × LaneIsAt cells p es phase done) }
    ensures one { (cells p : ℕ) (es fs : List Entry) (was now : Phase) (done : History)
        → LaneIsAt cells p es was done → LaneIsAt cells p fs now done → (es ≡ fs) × (was ≡ now) }

    // If the part with one access more is a prefix of a lane path, the access is a step from the place.
    ensures only { (cells p : ℕ) (es : List Entry) (phase : Phase) (a : PoolAccess) (done : History)
        → LaneIsAt cells p es phase done → IsLanePrefix cells p (a ∷ done)
        → (fs : List Entry) × ((now : Phase) × Steps cells p es phase a fs now) }
{}

/// Each access of a producer leads from its place, as a plain value, to the next. The place names all accesses that may
/// come next.
pub fn lanes_lead_on()
    ensures start { (cells p : ℕ) → IsLaneAfter cells p new_lane [] }
    ensures lane { (cells p : ℕ) (done : History) → IsLanePrefix cells p done
        → (lane : Lane) × IsLaneAfter cells p lane done }
    ensures one { (cells p : ℕ) (lane other : Lane) (done : History) → IsLaneAfter cells p lane done
        → IsLaneAfter cells p other done → lane ≡ other }
    ensures prefix { (cells p : ℕ) (lane : Lane) (done : History) → IsLaneAfter cells p lane done
        → IsLanePrefix cells p done }
    ensures offered { (cells p : ℕ) (lane : Lane) (done : History) (e : Entry)
        → IsLaneAfter cells p lane done → offer_refusal lane ≡ None
        → IsLaneAfter cells p (lane_after_offer cells e.value e.cell lane) (fetch p e ∷ done) }
    ensures pushed { (cells p : ℕ) (lane : Lane) (done : History) (s : Word × ℕ)
        → IsLaneAfter cells p lane done → push_store p lane ≡ Some s
        → IsLaneAfter cells p (lane_after_push lane) (store p s.0 s.1 ∷ done) }
    ensures finished { (cells p : ℕ) (lane : Lane) (done : History)
        → IsLaneAfter cells p lane done → finish_refusal lane ≡ None
        → IsLaneAfter cells p (lane_after_finish lane) (store p (next_link p lane) END ∷ done) }

    // No other access goes on with the lane's path. If a call is refused, its access does not go on with the path.
    ensures fetches { (cells p : ℕ) (lane : Lane) (done : History) (e : Entry)
        → IsLaneAfter cells p lane done → IsLanePrefix cells p (fetch p e ∷ done)
        → offer_refusal lane ≡ None }
    ensures stores { (cells p : ℕ) (lane : Lane) (done : History) (w : Word) (v : ℕ)
        → IsLaneAfter cells p lane done → IsLanePrefix cells p (store p w v ∷ done)
        → (push_store p lane ≡ Some (w, v))
        ⊎ ((finish_refusal lane ≡ None) × ((w ≡ next_link p lane) × (v ≡ END))) }
    ensures only { (cells p : ℕ) (lane : Lane) (done : History) (a : PoolAccess)
        → IsLaneAfter cells p lane done → IsLanePrefix cells p (a ∷ done)
        → ((e : Entry) × (a ≡ fetch p e)) ⊎ ((w : Word) × ((v : ℕ) × (a ≡ store p w v))) }
{}

/// All accesses go to words of the pool, also those that may come next.
pub fn accesses_stay_within()
    ensures all { (size : PoolSize) (h : History) (a : PoolAccess) → IsPoolLawful size h → Has h a
        → IsPoolWord size a.word }
    ensures push { (size : PoolSize) (p : ℕ) (lane : Lane) (done : History) (w : Word) (v : ℕ)
        → p < size.lanes → IsLaneAfter size.cells p lane done → push_store p lane ≡ Some (w, v)
        → IsLaneWord size w }
    ensures link { (size : PoolSize) (p : ℕ) (lane : Lane) (done : History) → p < size.lanes
        → IsLaneAfter size.cells p lane done → IsLaneWord size (next_link p lane) }
    ensures load { (size : PoolSize) (h : History) (r : ℕ) (w : Word) → IsPoolLawful size h
        → MayRead size.lanes w (part (Reader r) h) → IsLaneWord size w }

    // The value that a push stores is below 2^64.
    ensures fits { (size : PoolSize) (h : History) (p : ℕ) (lane : Lane) (w : Word) (v : ℕ)
        → IsPoolLawful size h → IsLaneAfter size.cells p lane (part (Producer p) h)
        → push_store p lane ≡ Some (w, v) → v < 2 ^ 64 }
{}

/// The put list of a lane grows by the entry of each link store, and by nothing else.
pub fn put_lists_grow()
    ensures link { (h : History) (p k : ℕ) (w : Word) → IsLinkWord w → k + 1 ≢ END
        → put_list p (store p w (k + 1) ∷ h) ≡ put_list p h ++ entry_at k h ∷ [] }
    ensures fetch { (size : PoolSize) (h : History) (p q : ℕ) (e : Entry)
        → IsPoolLawful size (fetch p e ∷ h) → put_list q (fetch p e ∷ h) ≡ put_list q h }
    ensures item { (h : History) (p q k v : ℕ)
        → put_list q (store p (Item k) v ∷ h) ≡ put_list q h }
    ensures end { (h : History) (p q : ℕ) (w : Word) → IsLinkWord w
        → put_list q (store p w END ∷ h) ≡ put_list q h }
    ensures load { (h : History) (r q v : ℕ) (w : Word)
        → put_list q (load r w v ∷ h) ≡ put_list q h }

    // A store to a head or link by another lane's producer changes nothing, either.
    ensures other { (h : History) (p q v : ℕ) (w : Word) → p ≢ q → IsLinkWord w
        → put_list q (store p w v ∷ h) ≡ put_list q h }
{}

/// A load by a reader that may load the word leaves the pool as it is.
pub fn loads_leave_pools()
    ensures { (s : PoolState) (w : Word) → LoadGoesOn w s }
{}

/// All pools of one size that one history leaves are equal.
pub fn pools_are_what_was_done()
    ensures { (h : History) (s t : PoolState) → PoolIsSound s → PoolIsSound t → SameSize s t
        → IsAfter h s → IsAfter h t → s ≡ t }
{}

/// Different words have different addresses, and all addresses lie below the number of words.
pub fn addresses_are_apart()
    ensures apart { (size : PoolSize) (v w : Word) → IsPoolWord size v → IsPoolWord size w
        → address_of size v ≡ address_of size w → v ≡ w }
    ensures within { (size : PoolSize) (w : Word) → IsPoolWord size w
        → address_of size w < pool_words size }
{}

/// After each access, a pool's words in one block and its processes' parts are those of the history with that access.
pub fn words_follow_steps()
    ensures empty { (size : PoolSize) (words : List ℕ) → size.cells < END
        → pool_words size ≤ length words
        → ((w : Word) → IsPoolWord size w → slice_index words (address_of size w) ≡ 0)
        → IsStateOf size words (λ who. []) [] }

    // An access that may follow changes its own word, and the part of its process.
    ensures step { (size : PoolSize) (words : List ℕ) (parts : Process → History) (h : History)
        (a : PoolAccess) → IsStateOf size words parts h → IsPoolLawful size (a ∷ h)
        → IsStateOf size (block_after size a words) (parts_after a parts) (a ∷ h) }

    // Words after those of the pool may hold anything.
    ensures more { (size : PoolSize) (words more : List ℕ) (parts : Process → History) (h : History)
        → IsStateOf size words parts h
        → ((i : ℕ) → i < pool_words size → slice_index more i ≡ slice_index words i)
        → pool_words size ≤ length more → IsStateOf size more parts h }
{}
