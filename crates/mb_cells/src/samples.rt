//! Samples of the definitions: what is lawful, and what only looks so. The functions compute nothing: their contracts
//! are the samples. Their proofs are in `proofs/samples/`.
ghost use Rattle.std.specs.Prelude.{◌≡◌, true, [], ◌∷◌};
ghost use Rattle.mb_cells.specs.{HasMet, Head, IsLanePrefix, IsMemoryTrue, IsPoolLawful, IsReaderPath, Item, eight};
ghost use Rattle.mb_cells.specs.{fetch, has_ended, load, one_put, one_read, one_taken, pool_size, put_list, store};

/// One item is put and read, and the lane ends.
pub fn one_item_is_put_and_read()
    ensures item { IsPoolLawful (pool_size 1 1) one_put }
    ensures lawful { IsPoolLawful (pool_size 1 1) one_read }
    ensures put { put_list 0 one_read ≡ eight ∷ [] }
    ensures ended { has_ended 0 one_read ≡ true }
    ensures met { HasMet 5 0 (0 ∷ []) one_read }
{}

/// A load gives only what its word holds.
pub fn memory_makes_nothing_up()
    ensures { IsMemoryTrue (load 5 (Head 0) 1 ∷ one_taken) → ⊥ }
{}

/// If a producer links a cell before it stores the item, its part is no prefix of a lane path.
pub fn producers_keep_their_order()
    ensures { IsLanePrefix 1 0 (store 0 (Head 0) 1 ∷ one_taken) → ⊥ }
{}

/// A reader loads a cell's words only if its own loads led to the cell.
pub fn readers_go_where_they_are_led()
    ensures not_given { IsReaderPath 1 (load 5 (Item 0) 8 ∷ load 5 (Head 0) 0 ∷ []) → ⊥ }

    // A load that finds 0 meets no cell.
    ensures nothing_met { HasMet 5 0 (0 ∷ []) (load 5 (Head 0) 0 ∷ []) → ⊥ }
{}

/// A lawful history has only lanes of the pool.
pub fn histories_stay_in_range()
    ensures { IsPoolLawful (pool_size 1 1) (fetch 1 eight ∷ []) → ⊥ }
{}
