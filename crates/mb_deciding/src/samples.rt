//! Small histories of one process, and histories of a last object. They show what the definitions admit, and what they
//! refuse. The functions compute nothing. The proofs begin in `proofs/samples`. The lemmas are in
//! `proofs/SmallHistories.antt` and `SmallLasts.antt`.
ghost use Rattle.std.specs.Prelude.{ℕ, ◌≡◌, Bool, true, false, [], ◌∷◌};
ghost use Rattle.mb_quorum.specs.Unary.{unary_table};
ghost use Rattle.mb_deciding.specs.{Conciliator, LastObject, Last, Exchange, value_in, IsPath, small_last, turn};
ghost use Rattle.mb_deciding.specs.{first_decides, found_empty_twice, loaded_then_stored};
ghost use Rattle.mb_deciding.specs.{IsObjectLawful, HasOutput, IsPrefix, answer, small_ratifier, small_conciliator};
ghost use Rattle.mb_deciding.specs.{history_of_one, clear_turns, hasty_turns, invented_turns, patient_turns};
ghost use Rattle.mb_deciding.specs.{impatient_turns};

/// Small histories of one process with the input 0. Clauses with `→ ⊥` refuse a history, or the turns in it.
pub fn small_histories()
    // Process 0 announces its input, finds the proposal empty, proposes its input, and checks the read quorum of it.
    ensures clear { IsObjectLawful small_ratifier (history_of_one clear_turns) }
    ensures clear_output { HasOutput small_ratifier 0 true 0 (history_of_one clear_turns) }

    // The proposal is loaded before the write quorum is set.
    ensures hasty { IsObjectLawful small_ratifier (history_of_one hasty_turns) → ⊥ }

    // A load finds a value that no process stored.
    ensures invented { IsObjectLawful small_ratifier (history_of_one invented_turns) → ⊥ }

    // With the random word 3 process 0 stores on attempt 2, the last.
    ensures patient { IsObjectLawful small_conciliator (history_of_one patient_turns) }
    ensures patient_output { HasOutput small_conciliator 0 false 0 (history_of_one patient_turns) }

    // Process 0 stores on attempt 0, although with the random word 3 it may not.
    ensures impatient { IsObjectLawful small_conciliator (history_of_one impatient_turns) → ⊥ }
    ensures impatient_part { IsPrefix (unary_table 2) (Conciliator 2) 0 impatient_turns → ⊥ }
{}

/// Histories of a last object, each input the process's own number, and turns of one process. `→ ⊥` refuses them.
pub fn small_last_objects()
    // Process 0 puts its value into the empty word. The others find that, and leave it there.
    ensures lawful { IsObjectLawful small_last first_decides }
    ensures left { value_in Last first_decides ≡ 1 }

    // Process 1 finds the word empty, although process 0 has stored there.
    ensures empty { IsObjectLawful small_last found_empty_twice → ⊥ }

    // A process makes a load and then a store in place of the exchange.
    ensures torn { IsPrefix (unary_table 3) LastObject 0 loaded_then_stored → ⊥ }

    // A process that found a value has that value as output, decided, and no other output.
    ensures met { (d : Bool) (u : ℕ) → IsPath (unary_table 3) LastObject 1
        (turn 0 (Exchange Last 2 1) ∷ []) (answer d u) → (d ≡ true) × (u ≡ 0) }
{}
