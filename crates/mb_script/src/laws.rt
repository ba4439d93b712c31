//! What holds of every text, every script and every device. The functions compute nothing: their contracts are the
//! laws. Proofs that had to be written are in `proofs/laws`, each in a folder of the law's name.
ghost use Rattle.std.specs.Prelude.{◌≡◌, ◌≢◌, ℕ, suc, ◌+◌, ◌-◌, ◌<◌, ◌≤◌, ◌^◌, List, ◌∷◌, ◌++◌, codes, length, map, take};
ghost use Rattle.std.specs.Prelude.{Some, Err, true, false};
ghost use Rattle.std.specs.Char.{is_ascii};
ghost use Rattle.std.specs.Fmt.{decimal};
ghost use Rattle.std.specs.List.{AllByRecursion, join_with_byte, list_all};
ghost use Rattle.mb_world.specs.declared.event.Event.{Event};
ghost use Rattle.mb_script.specs.declared.fault.Fault.{Fault};
ghost use Rattle.mb_script.specs.declared.fault.Fault.TheVariants.{NoSetup, TooManyEvents};
ghost use Rattle.mb_script.specs.declared.script.TheConstants.{MAX_EVENTS};
ghost use Rattle.mb_script.specs.declared.transfer.TheConstants.{MAX_SCRIPT_LEN};
ghost use Rattle.mb_script.specs.Devices.{CountGrows, CountGrowsUpTo, one_more};
ghost use Rattle.mb_script.specs.FirstFault.{first_word_in, line_of};
ghost use Rattle.mb_script.specs.Replaying.{IsAnswer, IsOfWorld};
ghost use Rattle.mb_script.specs.Scripts.{Script, script_of};
ghost use Rattle.mb_script.specs.Spelling.{IsScript, Sizes, Spells, script_lines};
ghost use Rattle.mb_script.specs.Text.{IsWord, IsWordLine, has_empty, lines_of, number_of, numbers_of, words_in_line};

use mb_quorum::laws::named_tables_are_lawful;
use mb_world::laws::{histories_have_one_report, replays_do_not_differ, worlds_are_sound};
use mb_world::steps::history_extends;

/// If one word or more are joined, with one space between two, the line is cut into the same words. If the words of a
/// line are joined so, they are that line.
pub fn words_are_cut_as_spelled()
    ensures cut { (w : List ℕ) (ws : List (List ℕ)) → AllByRecursion IsWord (w ∷ ws)
        → words_in_line (join_with_byte 32 (w ∷ ws)) ≡ w ∷ ws }
    ensures none_empty { (ws : List (List ℕ)) → AllByRecursion IsWord ws → has_empty ws ≡ false }
    ensures spelled { (line : List ℕ) → join_with_byte 32 (words_in_line line) ≡ line }
{}

/// The decimal of a number below 2^64 is read as that number. A word that is read as a number is the number's decimal.
pub fn numbers_are_read_as_spelled()
    ensures word { (n : ℕ) → n < 2 ^ 64 → IsWord (decimal n) }
    ensures read { (n : ℕ) → n < 2 ^ 64 → number_of (decimal n) ≡ Some n }
    ensures spelled { (w : List ℕ) (n : ℕ) → number_of w ≡ Some n → (w ≡ decimal n) × (n < 2 ^ 64) }

    // Lists of numbers are spelled and read so too.
    ensures words { (ns : List ℕ) → AllByRecursion (λ n. n < 2 ^ 64) ns
        → AllByRecursion IsWord (map decimal ns) }
    ensures all_read { (ns : List ℕ) → AllByRecursion (λ n. n < 2 ^ 64) ns
        → numbers_of (map decimal ns) ≡ Some ns }
    ensures all_spelled { (ws : List (List ℕ)) (ns : List ℕ) → numbers_of ws ≡ Some ns
        → (ws ≡ map decimal ns) × AllByRecursion (λ n. n < 2 ^ 64) ns }
{}

/// If each line of a text is words as `IsWordLine` says, joined by single spaces, the text is ASCII.
pub fn lines_of_words_are_ascii()
    ensures { (bytes : List ℕ) (lines : List (List (List ℕ))) → AllByRecursion IsWordLine lines
        → lines_of bytes ≡ map (join_with_byte 32) lines → list_all is_ascii bytes ≡ true }
{}

/// The first faulty line of a text decides. If all is ASCII and not too long, the lines after it do not count. The
/// lines before it, if there are any, spell a script.
pub fn first_faulty_lines_decide()
    ensures behind { (bytes others : List ℕ) (e : Fault) (n : ℕ) → script_of bytes ≡ Err e
        → line_of e ≡ Some n
        → take n (lines_of bytes) ≡ take n (lines_of others) → length others ≤ MAX_SCRIPT_LEN
        → list_all is_ascii others ≡ true → script_of others ≡ Err e }
    ensures before { (bytes : List ℕ) (e : Fault) (n : ℕ) → script_of bytes ≡ Err e
        → line_of e ≡ Some (suc n) → 0 < n
        → (s : Script) × Spells (take n (lines_of bytes)) s }
{}

/// `NoSetup` comes before every other fault of a line, and only if there is no line or the first word is not `setup`.
pub fn setups_come_first()
    ensures always { (bytes : List ℕ) → length bytes ≤ MAX_SCRIPT_LEN
        → list_all is_ascii bytes ≡ true
        → first_word_in (lines_of bytes) ≢ Some (codes "setup") → script_of bytes ≡ Err NoSetup }
    ensures only { (bytes : List ℕ) → script_of bytes ≡ Err NoSetup
        → first_word_in (lines_of bytes) ≢ Some (codes "setup") }
{}

/// In a text that is ASCII and not too long, a line after a script with the most events is too many, whatever it holds.
pub fn further_lines_are_too_many()
    ensures { (bytes : List ℕ) (z : Sizes) (events : List Event)
        → (line : List ℕ) (rest : List (List ℕ))
        → IsScript z events → length events ≡ MAX_EVENTS
        → lines_of bytes ≡ script_lines z events ++ line ∷ rest → length bytes ≤ MAX_SCRIPT_LEN
        → list_all is_ascii bytes ≡ true → script_of bytes ≡ Err TooManyEvents }
{}

/// The most bytes and the most events that a script may have.
pub fn scripts_have_limits()
    ensures bytes { MAX_SCRIPT_LEN ≡ 1048576 }
    ensures events { MAX_EVENTS ≡ 20000 }
{}

/// A script has at most one answer: its events have at most one replay, and what they did has at most one report.
pub fn scripts_have_one_answer()
    ensures { (bytes text other : List ℕ) → IsAnswer bytes text → IsAnswer bytes other → text
        ≡ other }
{
    named_tables_are_lawful();
    history_extends();
    replays_do_not_differ();
    worlds_are_sound();
    histories_have_one_report();
}

/// No answer in the transcript of a script says that a lane or a consumer is not there.
pub fn transcripts_name_what_is_there()
    ensures { (bytes text : List ℕ) (a : IsAnswer bytes text)
        → AllByRecursion IsOfWorld a.replayed.answers }
{
    named_tables_are_lawful();
}

/// After one more failure the count of failures is another, although it counts modulo 2^64.
pub fn failures_are_seen()
    ensures { (failures : ℕ) → one_more failures ≢ failures }
{}

/// If a count grows by at most `most`, and stays below its limit by that, at most `most` bytes were given.
pub fn counts_bound_what_is_given()
    ensures { (most n old new : ℕ) → old + most < 2 ^ 64 - 1 → CountGrows n old new
        → CountGrowsUpTo most old new → n ≤ most }
{}
