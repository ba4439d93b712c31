//! A small sample world: what is done in it, what is reported of it, and what may be neither done nor reported.
ghost use Rattle.std.specs.Prelude.{[], ◌∷◌, Some, None};
ghost use Rattle.mb_claim.specs.declared.access.Stage.TheVariants as stage;
ghost use Rattle.mb_world.specs.PathSamples.{first_step, two_cells};
ghost use Rattle.mb_world.specs.WorldSamples.{all_done, all_histories, all_reported, diary_with, item_missing, loss_taken, loss_unnoted};
ghost use Rattle.mb_world.specs.WorldSamples.{offered_late, report_with, two_by_two};
ghost use Rattle.mb_world.specs.Vocabulary.{AreSound, ConsumerPath, IsClaimPrefix, IsDiaryOf, IsReportOf, IsWorldLawful, Lost, NothingFollowsEnds, Took, lane_part, pool_accesses};

use crate::laws::{places_tell_diaries, worlds_are_sound};
use crate::steps::history_extends;
use mb_cells::steps::{history_extends as one_pool_step, places_lead_on};
use mb_claim::laws::prefixes_have_one_stage;
use mb_claim::samples::samples_are_lawful;
use mb_claim::steps::claims_have_one_next_op;
use mb_quorum::laws::named_tables_are_lawful;

/// What was done in a small world, and where its consumers stand after it.
pub fn worlds_go_on()
    // The history of the small world is lawful.
    ensures all { IsWorldLawful two_by_two all_done }

    // Consumer 0 has taken the item of lane 0, and has not been on lane 1.
    ensures took { ConsumerPath two_cells 0 0
        (lane_part 0 0 all_done) (0 ∷ []) (Took 5 ∷ []) None }
    ensures away { ConsumerPath two_cells 0 1 (lane_part 0 1 all_done) [] [] None }

    // Consumer 1 has lost the item of lane 0, and loaded the end mark after it. On lane 1 its claim goes on.
    ensures lost { ConsumerPath two_cells 1 0
        (lane_part 1 0 all_done) (0 ∷ []) (Lost 0 ∷ []) None }
    ensures begun { ConsumerPath two_cells 1 1
        (lane_part 1 1 all_done) (1 ∷ []) [] (Some (first_step ∷ [])) }
    ensures going { IsClaimPrefix two_cells 1 (first_step ∷ []) stage.Going }
{
    named_tables_are_lawful();
    samples_are_lawful();
    claims_have_one_next_op();
    history_extends();
    one_pool_step();
    places_lead_on();
    worlds_are_sound();
}

/// The report of the small world.
pub fn worlds_are_reported()
    ensures report { IsReportOf two_by_two all_histories all_reported }

    // What was done is sound (`AreSound`), and nothing follows the end mark.
    ensures sound { AreSound two_by_two all_histories }
    ensures ends { NothingFollowsEnds all_histories.pool all_histories.reader_of all_reported }
{
    named_tables_are_lawful();
    worlds_are_sound();
    places_tell_diaries();
    worlds_go_on();
}

/// A report and diaries that are not of the small world. Each diary breaks another rule of `IsDiaryOf`, and that one
/// alone.
pub fn worlds_are_not_misreported()
    // A report lacks an item that nobody took.
    ensures left { IsReportOf two_by_two all_histories item_missing → ⊥ }

    // In place of the diary there is one of another consumer, or of another lane.
    ensures consumer { IsDiaryOf two_by_two 1 0 all_histories (diary_with 0 0 (Lost 0 ∷ [])) → ⊥ }
    ensures lane { IsDiaryOf two_by_two 1 0 all_histories (diary_with 1 1 (Lost 0 ∷ [])) → ⊥ }

    // A diary says that its consumer took an item that it has lost, or has no note on that item.
    ensures lost { IsDiaryOf two_by_two 1 0 all_histories loss_taken → ⊥ }
    ensures silent { IsDiaryOf two_by_two 1 0 all_histories loss_unnoted → ⊥ }

    // A diary does not say that a claim is begun.
    ensures begun { IsDiaryOf two_by_two 1 1 all_histories (diary_with 1 1 []) → ⊥ }
{
    named_tables_are_lawful();
    samples_are_lawful();
    prefixes_have_one_stage();
    worlds_go_on();
}

/// What breaks the rules of end marks: a note that is missing, and an access of the lane's producer after its mark.
pub fn end_marks_are_not_passed()
    ensures noted { NothingFollowsEnds all_histories.pool all_histories.reader_of
        (report_with (6 ∷ []) loss_unnoted) → ⊥ }
    ensures silent { NothingFollowsEnds (pool_accesses (offered_late ∷ all_done))
        all_histories.reader_of all_reported → ⊥ }
{}
