//! Sample reports: with which of them an assignment agrees, which are settled, and where a report has its diaries.
ghost use Rattle.std.specs.Prelude.{◌≡◌, [], ◌∷◌};
ghost use Rattle.mb_world.specs.ReportSamples.{begun_beyond, diaries_by_lane, first_to, left_omitted, lost_to_a_third, lost_to_each_other, lost_to_itself};
ghost use Rattle.mb_world.specs.ReportSamples.{noted_beyond, other_value, taken_and_lost, taken_on_both, two_takers, winner_stayed_away};
ghost use Rattle.mb_world.specs.Vocabulary.{AgreesWith, Assignment, IsSettled, Lost, notes};

use crate::laws::agreeing_reports_are_settled;

/// A report that agrees with an assignment.
pub fn reports_agree()
    ensures { AgreesWith (first_to 0) taken_and_lost }
{}

/// A diary in a report of two lanes: that of consumer `c` on lane `p` is at `c * 2 + p`.
pub fn diaries_stand_by_consumers()
    ensures { notes 1 0 taken_on_both ≡ Lost 0 ∷ [] }
{}

/// A report that is settled.
pub fn reports_settle()
    ensures { IsSettled taken_and_lost }
{
    reports_agree();
    agreeing_reports_are_settled();
}

/// Reports with which no assignment agrees: each but the last breaks another rule of `AgreesWith`, and that one alone.
pub fn reports_disagree()
    ensures omitted { (t : Assignment) → AgreesWith t left_omitted → ⊥ }
    ensures twice { (t : Assignment) → AgreesWith t two_takers → ⊥ }
    ensures value { (t : Assignment) → AgreesWith t other_value → ⊥ }
    ensures itself { (t : Assignment) → AgreesWith t lost_to_itself → ⊥ }
    ensures away { (t : Assignment) → AgreesWith t winner_stayed_away → ⊥ }
    ensures each { (t : Assignment) → AgreesWith t lost_to_each_other → ⊥ }
    ensures third { (t : Assignment) → AgreesWith t lost_to_a_third → ⊥ }
    ensures begun { (t : Assignment) → AgreesWith t begun_beyond → ⊥ }
    ensures beyond { (t : Assignment) → AgreesWith t noted_beyond → ⊥ }

    // These diaries stand lane by lane, so two of them are read as those of another consumer and lane.
    ensures by_lane { (t : Assignment) → AgreesWith t diaries_by_lane → ⊥ }
{}

/// A report that is not settled: its item was competed for, nobody took it, and all its competitors lost it.
pub fn reports_stay_unsettled()
    ensures { IsSettled lost_to_each_other → ⊥ }
{}
