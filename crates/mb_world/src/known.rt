//! What the laws of claims and of cells say of two histories, or of a world's history, gathered in one record each. The
//! functions compute nothing: the laws of this crate use their contracts.
ghost use Rattle.mb_world.specs.Imports.{IsPoolLawful, IsQuorumTable};
ghost use Rattle.mb_world.specs.Known.{Known};
ghost use Rattle.mb_world.specs.Plan.{Histories, Plan, size_of};
ghost use Rattle.mb_world.specs.Sound.{AreSound};
ghost use Rattle.mb_world.specs.World.{WorldHistory, pool_accesses};
ghost use Rattle.mb_world.specs.WorldKnown.{WorldKnown};

use mb_cells::laws::{
    cells_stand_once, end_marks_are_last, loads_tell_what_stays, readers_follow_lanes,
};
use mb_claim::laws::{claims_have_one_winner, prefixes_have_one_stage};

/// What the laws of claims and of cells say of two sound histories.
pub fn sound_histories_are_known()
    ensures { (plan : Plan) (hs : Histories) → AreSound plan hs → Known plan hs }
{
    prefixes_have_one_stage();
    claims_have_one_winner();
    readers_follow_lanes();
    loads_tell_what_stays();
    end_marks_are_last();
    cells_stand_once();
}

/// What the laws of claims and of cells say of a world's history whose accesses to cells are lawful.
pub fn worlds_are_known()
    ensures { (plan : Plan) (h : WorldHistory) → IsQuorumTable plan.claims.table
        → IsPoolLawful (size_of plan) (pool_accesses h) → WorldKnown plan h }
{
    prefixes_have_one_stage();
    readers_follow_lanes();
    cells_stand_once();
}
