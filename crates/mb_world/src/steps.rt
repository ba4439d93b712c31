//! The laws of one more access, which a world and a mailbox for threads use. A world has one history, which stays lawful
//! ([`history_extends`]). A consumer among threads has two parts of its own, which fit ([`parts_fit_on`]). Its loads
//! tell which cells it met ([`loads_meet_cells`]). The functions compute nothing: their contracts are the laws. Their
//! proofs are in `proofs/steps/`, one folder for each. They use the lemmas of `proofs/`.
ghost use Rattle.std.specs.Prelude.{ℕ, ◌≡◌, ◌≢◌, ◌+◌, ◌<◌, ◌⊎◌, List, [], ◌∷◌, Option};
ghost use Rattle.mb_claim.specs.declared.access.Stage.TheVariants as stage;
ghost use Rattle.mb_world.specs.Fitting.{Fits, FollowsLinks, HasStageIn, Parts, cells_met};
ghost use Rattle.mb_world.specs.Reporting.{HasMetAll};
ghost use Rattle.mb_world.specs.PartSteps.{HasNotPassed, MayLookPast, no_parts, with_load, with_step};
ghost use Rattle.mb_world.specs.Imports.{Claims, Gave, Has, HasMet, History, IsOnceEach, Item, PoolSize, Reader, linked_cells};
ghost use Rattle.mb_world.specs.Imports.{load, part, place_past};
ghost use Rattle.mb_world.specs.Imports.{END, IsPoolLawful, IsQuorumTable, ObjectTurn, PoolAccess, Producer};
ghost use Rattle.mb_world.specs.declared.report.Note.{Note};
ghost use Rattle.mb_world.specs.Plan.{Plan, consumers_of, size_of};
ghost use Rattle.mb_world.specs.World.{WorldAccess, WorldHistory, lane_part, pool_accesses};
ghost use Rattle.mb_world.specs.ConsumerPath.{ConsumerPath};
ghost use Rattle.mb_world.specs.Worlds.{ConsumerAdds, IsTrueTo, IsWorldLawful, ProducerAdds};

use crate::known::worlds_are_known;
use crate::laws::worlds_are_sound;
use mb_cells::laws::{cells_stand_once, readers_follow_lanes};
use mb_cells::steps::history_extends as one_pool_step;
use mb_claim::laws::prefixes_have_one_stage;

/// Lawful histories of a world grow by one access after another.
pub fn history_extends()
    // The history without an access is lawful, if the link to a cell, its number + 1, is never the end mark.
    ensures empty { (plan : Plan) → plan.claims.cells < END → IsWorldLawful plan [] }

    // An access of a consumer may follow if it is true to memory and extends the consumer's path on a lane.
    ensures consumer { (plan : Plan) (h : WorldHistory) (c p : ℕ) (a : WorldAccess) (ks : List ℕ)
        (ns : List Note) (held : Option (List ObjectTurn)) → IsQuorumTable plan.claims.table
        → IsWorldLawful plan h → c < consumers_of plan → p < plan.lanes → IsTrueTo a h
        → ConsumerPath plan.claims c p (a ∷ lane_part c p h) ks ns held
        → ConsumerAdds plan c p a h }

    // An access of a producer may follow if the history of the cells stays lawful with it.
    ensures producer { (plan : Plan) (h : WorldHistory) (p : ℕ) (a : PoolAccess)
        → IsWorldLawful plan h → a.process ≡ Producer p
        → IsPoolLawful (size_of plan) (a ∷ pool_accesses h)
        → ProducerAdds plan a h }
{
    worlds_are_sound();
    worlds_are_known();
    cells_stand_once();
    one_pool_step();
}

/// The two parts of a consumer still fit after each access that it may make, whatever it finds.
pub fn parts_fit_on()
    // The parts of a consumer that has done nothing fit.
    ensures empty { (cs : Claims) (c : ℕ) → Fits cs c no_parts }

    // A consumer may load the link past the cells that it met on a lane, if it is done with the last or met none.
    ensures looks { (cs : Claims) (c q p v : ℕ) (x : Parts) → Fits cs c x
        → MayLookPast cs c (cells_met p x.reads) x
        → Fits cs c (with_load (load q (place_past p (cells_met p x.reads)) v) x) }

    // A consumer may make a step of its claim on a cell that it met, if it loaded neither the cell's item nor its link.
    ensures claims { (cs : Claims) (c k : ℕ) (t : ObjectTurn) (x : Parts) → Fits cs c x
        → Gave k x.reads → HasNotPassed k x → Fits cs c (with_step k t x) }

    // A consumer may load the item of a cell if its claim there is won.
    ensures takes { (cs : Claims) (c q k v : ℕ) (x : Parts) → Fits cs c x
        → HasStageIn cs c k stage.Won x → Fits cs c (with_load (load q (Item k) v) x) }

    // A consumer whose claim on a cell goes on has loaded neither the cell's item nor its link.
    ensures going { (cs : Claims) (c k : ℕ) (x : Parts) → IsQuorumTable cs.table → Fits cs c x
        → HasStageIn cs c k stage.Going x → HasNotPassed k x }
{
    prefixes_have_one_stage();
}

/// The cells that a reader's own loads met on a lane: how they grow load by load, and what they are in a lawful history
/// with these loads.
pub fn loads_meet_cells()
    // A load of the link past the cells met so far meets the cell to which it leads, if it leads to one, and else none.
    ensures cell { (q p k : ℕ) (reads : History) → k + 1 ≢ END
        → cells_met p (load q (place_past p (cells_met p reads)) (k + 1) ∷ reads)
        ≡ k ∷ cells_met p reads }
    ensures none { (q p v : ℕ) (reads : History) → (v ≡ 0) ⊎ (v ≡ END)
        → cells_met p (load q (place_past p (cells_met p reads)) v ∷ reads) ≡ cells_met p reads }

    // An access to another word meets no cell.
    ensures elsewhere { (p : ℕ) (a : PoolAccess) (reads : History)
        → a.word ≢ place_past p (cells_met p reads) → cells_met p (a ∷ reads) ≡ cells_met p reads }

    // The reader has met these cells in the history too, and was given each. In a lawful history they are cells of the
    // lane, each once.
    ensures met { (q p : ℕ) (h : History) → HasMet q p (cells_met p (part (Reader q) h)) h }
    ensures given { (q p k : ℕ) (h : History) → Has (cells_met p (part (Reader q) h)) k
        → Gave k (part (Reader q) h) }
    ensures on_lane { (size : PoolSize) (q p k : ℕ) (h : History) → IsPoolLawful size h
        → Has (cells_met p (part (Reader q) h)) k → Has (linked_cells p h) k }
    ensures once { (size : PoolSize) (q p : ℕ) (h : History) → IsPoolLawful size h
        → IsOnceEach (cells_met p (part (Reader q) h)) }

    // If the loads follow links, the reader was given no other cell of the lane.
    ensures all { (size : PoolSize) (q p : ℕ) (h : History) → IsPoolLawful size h
        → FollowsLinks (part (Reader q) h) → HasMetAll q p (cells_met p (part (Reader q) h)) h }
{
    cells_stand_once();
    readers_follow_lanes();
}
