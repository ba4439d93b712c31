//! What is gathered is sound, and the report says it. The function computes nothing. Its contract is the law from which
//! the clauses of `gather` follow, and its body names the laws of other crates from which this one follows.
ghost use Rattle.std.specs.Prelude.{◌≡◌};
ghost use Rattle.mb_shared_cells.specs.Vocabulary.{IsRollOf};
ghost use Rattle.mb_shared_claims.specs.Vocabulary.{AreOfOneHistory, count_out, taken_part};
ghost use Rattle.mb_world.specs.Theorem.{ReportView};
ghost use Rattle.mb_mailbox.specs.Imports.{History, claims_in, consumer_count};
ghost use Rattle.mb_mailbox.specs.Gathering.{FullTakesAll, IsGathered, IsReportIn, UndecidedHasCompany, count_missing};
ghost use Rattle.mb_mailbox.specs.Hubs.{HubView, IsHub, IsHubOf};
ghost use Rattle.mb_mailbox.specs.Mailboxes.{IsMailbox, MailboxView};

use mb_cells::laws::{lanes_share_cells, parts_tell_lanes, readers_follow_lanes};
use mb_cells::steps::parts_have_accesses;
use mb_claim::laws::{
    claims_have_one_winner, last_objects_decide_claims, layouts_are_sound, prefixes_have_one_stage,
};
use mb_claim::steps::accesses_lengthen_one_part;
use mb_world::laws::{
    competitors_have_accesses, parts_tell_cells_met, reports_have_one_assignment,
};
use mb_world::steps::parts_fit_on;

/// If no producer and no consumer is missing, what is gathered is sound, and the main theorem holds of its report.
pub(super) fn gathering_is_sound()
    // If no consumer is missing, each seat of the claims that was issued was returned.
    ensures all_in { (h : HubView) → IsHub h → count_missing h.records ≡ 0
        → count_out h.claims.roll ≡ 0 }

    // `IsGathered` holds of the hub's report if nobody is missing, the parts of the claims returned to the hub are
    // those of one history, and its parts of the cells are those of the history `pool`.
    ensures main_theorem { (m : MailboxView) (h : HubView) (r : ReportView) (pool : History)
        → IsMailbox m → IsHub h → IsHubOf m h
        → count_missing h.puts ≡ 0 → count_missing h.records ≡ 0
        → AreOfOneHistory (claims_in m.claims.layout m.claims.cells) (taken_part h.claims.roll)
        → IsRollOf m.cells.size h.cells.roll pool
        → IsReportIn m.cells.size.lanes (consumer_count m.claims.layout) h r → IsGathered m h r }

    // If `IsGathered` holds of a report, so does `UndecidedHasCompany`, and `FullTakesAll` if no producer is missing.
    ensures full { (m : MailboxView) (h : HubView) (r : ReportView) → IsHub h → IsHubOf m h
        → count_missing h.puts ≡ 0 → IsGathered m h r → FullTakesAll m h r }
    ensures undecided { (m : MailboxView) (h : HubView) (r : ReportView) → IsGathered m h r
        → UndecidedHasCompany r }
{
    accesses_lengthen_one_part();
    claims_have_one_winner();
    competitors_have_accesses();
    lanes_share_cells();
    last_objects_decide_claims();
    layouts_are_sound();
    parts_fit_on();
    parts_have_accesses();
    parts_tell_cells_met();
    parts_tell_lanes();
    prefixes_have_one_stage();
    readers_follow_lanes();
    reports_have_one_assignment();
}
