//! A claim before its first access to an object, and how many accesses a claim makes. The functions compute nothing.
ghost use Rattle.std.specs.Prelude.{ℕ, ◌≡◌, ◌+◌, ◌<◌, ◌≤◌, [], List, Some, length};
ghost use Rattle.mb_mailbox.specs.Imports.{AreSeatSteps, Claim, IsClaimIn, IsLawfulPart, IsStanding, Layout, ObjectTurn, SeatView, Stream};
ghost use Rattle.mb_mailbox.specs.Imports.{claims_at, consumer_count, kinds_of, most_accesses, part_on};

use mb_claim::laws::claims_are_bounded;
use mb_claim::steps::{accesses_lengthen_one_part, claims_make_steps, places_show_prefixes};

/// A claim before its first access to an object.
pub(super) fn claims_begin_objects()
    // Each consumer has a claim without a turn before the first object, with the consumer's number as input.
    ensures new { (layout : Layout) (c : ℕ) → c < consumer_count layout
        → (claim : Claim) × IsStanding layout c 0 c claim × IsClaimIn layout claim [] }

    // The object before which a claim stands is one of the layout's, and its input is one of the layout's consumers.
    ensures within { (layout : Layout) (c o v : ℕ) (claim : Claim) (xs : List ObjectTurn)
        → IsStanding layout c o v claim → IsClaimIn layout claim xs
        → (o < length (kinds_of layout)) × (v < consumer_count layout) }
{
    places_show_prefixes();
    claims_make_steps();
}

/// How many accesses a claim makes.
pub(super) fn accesses_are_counted()
    // n accesses of a claim make the consumer's part on that cell longer by n.
    ensures counted { (layout : Layout) (k n : ℕ) (claim now : Claim) (seat after : SeatView)
        (s t : Stream) → AreSeatSteps layout k claim seat s n now after t
        → length (part_on after.consumer k after.part)
        ≡ n + length (part_on seat.consumer k seat.part) }

    // n accesses of a claim, and those that its seat made on the cell before, are no more than a claim may make.
    ensures few { (layout : Layout) (cells k n : ℕ) (claim now : Claim) (seat after : SeatView)
        (s t : Stream) → seat.table.size ≡ Some (record { layout = layout; cells = cells })
        → AreSeatSteps layout k claim seat s n now after t
        → IsLawfulPart (claims_at after.table) after.consumer after.part
        → n + length (part_on seat.consumer k seat.part) ≤ most_accesses layout }
{
    accesses_lengthen_one_part();
    claims_are_bounded();
}
