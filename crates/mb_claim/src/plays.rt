//! The call that runs the claims of all consumers on one cell.
ghost use Rattle.std.specs.Prelude.{◌≡◌, ◌≢◌, ◌<◌, ◌≤◌, ℕ, All, IfOk, IfErr, Err, MatchOption, length};
ghost use Rattle.std.specs.Prelude.{slice_index_or, true};
ghost use Rattle.mb_claim.specs.{NoConsumer, NoMemory, IsPlayed, HasOneWinner, history_of, part_on, stranger_in};
ghost use Rattle.mb_claim.specs.{claims_in, consumer_count, most_accesses, shape_of, Stage, Undecided};

use crate::board::Board;
use crate::laws::{claims_are_bounded, claims_have_one_winner, last_objects_decide_claims};
use crate::layout::Layout;
use crate::run::{ClaimRun, PlayFault};
use std::alloc::{AllocError, Allocator};

/// Runs the claims of all consumers on one cell. Each pair of `steps` is the consumer of a step, and its random word. A
/// step of a consumer whose claim has ended makes no access. A consumer makes at most [`Layout::max_steps`] accesses.
///
/// The error is `NoConsumer` if a step is of no consumer of the layout (the first such), and else `NoMemory` if memory
/// ran out.
pub fn play<A: Allocator + Copy + Drop>(
    alloc: A,
    layout: &Layout,
    steps: &[(u64, u64)],
) -> Result<ClaimRun<A>, PlayFault>
    ensures played { IfOk result (λ run. IsPlayed
        (claims_in layout.now 1) steps.now run.entries.items run.stages.items) }

    // These laws hold of the claims, whatever the steps and the random words.
    ensures winner { IfOk result (λ run. HasOneWinner (claims_in layout.now 1) 0
        (history_of steps.now run.entries.items)) }
    ensures bound { IfOk result (λ run. (c : ℕ)
        → length (part_on c 0
        (history_of steps.now run.entries.items)) ≤ most_accesses layout.now) }
    ensures decided { IfOk result (λ run. (shape_of layout.now).last ≡ true → (c : ℕ) (s : Stage)
        → c < length run.stages.items → slice_index_or run.stages.items c s ≢ Undecided) }
    ensures refused { MatchOption (stranger_in (consumer_count layout.now) steps.now)
        (IfErr result (λ fault. fault ≡ NoMemory)) (λ place. result ≡ Err (NoConsumer place)) }
{
    claims_have_one_winner();
    claims_are_bounded();
    last_objects_decide_claims();
    if let Some(place) = stranger(steps, layout.consumers()) {
        return Err(PlayFault::NoConsumer(place));
    }
    Ok(played(alloc, layout, steps)?)
}

/// The run of steps that are all of consumers of the layout.
fn played<A: Allocator + Copy + Drop>(
    alloc: A,
    layout: &Layout,
    steps: &[(u64, u64)],
) -> Result<ClaimRun<A>, AllocError>
    requires { All (λ step. step.0 < consumer_count layout.now) steps.now }
    ensures { IfOk result
        (λ run. IsPlayed (claims_in layout.now 1) steps.now run.entries.items run.stages.items) }
{
    let mut board = Board::begin(alloc, layout, steps.len())?;
    for &(consumer, word) in steps {
        board.step(layout, consumer as u32, word)?;
    }
    board.finish(alloc)
}

/// The position of the first step whose consumer is not below `consumers`, if there is one.
fn stranger(steps: &[(u64, u64)], consumers: u32) -> Option<usize>
    ensures { result ≡ stranger_in consumers steps.now }
{
    steps.iter().position(|step| step.0 >= u64::from(consumers))
}
