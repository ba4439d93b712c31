//! The transcript: a line for each event with its answer.
ghost use Rattle.std.specs.Prelude.{◌≡◌, ◌++◌, OnOk, string_bytes};
ghost use Rattle.mb_script.specs.Transcript.{answer_text, entry_text, event_text, finish_text, look_text};
ghost use Rattle.mb_script.specs.Transcript.{offer_text, push_text, stage_text};

use crate::act_text::push_act;
use mb_cells::{Finish, Look, Offer, Push};
use mb_claim::Stage;
use mb_world::{Answer, Event};
use std::alloc::{AllocError, Allocator};

/// Appends the words of an event, except the random word of a step.
fn push_event<A: Allocator>(text: &mut String<A>, event: Event) -> Result<(), AllocError>
    ensures { OnOk result (string_bytes text.new ≡ string_bytes text.old ++ event_text event) }
{
    match event {
        Event::Offer { lane, item } => write!(text, "offer {lane} {item}"),
        Event::Push { lane } => write!(text, "push {lane}"),
        Event::Finish { lane } => write!(text, "finish {lane}"),
        Event::Step {
            consumer,
            lane,
            word: _,
        } => write!(text, "step {consumer} {lane}"),
    }
}

/// Appends the answer to an offer: the cell of the item, or why it has none.
fn push_offer<A: Allocator>(text: &mut String<A>, answer: Offer) -> Result<(), AllocError>
    ensures { OnOk result (string_bytes text.new ≡ string_bytes text.old ++ offer_text answer) }
{
    match answer {
        Offer::Cell(cell) => write!(text, "cell {cell}"),
        Offer::Full => text.push_str("full"),
        Offer::Busy => text.push_str("busy"),
        Offer::Closed => text.push_str("closed"),
    }
}

/// Appends the answer to a push: the cell whose item was stored, the cell that was linked, or that neither was.
fn push_push<A: Allocator>(text: &mut String<A>, answer: Push) -> Result<(), AllocError>
    ensures { OnOk result (string_bytes text.new ≡ string_bytes text.old ++ push_text answer) }
{
    match answer {
        Push::Item(cell) => write!(text, "item {cell}"),
        Push::Link(cell) => write!(text, "link {cell}"),
        Push::Idle => text.push_str("idle"),
    }
}

/// Appends the answer to a finish: the end mark was stored, an item is not linked yet, or the lane had ended before.
fn push_finish<A: Allocator>(text: &mut String<A>, answer: Finish) -> Result<(), AllocError>
    ensures { OnOk result (string_bytes text.new ≡ string_bytes text.old ++ finish_text answer) }
{
    text.push_str(match answer {
        Finish::Ended => "ended",
        Finish::Busy => "busy",
        Finish::Closed => "closed",
    })
}

/// Appends the answer to a look: which cell comes next, or nothing yet, or the end mark.
fn push_look<A: Allocator>(text: &mut String<A>, answer: Look) -> Result<(), AllocError>
    ensures { OnOk result (string_bytes text.new ≡ string_bytes text.old ++ look_text answer) }
{
    match answer {
        Look::Nothing => text.push_str("nothing"),
        Look::Cell(cell) => write!(text, "found {cell}"),
        Look::Ended => text.push_str("ended"),
    }
}

/// Appends how a claim has ended, after a space, or nothing if the claim goes on.
fn push_stage<A: Allocator>(text: &mut String<A>, stage: Stage) -> Result<(), AllocError>
    ensures { OnOk result (string_bytes text.new ≡ string_bytes text.old ++ stage_text stage) }
{
    match stage {
        Stage::Going => Ok(()),
        Stage::Won => text.push_str(" won"),
        Stage::Lost(winner) => write!(text, " lost {winner}"),
        Stage::Undecided => text.push_str(" undecided"),
    }
}

/// Appends the answer to an event.
fn push_answer<A: Allocator>(text: &mut String<A>, answer: Answer) -> Result<(), AllocError>
    ensures { OnOk result (string_bytes text.new ≡ string_bytes text.old ++ answer_text answer) }
{
    match answer {
        Answer::NoLane => text.push_str("no lane"),
        Answer::NoConsumer => text.push_str("no consumer"),
        Answer::Offered(answer) => push_offer(text, answer),
        Answer::Pushed(answer) => push_push(text, answer),
        Answer::Finished(answer) => push_finish(text, answer),
        Answer::Looked(answer) => push_look(text, answer),
        Answer::Claimed {
            cell,
            object,
            act,
            stage,
        } => {
            write!(text, "cell {cell} o{object} ")?;
            push_act(text, act)?;
            push_stage(text, stage)
        }
        Answer::Took { cell: _, item } => write!(text, "took {item}"),
    }
}

/// Appends the line of an event with its answer: the event's words, except the random word of a step, and then the
/// answer.
pub(crate) fn push_entry<A: Allocator>(
    text: &mut String<A>,
    event: Event,
    answer: Answer,
) -> Result<(), AllocError>
    ensures { OnOk result
        (string_bytes text.new ≡ string_bytes text.old ++ entry_text event answer) }
{
    push_event(text, event)?;
    text.push_str(" ")?;
    push_answer(text, answer)?;
    text.push_str("\n")
}
