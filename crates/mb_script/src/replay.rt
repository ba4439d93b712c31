//! The replay of a script's events in a new world.
ghost use Rattle.std.specs.Prelude.{◌≡◌, IfOk, OnOk, string_bytes};
ghost use Rattle.mb_world.specs.Setups.{plan_in};
ghost use Rattle.mb_world.specs.World.{WorldHistory};
ghost use Rattle.mb_world.specs.WorldState.{IsWorldAfter};
ghost use Rattle.mb_script.specs.ReplayText.{IsReplayText};
ghost use Rattle.mb_script.specs.Transcribed.{IsTranscribed};

use crate::report_lines::push_report;
use crate::transcript::push_entry;
use mb_cells::NoMemory;
use mb_world::{Event, Setup, World};
use std::alloc::Allocator;

/// Applies the events in their order, and appends the line of each with its answer.
fn push_transcript<A: Allocator + Clone + Drop, B: Allocator>(
    text: &mut String<B>,
    world: &mut World<A>,
    events: &[Event],
) -> Result<(), NoMemory>
    ensures setup { world.new.setup ≡ world.old.setup }
    ensures added { OnOk result ((was : WorldHistory) → IsWorldAfter was world.old
        → IsTranscribed events.now was world.new (string_bytes text.old) (string_bytes text.new)) }
{
    for event in events {
        let answer = world.apply(*event);
        push_entry(text, *event, answer)?;
    }
    Ok(())
}

/// The transcript of the events in a new world, and then the report of that world.
pub(crate) fn replay_text<A: Allocator + Copy>(
    alloc: A,
    setup: Setup,
    events: &[Event],
) -> Result<String<A>, NoMemory>
    ensures { IfOk result (λ text. IsReplayText (plan_in setup) events.now (string_bytes text)) }
{
    let mut world = World::new(alloc, setup)?;
    let mut text = String::new(alloc);
    push_transcript(&mut text, &mut world, events)?;
    let report = world.report(alloc)?;
    push_report(&mut text, &report)?;
    Ok(text)
}
