//! The lines of a report.
ghost use Rattle.std.specs.Prelude.{◌≡◌, ◌++◌, IfOk, OnOk, string_bytes};
ghost use Rattle.std.specs.List.{flat_map};
ghost use Rattle.mb_script.specs.ReportText.{diary_text, items_text, lanes_text, left_text};
ghost use Rattle.mb_script.specs.ReportText.{note_text, put_text, report_text};

use mb_cells::NoMemory;
use mb_world::{Diary, LaneReport, Note, Report};
use std::alloc::Allocator;

/// Appends items, each after a space.
fn push_items<A: Allocator>(text: &mut String<A>, items: &[u64]) -> Result<(), NoMemory>
    ensures { OnOk result (string_bytes text.new ≡ string_bytes text.old ++ items_text items.now) }
{
    for item in items {
        write!(text, " {item}")?;
    }
    Ok(())
}

/// Appends the first line of lane `p`: whether the lane has ended, and the items put.
fn push_put<A: Allocator, B: Allocator + Drop>(
    text: &mut String<A>,
    p: usize,
    lane: &LaneReport<B>,
) -> Result<(), NoMemory>
    ensures { OnOk result (string_bytes text.new ≡ string_bytes text.old ++ put_text p lane.now) }
{
    write!(text, "lane {p}")?;
    text.push_str(if lane.ended {
        " ended put"
    } else {
        " open put"
    })?;
    push_items(text, &lane.put)?;
    text.push_str("\n")
}

/// Appends the second line of lane `p`: the items left.
fn push_left<A: Allocator, B: Allocator + Drop>(
    text: &mut String<A>,
    p: usize,
    lane: &LaneReport<B>,
) -> Result<(), NoMemory>
    ensures { OnOk result (string_bytes text.new ≡ string_bytes text.old ++ left_text p lane.now) }
{
    write!(text, "left {p}")?;
    push_items(text, &lane.left)?;
    text.push_str("\n")
}

/// Appends a note, after a space.
fn push_note<A: Allocator>(text: &mut String<A>, note: Note) -> Result<(), NoMemory>
    ensures { OnOk result (string_bytes text.new ≡ string_bytes text.old ++ note_text note) }
{
    match note {
        Note::Took(item) => write!(text, " took {item}"),
        Note::Lost(winner) => write!(text, " lost {winner}"),
        Note::Undecided => text.push_str(" undecided"),
    }
}

/// Appends notes, each after a space.
fn push_notes<A: Allocator>(text: &mut String<A>, notes: &[Note]) -> Result<(), NoMemory>
    ensures { OnOk result
        (string_bytes text.new ≡ string_bytes text.old ++ flat_map note_text notes.now) }
{
    for note in notes {
        push_note(text, *note)?;
    }
    Ok(())
}

/// Appends the line of a diary: its consumer, its lane, its notes, and whether a claim after them is begun.
fn push_diary<A: Allocator, B: Allocator + Drop>(
    text: &mut String<A>,
    diary: &Diary<B>,
) -> Result<(), NoMemory>
    ensures { OnOk result (string_bytes text.new ≡ string_bytes text.old ++ diary_text diary.now) }
{
    write!(text, "diary {} {}", diary.consumer, diary.lane)?;
    push_notes(text, &diary.notes)?;
    text.push_str(if diary.begun { " begun\n" } else { "\n" })
}

/// Appends two lines for each lane, from lane 0 on.
fn push_lanes<A: Allocator, B: Allocator + Drop>(
    text: &mut String<A>,
    lanes: &[LaneReport<B>],
) -> Result<(), NoMemory>
    ensures { OnOk result
        (string_bytes text.new ≡ string_bytes text.old ++ lanes_text 0 lanes.now) }
{
    for (p, lane) in lanes.iter().enumerate() {
        push_put(text, p, lane)?;
        push_left(text, p, lane)?;
    }
    Ok(())
}

/// Appends a line for each diary.
fn push_diaries<A: Allocator, B: Allocator + Drop>(
    text: &mut String<A>,
    diaries: &[Diary<B>],
) -> Result<(), NoMemory>
    ensures { OnOk result
        (string_bytes text.new ≡ string_bytes text.old ++ flat_map diary_text diaries.now) }
{
    for diary in diaries {
        push_diary(text, diary)?;
    }
    Ok(())
}

/// Appends the report: for each lane a line with the items put and a line with those left, then a line for each diary.
pub(crate) fn push_report<A: Allocator, B: Allocator + Drop>(
    text: &mut String<A>,
    report: &Report<B>,
) -> Result<(), NoMemory>
    ensures { OnOk result
        (string_bytes text.new ≡ string_bytes text.old ++ report_text report.now) }
{
    push_lanes(text, &report.lanes)?;
    push_diaries(text, &report.diaries)
}

/// The text of a report: for each lane a line with the items put and a line with those left, and then for each diary a
/// line with its notes. The error is [`NoMemory`] if the allocator refuses room for it.
pub fn report_text<A: Allocator + Drop, B: Allocator + Drop>(
    alloc: A,
    report: &Report<B>,
) -> Result<String<A>, NoMemory>
    ensures { IfOk result (λ text. string_bytes text ≡ report_text report.now) }
{
    let mut text = String::new(alloc);
    push_report(&mut text, report)?;
    Ok(text)
}
