//! The calls that read a report. They return `BAD_HANDLE` exactly if the handle leads to no report, and `NOT_THERE` if
//! the report has no such lane or diary. After both nothing is written.
ghost use Rattle.std.specs.Prelude.{ℕ, ◌≡◌, ◌≢◌, ◌↔◌, ◌⊎◌, ◌++◌, ◌≤◌, MatchOption, None, Some};
ghost use Rattle.std.specs.Prelude.{drop, length, map, min, slice_get, take};
ghost use Rattle.mb_world.specs.Theorem.{DiaryView, LaneView, diary};
ghost use Rattle.hazbultra.specs.Calls.{IsReport, ReportHas};
ghost use Rattle.hazbultra.specs.Reports.{HasConsumers, items_asked, note_out};
ghost use Rattle.hazbultra.specs.declared.codes.TheConstants.{BAD_HANDLE, DONE, NOT_THERE};

use crate::boundary::{DiaryOut, LaneOut, NoteOut};
use crate::codes::{BAD_HANDLE, DONE, NOT_THERE};
use crate::copies::{copy_items, copy_notes, past, place_of};
use crate::handle::Handle;
use crate::thing::Thing;
use mb_world::{Diary, Report};
use std::alloc::Global;

/// The diary of this consumer on this lane, if there is one.
fn diary_at(report: &Report<Global>, consumer: u64, lane: u64) -> Option<&Diary<Global>>
    ensures { MatchOption result (diary consumer lane report.now ≡ None)
        (λ d. diary consumer lane report.now ≡ Some d.now) }
{
    let at = place_of(report.lanes.len(), consumer, lane)?;
    report.diaries.as_slice().get(at as usize)
}

/// Writes how many lanes a report has, and how many consumers.
#[unsafe(no_mangle)]
pub extern "C" fn hz_report_size(report: &mut Handle, lanes: &mut u64, consumers: &mut u64) -> u32
    ensures lanes { result ≡ DONE → ReportHas (λ r. lanes.new ≡ length r.lanes)
        report.old.block.thing }
    ensures consumers { result ≡ DONE → ReportHas (λ r. (n : ℕ) → HasConsumers n r
        → consumers.new ≡ n) report.old.block.thing }
    ensures kept { report.new.block.thing ≡ report.old.block.thing }
    ensures bad { (result ≡ BAD_HANDLE) ↔ (IsReport report.old.block.thing → ⊥) }
    ensures same { result ≢ DONE → (lanes.new ≡ lanes.old) × (consumers.new ≡ consumers.old) }
    ensures codes { (result ≡ DONE) ⊎ (result ≡ BAD_HANDLE) }
{
    let Some(opened) = report.lend() else {
        return BAD_HANDLE;
    };
    match opened {
        Thing::OfReport(told) => {
            let count = told.lanes.len();
            *lanes = count as u64;
            *consumers = told.diaries.len().checked_div(count).unwrap_or(0) as u64;
            DONE
        }
        _ => BAD_HANDLE,
    }
}

/// Writes how many items were put into a lane, how many of them are left, and whether the lane has ended.
#[unsafe(no_mangle)]
pub extern "C" fn hz_report_lane(report: &mut Handle, lane: u64, out: &mut LaneOut) -> u32
    ensures told { result ≡ DONE → ReportHas (λ r. (l : LaneView)
        × (slice_get r.lanes lane ≡ Some l) × (out.new.put ≡ length l.put)
        × (out.new.left ≡ length l.left) × (out.new.ended ≡ l.ended)) report.old.block.thing }
    ensures not_there { result ≡ NOT_THERE → ReportHas (λ r. length r.lanes ≤ lane)
        report.old.block.thing }
    ensures kept { report.new.block.thing ≡ report.old.block.thing }
    ensures bad { (result ≡ BAD_HANDLE) ↔ (IsReport report.old.block.thing → ⊥) }
    ensures same { result ≢ DONE → out.new ≡ out.old }
    ensures codes { (result ≡ DONE) ⊎ (result ≡ NOT_THERE) ⊎ (result ≡ BAD_HANDLE) }
{
    let Some(opened) = report.lend() else {
        return BAD_HANDLE;
    };
    match opened {
        Thing::OfReport(told) => match told.lanes.as_slice().get(lane as usize) {
            Some(lane) => {
                *out = LaneOut {
                    put: lane.put.len() as u64,
                    left: lane.left.len() as u64,
                    ended: lane.ended,
                };
                DONE
            }
            None => NOT_THERE,
        },
        _ => BAD_HANDLE,
    }
}

/// Writes how many notes a diary has, and whether a claim after them is begun.
#[unsafe(no_mangle)]
pub extern "C" fn hz_report_diary(
    report: &mut Handle,
    consumer: u64,
    lane: u64,
    out: &mut DiaryOut,
) -> u32
    ensures told { result ≡ DONE → ReportHas (λ r. (d : DiaryView)
        × (diary consumer lane r ≡ Some d)
        × (out.new.notes ≡ length d.notes) × (out.new.begun ≡ d.begun)) report.old.block.thing }
    ensures not_there { result ≡ NOT_THERE → ReportHas (λ r. diary consumer lane r ≡ None)
        report.old.block.thing }
    ensures kept { report.new.block.thing ≡ report.old.block.thing }
    ensures bad { (result ≡ BAD_HANDLE) ↔ (IsReport report.old.block.thing → ⊥) }
    ensures same { result ≢ DONE → out.new ≡ out.old }
    ensures codes { (result ≡ DONE) ⊎ (result ≡ NOT_THERE) ⊎ (result ≡ BAD_HANDLE) }
{
    let Some(opened) = report.lend() else {
        return BAD_HANDLE;
    };
    match opened {
        Thing::OfReport(told) => match diary_at(told, consumer, lane) {
            Some(diary) => {
                *out = DiaryOut {
                    notes: diary.notes.len() as u64,
                    begun: diary.begun,
                };
                DONE
            }
            None => NOT_THERE,
        },
        _ => BAD_HANDLE,
    }
}

/// Copies items of a lane from position `from` on, as far as there is room, and writes how many. They are those left if
/// `left` is true, and else those put.
#[unsafe(no_mangle)]
pub extern "C" fn hz_report_items(
    report: &mut Handle,
    lane: u64,
    left: bool,
    from: u64,
    items: &mut [u64],
    copied: &mut u64,
) -> u32
    ensures copied { result ≡ DONE → ReportHas (λ r. (l : LaneView)
        × (slice_get r.lanes lane ≡ Some l)
        × (copied.new ≡ min (length (drop from (items_asked left l))) (length items.old))
        × (items.new ≡ take copied.new (drop from (items_asked left l))
        ++ drop copied.new items.old)) report.old.block.thing }
    ensures not_there { result ≡ NOT_THERE → ReportHas (λ r. length r.lanes ≤ lane)
        report.old.block.thing }
    ensures kept { report.new.block.thing ≡ report.old.block.thing }
    ensures bad { (result ≡ BAD_HANDLE) ↔ (IsReport report.old.block.thing → ⊥) }
    ensures same { result ≢ DONE → (items.new ≡ items.old) × (copied.new ≡ copied.old) }
    ensures codes { (result ≡ DONE) ⊎ (result ≡ NOT_THERE) ⊎ (result ≡ BAD_HANDLE) }
{
    let Some(opened) = report.lend() else {
        return BAD_HANDLE;
    };
    match opened {
        Thing::OfReport(told) => match told.lanes.as_slice().get(lane as usize) {
            Some(lane) => {
                let kept = if left { &lane.left } else { &lane.put };
                *copied = copy_items(past(kept.as_slice(), from), items);
                DONE
            }
            None => NOT_THERE,
        },
        _ => BAD_HANDLE,
    }
}

/// Copies notes of a diary from position `from` on, as far as there is room, and writes how many.
#[unsafe(no_mangle)]
pub extern "C" fn hz_report_notes(
    report: &mut Handle,
    consumer: u64,
    lane: u64,
    from: u64,
    notes: &mut [NoteOut],
    copied: &mut u64,
) -> u32
    ensures copied { result ≡ DONE → ReportHas (λ r. (d : DiaryView)
        × (diary consumer lane r ≡ Some d)
        × (copied.new ≡ min (length (drop from d.notes)) (length notes.old))
        × (notes.new ≡ take copied.new (map note_out (drop from d.notes))
        ++ drop copied.new notes.old)) report.old.block.thing }
    ensures not_there { result ≡ NOT_THERE → ReportHas (λ r. diary consumer lane r ≡ None)
        report.old.block.thing }
    ensures kept { report.new.block.thing ≡ report.old.block.thing }
    ensures bad { (result ≡ BAD_HANDLE) ↔ (IsReport report.old.block.thing → ⊥) }
    ensures same { result ≢ DONE → (notes.new ≡ notes.old) × (copied.new ≡ copied.old) }
    ensures codes { (result ≡ DONE) ⊎ (result ≡ NOT_THERE) ⊎ (result ≡ BAD_HANDLE) }
{
    let Some(opened) = report.lend() else {
        return BAD_HANDLE;
    };
    match opened {
        Thing::OfReport(told) => match diary_at(told, consumer, lane) {
            Some(diary) => {
                *copied = copy_notes(past(diary.notes.as_slice(), from), notes);
                DONE
            }
            None => NOT_THERE,
        },
        _ => BAD_HANDLE,
    }
}
