//! The outline of a hub's report: all of the report except the items put, whose lists stay in the hub.
ghost use Rattle.std.specs.Prelude.{◌≡◌, ◌+◌, ◌<◌, ◌≤◌, ◌++◌, [], IfOk, slice_get, vec_capacity, vec_len};
ghost use Rattle.std.specs.Option.{option_map, option_map_or};
ghost use Rattle.mb_world.specs.Reporting.{any_below, is_took};
ghost use Rattle.mb_mailbox.specs.Gathering.{begun_of, notes_among, outline_row};

use crate::hub::Hub;
use crate::notes::PutCounts;
use crate::spare::trim;
use crate::taken::{ConsumerRecord, PutList};
use mb_cells::NoMemory;
use mb_world::{Diary, LaneReport, Note, Report};
use std::alloc::Allocator;

impl<A: Allocator + Drop> Hub<A> {
    ghost use Rattle.std.specs.Prelude.{◌≡◌};
    ghost use Rattle.std.specs.Option.{option_map};
    ghost use Rattle.mb_mailbox.specs.Gathering.{ended_in, items_in, kept_at};

    /// The items that the producer of lane `p` put, or none if it was not returned.
    fn items(&self, p: u32) -> &[u64]
        ensures { result.now ≡ items_in p self.now }
    {
        match self.puts.as_slice().get(p as usize) {
            Some(Some(kept)) => kept.items.as_slice(),
            _ => &[],
        }
    }

    /// Whether the producer of lane `p` was returned and has ended its lane.
    fn ended(&self, p: u32) -> bool
        ensures { result ≡ ended_in p self.now }
    {
        match self.puts.as_slice().get(p as usize) {
            Some(Some(kept)) => kept.ended,
            _ => false,
        }
    }

    /// What the hub records of consumer `c`, if it was returned.
    fn kept(&self, c: u32) -> Option<&ConsumerRecord<A>>
        ensures { option_map (λ k. k.now) result ≡ kept_at self.now.records c }
    {
        match self.records.as_slice().get(c as usize) {
            Some(Some(kept)) => Some(kept),
            Some(None) => None,
            None => None,
        }
    }
}

/// Whether one of the first `consumers` consumers has taken the item at position `j` of lane `p`.
fn is_taken<A: Allocator + Drop>(
    diaries: &[Diary<A>],
    lanes: u32,
    consumers: u32,
    p: u32,
    j: usize,
) -> bool
    requires few { (lanes ≤ 16) × (consumers ≤ 64) }
    requires lane { p < lanes }
    ensures { result ≡ any_below consumers
        (λ c. is_took (slice_get (notes_among lanes c p diaries.now) j)) }
{
    for c in 0..consumers {
        let at = c as usize * lanes as usize + p as usize;
        if let Some(Note::Took(_)) = note_at(diaries, at, j) {
            return true;
        }
    }
    false
}

/// The note at position `j` of the diary at this place.
#[inline(always)]
fn note_at<A: Allocator + Drop>(diaries: &[Diary<A>], at: usize, j: usize) -> Option<Note>
    ensures { result ≡ slice_get
        (option_map_or (λ d. d.notes) (slice_get diaries.now at) []) j }
{
    match diaries.get(at) {
        Some(diary) => diary.notes.as_slice().get(j).copied(),
        None => None,
    }
}

/// Whether the consumer of this record, if there is one, holds a claim on lane `p` that has made an access.
#[inline(always)]
fn has_begun<A: Allocator + Drop>(kept: Option<&ConsumerRecord<A>>, p: u32) -> bool
    ensures { result ≡ begun_of p (option_map (λ k. k.now) kept.entry) }
{
    match kept {
        Some(kept) => kept.begun(p),
        None => false,
    }
}

/// Adds the diaries of consumer `c` on all lanes, without the notes, but with room for them. `kept` is its record.
#[inline(always)]
fn add_outlines<A: Allocator + Clone + Drop>(
    diaries: &mut Vec<Diary<A>, A>,
    alloc: &A,
    lanes: u32,
    c: u32,
    kept: Option<&ConsumerRecord<A>>,
    counts: &PutCounts,
) -> Result<(), NoMemory>
    requires room { vec_len diaries.old + lanes ≤ vec_capacity diaries.old }
    ensures room { vec_capacity diaries.new ≡ vec_capacity diaries.old }
    ensures outlines { IfOk result (λ _. diaries.new.items
        ≡ diaries.old.items ++ outline_row c (option_map (λ k. k.now) kept.entry) lanes) }
{
    let rooms = match kept {
        Some(kept) => kept.notes.rooms(counts),
        None => [0; 16],
    };
    for p in 0..lanes {
        diaries.push_reserved(Diary {
            consumer: c,
            lane: p,
            notes: Vec::with_capacity(alloc.clone()?, rooms[p as usize % 16])?,
            begun: has_begun(kept, p),
        });
    }
    Ok(())
}

/// How many items were put on each lane. The counts are only used to choose how much room to take.
fn put_counts<A: Allocator + Drop>(puts: &[Option<PutList<A>>]) -> PutCounts {
    let mut lanes = [0usize; 16];
    let mut all = 0usize;
    for (p, kept) in puts.iter().enumerate() {
        if let Some(kept) = kept {
            let many = kept.items.len();
            // There are at most 16 lanes.
            lanes[p % 16] = many;
            all = all.wrapping_add(many);
        }
    }
    PutCounts { lanes, all }
}

impl<A: Allocator + Clone + Drop> Hub<A> {
    ghost use Rattle.std.specs.Prelude.{◌≡◌, ◌+◌, ◌<◌, ◌≤◌, ◌*◌, IfOk, vec_capacity};
    ghost use Rattle.mb_mailbox.specs.Gathering.{AreDiaries, AreLanesOutlined, IsOutlineIn, lane_outline};

    /// The outline for this many lanes and consumers. It takes all the memory that the report needs beside the hub's.
    pub(super) fn outline(
        &self,
        alloc: A,
        lanes: u32,
        consumers: u32,
    ) -> Result<Report<A>, NoMemory>
        requires few { (lanes ≤ 16) × (consumers ≤ 64) }
        requires lanes { lanes ≡ self.now.cells.table.size.lanes }
        ensures { IfOk result (λ r. IsOutlineIn lanes consumers self.now r) }
    {
        let diaries = self.diaries(alloc.clone()?, lanes, consumers)?;
        let reports = self.lane_reports(alloc, lanes, consumers, diaries.as_slice())?;
        Ok(Report {
            lanes: reports,
            diaries,
        })
    }

    /// The outlines of all lanes. The diaries are those of all consumers on all lanes.
    fn lane_reports(
        &self,
        alloc: A,
        lanes: u32,
        consumers: u32,
        diaries: &[Diary<A>],
    ) -> Result<Vec<LaneReport<A>, A>, NoMemory>
        requires few { (lanes ≤ 16) × (consumers ≤ 64) }
        requires diaries { AreDiaries lanes self.now (consumers * lanes) diaries.now }
        ensures { IfOk result (λ ls. AreLanesOutlined consumers self.now lanes ls.items) }
    {
        let mut reports = Vec::with_capacity(alloc.clone()?, lanes as usize)?;
        for p in 0..lanes {
            reports.push(self.lane_report(alloc.clone()?, lanes, consumers, p, diaries)?)?;
        }
        Ok(reports)
    }

    /// The outline of lane `p`, with this many consumers.
    fn lane_report(
        &self,
        alloc: A,
        lanes: u32,
        consumers: u32,
        p: u32,
        diaries: &[Diary<A>],
    ) -> Result<LaneReport<A>, NoMemory>
        requires few { (lanes ≤ 16) × (consumers ≤ 64) }
        requires lane { p < lanes }
        requires diaries { AreDiaries lanes self.now (consumers * lanes) diaries.now }
        ensures { IfOk result (λ l. l ≡ lane_outline consumers p self.now) }
    {
        let items = self.items(p);
        let put = Vec::new(alloc.clone()?);
        let mut left = Vec::new(alloc);
        for (j, item) in items.iter().enumerate() {
            if !is_taken(diaries, lanes, consumers, p, j) {
                left.push(*item)?;
            }
        }
        trim(&mut left);
        Ok(LaneReport {
            put,
            ended: self.ended(p),
            left,
        })
    }

    /// The diaries of all consumers on all lanes.
    fn diaries(&self, alloc: A, lanes: u32, consumers: u32) -> Result<Vec<Diary<A>, A>, NoMemory>
        requires few { (lanes ≤ 16) × (consumers ≤ 64) }
        requires lanes { lanes ≡ self.now.cells.table.size.lanes }
        ensures { IfOk result (λ ds.
            AreDiaries lanes self.now (consumers * lanes) ds.items) }
    {
        let mut diaries = Vec::with_capacity(alloc.clone()?, consumers as usize * lanes as usize)?;
        let counts = put_counts(self.puts.as_slice());
        for c in 0..consumers {
            self.add_diaries(&alloc, lanes, c, &counts, &mut diaries)?;
        }
        Ok(diaries)
    }

    /// Adds the diaries of consumer `c` on all lanes, for which there is room.
    #[inline(always)]
    fn add_diaries(
        &self,
        alloc: &A,
        lanes: u32,
        c: u32,
        counts: &PutCounts,
        diaries: &mut Vec<Diary<A>, A>,
    ) -> Result<(), NoMemory>
        requires lanes { lanes ≡ self.now.cells.table.size.lanes }
        requires before { AreDiaries lanes self.now (c * lanes) diaries.old.items }
        requires room { (c + 1) * lanes ≤ vec_capacity diaries.old }
        ensures room { vec_capacity diaries.new ≡ vec_capacity diaries.old }
        ensures diaries { IfOk result (λ _.
            AreDiaries lanes self.now ((c + 1) * lanes) diaries.new.items) }
    {
        // Naming a field makes the invariant known: each consumer has notes on each lane.
        let _ = &self.cells;
        let first = diaries.len();
        let kept = self.kept(c);
        add_outlines(diaries, alloc, lanes, c, kept, counts)?;
        match kept {
            Some(kept) => {
                kept.notes.fill(alloc.clone()?, diaries.slice_mut(first..))?;
                Ok(())
            }
            None => Ok(()),
        }
    }
}
