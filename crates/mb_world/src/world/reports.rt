//! The report of a world, read off its pool, its places and its notes.
use super::World;
use crate::known::worlds_are_known;
use crate::laws::{last_objects_settle_items, shaped_setups_have_last_objects, worlds_are_sound};
use crate::place::Place;
use crate::report::{Diary, LaneReport, Note, Report};
use mb_cells::laws::{cells_stand_once, pools_show_lanes};
use mb_cells::{Cursor, Look, NoMemory};
use mb_claim::laws::layouts_are_sound;
use mb_deciding::laws::objects_keep_their_promises;
use std::alloc::Allocator;

/// The cells of a lane in the order of linking, and whether the lane has ended.
#[derive(Drop)]
struct LaneCells<A: Allocator + Drop> {
    cells: Vec<u32, A>,
    ended: bool,
}

impl<A: Allocator + Clone + Drop> World<A> {
    ghost use Rattle.std.specs.Prelude.{ℕ, ◌≡◌, ◌<◌, ◌*◌, true, IfOk, All};
    ghost use Rattle.mb_world.specs.Agreement.{AreAllTaken, IsLeftBesideBegun};
    ghost use Rattle.mb_world.specs.WorldState.{IsWorldAfter};
    ghost use Rattle.mb_world.specs.World.{WorldHistory, histories_of, pool_accesses};
    ghost use Rattle.mb_world.specs.Plan.{consumers_of};
    ghost use Rattle.mb_world.specs.Setups.{plan_in, shape_in};
    ghost use Rattle.mb_world.specs.Reporting.{IsReportOf};
    ghost use Rattle.mb_world.specs.Theorem.{MainTheorem};
    ghost use Rattle.mb_world.specs.StateReport.{AreDiariesTold, AreLanesTold, IsDiaryTold, IsLaneTold};
    ghost use Rattle.mb_world.specs.StateReport.{IsWalked, begun_on, is_taken_on, note_on};

    /// What was put, what was taken and what is left: the report of every history that leaves this world. The error is
    /// [`NoMemory`] if the allocator refuses room for it.
    pub fn report(&self, alloc: A) -> Result<Report<A>, NoMemory>
        ensures exact { IfOk result (λ r. (h : WorldHistory) → IsWorldAfter h self.now
            → IsReportOf (plan_in self.now.setup) (histories_of h) r) }

        // One assignment agrees with the report, nothing follows an end mark, and the report is settled.
        ensures main_theorem { IfOk result (λ r. (h : WorldHistory) → IsWorldAfter h self.now
            → MainTheorem (pool_accesses h) (λ c. c) r) }

        // If each cell has a last object, an item that was competed for is left only if a claim on it is begun. On a
        // lane without a begun claim each item that was competed for is taken.
        ensures settled { IfOk result (λ r. (shape_in self.now.setup).last ≡ true
            → IsLeftBesideBegun r × AreAllTaken r) }
    {
        self.has_history();
        layouts_are_sound();
        objects_keep_their_promises();
        worlds_are_sound();
        worlds_are_known();
        last_objects_settle_items();
        shaped_setups_have_last_objects();
        Ok(Report {
            lanes: self.lanes(alloc.clone()?)?,
            diaries: self.diaries(alloc)?,
        })
    }

    /// The reports of all lanes.
    fn lanes(&self, alloc: A) -> Result<Vec<LaneReport<A>, A>, NoMemory>
        ensures { IfOk result (λ ls.
            AreLanesTold self.now (plan_in self.now.setup).lanes ls.items) }
    {
        let count = self.setup.producers() as u32;
        let mut lanes = Vec::with_capacity(alloc.clone()?, count as usize)?;
        for p in 0..count {
            lanes.push(self.lane(alloc.clone()?, p)?)?;
        }
        Ok(lanes)
    }

    /// The diaries of all consumers on all lanes.
    fn diaries(&self, alloc: A) -> Result<Vec<Diary<A>, A>, NoMemory>
        ensures { IfOk result (λ ds. AreDiariesTold self.now
            (consumers_of (plan_in self.now.setup) * (plan_in self.now.setup).lanes) ds.items) }
    {
        let lanes = self.setup.producers() as u32;
        let consumers = self.setup.as_layout().consumers();
        let mut diaries = Vec::with_capacity(alloc.clone()?, consumers as usize * lanes as usize)?;
        for c in 0..consumers {
            for p in 0..lanes {
                diaries.push(self.diary(alloc.clone()?, c, p)?)?;
            }
        }
        Ok(diaries)
    }

    /// The report of lane `p`.
    fn lane(&self, alloc: A, p: u32) -> Result<LaneReport<A>, NoMemory>
        requires { p < (plan_in self.now.setup).lanes }
        ensures { IfOk result (λ l. IsLaneTold self.now p l) }
    {
        let lane = self.lane_cells(alloc.clone()?, p)?;
        let mut put = Vec::with_capacity(alloc.clone()?, lane.cells.len())?;
        let mut left = Vec::new(alloc);
        for k in &lane.cells {
            let item = self.pool.item(*k);
            put.push(item)?;
            if !self.is_taken(*k) {
                left.push(item)?;
            }
        }
        Ok(LaneReport {
            put,
            ended: lane.ended,
            left,
        })
    }

    /// The diary of consumer `c` on lane `p`.
    fn diary(&self, alloc: A, c: u32, p: u32) -> Result<Diary<A>, NoMemory>
        requires consumer { c < consumers_of (plan_in self.now.setup) }
        requires lane { p < (plan_in self.now.setup).lanes }
        ensures { IfOk result (λ d. IsDiaryTold self.now c p d) }
    {
        let lane = self.lane_cells(alloc.clone()?, p)?;
        let mut notes = Vec::new(alloc);
        for k in &lane.cells {
            if let Some(note) = self.note(c, *k) {
                notes.push(note)?;
            }
        }
        Ok(Diary {
            consumer: c,
            lane: p,
            notes,
            begun: self.begun(c, p),
        })
    }

    /// The cells of lane `p`, along the links from its head, and whether the lane has ended.
    fn lane_cells(&self, alloc: A, p: u32) -> Result<LaneCells<A>, NoMemory>
        requires { p < (plan_in self.now.setup).lanes }
        ensures walked { IfOk result (λ lane.
            IsWalked self.now.pool p lane.cells.items lane.ended) }
        ensures within { IfOk result (λ lane.
            All (λ k. k < (plan_in self.now.setup).claims.cells) lane.cells.items) }
    {
        pools_show_lanes();
        cells_stand_once();
        self.pool.has_history();
        let mut cells = Vec::new(alloc);
        let mut cursor = Cursor::head(p);
        'links: loop {
            match self.pool.look(cursor) {
                Look::Cell(k) => {
                    cells.push(k)?;
                    cursor = Cursor::past(k);
                }
                Look::Nothing => return Ok(LaneCells {
                    cells,
                    ended: false,
                }),
                Look::Ended => return Ok(LaneCells { cells, ended: true }),
            }
        }
    }

    /// Whether some consumer has taken the item of cell `k`.
    fn is_taken(&self, k: u32) -> bool
        requires { k < (plan_in self.now.setup).claims.cells }
        ensures { result ≡ is_taken_on self.now k }
    {
        for c in 0..self.setup.as_layout().consumers() {
            if let Some(Note::Took(_)) = self.note(c, k) {
                return true;
            }
        }
        false
    }

    /// The note of consumer `c` on cell `k`, if it has one.
    fn note(&self, c: u32, k: u32) -> Option<Note>
        requires consumer { c < consumers_of (plan_in self.now.setup) }
        requires cell { k < (plan_in self.now.setup).claims.cells }
        ensures { result ≡ note_on self.now c k }
    {
        self.notes[c as usize * self.setup.cells() as usize + k as usize]
    }

    /// Whether consumer `c` holds a claim on lane `p` that has made an access.
    fn begun(&self, c: u32, p: u32) -> bool
        requires consumer { c < consumers_of (plan_in self.now.setup) }
        requires lane { p < (plan_in self.now.setup).lanes }
        ensures { result ≡ begun_on self.now c p }
    {
        match self.places[c as usize * self.setup.producers() as usize + p as usize] {
            Place::At { cell: _, claim } => claim.begun(),
            Place::Before(_) => false,
        }
    }
}
