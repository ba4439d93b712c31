//! Calls that run out of memory: the allocations of a call are refused one after the other, and in the end none is.

use crate::answers::{make, take_seven};
use crate::claims::{WON_AND_LOST, is_played, one_pair, won_and_lost};
use crate::compare::{same, same_at};
use crate::entries::{last_turn, late_input, shows};
use crate::scripts::is_read;
use crate::{cells, shared_cells, shared_claims};
use mb_claim::Stage;
use mb_deciding::{Out, conciliate, ratify};
use mb_quorum::TableName;
use mb_script::{Fault, report_text};
use mb_world::{Report, Setup, World};
use std::alloc::Global;
use std::process::Abort;
use std::test::Fail;
use test_alloc::{FaultyHeap, Refuse, growths_refused};

/// The allocator of all lists of a call.
type Alloc<'r> = &'r FaultyHeap<Global>;

/// Whether the allocator serves a run of a ratifier.
fn ratify_is_served(rt: &impl Abort, alloc: Alloc<'_>) -> bool {
    let returned = ratify(alloc, TableName::Unary, 2, &[0, 1], &[0, 0, 0, 0, 1, 1, 1]);
    let outputs = [Some(Out::decided(0)), Some(Out::undecided(0))];
    shows(rt, returned, &late_input(), &outputs)
}

/// Whether the allocator serves a run of a conciliator.
fn conciliate_is_served(rt: &impl Abort, alloc: Alloc<'_>) -> bool {
    let returned = conciliate(alloc, 2, &[0], &[(0, 3); 5]);
    shows(rt, returned, &last_turn(), &[Some(Out::undecided(0))])
}

/// Whether the allocator serves a run of claims.
fn play_is_served(rt: &impl Abort, alloc: Alloc<'_>) -> bool {
    let entries = won_and_lost();
    let stages = [Stage::Won, Stage::Lost(0)];
    is_played(
        rt,
        alloc,
        &one_pair(rt, 2),
        &WON_AND_LOST,
        (0, &entries),
        &stages,
    )
}

/// Checks that by the report the only item was taken by the only consumer.
fn tells_seven<'a>(rt: &impl Abort, report: &Report<Alloc<'a>>, ample: Alloc<'a>) {
    let text = report_text(ample, report).expect(rt, "no text");
    same(
        rt,
        &text.as_str(),
        &"lane 0 open put 7\nleft 0\ndiary 0 0 took 7\n",
    );
}

/// Whether the allocator serves the report of a world in which item 7 was taken. If not, another allocator serves it.
fn report_is_served<'a>(
    rt: &impl Abort,
    world: &World<Alloc<'a>>,
    alloc: Alloc<'a>,
    ample: Alloc<'a>,
) -> bool {
    match world.report(alloc) {
        Ok(report) => {
            tells_seven(rt, &report, ample);
            true
        }
        Err(_) => {
            let report = world.report(ample).expect(rt, "no report");
            tells_seven(rt, &report, ample);
            false
        }
    }
}

/// Whether the allocator serves the world and its report.
fn world_is_served<'a>(rt: &impl Abort, alloc: Alloc<'a>, ample: Alloc<'a>) -> bool {
    let setup = Setup::new(1, 1, 1, 1, TableName::Bits).expect(rt, "no setup");
    match World::new(alloc, setup) {
        Ok(mut world) => {
            make(rt, &mut world, &take_seven());
            report_is_served(rt, &world, alloc, ample)
        }
        Err(_) => false,
    }
}

/// A call whose allocations are refused.
#[derive(Clone, Copy)]
enum Tried {
    Ratify,
    Conciliate,
    Play,
    /// A world and its report.
    World,
    /// A pool of cells.
    Pool,
    /// Cells that threads share.
    SharedCells,
    /// Claims on words that threads share.
    SharedClaims,
    /// A script with this many events, or with this fault.
    Script(&'static str, Result<usize, Fault>),
}

/// Whether the allocator serves the call. With memory the call returns what it should.
fn is_served<'a>(rt: &impl Abort, alloc: Alloc<'a>, ample: Alloc<'a>, call: Tried) -> bool {
    match call {
        Tried::Ratify => ratify_is_served(rt, alloc),
        Tried::Conciliate => conciliate_is_served(rt, alloc),
        Tried::Play => play_is_served(rt, alloc),
        Tried::World => world_is_served(rt, alloc, ample),
        Tried::Pool => cells::is_served(rt, alloc),
        Tried::SharedCells => shared_cells::is_served(rt, alloc),
        Tried::SharedClaims => shared_claims::one_wins(rt, alloc),
        Tried::Script(text, want) => is_read(rt, alloc, text, want),
    }
}

/// No call here makes this many allocations.
const MANY: u64 = 100;

/// The calls, each with the fewest and the most allocations that it may make. The comment above it names the fewest.
static CALLS: [(Tried, u64, u64); 10] = [
    // A list for the processes, one for the entries, and one for the outputs.
    (Tried::Ratify, 3, MANY),
    (Tried::Conciliate, 3, MANY),
    // A list for the words, one for the claims, one for the entries, and one for the stages.
    (Tried::Play, 4, MANY),
    // The world allocates the four lists of the pool, the words of the claims, the seats and the notes. The report
    // allocates the lane and its item, the diary and its note, and the cells of the lane that is read.
    (Tried::World, 12, MANY),
    // A list for the heads, one for the links, one for the items, and one for the lanes.
    (Tried::Pool, 4, MANY),
    // A list of the words as they are at first, and the words of the table.
    (Tried::SharedCells, 2, MANY),
    // A list of zeros, and the words of the table.
    (Tried::SharedClaims, 2, MANY),
    // The list of events is made longer twice.
    (
        Tried::Script(
            "setup 1 1 0 1 bits\npush 0\npush 0\npush 0\npush 0\npush 0\n",
            Ok(5),
        ),
        2,
        MANY,
    ),
    // Lines without events take no memory.
    (Tried::Script("setup 1 1 0 1 bits", Ok(0)), 0, 0),
    (
        Tried::Script(
            "setup 1 1 0 1 bits\npush 0 0 0 0 0 0 0 0 0 0 0 0 0 0\n",
            Err(Fault::BadLine(2)),
        ),
        0,
        0,
    ),
];

// An allocator refuses one request of a call, or all from one on, and the call says that memory ran out. With memory
// the call returns what it should.
#[test]
fn each_growth_of_each_call_refused(rt: HostRuntime) -> Result<(), Fail> {
    let ample = FaultyHeap::new(rt.alloc(), Refuse::Never);
    for (call, least, most) in &CALLS {
        let refused = growths_refused(&rt, |alloc| Ok(is_served(&rt, alloc, &ample, *call)))?;
        let is_within = *least <= refused && refused <= *most;
        same_at(&rt, &is_within, &true, &(refused, *least, *most));
    }
    same(&rt, &ample.out(), &0);
    Ok(())
}
