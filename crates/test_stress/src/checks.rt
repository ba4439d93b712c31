//! Tests that the checks of a run find each fault, in made-up reports and in mailboxes that are not left as they should
//! be.

use crate::fault::Fault;
use crate::plan::{Plan, Stops};
use crate::refused::check_refused;
use crate::run::check;
use crate::settled::check_settled;
use mb_claim::Shape;
use mb_mailbox::{Mailbox, Worked};
use mb_quorum::TableName;
use mb_world::Note::{Lost, Took, Undecided};
use mb_world::Setup;
use std::process::Abort;
use std::test::Fail;
use test_audit::Flaw;
use test_support::{DiaryTold, LaneTold, made_up};

/// A plan in which each producer puts two items. The gate stops the workers that `stops` names.
fn plan_of(producers: u64, consumers: u64, cells: u64, stops: Stops) -> Plan {
    Plan {
        producers,
        consumers,
        cells,
        pairs: 1,
        table: TableName::Bits,
        items: 2,
        budget: 1,
        zeros: true,
        stops,
        gate_seed: 0,
        shape: Shape::PLAIN,
        whole: false,
    }
}

/// Checks a report of these lanes and diaries, and expects this fault, or none. `worked` has how many items found no
/// cell and how many workers were stopped.
fn comes_to<R: Abort + AllocGlobal>(
    rt: &R,
    plan: &Plan,
    lanes: &[LaneTold<'_>],
    diaries: &[DiaryTold<'_>],
    worked: (u64, u64),
    fault: Option<Fault>,
) -> Result<(), Fail> {
    let report = made_up(rt.alloc(), lanes, diaries)?;
    let (full, stopped) = worked;
    let found = check(plan, &report, &Worked { full, stopped }).err();
    assert_eq!(rt; found, fault);
    Ok(())
}

// A case has the plan, the lane, the diary, how many items found no cell, how many workers were stopped, and the fault.
#[test]
fn each_fault_of_a_report_is_found(rt: HostRuntime) -> Result<(), Fail> {
    let open = plan_of(1, 1, 4, Stops::Nobody);
    let few = plan_of(1, 1, 1, Stops::Nobody);
    let any = plan_of(1, 1, 4, Stops::Anybody(2));
    let whole: LaneTold<'_> = (&[0, 1], true, &[]);
    let short: LaneTold<'_> = (&[0], true, &[]);
    let left: LaneTold<'_> = (&[0, 1], true, &[1]);
    let both: DiaryTold<'_> = (0, 0, &[Took(0), Took(1)], false);
    let one: DiaryTold<'_> = (0, 0, &[Took(0)], false);
    let other_left = Fault::Report(Flaw::OtherLeft);
    let cases: [(Plan, LaneTold<'_>, DiaryTold<'_>, (u64, u64), Option<Fault>); 14] = [
        (open, whole, both, (0, 0), None),
        (few, short, one, (1, 0), None),
        (any, short, one, (0, 1), None),
        (any, left, one, (0, 1), None),
        (open, left, both, (0, 0), Some(other_left)),
        (
            open,
            (&[0, 1], false, &[]),
            both,
            (0, 0),
            Some(Fault::NotEnded),
        ),
        (
            any,
            (&[0, 1, 2], true, &[1, 2]),
            one,
            (0, 1),
            Some(Fault::OtherItems),
        ),
        (
            any,
            (&[0, 2], true, &[2]),
            one,
            (0, 1),
            Some(Fault::OtherItems),
        ),
        (any, whole, both, (1, 1), Some(Fault::OtherFull)),
        (few, short, one, (0, 0), Some(Fault::OtherFull)),
        (few, short, one, (2, 0), Some(Fault::OtherFull)),
        (open, left, one, (0, 0), Some(Fault::NotMet)),
        (open, short, one, (1, 0), Some(Fault::FullTooEarly)),
        (open, whole, both, (0, 1), Some(Fault::Stopped)),
    ];
    for (plan, lane, diary, worked, fault) in cases {
        comes_to(&rt, &plan, &[lane], &[diary], worked, fault)?;
    }
    Ok(())
}

// A report lacks lanes or diaries of the plan, and so has a flaw.
#[test]
fn there_is_what_was_asked_for(rt: HostRuntime) -> Result<(), Fail> {
    let plan = plan_of(16, 15, 256, Stops::Anybody(2));
    let lanes = Some(Fault::Report(Flaw::OtherLanes));
    let diaries = Some(Fault::Report(Flaw::OtherDiary));
    let lane: LaneTold<'_> = (&[], true, &[]);
    comes_to(&rt, &plan, &[], &[], (0, 0), lanes)?;
    comes_to(&rt, &plan, &[lane; 16], &[], (0, 1), diaries)
}

/// What the check after a refusal finds. The only producer was issued, and put an item. It ended its lane if `ends`, and
/// was returned if `comes_in`.
fn after_refusal<R: AllocGlobal>(
    rt: &R,
    ends: bool,
    comes_in: bool,
) -> Result<Result<u64, Fault>, Fail> {
    let setup = Setup::new(1, 1, 4, 1, TableName::Bits)?;
    let (mailbox, mut hub) = Mailbox::new(rt.alloc(), setup)?;
    let mut producer = hub.producer(rt.alloc(), &mailbox)?;
    producer.put(&mailbox, 7);
    if ends {
        producer.finish(&mailbox);
    }
    if comes_in {
        hub.take_producer(&mailbox, producer);
    }
    let plan = plan_of(1, 1, 4, Stops::Nobody);
    Ok(check_refused(rt.alloc(), &plan, mailbox, hub))
}

#[test]
fn each_fault_after_a_refusal_is_found(rt: HostRuntime) -> Result<(), Fail> {
    let found = (
        after_refusal(&rt, true, true)?,
        after_refusal(&rt, false, true)?,
        after_refusal(&rt, true, false)?,
    );
    assert_eq!(rt; found, (Ok(1), Err(Fault::NotEnded), Err(Fault::NoReport)));
    Ok(())
}

// A case has the shape, whether each poll had a budget for a whole item, two diaries, and the fault. Each is tried
// on both lanes.
#[test]
fn each_fault_of_an_item_that_is_not_settled_is_found(rt: HostRuntime) -> Result<(), Fail> {
    let last = Shape {
        fast: false,
        last: true,
    };
    let took: DiaryTold<'_> = (0, 0, &[Took(0)], false);
    let lost: DiaryTold<'_> = (0, 0, &[Lost(1)], false);
    let undecided: DiaryTold<'_> = (0, 0, &[Undecided], false);
    let begun: DiaryTold<'_> = (1, 0, &[], true);
    let apart: DiaryTold<'_> = (1, 0, &[], false);
    let cases: [(Shape, bool, DiaryTold<'_>, DiaryTold<'_>, Option<Fault>); 10] = [
        (last, true, took, apart, None),
        (last, true, apart, apart, None),
        (last, false, took, begun, None),
        (last, false, lost, begun, None),
        (Shape::PLAIN, true, undecided, apart, None),
        (Shape::PLAIN, true, lost, apart, None),
        (last, true, took, begun, Some(Fault::Spent)),
        (Shape::PLAIN, true, lost, begun, Some(Fault::Spent)),
        (last, false, undecided, apart, Some(Fault::Undecided)),
        (last, false, lost, apart, Some(Fault::NotSettled)),
    ];
    let other: LaneTold<'_> = (&[], true, &[]);
    for (shape, is_whole, one, two, fault) in cases {
        for lane in [0, 1] {
            let lanes: [LaneTold<'_>; 2] = match lane {
                0 => [(&[0], true, &[]), other],
                _ => [other, (&[0], true, &[])],
            };
            let diaries = [(one.0, lane, one.2, one.3), (two.0, lane, two.2, two.3)];
            let report = made_up(rt.alloc(), &lanes, &diaries)?;
            assert_eq!(rt; check_settled(shape, is_whole, &report).err(), fault);
        }
    }
    Ok(())
}
