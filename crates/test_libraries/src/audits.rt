//! Audits of made-up reports. Reports without a flaw are counted, and for each rule there is a report that breaks that
//! rule alone.

use crate::compare::same;
use mb_world::Note;
use mb_world::Note::{Lost, Took, Undecided};
use std::process::Abort;
use test_audit::{Flaw, Tally, audit};
use test_support::{DiaryTold, LaneTold, made_up};

#[test]
fn a_report_without_a_flaw_is_counted(rt: HostRuntime) {
    let report = made_up(
        rt.alloc(),
        &[(&[5, 6, 7], false, &[6, 7]), (&[8], true, &[])],
        &[
            (0, 0, &[Took(5), Undecided], false),
            (0, 1, &[Lost(1)], false),
            (1, 0, &[Lost(0)], true),
            (1, 1, &[Took(8)], false),
        ],
    )
    .expect(&rt, "no report");
    let tally = Tally {
        put: 4,
        took: 2,
        left: 2,
        lost: 2,
        undecided: 1,
        under_way: 1,
    };
    same(&rt, &audit(&report, 2, 2), &Ok(tally));
}

/// Checks that the report with these lanes and diaries has this flaw, or none. `asked` has the numbers of producers and
/// of consumers.
fn comes_to<R: Abort + AllocGlobal>(
    rt: &R,
    asked: (u64, u64),
    lanes: &[LaneTold<'_>],
    diaries: &[DiaryTold<'_>],
    flaw: Option<Flaw>,
) {
    let report = made_up(rt.alloc(), lanes, diaries).expect(rt, "no report");
    same(rt, &audit(&report, asked.0, asked.1).err(), &flaw);
}

/// Checks that the report in which three consumers have these notes on the only item, 5, has this flaw, or none. The
/// item is left or not.
fn three_come_to<R: Abort + AllocGlobal>(
    rt: &R,
    is_left: bool,
    notes: [&[Note]; 3],
    flaw: Option<Flaw>,
) {
    let left: &[u64] = if is_left { &[5] } else { &[] };
    let diaries = [
        (0, 0, notes[0], false),
        (1, 0, notes[1], false),
        (2, 0, notes[2], false),
    ];
    comes_to(rt, (1, 3), &[(&[5], false, left)], &diaries, flaw);
}

/// The flaw that a consumer lost the item to one that cannot have won it.
const OTHER_WINNER: Option<Flaw> = Some(Flaw::OtherWinner);

/// Whether the item is left, the notes of the three consumers, and the flaw.
static WINNERS: [(bool, [&[Note]; 3], Option<Flaw>); 11] = [
    (false, [&[Lost(1)], &[Took(5)], &[Lost(1)]], None),
    (true, [&[Lost(2)], &[Lost(2)], &[Undecided]], None),
    (false, [&[Took(5)], &[Took(5)], &[]], Some(Flaw::TwoTakers)),
    (false, [&[], &[Took(6)], &[]], Some(Flaw::OtherItem)),
    // The next case breaks the rule that a consumer does not lose to itself.
    (true, [&[], &[Lost(1)], &[]], OTHER_WINNER),
    // The next case breaks the rule that all losers name one winner.
    (true, [&[Lost(1)], &[Lost(2)], &[Undecided]], OTHER_WINNER),
    // The next two break the rule that the winner named has competed: consumer 1 has not, and there is no consumer 3.
    (true, [&[Lost(1)], &[], &[]], OTHER_WINNER),
    (true, [&[Lost(3)], &[], &[]], OTHER_WINNER),
    // The next case breaks the rule that losers name the consumer that took the item.
    (false, [&[Took(5)], &[Lost(2)], &[Undecided]], OTHER_WINNER),
    // The next breaks the rule that a consumer is not undecided if nobody else competed. The one after keeps the rule.
    (true, [&[], &[], &[Undecided]], Some(Flaw::UndecidedAlone)),
    (true, [&[], &[Undecided], &[Undecided]], None),
];

#[test]
fn an_item_has_one_winner(rt: HostRuntime) {
    for (is_left, notes, flaw) in &WINNERS {
        three_come_to(&rt, *is_left, *notes, *flaw);
    }
}

/// The flaw that the items left are not those that nobody took, in their order.
const OTHER_LEFT: Option<Flaw> = Some(Flaw::OtherLeft);

/// What the report names as left of the items 5, 6 and 7 if 5 was taken, and the flaw.
static LEFT: [(&[u64], Option<Flaw>); 8] = [
    (&[6, 7], None),
    // The next two break the rule that the items left are items of the lane, in its order.
    (&[7, 6], OTHER_LEFT),
    (&[6, 8], OTHER_LEFT),
    // The other cases break the rule that the items left are all those that nobody took, and no others.
    (&[], OTHER_LEFT),
    (&[6], OTHER_LEFT),
    (&[7], OTHER_LEFT),
    (&[6, 7, 7], OTHER_LEFT),
    (&[5, 6, 7], OTHER_LEFT),
];

#[test]
fn what_is_left_is_what_nobody_took(rt: HostRuntime) {
    for (left, flaw) in &LEFT {
        let lanes: [LaneTold<'_>; 1] = [(&[5, 6, 7], false, *left)];
        comes_to(&rt, (1, 1), &lanes, &[(0, 0, &[Took(5)], true)], *flaw);
    }
}

/// Two lanes, of which the second has one item.
static TWO_LANES: [LaneTold<'static>; 2] = [(&[5, 6], false, &[6]), (&[8], false, &[])];

/// The notes of consumer 1 on the second lane, whether a claim after them is begun, and the flaw.
static NOTES: [(&[Note], bool, Option<Flaw>); 3] = [
    (&[Took(8)], false, None),
    (&[Took(8)], true, Some(Flaw::TooManyNotes)),
    (&[Took(8), Lost(0)], false, Some(Flaw::TooManyNotes)),
];

#[test]
fn notes_are_on_items(rt: HostRuntime) {
    for (notes, begun, flaw) in &NOTES {
        let diaries: [DiaryTold<'_>; 4] = [
            (0, 0, &[Took(5)], true),
            (0, 1, &[Lost(1)], false),
            (1, 0, &[Lost(0)], true),
            (1, 1, *notes, *begun),
        ];
        comes_to(&rt, (2, 2), &TWO_LANES, &diaries, *flaw);
    }
}

/// A lane without items.
const LANE: LaneTold<'static> = (&[], false, &[]);

/// The diaries of two consumers on two lanes, without notes, in the order that a report has them.
const FIRST: DiaryTold<'static> = (0, 0, &[], false);

const SECOND: DiaryTold<'static> = (0, 1, &[], false);

const THIRD: DiaryTold<'static> = (1, 0, &[], false);

const FOURTH: DiaryTold<'static> = (1, 1, &[], false);

/// The flaws that the report has too few or too many lanes, and that it has not one diary for each consumer and lane.
const LANES: Option<Flaw> = Some(Flaw::OtherLanes);

const DIARIES: Option<Flaw> = Some(Flaw::OtherDiary);

/// Each case has the number of consumers that were asked for, the lanes, the diaries and the flaw. Two producers were
/// asked for.
static SIZES: [(
    u64,
    &[LaneTold<'static>],
    &[DiaryTold<'static>],
    Option<Flaw>,
); 12] = [
    (2, &[LANE; 2], &[FIRST, SECOND, THIRD, FOURTH], None),
    (0, &[LANE; 2], &[], None),
    (1, &[LANE], &[FIRST, SECOND], LANES),
    (0, &[LANE; 3], &[], LANES),
    (1, &[], &[], LANES),
    (1, &[LANE; 2], &[], DIARIES),
    (2, &[LANE; 2], &[FIRST, SECOND], DIARIES),
    (1, &[LANE; 2], &[FIRST, SECOND, THIRD, FOURTH], DIARIES),
    // The other cases break the rule that each diary has the consumer and the lane of its position.
    (1, &[LANE; 2], &[THIRD, FOURTH], DIARIES),
    (1, &[LANE; 2], &[SECOND, FIRST], DIARIES),
    (2, &[LANE; 2], &[FIRST, THIRD, SECOND, FOURTH], DIARIES),
    (2, &[LANE; 2], &[FIRST, SECOND, THIRD, THIRD], DIARIES),
];

#[test]
fn there_is_a_diary_for_each_consumer_and_lane(rt: HostRuntime) {
    for (consumers, lanes, diaries, flaw) in &SIZES {
        comes_to(&rt, (2, *consumers), *lanes, *diaries, *flaw);
    }
}
