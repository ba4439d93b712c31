//! What the diaries say of one item.

use crate::flaw::Flaw;
use mb_world::{Diary, Note, Report};
use std::alloc::Allocator;

/// What a diary says of one item.
#[derive(Clone, Copy)]
pub(crate) enum Meeting {
    /// The consumer's claim has made no access.
    Never,
    /// The consumer's claim has made an access, and has no note.
    UnderWay,
    /// The consumer has this note on the item.
    Noted(Note),
}

/// What all diaries of a lane say of one of its items.
#[derive(Clone, Copy)]
pub(crate) struct Meetings {
    /// How many consumers competed for the item.
    pub(crate) competitors: u64,
    /// The consumer that took the item, if one did.
    pub(crate) taker: Option<u64>,
    /// The winner that the losers name, if there are losers.
    pub(crate) winner: Option<u64>,
    /// How many consumers lost the item.
    pub(crate) lost: u64,
    /// How many consumers are undecided on the item.
    pub(crate) undecided: u64,
    /// How many consumers have a claim under way on the item.
    pub(crate) under_way: u64,
}

/// The diary of a consumer on a lane, by its position in the report.
pub(crate) fn diary_of<A: Allocator + Drop>(
    report: &Report<A>,
    consumer: usize,
    lane: usize,
) -> Option<&Diary<A>> {
    let before = consumer.wrapping_mul(report.lanes.len());
    report.diaries.get(before.wrapping_add(lane))
}

/// What a diary says of the item at position `j` of its lane.
fn said_of<A: Allocator + Drop>(diary: &Diary<A>, j: usize) -> Meeting {
    match diary.notes.get(j) {
        Some(note) => Meeting::Noted(*note),
        None => {
            if diary.begun && diary.notes.len() == j {
                Meeting::UnderWay
            } else {
                Meeting::Never
            }
        }
    }
}

/// What the diaries before this consumer's said of the item, with what this one says. The error is a flaw that the two
/// show.
fn with_meeting(
    before: Meetings,
    consumer: u64,
    item: u64,
    said: Meeting,
) -> Result<Meetings, Flaw> {
    let mut met = before;
    match said {
        Meeting::Never => return Ok(met),
        Meeting::UnderWay => met.under_way = met.under_way.wrapping_add(1),
        Meeting::Noted(Note::Undecided) => met.undecided = met.undecided.wrapping_add(1),
        Meeting::Noted(Note::Took(value)) => {
            if met.taker.is_some() {
                return Err(Flaw::TwoTakers);
            }
            if value != item {
                return Err(Flaw::OtherItem);
            }
            met.taker = Some(consumer);
        }
        Meeting::Noted(Note::Lost(winner)) => {
            let winner = u64::from(winner);
            if winner == consumer || (met.winner.is_some() && met.winner != Some(winner)) {
                return Err(Flaw::OtherWinner);
            }
            met.winner = Some(winner);
            met.lost = met.lost.wrapping_add(1);
        }
    }
    met.competitors = met.competitors.wrapping_add(1);
    Ok(met)
}

/// Whether the consumer that the losers name can be the winner: whether it competed, and nobody else took the item.
fn may_have_won<A: Allocator + Drop>(
    report: &Report<A>,
    lane: usize,
    j: usize,
    winner: u64,
    met: &Meetings,
) -> bool {
    let Some(diary) = diary_of(report, winner as usize, lane) else {
        return false;
    };
    let competed = !matches!(said_of(diary, j), Meeting::Never);
    competed && (met.taker.is_none() || met.taker == Some(winner))
}

/// What all diaries of a lane say of the item at position `j`, or the first flaw. There is no flaw if these rules are
/// kept. At most one consumer took the item, and it took what was put. All losers name one winner, which competed and
/// is the taker, if one took it. A consumer that is undecided is not alone. So if nobody took the item though somebody
/// competed, one of these is undecided or has a claim under way: they cannot all have lost to one of them.
pub(crate) fn all_said_of<A: Allocator + Drop>(
    report: &Report<A>,
    consumers: u64,
    lane: usize,
    j: usize,
    item: u64,
) -> Result<Meetings, Flaw> {
    let mut met = Meetings {
        competitors: 0,
        taker: None,
        winner: None,
        lost: 0,
        undecided: 0,
        under_way: 0,
    };
    for consumer in 0..consumers {
        let Some(diary) = diary_of(report, consumer as usize, lane) else {
            return Err(Flaw::OtherDiary);
        };
        met = with_meeting(met, consumer, item, said_of(diary, j))?;
    }
    if let Some(winner) = met.winner
        && !may_have_won(report, lane, j, winner, &met)
    {
        return Err(Flaw::OtherWinner);
    }
    if 0 < met.undecided && met.competitors < 2 {
        return Err(Flaw::UndecidedAlone);
    }
    Ok(met)
}
