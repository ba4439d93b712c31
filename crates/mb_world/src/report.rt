//! Reports, with their lanes and diaries.
use std::alloc::Allocator;
use std::marker::Model;

/// What a consumer notes of an item, once the consumer is done with the item.
#[derive(Clone, Copy, PartialEq, Eq, Debug)]
pub enum Note {
    /// The consumer took the item: it won it, and loaded this value.
    Took(u64),
    /// The consumer lost the item. Only the consumer of this number can still take it, and perhaps it never does: its
    /// claim may stop midway, or end undecided.
    Lost(u32),
    /// The consumer's claim ended undecided, so it neither took nor lost the item. Another may have won it, or nobody.
    Undecided,
}

/// What a report has of one lane.
#[derive(Drop)]
pub struct LaneReport<A: Allocator + Drop> {
    /// The items put, in the order of linking.
    pub put: Vec<u64, A>,
    /// Whether the end mark was stored.
    pub ended: bool,
    /// The items of `put` that nobody took, in the same order.
    pub left: Vec<u64, A>,
}

/// What a report has of one consumer on one lane.
#[derive(Drop)]
pub struct Diary<A: Allocator + Drop> {
    /// The consumer, from 0 on.
    pub consumer: u32,
    /// The lane, from 0 on.
    pub lane: u32,
    /// The consumer's notes on the items of the lane, from the first item on.
    pub notes: Vec<Note, A>,
    /// Whether the consumer has begun a claim on the next item, which has no note yet. A begun claim made an access.
    pub begun: bool,
}

/// The whole report.
#[derive(Drop)]
pub struct Report<A: Allocator + Drop> {
    /// What the report has of each lane, in the order of the lanes.
    pub lanes: Vec<LaneReport<A>, A>,
    /// A diary for each consumer and lane. That of consumer `c` on lane `p` is at `c * lanes.len() + p`.
    pub diaries: Vec<Diary<A>, A>,
}

// Clauses see what a report has of a lane as plain lists.
impl<A: Allocator + Drop> Model for LaneReport<A> {
    ghost use Rattle.mb_world.specs.Theorem.{LaneView};

    ghost Value = { LaneView };

    ghost view = { λ l. record { put = l.put.items; ended = l.ended; left = l.left.items } };
}

// Clauses see a diary as plain numbers and a plain list.
impl<A: Allocator + Drop> Model for Diary<A> {
    ghost use Rattle.mb_world.specs.Theorem.{DiaryView};

    ghost Value = { DiaryView };

    ghost view = { λ d. record {
      consumer = d.consumer;
      lane = d.lane;
      notes = d.notes.items;
      begun = d.begun;
    } };
}

// Clauses see a report as plain lists of lanes and diaries.
impl<A: Allocator + Drop> Model for Report<A> {
    ghost use Rattle.mb_world.specs.Theorem.{ReportView};

    ghost Value = { ReportView };

    ghost view = { λ r. record { lanes = r.lanes.items; diaries = r.diaries.items } };
}
