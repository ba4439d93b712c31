//! What a pass learns of what other passes did.
ghost use Rattle.std.specs.Prelude.{true, ◌≡◌, ◌≤◌};
ghost use Rattle.mb_segment.specs.{Becomes, IsFree, IsStill, bare, found_empty, held_by, is_over, learns_drawn};
ghost use Rattle.mb_segment.specs.{learns_taken, view_in};

use crate::rule::{LearnsDrawn, LearnsTaken};
use crate::segment::{Pass, Segment};
use crate::words::{CUT, DRAWN, TAKEN};
use std::alloc::Allocator;

impl<T: Drop, A: Allocator + Drop> Segment<T, A> {
    /// Looks how many positions are drawn, and learns of them: each later send of the pass comes after them all. The
    /// number is no less than what the pass knew before.
    ///
    /// So one pass can tell another what it knows: it looks, and passes on the number. The other looks in turn. If it
    /// finds no less, it knows of all that the first had sent or received. One access.
    pub fn learn_drawn(&self, pass: &mut Pass<T>) -> u64
        requires segment { pass.old.seat.table_id ≡ self.now.table.shared.table_id }
        ensures pass { IsStill pass.old pass.new }
        ensures learned { Becomes pass.old pass.new (learns_drawn result (view_in pass.old)) }
        ensures more { (view_in pass.old).known.drawn ≤ result }
        ensures free { IsFree pass.old → IsFree pass.new }
    {
        self.table.shared.load::<LearnsDrawn>(&mut pass.seat, DRAWN) % CUT
    }

    /// The same of the positions that are claimed: each later receive of the pass stands behind them all. One access.
    pub fn learn_taken(&self, pass: &mut Pass<T>) -> u64
        requires segment { pass.old.seat.table_id ≡ self.now.table.shared.table_id }
        ensures pass { IsStill pass.old pass.new }
        ensures learned { Becomes pass.old pass.new (learns_taken result (view_in pass.old)) }
        ensures more { (view_in pass.old).known.taken ≤ result }
        ensures free { IsFree pass.old → IsFree pass.new }
    {
        self.table.shared.load::<LearnsTaken>(&mut pass.seat, TAKEN)
    }

    /// Looks whether no more positions will be drawn: all are, or the segment is cut. One access.
    pub fn sees_over(&self, pass: &mut Pass<T>) -> bool
        requires segment { pass.old.seat.table_id ≡ self.now.table.shared.table_id }
        ensures pass { IsStill pass.old pass.new }
        ensures same { bare (view_in pass.new) ≡ bare (view_in pass.old) }
        ensures held { held_by pass.new ≡ held_by pass.old }
        ensures tokens { (view_in pass.new).tokens ≡ (view_in pass.old).tokens }
        ensures found { found_empty (view_in pass.old) ≤ found_empty (view_in pass.new) }
        ensures over { result ≡ true → is_over (view_in pass.new) ≡ true }
    {
        self.load_to_draw(pass) >= self.size
    }
}
