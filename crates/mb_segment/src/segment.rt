//! A segment, its hub and its passes.
ghost use Rattle.std.specs.Prelude.{[], IfOk, ◌+◌, ◌<◌, ◌≡◌, ◌≤◌};
ghost use Rattle.mb_segment.specs.{IsFree, Issuer, hub_view, issued, learns_drawn, learns_taken};
ghost use Rattle.mb_segment.specs.{named, new_hub, took_back, view_in};

use crate::rule::{Issues, LearnsDrawn, LearnsTaken, Name, SegmentRule, TakesBack};
use crate::view::View;
use crate::words::{CUT, DRAWN, STATES, TAKEN};
use atomic_table::{Seat, Table};
use std::alloc::{AllocError, Allocator, Global};
use std::marker::Brand;

/// A row of positions. Senders put values in, in one order, and receivers take them from the front.
#[derive(Drop)]
pub struct Segment<T: Drop, A: Allocator + Drop = Global> {
    pub(crate) table: Table<Option<T>, View<T>, (), SegmentRule, A>,
    pub(crate) size: u64,
    ghost sized: { size ≡ table.shared.table_id.slots },
    ghost wide: { table.shared.table_id.words ≡ size + 17 },
    ghost small: { size < 4294967296 },
}

/// What one thread sends and receives with. It has no bytes. It cannot be dropped: the hub takes it back, or it rests,
/// and it owes nothing then.
pub struct Pass<T> {
    pub(crate) seat: Seat<Option<T>, View<T>>,
}

/// Issues passes, and takes them back with what they did. It has no bytes.
#[derive(Drop)]
pub struct Hub<T> {
    pub(crate) seat: Seat<Option<T>, View<T>>,
}

impl<T: Drop, A: Allocator + Clone + Drop> Segment<T, A> {
    /// A segment of this many positions, none of which is drawn, and its hub. All memory that it will ever need is
    /// reserved here. The error is [`AllocError`] if the allocator refuses a part of it.
    pub fn new(alloc: A, size: u32) -> Result<(Segment<T, A>, Hub<T>), AllocError>
        ensures size { IfOk result (λ r. r.0.size ≡ size) }
        ensures segment { IfOk result (λ r. r.1.seat.table_id ≡ r.0.table.shared.table_id) }
        ensures hub { IfOk result (λ r. hub_view r.1 ≡ new_hub) }
    {
        let words = vec![in alloc.clone()?; 0u64; size as usize + STATES]?;
        let (table, seat) = Table::vacant(alloc, words.as_slice(), size as usize, &())?;
        Ok((
            Segment {
                table,
                size: size as u64,
            },
            Hub { seat },
        ))
    }
}

impl<T: Drop, A: Allocator + Drop> Segment<T, A> {
    /// How many positions the segment has.
    pub fn size(&self) -> u64
        ensures { result ≡ self.now.size }
    {
        self.size
    }

    /// A pass that did nothing, with a name. 0: it has none.
    pub fn issue(&self, hub: &mut Hub<T>, name: u32) -> Pass<T>
        requires segment { hub.old.seat.table_id ≡ self.now.table.shared.table_id }
        requires hub { (hub_view hub.old).role ≡ Issuer }
        requires name { name < 4294967295 }
        ensures segment { hub.new.seat.table_id ≡ hub.old.seat.table_id }
        ensures hub { hub_view hub.new ≡ issued (hub_view hub.old) }
        ensures pass { (result.seat.table_id ≡ hub.old.seat.table_id)
            × (view_in result ≡ named name) × IsFree result }
    {
        self.issue_named::<Brand>(hub, name)
    }

    fn issue_named<N: Name>(&self, hub: &mut Hub<T>, name: u32) -> Pass<T>
        requires segment { hub.old.seat.table_id ≡ self.now.table.shared.table_id }
        requires hub { (hub_view hub.old).role ≡ Issuer }
        requires picked { N.name ≡ name }
        requires name { name < 4294967295 }
        ensures segment { hub.new.seat.table_id ≡ hub.old.seat.table_id }
        ensures hub { hub_view hub.new ≡ issued (hub_view hub.old) }
        ensures pass { (result.seat.table_id ≡ hub.old.seat.table_id)
            × (view_in result ≡ named name) × IsFree result }
    {
        let _ = name;
        Pass {
            seat: self.table.shared.split_seat::<Issues<N>>(&mut hub.seat),
        }
    }

    /// Takes back a pass that owes nothing. The hub then has what it sent and received.
    pub fn take_back(&self, hub: &mut Hub<T>, pass: Pass<T>)
        requires segment { (hub.old.seat.table_id ≡ self.now.table.shared.table_id)
            × (pass.seat.table_id ≡ self.now.table.shared.table_id) }
        requires hub { (hub_view hub.old).role ≡ Issuer }
        requires free { IsFree pass }
        ensures segment { hub.new.seat.table_id ≡ hub.old.seat.table_id }
        ensures hub { hub_view hub.new ≡ took_back (hub_view hub.old) (view_in pass) }
    {
        let Pass { seat } = pass;
        self.table
            .shared
            .join_seat::<TakesBack>(&mut hub.seat, seat);
    }

    /// The hub looks how many positions are drawn, and learns of them. One access.
    pub fn count_drawn(&self, hub: &mut Hub<T>) -> u64
        requires segment { hub.old.seat.table_id ≡ self.now.table.shared.table_id }
        ensures segment { hub.new.seat.table_id ≡ hub.old.seat.table_id }
        ensures hub { hub_view hub.new ≡ learns_drawn result (hub_view hub.old) }
        ensures more { (hub_view hub.old).known.drawn ≤ result }
    {
        self.table.shared.load::<LearnsDrawn>(&mut hub.seat, DRAWN) % CUT
    }

    /// The same of the positions that are claimed. One access.
    pub fn count_taken(&self, hub: &mut Hub<T>) -> u64
        requires segment { hub.old.seat.table_id ≡ self.now.table.shared.table_id }
        ensures segment { hub.new.seat.table_id ≡ hub.old.seat.table_id }
        ensures hub { hub_view hub.new ≡ learns_taken result (hub_view hub.old) }
        ensures more { (hub_view hub.old).known.taken ≤ result }
    {
        self.table.shared.load::<LearnsTaken>(&mut hub.seat, TAKEN)
    }
}
