//! A segment in the channel's list.
ghost use Rattle.std.specs.Prelude.{◌≡◌};
ghost use Rattle.std.specs.Arc.{arc_value};
ghost use Rattle.mb_segment.specs.declared.view.Role.{TheVariants.Issuer};
ghost use Rattle.mb_segment.specs.Vocabulary.{hub_view};

use mb_segment::{Hub, Left, Segment};
use std::alloc::Global;
use std::collections::VecDeque;
use std::sync::Arc;

/// A segment that ends share.
pub type Shared<T> = Arc<Segment<T, Global>, Global>;

/// A segment, and the hub that issues its passes.
#[derive(Drop)]
pub struct Home<T: Drop> {
    pub(crate) segment: Shared<T>,
    pub(crate) hub: Hub<T>,
    /// How many of its passes are out.
    pub(crate) out: u64,
    /// Whether a pass that came back saw that no value can come any more.
    pub(crate) done: bool,
    ghost same: { hub.seat.table_id ≡ (arc_value segment).table.shared.table_id },
    ghost issues: { (hub_view hub).role ≡ Issuer },
    ghost counts: { out ≡ (hub_view hub).out },
    ghost tells: { done ≡ (hub_view hub).over },
}

/// The channel's segments, the oldest first. The first of all that there ever were are freed.
#[derive(Drop)]
pub struct Homes<T: Drop> {
    /// How many are freed.
    pub(crate) first: usize,
    pub(crate) list: VecDeque<Home<T>, Global>,
    /// Whether the channel is audited: a segment is freed only by an end that takes its fates out.
    pub(crate) audited: bool,
}

/// Who sent and who received each value of a segment that was freed.
#[derive(Drop)]
pub struct Fates<T: Drop> {
    pub(crate) segment: usize,
    pub(crate) left: Left<T>,
}
