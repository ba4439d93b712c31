//! A hub, and its report but for the items put.
use crate::hub::Hub;
use mb_world::Report;
use std::alloc::Allocator;
use std::marker::Model;

/// A hub, with its report but for the items put. `Mailbox::draft` makes it, and
/// [`gather_with`](crate::Mailbox::gather_with) completes the report without memory. Its view is that of its hub.
#[derive(Drop)]
pub struct Draft<A: Allocator + Drop> {
    pub(super) hub: Hub<A>,
    pub(super) outline: Report<A>,
}

impl<A: Allocator + Drop> Model for Draft<A> {
    ghost use Rattle.mb_mailbox.specs.Imports.{claims_at};
    ghost use Rattle.mb_mailbox.specs.Gathering.{IsOutlineIn};
    ghost use Rattle.mb_mailbox.specs.Hubs.{HubView};

    ghost Value = { HubView };

    ghost view = { λ d. d.hub };

    ghost invariant = { λ d. IsOutlineIn d.hub.cells.table.size.lanes
        (claims_at d.hub.claims.table).table.values d.hub d.outline };
}

impl<A: Allocator + Drop> Draft<A> {
    ghost use Rattle.std.specs.Prelude.{◌≡◌};

    /// The hub, as it was before the draft was made.
    pub fn undone(self) -> Hub<A>
        ensures { result ≡ self }
    {
        self.hub
    }
}
