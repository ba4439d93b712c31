//! A mailbox, and the most accesses that a claim in it can make.
use mb_shared_cells::SharedCells;
use mb_shared_claims::SharedClaims;
use std::alloc::Allocator;
use std::marker::Model;

/// A mailbox: the words of its cells and lanes, and the words of the claims on its cells. As many threads as there
/// are producers and consumers may share it by `&`.
#[derive(Drop)]
pub struct Mailbox<A: Allocator + Drop> {
    pub(crate) lanes: u32,
    pub(crate) cells: SharedCells<A>,
    pub(crate) claims: SharedClaims<A>,
}

impl<A: Allocator + Drop> Model for Mailbox<A> {
    ghost use Rattle.std.specs.Prelude.{◌≡◌};
    ghost use Rattle.mb_mailbox.specs.Mailboxes.{IsMailbox, MailboxView};

    ghost Value = { MailboxView };

    ghost view = { λ m. record { cells = m.cells; claims = m.claims } };

    ghost invariant = { λ m. IsMailbox (record { cells = m.cells; claims = m.claims })
        × (m.lanes ≡ m.cells.size.lanes) };
}

impl<A: Allocator + Drop> Mailbox<A> {
    ghost use Rattle.std.specs.Prelude.{◌≡◌};
    ghost use Rattle.mb_mailbox.specs.Imports.{most_accesses};

    /// The most accesses that a claim can make.
    pub fn max_steps(&self) -> u64
        ensures { result ≡ most_accesses self.now.claims.layout }
    {
        self.claims.layout().max_steps()
    }
}
