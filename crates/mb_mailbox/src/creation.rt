//! The beginning of a mailbox: its words, and its hub.
use crate::hub::Hub;
use crate::mailbox::Mailbox;
use mb_cells::NoMemory;
use mb_shared_cells::SharedCells;
use mb_shared_claims::SharedClaims;
use mb_world::Setup;
use std::alloc::Allocator;

impl<A: Allocator + Clone + Drop> Mailbox<A> {
    ghost use Rattle.std.specs.Prelude.{◌≡◌, IfOk};
    ghost use Rattle.mb_world.specs.Plan.{size_of};
    ghost use Rattle.mb_world.specs.Setups.{layout_of, plan_in};
    ghost use Rattle.mb_mailbox.specs.Hubs.{IsHubOf, hub_empty};
    ghost use Rattle.mb_mailbox.specs.Mailboxes.{plan_at};

    /// Makes a mailbox of this setup, in which nothing was done, and its hub, which has issued nobody. [`NoMemory`]
    /// comes if the allocator refuses what one of them needs.
    pub fn new(alloc: A, setup: Setup) -> Result<(Mailbox<A>, Hub<A>), NoMemory>
        ensures plan { IfOk result (λ made. plan_at made.0 ≡ plan_in setup) }
        ensures size { IfOk result (λ made. made.0.cells.size ≡ size_of (plan_in setup)) }
        ensures layout { IfOk result (λ made. made.0.claims.layout ≡ layout_of setup) }
        ensures belongs { IfOk result (λ made. IsHubOf made.0 made.1) }
        ensures empty { IfOk result (λ made. made.1 ≡ hub_empty made.0) }
    {
        let layout = setup.layout();
        let lanes = setup.producers() as u32;
        let consumers = setup.consumers() as usize;
        let amount = setup.cells() as u32;
        let puts = Vec::with_capacity(alloc.clone()?, lanes as usize)?;
        let records = Vec::with_capacity(alloc.clone()?, consumers)?;
        // The larger table is made first, since a table is held twice while it is made.
        let (claims, claims_hub) = SharedClaims::new(alloc.clone()?, layout, amount)?;
        let (cells, lanes_hub) = SharedCells::new(alloc, lanes, amount)?;
        let mailbox = Mailbox {
            lanes,
            cells,
            claims,
        };
        let hub = Hub {
            cells: lanes_hub,
            claims: claims_hub,
            puts,
            records,
        };
        Ok((mailbox, hub))
    }
}
