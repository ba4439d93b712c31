//! Handles, by which C refers to things.
ghost use Rattle.std.specs.Prelude.{◌≡◌, Bool, None, Option, Some, is_some, not};
ghost use Rattle.hazbultra_channel.specs.Handles.{holds};

mod block;

use crate::thing::Thing;
use block::Block;
use std::alloc::Global;
use std::mem;

/// A box that holds a thing, or nothing. Its type does not say what is in it.
#[repr(C)]
pub struct End {
    full: bool,
    alloc: Global,
    block: Block,
    pub ghost agrees: { is_some block.thing ≡ full },
}

impl End {
    ghost use Rattle.std.specs.Prelude.{MatchOption};
    ghost use types.Logic.{sem};
    ghost use Rattle.hazbultra_channel.specs.Lending.{EndLends};

    /// A handle that leads to nothing.
    pub fn none(alloc: Global) -> End
        ensures { result.block.thing ≡ None }
    {
        End {
            full: false,
            alloc,
            block: Block::none(alloc),
        }
    }

    /// A handle that leads to what is in the box.
    pub fn of(alloc: Global, thing: Box<Thing, Global>) -> End
        ensures { result.block.thing ≡ Some thing.value }
    {
        End {
            full: true,
            alloc,
            block: Block::of(thing),
        }
    }

    /// Makes the handle lead to what is in the box. What the handle led to before is freed.
    pub fn give(&mut self, thing: Box<Thing, Global>)
        ensures { self.new.block.thing ≡ Some thing.value }
    {
        *self = End::of(self.alloc, thing);
    }

    /// Whether the handle leads to nothing.
    pub fn is_none(&self) -> bool
        ensures { result ≡ not (is_some self.now.block.thing) }
    {
        !self.full
    }

    /// Lends what the handle leads to, if it leads to something. Once the borrow ends, the handle leads to what was
    /// left there.
    #[inline(always)]
    pub fn lend(&mut self) -> Option<&mut Thing>
        ensures* writes_back { sem 𝓛 (EndLends self.entry result) }
        ensures value { MatchOption result (self.old.block.thing ≡ None)
            (λ x. self.old.block.thing ≡ Some x.now) }
    {
        if self.full {
            Some(self.block.lend())
        } else {
            None
        }
    }

    /// The box that the handle leads to, if any. The box is the caller's then, and the handle leads to nothing.
    pub fn take(&mut self) -> Option<Box<Thing, Global>>
        ensures none { self.new.block.thing ≡ None }
        ensures box_back { holds result self.old.block.thing }
    {
        mem::replace(self, End::none(self.alloc)).into_box()
    }

    /// The box that the handle leads to, if any. The handle is used up.
    fn into_box(self) -> Option<Box<Thing, Global>>
        ensures { holds result self.block.thing }
    {
        let End {
            full,
            alloc: _,
            block,
        } = self;
        if full { Some(block.into_box()) } else { None }
    }
}

// A handle that is dropped frees what it leads to.
impl Drop for End {
    fn drop(self) {
        drop(self.into_box());
    }
}
