//! The address of a box, whose type does not say what is in it, or no address.
ghost use Rattle.std.specs.Prelude.{◌≡◌, IsSome, None, Option, Some};
ghost use Rattle.hazbultra_channel.specs.declared.thing.Thing.{Thing};
ghost use Rattle.hazbultra_channel.specs.Blocks.{block_owns, maybe_thing_coded};

mod parts;

use crate::thing::Thing;
use parts::Parts;
use std::alloc::Global;
use std::marker::Model;
use std::ptr::null_mut;

/// A block leads to a thing and owns what a box of the thing owns, or leads to nothing and owns nothing. Dropping a
/// block does not free what it owns.
#[repr(C)]
#[derive(Drop)]
pub struct Block {
    at: *mut u8,
    alloc: Global,
    pub ghost thing: { Option Thing } by { maybe_thing_coded },
}

// A block owns what it leads to.
impl Model for Block {
    ghost also_owns = { λ b. block_owns b.alloc b.at b.thing };
}

impl Block {
    ghost use types.Logic.{sem};
    ghost use Rattle.hazbultra_channel.specs.Lending.{BlockLends};

    /// A block that leads to nothing.
    pub(super) fn none(alloc: Global) -> Block
        ensures { result.thing ≡ None }
    {
        Block {
            at: null_mut(),
            alloc,
        }
    }

    /// A block that leads to what is in the box.
    pub(super) fn of(thing: Box<Thing, Global>) -> Block
        ensures { result.thing ≡ Some thing.value }
    {
        Block::of_parts(Parts::of(thing))
    }

    /// The box of the thing to which the block leads.
    pub(super) fn into_box(self) -> Box<Thing, Global>
        requires { IsSome self.thing }
        ensures { self.thing ≡ Some result.value }
    {
        self.into_parts().into_box()
    }

    /// Lends the thing to which the block leads. Once the borrow ends, the block leads to what was left there.
    #[inline(always)]
    pub(super) fn lend(&mut self) -> &mut Thing
        requires { IsSome self.old.thing }
        ensures* writes_back { sem 𝓛 (BlockLends self.entry result) }
        ensures value { self.old.thing ≡ Some result.now }
    {
        unsafe { &mut *(self.at as *mut Thing) }
    }

    /// A block that leads to the thing whose box has these parts.
    fn of_parts(parts: Parts<Thing, Global>) -> Block
        ensures { result.thing ≡ Some parts.value }
    {
        let Parts { ptr, alloc } = parts;
        Block {
            at: ptr as *mut u8,
            alloc,
        }
    }

    /// The parts of the box of the thing to which the block leads.
    fn into_parts(self) -> Parts<Thing, Global>
        requires { IsSome self.thing }
        ensures { self.thing ≡ Some result.value }
    {
        let Block { at, alloc } = self;
        Parts {
            ptr: at as *mut Thing,
            alloc,
        }
    }
}
