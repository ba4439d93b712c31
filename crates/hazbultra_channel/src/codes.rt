//! The codes that calls return, as numbers. They are those of `bindings/c/hazbultra.h`.
ghost use Rattle.std.specs.Prelude.{◌≡◌, ◌≢◌, ◌↔◌};
ghost use Rattle.mb_channel.specs.declared.channel.Refused.TheVariants as refused;
ghost use Rattle.hazbultra_channel.specs.Ends.{IsRefusal};
ghost use Rattle.hazbultra_channel.specs.declared.codes.TheConstants.{CLOSED, NO_MEMORY};

use mb_channel::Refused;

pub(crate) const DONE: u32 = 0;

pub(crate) const TOOK: u32 = 1;

pub(crate) const NOTHING: u32 = 4;

pub(crate) const CLOSED: u32 = 10;

pub(crate) const AGAIN: u32 = 12;

pub(crate) const SLEEPS: u32 = 13;

pub(crate) const NO_MEMORY: u32 = 16;

pub(crate) const BAD_HANDLE: u32 = 17;

pub(crate) const CROWDED: u32 = 22;

/// The code of the reason for which a call was refused.
pub(crate) fn code_of(why: Refused) -> u32
    ensures closed { (result ≡ CLOSED) ↔ (why ≡ refused.Closed) }
    ensures memory { (result ≡ NO_MEMORY) ↔ (why ≡ refused.NoMemory) }
    ensures codes { IsRefusal result }
{
    match why {
        Refused::NoMemory => NO_MEMORY,
        Refused::Closed => CLOSED,
        Refused::Crowded => CROWDED,
    }
}
