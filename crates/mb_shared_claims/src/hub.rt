//! The hub, which issues consumers' numbers.
use crate::view::View;
use atomic_table::Seat;
use std::error::Error;
use std::fmt;
use std::marker::Model;

/// A table's hub. It issues each consumer's number with its seat, and takes the seats back.
#[derive(Drop)]
pub struct ClaimHub {
    pub(crate) seat: Seat<(), View>,
    pub(crate) given: u32,
    pub(crate) out: u32,
}

impl Model for ClaimHub {
    ghost use Rattle.mb_shared_claims.specs.Seats.{HubView, IsHubSeat, table_of};
    ghost use Rattle.mb_shared_claims.specs.ViewSteps.{roll_of};

    ghost Value = { HubView };

    ghost view = { λ h. record {
      table = table_of h.seat.table_id h.seat.me.0;
      roll = roll_of h.seat.me.0;
    } };

    ghost invariant = { λ h. IsHubSeat h.seat.me h.given h.out };
}

impl ClaimHub {
    ghost use Rattle.std.specs.Prelude.{◌≡◌, length};
    ghost use Rattle.mb_shared_claims.specs.{count_out};

    /// How many numbers were issued.
    pub fn given(&self) -> u32
        ensures { result ≡ length self.now.roll }
    {
        self.given
    }

    /// How many seats are out: issued, and not returned.
    pub fn out(&self) -> u32
        ensures { result ≡ count_out self.now.roll }
    {
        self.out
    }
}

/// Each number of the layout's consumers was issued.
#[derive(Clone, Copy, PartialEq, Eq, Debug)]
pub struct AllGiven;

impl fmt::Display for AllGiven {
    fn fmt<W: fmt::Write>(&self, f: &mut fmt::Formatter<W>) -> fmt::Result {
        f.write_str("all numbers were given")
    }
}

impl Error for AllGiven {}
