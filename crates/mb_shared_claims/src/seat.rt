//! The seat of one consumer.
use crate::view::View;
use atomic_table::Seat;
use std::marker::Model;

/// A consumer's seat, with which a thread makes the consumer's accesses. It carries the number of the consumer and, for
/// proofs alone, all that the consumer did at its table.
#[derive(Drop)]
pub struct ClaimSeat {
    pub(crate) seat: Seat<(), View>,
    pub(crate) consumer: u32,
}

impl Model for ClaimSeat {
    ghost use Rattle.mb_shared_claims.specs.Seats.{IsClaimSeat, SeatView, table_of};
    ghost use Rattle.mb_shared_claims.specs.ViewSteps.{part_of};

    ghost Value = { SeatView };

    ghost view = { λ s. record {
      table = table_of s.seat.table_id s.seat.me.0;
      consumer = s.consumer;
      part = part_of s.seat.me.0;
    } };

    ghost invariant = { λ s. IsClaimSeat s.seat.me s.consumer };
}

impl ClaimSeat {
    ghost use Rattle.std.specs.Prelude.{◌≡◌, ◌<◌};
    ghost use Rattle.mb_shared_claims.specs.{IsLawfulPart, claims_at};

    /// The number of the seat's consumer, which is one of its table's consumers.
    pub fn consumer(&self) -> u32
        ensures exact { result ≡ self.now.consumer }
        ensures known { result < (claims_at self.now.table).table.values }
    {
        self.consumer
    }

    /// A law of all seats: some lawful history of the table's claims has this seat's part. It computes nothing.
    pub fn has_history(&self)
        ensures { IsLawfulPart (claims_at self.now.table) self.now.consumer self.now.part }
    {
        // The prover knows the invariant only after a field is named.
        let _ = &self.consumer;
    }
}
