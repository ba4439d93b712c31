//! Setups that are refused.

use crate::compare::same_at;
use mb_quorum::TableName::{Bits, Middle};
use mb_world::{Setup, SetupFault};

// Producers are looked at first, then consumers, cells and pairs.
#[test]
fn the_first_number_out_of_range_refuses(rt: HostRuntime) {
    for (p, c, m, k, name, want) in &[
        (0, 0, 300, 0, Bits, SetupFault::BadProducers),
        (1, 65, 0, 1, Middle, SetupFault::BadConsumers),
        (1, 17, 300, 0, Bits, SetupFault::BadCells),
        (1, 1, 257, 0, Bits, SetupFault::BadCells),
        (1, 1, 256, 9, Bits, SetupFault::BadRounds),
    ] {
        same_at(
            &rt,
            &Setup::new(*p, *c, *m, *k, *name),
            &Err(*want),
            &(p, c, m, k),
        );
    }
}
