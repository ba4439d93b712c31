//! Plans of runs, drawn from a seed.

ghost use Rattle.std.specs.Prelude.{◌+◌, ◌*◌, ◌^◌, ◌<◌, ◌≤◌};

use crate::sources::chacha;
use mb_claim::Shape;
use mb_quorum::TableName;
use rand_core::Rng;

/// Who is stopped at the gate.
#[derive(Clone, Copy, PartialEq, Eq, Debug)]
pub enum Stops {
    /// Nobody is stopped.
    Nobody,
    /// Any worker may be stopped, at one call in this many.
    Anybody(u64),
    /// Every second consumer may be stopped, at one call in this many.
    HalfOfTheConsumers(u64),
}

/// The plan of a run: the numbers of its setup, and what its workers get.
#[derive(Clone, Copy, Debug)]
pub struct Plan {
    pub producers: u64,
    pub consumers: u64,
    pub cells: u64,
    /// How many pairs of deciding objects each cell has. If there are none, it has a last object alone.
    pub pairs: u64,
    /// The quorum table of the ratifiers.
    pub table: TableName,
    /// How many items each producer is to put.
    pub items: u64,
    /// The most accesses of one poll, if `whole` is false.
    pub budget: u64,
    /// Whether all random words are 0.
    pub zeros: bool,
    /// Who is stopped at the gate.
    pub stops: Stops,
    /// The seed of the gate.
    pub gate_seed: u64,
    /// What each cell has beside its pairs.
    pub shape: Shape,
    /// Whether each poll has a budget for a whole item, and not `budget`.
    pub whole: bool,
}

/// A random number from `least` to `least + amount - 1`.
fn drawn<R: Rng>(rng: &mut R, least: u64, amount: u64) -> u64
    requires some { 0 < amount }
    requires fits { least + amount < 2 ^ 64 }
    ensures range { (least ≤ result) × (result < least + amount) }
{
    least + rng.next_u64() % amount
}

/// Whether the next random word is even.
fn is_even<R: Rng>(rng: &mut R) -> bool {
    rng.next_u64() % 2 == 0
}

/// A random table of the three.
fn drawn_table<R: Rng>(rng: &mut R) -> TableName {
    match drawn(rng, 0, 3) {
        0 => TableName::Unary,
        1 => TableName::Bits,
        _ => TableName::Middle,
    }
}

/// A random shape of the four. Without pairs there is a last object alone.
fn drawn_shape<R: Rng>(rng: &mut R, pairs: u64) -> Shape {
    let (fast, last) = (is_even(rng), is_even(rng));
    Shape {
        fast: fast && pairs != 0,
        last: last || pairs == 0,
    }
}

impl Plan {
    /// The plan of the run with this number, of this seed.
    pub fn of(seed: u64, number: u64) -> Plan
        ensures producers { (1 ≤ result.producers) × (result.producers ≤ 16) }
        ensures consumers { (1 ≤ result.consumers) × (result.consumers ≤ 64) }
        ensures cells { result.cells ≤ 256 }
        ensures pairs { result.pairs ≤ 8 }
        ensures budget { (1 ≤ result.budget) × (result.budget ≤ 64) }
        ensures items { result.items ≤ 2 * result.cells + 1 }
    {
        let mut rng = chacha(seed, number, 0);
        let producers = drawn(&mut rng, 1, 16);
        let consumers = drawn(&mut rng, 1, 64);
        let cells = if is_even(&mut rng) {
            256
        } else {
            drawn(&mut rng, 0, 257)
        };
        let share = cells / producers;
        let items = if is_even(&mut rng) {
            share
        } else {
            drawn(&mut rng, 0, 2 * share + 2)
        };
        let stops = match drawn(&mut rng, 0, 4) {
            0 => Stops::Anybody(drawn(&mut rng, 2, 200)),
            1 => Stops::HalfOfTheConsumers(drawn(&mut rng, 2, 30)),
            _ => Stops::Nobody,
        };
        let pairs = drawn(&mut rng, 0, 9);
        let table = drawn_table(&mut rng);
        let budget = drawn(&mut rng, 1, 64);
        let zeros = is_even(&mut rng);
        let gate_seed = rng.next_u64();
        let shape = drawn_shape(&mut rng, pairs);
        Plan {
            producers,
            consumers,
            cells,
            pairs,
            table,
            items,
            budget,
            zeros,
            stops,
            gate_seed,
            shape,
            whole: shape.last && is_even(&mut rng),
        }
    }
}
