//! The numbers and the layout that make up a world, and when the numbers are refused.
ghost use Rattle.std.specs.Prelude.{◌≤◌};
ghost use Rattle.mb_claim.specs.declared.layout.TheConstants.{MAX_LARGE_CELLS};

use mb_claim::{BadLayout, Layout, MAX_CELLS, MAX_LARGE_CELLS, Shape};
use mb_quorum::TableName;
use std::error::Error;
use std::fmt;

/// The most producers that a setup can have. The least is 1.
pub const MAX_PRODUCERS: u64 = 16;

/// The numbers of producers, consumers and cells, and the deciding objects of each cell. A setup holds their layout, so
/// it is not `Copy`. A second one is made by [`Setup::copy`].
#[derive(PartialEq, Eq, Debug, Drop)]
pub struct Setup {
    producers: u32,
    cells: u32,
    layout: Layout,
    pub ghost some: { 1 ≤ producers },
    pub ghost few: { producers ≤ 16 },
    pub ghost small: { cells ≤ MAX_LARGE_CELLS },
}

/// Why a setup is refused.
#[derive(Clone, Copy, PartialEq, Eq, Debug)]
pub enum SetupFault {
    /// The number of producers is not in `1..=MAX_PRODUCERS`.
    BadProducers,
    /// The number of consumers is 0 or above 64.
    BadConsumers,
    /// There are more cells than the call takes: 256 for [`Setup::new`], 2^24 for `Setup::large` and `Setup::exchange`.
    BadCells,
    /// The number of pairs of deciding objects is 0 or above 8.
    BadRounds,
}

impl fmt::Display for SetupFault {
    fn fmt<W: fmt::Write>(&self, f: &mut fmt::Formatter<W>) -> fmt::Result {
        f.write_str(match self {
            SetupFault::BadProducers => "the number of producers is out of range",
            SetupFault::BadConsumers => "the number of consumers is out of range",
            SetupFault::BadCells => "the number of cells is out of range",
            SetupFault::BadRounds => "the number of pairs is out of range",
        })
    }
}

impl Error for SetupFault {}

impl Setup {
    ghost use Rattle.std.specs.Prelude.{◌≡◌, ◌≤◌, true, IsOk, IfOk, Err, MatchOption};
    ghost use Rattle.std.specs.Prelude.{ℕ};
    ghost use Rattle.mb_quorum.specs.declared.table.TableName.{TableName};
    ghost use Rattle.mb_claim.specs.Layouts.{most_accesses, plain, with_last};
    ghost use Rattle.mb_quorum.specs.declared.table.TableName.TheVariants.{Bits};
    ghost use Rattle.mb_claim.specs.declared.layout.TheConstants.{MAX_LARGE_CELLS};
    ghost use Rattle.mb_claim.specs.declared.shape.Shape.{Shape};
    ghost use Rattle.mb_world.specs.Plan.{consumers_of};
    ghost use Rattle.mb_world.specs.Setups.{layout_of, pairs_in, plan_in, plan_of, shape_in, shaped_plan};
    ghost use Rattle.mb_world.specs.Setups.{large_refusal, refusal_above, setup_refusal};

    /// The setup of `producers` (1 to 16), `consumers` (1 to 64) and `cells` (0 to 256). Each cell has `pairs` pairs of
    /// deciding objects (1 to 8) over the quorum table `name`, and nothing beside them. If several numbers are out of
    /// range, the error is the first of these: `BadProducers`, `BadConsumers`, `BadCells`, `BadRounds` (the pairs).
    pub fn new(
        producers: u64,
        consumers: u64,
        cells: u64,
        pairs: u64,
        name: TableName,
    ) -> Result<Setup, SetupFault>
        ensures refused { MatchOption (setup_refusal producers consumers cells pairs) (IsOk result)
            (λ fault. result ≡ Err fault) }
        ensures made { IfOk result
            (λ setup. plan_in setup ≡ plan_of producers consumers cells pairs name) }
        ensures pairs { IfOk result (λ setup. pairs_in setup ≡ pairs) }
        ensures shape { IfOk result (λ setup. shape_in setup ≡ plain) }
        ensures some { IfOk result (λ setup. 1 ≤ pairs_in setup) }
    {
        Setup::up_to(MAX_CELLS, producers, consumers, cells, pairs, name)
    }

    /// A setup as [`Setup::new`] makes it, but of up to 2^24 cells. The faults have the same order. The memory of a
    /// mailbox or a world grows with the number of its cells. A script may have at most 256.
    pub fn large(
        producers: u64,
        consumers: u64,
        cells: u64,
        pairs: u64,
        name: TableName,
    ) -> Result<Setup, SetupFault>
        ensures refused { MatchOption (large_refusal producers consumers cells pairs) (IsOk result)
            (λ fault. result ≡ Err fault) }
        ensures made { IfOk result
            (λ setup. plan_in setup ≡ plan_of producers consumers cells pairs name) }
        ensures pairs { IfOk result (λ setup. pairs_in setup ≡ pairs) }
        ensures shape { IfOk result (λ setup. shape_in setup ≡ plain) }
        ensures some { IfOk result (λ setup. 1 ≤ pairs_in setup) }
    {
        Setup::up_to(MAX_LARGE_CELLS, producers, consumers, cells, pairs, name)
    }

    /// The setup of `producers` (1 to 16), `consumers` (1 to 64) and `cells` (0 to 2^24) whose cells have a last object
    /// alone. So a claim is one exchange. The faults are those of [`Setup::large`], but for `BadRounds`: there are no
    /// pairs.
    pub fn exchange(producers: u64, consumers: u64, cells: u64) -> Result<Setup, SetupFault>
        ensures refused { MatchOption (large_refusal producers consumers cells 1) (IsOk result)
            (λ fault. result ≡ Err fault) }
        ensures made { IfOk result
            (λ setup. plan_in setup ≡ shaped_plan with_last producers consumers cells 0 Bits) }
        ensures pairs { IfOk result (λ setup. pairs_in setup ≡ 0) }
        ensures shape { IfOk result (λ setup. shape_in setup ≡ with_last) }

        // So a poll never needs a budget above 3. No claim ends undecided.
        ensures bound { IfOk result (λ setup. most_accesses (layout_of setup) ≡ 1) }
    {
        if !(1..=MAX_PRODUCERS).contains(&producers) {
            return Err(SetupFault::BadProducers);
        }
        let Ok(layout) = Layout::exchange(consumers) else {
            return Err(SetupFault::BadConsumers);
        };
        if cells > u64::from(MAX_LARGE_CELLS) {
            return Err(SetupFault::BadCells);
        }
        Ok(Setup {
            producers: producers as u32,
            cells: cells as u32,
            layout,
        })
    }

    /// The setup of these numbers with at most `most` cells, or the first fault.
    fn up_to(
        most: u32,
        producers: u64,
        consumers: u64,
        cells: u64,
        pairs: u64,
        name: TableName,
    ) -> Result<Setup, SetupFault>
        requires { most ≤ MAX_LARGE_CELLS }
        ensures refused { MatchOption (refusal_above most producers consumers cells pairs)
            (IsOk result) (λ fault. result ≡ Err fault) }
        ensures made { IfOk result
            (λ setup. plan_in setup ≡ plan_of producers consumers cells pairs name) }
        ensures pairs { IfOk result (λ setup. pairs_in setup ≡ pairs) }
        ensures shape { IfOk result (λ setup. shape_in setup ≡ plain) }
        ensures some { IfOk result (λ setup. 1 ≤ pairs_in setup) }
    {
        if !(1..=MAX_PRODUCERS).contains(&producers) {
            return Err(SetupFault::BadProducers);
        }
        let layout = Layout::new(consumers, pairs, name);
        if let Err(BadLayout::BadConsumers) = layout {
            return Err(SetupFault::BadConsumers);
        }
        if cells > u64::from(most) {
            return Err(SetupFault::BadCells);
        }
        match layout {
            Ok(layout) => Ok(Setup {
                producers: producers as u32,
                cells: cells as u32,
                layout,
            }),
            Err(_) => Err(SetupFault::BadRounds),
        }
    }

    /// This setup, but with this shape for each cell. The shape that the cells had before makes no difference. Without
    /// pairs the cells keep their last object, since they have no other.
    pub fn shaped(&self, shape: Shape) -> Setup
        ensures table { (plan_in result).claims.table ≡ (plan_in self.now).claims.table }
        ensures cells { (plan_in result).claims.cells ≡ (plan_in self.now).claims.cells }
        ensures lanes { (plan_in result).lanes ≡ (plan_in self.now).lanes }
        ensures plan { (s : Shape) (p c m k : ℕ) (t : TableName)
            → plan_in self.now ≡ shaped_plan s p c m k t → pairs_in self.now ≡ k
            → 1 ≤ pairs_in self.now → plan_in result ≡ shaped_plan shape p c m k t }
        ensures pairs { pairs_in result ≡ pairs_in self.now }
        ensures shape { 1 ≤ pairs_in self.now → shape_in result ≡ shape }
        ensures alone { pairs_in self.now ≡ 0
            → shape_in result ≡ record { fast = shape.fast; last = true } }
    {
        Setup {
            producers: self.producers,
            cells: self.cells,
            layout: self.layout.shaped(shape),
        }
    }

    /// A second setup that is the same.
    pub fn copy(&self) -> Setup
        ensures { result ≡ self.now }
    {
        Setup {
            producers: self.producers,
            cells: self.cells,
            layout: self.layout.copy(),
        }
    }

    /// How many producers there are. Each has a lane of its own.
    pub fn producers(&self) -> u64
        ensures { result ≡ (plan_in self.now).lanes }
    {
        u64::from(self.producers)
    }

    /// How many consumers there are.
    pub fn consumers(&self) -> u64
        ensures { result ≡ consumers_of (plan_in self.now) }
    {
        u64::from(self.layout.consumers())
    }

    /// How many cells there are.
    pub fn cells(&self) -> u64
        ensures { result ≡ (plan_in self.now).claims.cells }
    {
        u64::from(self.cells)
    }

    /// The deciding objects of each cell, and where their words lie.
    pub fn layout(&self) -> Layout
        ensures { result ≡ layout_of self.now }
    {
        self.layout.copy()
    }

    /// The layout without a copy, for the calls of this crate.
    #[inline(always)]
    pub(crate) fn as_layout(&self) -> &Layout
        ensures { result.now ≡ layout_of self.now }
    {
        &self.layout
    }
}
