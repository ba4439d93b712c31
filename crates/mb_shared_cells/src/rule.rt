//! The rule of a table, and what its steps say.
use crate::views::View;
use atomic_table::{Join, Play, Split, TableRule};
use mb_cells::PoolSize;
use std::marker::{Brand, PhantomData};

/// The words and the views together are a state of the cells: one lawful history leaves the words, and its parts are
/// those of the views.
pub struct CellsRule;

impl TableRule<(), View, PoolSize> for CellsRule {
    ghost use Rattle.mb_shared_cells.specs.Rule.{KeepsCells};
    ghost use Rattle.mb_shared_cells.specs.Views.{first_view};

    ghost holds = { KeepsCells };

    ghost first = { first_view };
}

/// The access that a step makes: its word, and its act for each number that the step may find or store. A proof picks
/// both where the step is called.
pub trait AccessSpec {
    ghost use Rattle.std.specs.Prelude.{ℕ};
    ghost use Rattle.mb_cells.specs.declared.access.PoolAct.{PoolAct};
    ghost use Rattle.mb_cells.specs.declared.access.Word.{Word};

    ghost word: { Word };

    ghost act: { ℕ → PoolAct };
}

// A call names `Brand`, and the caller's `Invariants.antt` picks the access. The two members here are not used.
impl AccessSpec for Brand {
    ghost use Rattle.mb_cells.specs.declared.access.PoolAct.TheVariants.{Load};
    ghost use Rattle.mb_cells.specs.declared.access.Word.TheVariants.{Counter};

    ghost word = { Counter };

    ghost act = { λ n. Load n };
}

/// The step of an access: the access is then in the part of the seat that makes it.
pub struct MakeAccess<W> {
    of: PhantomData<W>,
}

impl<W: AccessSpec> Play<(), View> for MakeAccess<W> {
    ghost use Rattle.mb_shared_cells.specs.Views.{MakesAccess};

    ghost then = { λ s v n w. MakesAccess W.word (W.act n) v w };
}

/// The hub's step on the roster, which draws the next lane's number.
pub struct Draws;

impl Play<(), View> for Draws {
    ghost use Rattle.mb_shared_cells.specs.Views.{DrawsNumber};

    ghost then = { DrawsNumber };
}

/// The hub's load after a join. It says that the seat was not returned before, and puts its part into the roll.
pub struct TakesIn;

impl Play<(), View> for TakesIn {
    ghost use Rattle.mb_shared_cells.specs.Views.{TakesPart};

    ghost then = { TakesPart };
}

/// How the hub's view is split for a new lane or reader, and joined with the view of a seat that is returned.
pub struct Parts;

impl Split<View> for Parts {
    ghost use Rattle.mb_shared_cells.specs.Views.{hub_after_split, newcomer};

    ghost left = { hub_after_split };

    ghost right = { newcomer };
}

impl Join<View> for Parts {
    ghost use Rattle.mb_shared_cells.specs.declared.views.View.TheVariants.{Empty};
    ghost use Rattle.mb_shared_cells.specs.Views.{hub_after_join};

    ghost both = { hub_after_join };

    ghost spent = { Empty };
}
