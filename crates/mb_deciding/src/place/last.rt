//! What one process does in a last object.
use crate::access::{Op, Reg};
use crate::object::Out;

/// The place of one process in a last object, before its only access.
#[derive(Clone, Copy, PartialEq, Eq, Debug)]
pub struct LastPlace {
    /// The process's input.
    pub(crate) input: u32,
}

impl LastPlace {
    ghost use Rattle.std.specs.Prelude.{◌≡◌, ◌<◌, true};
    ghost use Rattle.mb_quorum.specs.Vocabulary.{QuorumTable};
    ghost use Rattle.mb_deciding.specs.{IsLastOp, LastReaches};
    ghost use Rattle.mb_deciding.specs.declared.place.pc.Next.TheVariants as leads;

    /// The access that the process makes next.
    #[inline(always)]
    pub(crate) fn next(self) -> Op
        ensures { IsLastOp self result }
    {
        Op::Exchange(Reg::Last, u64::from(self.input) + 1)
    }

    /// The output, in a last object for `values` values. `seen` is what the exchange found. If `seen - 1` is one of
    /// these values, the output has that value. Else, as after an empty word, it has the process's own input.
    #[inline(always)]
    pub(crate) fn after(self, values: u32, seen: u64) -> Out
        requires { self.input < values }
        ensures fits { result.value < values }
        ensures decided { result.decided ≡ true }
        ensures reached { (t : QuorumTable) → t.values ≡ values
            → LastReaches t self seen (leads.Out result) }
    {
        Out::decided(if 0 < seen && seen <= u64::from(values) {
            (seen - 1) as u32
        } else {
            self.input
        })
    }
}
