//! What a type has to offer to serve as a quorum table.
/// A quorum table. Values and registers count from 0, and a quorum is a mask: register i is the bit of worth `2^i`.
///
/// No call takes memory. Each table proves the law `lawful` for itself. A user of a table needs that law alone: a
/// ratifier is correct over every lawful table.
///
/// A table of your own needs a `QuorumTable`, a lemma that this is an `IsQuorumTable`, and the four calls. In the
/// example, value v has the quorums that value m - 1 - v has in the unary table of m values. All of the example is in
/// `test_libraries`: `src/mirrored.rt`, and `mirrored` and `mirrored_lawful` in `specs/Mirrored.antt`.
///
/// ```
/// pub struct Mirrored {
///     unary: Unary,
/// }
///
/// impl Quorums for Mirrored {
///     ghost table = { λ q. mirrored (⟦<Unary as Quorums>⟧.table q.unary) };
///
///     ghost lawful = { λ q. mirrored_lawful (⟦<Unary as Quorums>⟧.table q.unary) (unary_lawful _ q.unary.most) };
///
///     fn registers(&self) -> u32 {
///         self.unary.registers()
///     }
///
///     fn values(&self) -> u32 {
///         self.unary.values()
///     }
///
///     fn write_quorum(&self, v: u32) -> u64 {
///         self.unary.write_quorum(self.values() - 1 - v)
///     }
///
///     fn read_quorum(&self, v: u32) -> u64 {
///         self.unary.read_quorum(self.values() - 1 - v)
///     }
/// }
/// ```
pub trait Quorums {
    ghost use Rattle.mb_quorum.specs.Quorum.{QuorumTable, IsQuorumTable};
    ghost use Rattle.std.specs.Prelude.{◌≡◌, ◌<◌};

    /// The table as plain data.
    ghost table: { Self → QuorumTable };

    /// How many registers there are, at most 64.
    fn registers(&self) -> u32
        ensures { result ≡ (table self.now).registers };

    /// How many values there are, at most 64.
    fn values(&self) -> u32
        ensures { result ≡ (table self.now).values };

    /// The mask of the registers that announce the value `v`. It needs a `v` below [`values`](Self::values).
    fn write_quorum(&self, v: u32) -> u64
        requires { v < (table self.now).values }
        ensures { result ≡ (table self.now).write v };

    /// The mask of the registers that are all unset as long as no value but `v` was announced. It needs a `v` below
    /// [`values`](Self::values).
    fn read_quorum(&self, v: u32) -> u64
        requires { v < (table self.now).values }
        ensures { result ≡ (table self.now).read v };

    /// Masks are below `2^registers`. A write quorum and a read quorum are disjoint exactly when they belong to one
    /// value.
    ghost lawful: { (q : Self) → IsQuorumTable (table q) };
}
