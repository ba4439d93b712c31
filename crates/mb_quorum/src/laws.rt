//! Facts about the tables, for proofs that build on them. Each is the contract of a function that computes nothing.
//!
//! If the prover needs help with a law, its proof is in `proofs/laws`, in a folder of its name. The lemmas that the
//! tables are lawful are beside the tables, in `specs/UnaryLaw.antt`, `BitsLaw.antt`, `MiddleLaw.antt` and
//! `TablesLaw.antt`.

ghost use Rattle.std.specs.Prelude.{◌≡◌, ◌≢◌, ℕ, ◌+◌, ◌-◌, ◌*◌, ◌/◌, ◌^◌, ◌<◌, ◌≤◌, ◌↔◌, bit_and, count_ones};
ghost use Rattle.std.specs.Int.{bit_at};
ghost use Rattle.mb_quorum.specs.declared.table.Table.{Table};
ghost use Rattle.mb_quorum.specs.declared.table.TableName.{TableName};
ghost use Rattle.mb_quorum.specs.declared.values.TheConstants.{MAX_VALUES};
ghost use Rattle.mb_quorum.specs.Vocabulary.{QuorumTable, IsQuorumTable, IsMember, table_of, chosen_table};
ghost use Rattle.mb_quorum.specs.Vocabulary.{unary_table, bits_table, middle_table, width_of, IsLeastWidth};
ghost use Rattle.mb_quorum.specs.Vocabulary.{choose, set_number, IsLeastBreadth};

use crate::Quorums;

/// Each table of a type that is `Quorums` keeps the law of quorum tables.
pub fn every_table_is_lawful<Q: Quorums>(table: &Q)
    ensures { IsQuorumTable (Q.table table.now) }
{}

/// In every lawful table, a write quorum and a read quorum share no bit exactly if they belong to one value.
pub fn masks_tell_values_apart()
    ensures { (t : QuorumTable) (v w : ℕ) → IsQuorumTable t → v < t.values → w < t.values
        → (bit_and (t.write v) (t.read w) ≡ 0) ↔ (v ≡ w) }
{}

/// Each named table of at most `MAX_VALUES` values keeps the law of quorum tables. It has as many values as asked for.
pub fn named_tables_are_lawful()
    ensures lawful { (name : TableName) (m : ℕ) → m ≤ MAX_VALUES → IsQuorumTable (table_of name m) }
    ensures values { (name : TableName) (m : ℕ) → (table_of name m).values ≡ m }
{}

/// A table chosen by name keeps the law of quorum tables. It has at least one value and at most `MAX_VALUES`.
pub fn chosen_tables_are_lawful()
    ensures lawful { (table : Table) → IsQuorumTable (chosen_table table) }
    ensures least { (table : Table) → 1 ≤ (chosen_table table).values }
    ensures most { (table : Table) → (chosen_table table).values ≤ MAX_VALUES }
{}

/// In the unary table, a write quorum holds the value's own register, and a read quorum holds all others.
pub fn unary_quorums_are_own_and_others()
    ensures write { (m v r : ℕ) → v < m → IsMember ((unary_table m).write v) r ↔ (r ≡ v) }
    ensures read { (m v r : ℕ) → v < m → IsMember ((unary_table m).read v) r ↔ ((r < m) × (r ≢ v)) }
{}

/// In the bit table, a write quorum holds exactly the registers 2i + (bit i of its value), for each i below the width.
/// A read quorum holds for each such i the other one of the registers 2i and 2i + 1, and no more.
pub fn bits_quorums_follow_the_bits()
    ensures write { (m v r : ℕ) → IsMember ((bits_table m).write v) r
        ↔ ((i : ℕ) × (i < width_of m) × (r ≡ 2 * i + bit_at v i)) }
    ensures read { (m v r : ℕ) → IsMember ((bits_table m).read v) r
        ↔ ((i : ℕ) × (i < width_of m) × (r ≡ 2 * i + 1 - bit_at v i)) }
{}

/// The sets of h registers among n are numbered from 0, by rising mask, each once. In the middle table the write quorum
/// of v is set number v of the sets of half of the registers, rounded down. Its read quorum holds all other registers.
/// Fewer registers have fewer such sets than values.
pub fn middle_quorums_are_sets_by_rising_mask()
    ensures within { (n h v : ℕ) → set_number n h v < 2 ^ n }
    ensures size { (n h v : ℕ) → v < choose n h → count_ones (set_number n h v) ≡ h }
    ensures rise { (n h v w : ℕ) → v < w → w < choose n h → set_number n h v < set_number n h w }
    ensures all { (n h x : ℕ) → x < 2 ^ n → count_ones x ≡ h
        → (v : ℕ) × (v < choose n h) × (x ≡ set_number n h v) }
    ensures registers { (m : ℕ) → IsLeastBreadth m (middle_table m).registers }
    ensures write { (m v : ℕ) → v < m → (middle_table m).write v
        ≡ set_number (middle_table m).registers ((middle_table m).registers / 2) v }
    ensures read { (m v r : ℕ) → v < m → IsMember ((middle_table m).read v) r
        ↔ ((r < (middle_table m).registers) × (IsMember ((middle_table m).write v) r → ⊥)) }
{}

/// The width for m values (`width_of`), half the registers of their bit table, is the least number b with `m <= 2^b`.
pub fn width_is_the_least()
    ensures { (m : ℕ) → IsLeastWidth m (width_of m) }
{}

/// A table of this crate can have at most 64 values (`MAX_VALUES`).
pub fn max_values_is_sixty_four()
    ensures { MAX_VALUES ≡ 64 }
{}
