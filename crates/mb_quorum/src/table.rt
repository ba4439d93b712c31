//! Tables that are chosen by name when the program runs.
ghost use Rattle.std.specs.Prelude.{◌≡◌, ◌<◌, ◌≤◌, ℕ, slice_index};
ghost use Rattle.mb_quorum.specs.declared.values.TheConstants.{MAX_VALUES};
ghost use Rattle.mb_quorum.specs.Tables.{table_of};

use crate::{BadValues, Bits, MAX_VALUES, Middle, Quorums, Unary, checked_values};

/// The name of a table of this crate.
#[derive(Clone, Copy, Debug, PartialEq, Eq, Hash)]
pub enum TableName {
    /// The table of type [`Unary`](crate::Unary).
    Unary,

    /// The table of type [`Bits`](crate::Bits).
    Bits,

    /// The table of type [`Middle`](crate::Middle).
    Middle,
}

/// A table chosen by its name when the program runs.
///
/// A table keeps the quorums of each value, so that they are computed once. With them it has some 1,040 bytes. It is
/// not `Copy`, and a copy has to be asked for: [`Table::copy`].
#[derive(Debug, PartialEq, Eq, Hash, Drop)]
pub struct Table {
    name: TableName,
    values: u32,
    registers: u32,
    write: [u64; MAX_VALUES as usize],
    read: [u64; MAX_VALUES as usize],
    pub ghost least: { 1 ≤ values },
    pub ghost most: { values ≤ MAX_VALUES },
    pub ghost counted: { registers ≡ (table_of name values).registers },
    pub ghost writes: { (v : ℕ) → v < values
        → slice_index write v ≡ (table_of name values).write v },
    pub ghost reads: { (v : ℕ) → v < values
        → slice_index read v ≡ (table_of name values).read v },
}

impl Quorums for Table {
    ghost use Rattle.mb_quorum.specs.Chosen.{chosen_table};
    ghost use Rattle.mb_quorum.specs.TablesLaw.{chosen_lawful};

    ghost table = { chosen_table };

    ghost lawful = { chosen_lawful };

    #[inline(always)]
    fn registers(&self) -> u32 {
        self.registers
    }

    #[inline(always)]
    fn values(&self) -> u32 {
        self.values
    }

    #[inline(always)]
    fn write_quorum(&self, v: u32) -> u64 {
        self.write[v as usize]
    }

    #[inline(always)]
    fn read_quorum(&self, v: u32) -> u64 {
        self.read[v as usize]
    }
}

impl Table {
    ghost use Rattle.std.specs.Prelude.{◌≡◌, ◌↔◌, IsOk, IfOk};

    /// The table of this name with m values, or `BadValues` if m is not in `1..=MAX_VALUES`.
    pub fn new(name: TableName, m: u64) -> Result<Table, BadValues>
        ensures range { IsOk result ↔ ((1 ≤ m) × (m ≤ MAX_VALUES)) }
        ensures table { IfOk result (λ q. ⟦<Table as Quorums>⟧.table q ≡ table_of name m) }
        ensures values { IfOk result (λ q. (⟦<Table as Quorums>⟧.table q).values ≡ m) }
    {
        let values = checked_values(m)?;
        let mut write = [0; MAX_VALUES as usize];
        let mut read = [0; MAX_VALUES as usize];
        for v in 0..values {
            write[v as usize] = name.write_quorum(values, v);
            read[v as usize] = name.read_quorum(values, v);
        }
        Ok(Table {
            name,
            values,
            registers: name.registers(values),
            write,
            read,
        })
    }

    /// A copy of the table.
    pub fn copy(&self) -> Table
        ensures { result ≡ self.now }
    {
        Table {
            name: self.name,
            values: self.values,
            registers: self.registers,
            write: self.write,
            read: self.read,
        }
    }
}

impl TableName {
    /// How many registers the named table of `values` values has.
    fn registers(self, values: u32) -> u32
        requires least { 1 ≤ values }
        requires most { values ≤ MAX_VALUES }
        ensures { result ≡ (table_of self values).registers }
    {
        match self {
            TableName::Unary => Unary::of(values).registers(),
            TableName::Bits => Bits::of(values).registers(),
            TableName::Middle => Middle::of(values).registers(),
        }
    }

    /// The write quorum of v in the named table of `values` values.
    fn write_quorum(self, values: u32, v: u32) -> u64
        requires least { 1 ≤ values }
        requires most { values ≤ MAX_VALUES }
        requires value { v < values }
        ensures { result ≡ (table_of self values).write v }
    {
        match self {
            TableName::Unary => Unary::of(values).write_quorum(v),
            TableName::Bits => Bits::of(values).write_quorum(v),
            TableName::Middle => Middle::of(values).write_quorum(v),
        }
    }

    /// The read quorum of v in the named table of `values` values.
    fn read_quorum(self, values: u32, v: u32) -> u64
        requires least { 1 ≤ values }
        requires most { values ≤ MAX_VALUES }
        requires value { v < values }
        ensures { result ≡ (table_of self values).read v }
    {
        match self {
            TableName::Unary => Unary::of(values).read_quorum(v),
            TableName::Bits => Bits::of(values).read_quorum(v),
            TableName::Middle => Middle::of(values).read_quorum(v),
        }
    }
}
