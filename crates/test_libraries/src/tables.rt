//! The registers, the values and the quorums of each kind of quorum table.

use crate::compare::same;
use mb_deciding::spread;
use mb_quorum::{BadValues, Bits, Middle, Quorums, Table, TableName, Unary, checked_values, width};

/// The write quorum and the read quorum of a value, through the trait.
fn quorums<Q: Quorums>(table: &Q, v: u32) -> Option<(u64, u64)> {
    if v < table.values() {
        Some((table.write_quorum(v), table.read_quorum(v)))
    } else {
        None
    }
}

/// How many registers and values a table has, and the quorums of one value.
type Shape = (u32, u32, Option<(u64, u64)>);

/// The shape of a table, with the quorums of this value.
fn shape<Q: Quorums>(table: &Q, v: u32) -> Shape {
    (table.registers(), table.values(), quorums(table, v))
}

/// The shape of the named table with m values.
fn named(name: TableName, m: u64, v: u32) -> Result<Shape, BadValues> {
    Ok(shape(&Table::new(name, m)?, v))
}

// A table that is made by its name has the registers, values and quorums of its kind.
#[test]
fn named_tables(rt: HostRuntime) {
    for (name, m, v, want) in &[
        (TableName::Unary, 3, 1, (3, 3, Some((2, 5)))),
        (TableName::Bits, 5, 4, (6, 5, Some((37, 26)))),
        (TableName::Middle, 5, 4, (4, 5, Some((10, 5)))),
    ] {
        same(&rt, &named(*name, *m, *v), &Ok(*want));
    }
}

#[test]
fn unary_tables(rt: HostRuntime) {
    for (m, v, want) in &[
        (3, 1, (3, 3, Some((2, 5)))),
        (17, 16, (17, 17, Some((0x10000, 0xffff)))),
    ] {
        let table = Unary::new(*m).expect(&rt, "no table");
        same(&rt, &shape(&table, *v), want);
    }
}

#[test]
fn bit_tables(rt: HostRuntime) {
    let table = Bits::new(5).expect(&rt, "no table");
    same(&rt, &shape(&table, 4), &(6, 5, Some((37, 26))));
}

#[test]
fn middle_tables(rt: HostRuntime) {
    for (m, v, want) in &[
        (5, 4, (4, 5, Some((10, 5)))),
        (64, 63, (8, 64, Some((212, 43)))),
        (64, 0, (8, 64, Some((15, 240)))),
    ] {
        let table = Middle::new(*m).expect(&rt, "no table");
        same(&rt, &shape(&table, *v), want);
    }
}

// Five values and eight are told apart by three bits, so a conciliator's last attempt is the fourth after the first.
#[test]
fn widths_of_values(rt: HostRuntime) {
    let told = (width(5), width(8), spread(8), checked_values(64));
    same(&rt, &told, &(3, 3, 4, Ok(64)));
}

#[test]
fn too_few_and_too_many_values(rt: HostRuntime) {
    for m in &[0, 65] {
        let m = *m;
        let faults = [
            Unary::new(m).err(),
            Bits::new(m).err(),
            Middle::new(m).err(),
        ];
        same(&rt, &faults, &[Some(BadValues); 3]);
    }
}
