//! The command `ratify` on further scripts, and over devices that fail.

use crate::compare::{same, same_at};
use crate::devices::{NarrowWriter, SlowReader};
use crate::examples::ratifiers::LATE_INPUT;
use mb_program::{RatifyFault, ratify_text, read_script};
use mb_quorum::TableName;
use mb_script::CountingIo;
use std::alloc::Allocator;

// Runs the script, with this allocator for all but what is written. Returns how the call ended, and what was written.
pub(crate) fn ratified<R: AllocGlobal, A: Allocator + Copy>(
    rt: &R,
    alloc: A,
    script: &str,
) -> (Result<(), RatifyFault>, Vec<u8>) {
    let mut reader = CountingIo::new(script.as_bytes());
    let mut writer = CountingIo::new(Vec::<u8>::new(rt.alloc()));
    let result = ratify_text(alloc, &mut reader, &mut writer);
    (result, writer.device)
}

#[test]
fn a_script_is_read(rt: HostRuntime) {
    let bytes = LATE_INPUT.input.as_bytes();
    let script = read_script(rt.alloc(), bytes).expect(&rt, "a script that is refused");
    same(&rt, &(script.table, script.values), &(TableName::Unary, 2));
    let lists = (script.inputs.as_slice(), script.turns.as_slice());
    same(
        &rt,
        &lists,
        &([0, 1].as_slice(), [0, 0, 0, 0, 1, 1, 1].as_slice()),
    );
}

/// A case has a script, and its fault.
const FAULTS: &[(&str, RatifyFault)] = &[
    ("", RatifyFault::BadLine(1)),
    (
        "ratify unary 02\ninputs\nturns\n",
        RatifyFault::BadNumber(1),
    ),
    ("ratify unary 2\ninputs \nturns\n", RatifyFault::BadLine(2)),
    ("ratify unary 2\ninputs\nturns\n\n", RatifyFault::BadLine(4)),
];

#[test]
fn a_fault_leaves_nothing_written(rt: HostRuntime) {
    for &(script, want) in FAULTS {
        let (result, text) = ratified(&rt, rt.alloc(), script);
        same_at(&rt, &(result, text.len()), &(Err(want), 0), &script);
    }
}

// Runs the command over a slow reader and a writer of this room. Returns the result, and what was written.
fn answered(
    rt: &HostRuntime,
    script: &'static str,
    reader_fails: bool,
    room: usize,
    writer_fails: bool,
) -> (Result<(), RatifyFault>, Vec<u8>) {
    let mut reader = CountingIo::new(SlowReader {
        script: script.as_bytes(),
        fails: reader_fails,
    });
    let mut writer = CountingIo::new(NarrowWriter {
        taken: Vec::new(rt.alloc()),
        room,
        fails: writer_fails,
    });
    let result = ratify_text(rt.alloc(), &mut reader, &mut writer);
    (result, writer.device.taken)
}

/// A case of `DEVICES`. `None` is the script of the example, or what the example writes.
type DeviceRow = (
    Option<&'static str>,
    bool,
    usize,
    bool,
    Result<(), RatifyFault>,
    Option<&'static str>,
);

/// A case has the script, whether the reader fails at its end, the writer's room, whether the writer then fails, the
/// result, and what was written.
const DEVICES: &[DeviceRow] = &[
    (None, false, 1000, false, Ok(()), None),
    (
        None,
        true,
        1000,
        false,
        Err(RatifyFault::ReadFault),
        Some(""),
    ),
    (
        Some(""),
        true,
        1000,
        false,
        Err(RatifyFault::ReadFault),
        Some(""),
    ),
    (
        None,
        false,
        10,
        true,
        Err(RatifyFault::WriteFault),
        Some("0 store q0"),
    ),
    (
        None,
        false,
        10,
        false,
        Err(RatifyFault::WriteFault),
        Some("0 store q0"),
    ),
];

#[test]
fn devices_fail(rt: HostRuntime) {
    let example = LATE_INPUT;
    for &(script, reader_fails, room, writer_fails, want, written) in DEVICES {
        let script = script.unwrap_or(example.input);
        let written = written.unwrap_or(example.output);
        let (result, text) = answered(&rt, script, reader_fails, room, writer_fails);
        same(&rt, &(result, text.as_slice()), &(want, written.as_bytes()));
    }
}
