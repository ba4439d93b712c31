//! The command `replay` on further scripts, and over devices that fail.

use crate::compare::{same, same_at};
use crate::devices::{Letters, NarrowWriter, SlowReader};
use crate::examples::claims::ITEM_TAKEN;
use mb_script::{CountingIo, Fault, report_text, run};
use mb_world::Note;
use std::alloc::{AllocError, Allocator, Global};
use std::process::Abort;
use test_support::made_up;

// Replays the script, with this allocator for all but what is written. Returns how the call ended, and what was written.
pub(crate) fn replayed<R: AllocGlobal, A: Allocator + Copy>(
    rt: &R,
    alloc: A,
    script: &str,
) -> (Result<(), Fault>, Vec<u8>) {
    replayed_bytes(rt, alloc, script.as_bytes())
}

// Replays the script of these bytes, as `replayed` does that of a text.
fn replayed_bytes<R: AllocGlobal, A: Allocator + Copy>(
    rt: &R,
    alloc: A,
    script: &[u8],
) -> (Result<(), Fault>, Vec<u8>) {
    let mut reader = CountingIo::new(script);
    let mut writer = CountingIo::new(Vec::<u8>::new(rt.alloc()));
    let result = run(alloc, &mut reader, &mut writer);
    (result, writer.device)
}

/// Scripts with their first fault, for which nothing is written, even if a script begins with good lines.
const REFUSED: &[(&str, Fault)] = &[
    ("", Fault::NoSetup),
    ("\n", Fault::NoSetup),
    (" setup 1 1 1 1 bits\n", Fault::NoSetup),
    ("setup 1 1 1 1\n", Fault::BadLine(1)),
    ("setup 1 1 1 1 bits\r\n", Fault::BadLine(1)),
    ("setup 0 17 300 x bits\n", Fault::BadNumber(1)),
    ("setup 1 1 1 1 bits\noffer 0\n", Fault::BadLine(2)),
    ("setup 1 1 1 1 bits\npush  0\n", Fault::BadLine(2)),
    ("setup 1 1 1 1 bits\npush 0 \n", Fault::BadLine(2)),
    ("setup 1 1 1 1 bits\n\n", Fault::BadLine(2)),
    (
        "setup 1 1 1 1 bits\nsetup 1 1 1 1 bits\n",
        Fault::BadLine(2),
    ),
    (
        "setup 1 1 1 1 bits\npush 18446744073709551616\n",
        Fault::BadNumber(2),
    ),
    (
        "setup 1 1 1 1 bits\npush 18446744073709551615\n",
        Fault::NoLane(2),
    ),
    ("setup 1 1 1 1 bits\nstep 5 5 0\n", Fault::NoLane(2)),
    ("setup 1 1 1 1 bits\nstep 0 1x 0\n", Fault::BadNumber(2)),
    ("setup 1 1 0 1 bits\npush 00\n", Fault::BadNumber(2)),
    ("setup 1 16 0 1 bits\nstep 16 0 0\n", Fault::NoConsumer(2)),
    ("setup 1 16 0 1 bits\nstep 16 1 0\n", Fault::NoLane(2)),
    // The seventh word names no shape.
    ("setup 1 1 1 1 bits plain\n", Fault::BadLine(1)),
];

#[test]
fn a_fault_leaves_nothing_written(rt: HostRuntime) {
    for &(script, want) in REFUSED {
        let (result, text) = replayed(&rt, rt.alloc(), script);
        same_at(&rt, &(result, text.len()), &(Err(want), 0), &script);
    }
}

// The least byte that is not ASCII comes after a bad line. The fault is that byte, and not the line.
#[test]
fn a_byte_128_is_not_ascii(rt: HostRuntime) {
    let mut script = Vec::new(rt.alloc());
    script
        .extend_from_slice("setup 1 1 1 1 bits\npush\npush ".as_bytes())
        .expect(&rt, "no script");
    script.push(128).expect(&rt, "no script");
    let (result, text) = replayed_bytes(&rt, rt.alloc(), script.as_slice());
    same(&rt, &(result, text.len()), &(Err(Fault::NotAscii), 0));
}

// The text `first`, then `count` times the text `line`, then the text `last`.
fn repeated(
    alloc: Global,
    first: &str,
    line: &str,
    count: usize,
    last: &str,
) -> Result<String, AllocError> {
    let mut text = first.to_string(alloc)?;
    for _ in 0..count {
        text.push_str(line)?;
    }
    text.push_str(last)?;
    Ok(text)
}

// The text `first`, then `count` pushes on a lane where nothing was offered, then the text `last`.
fn pushes<R: Abort + AllocGlobal>(rt: &R, first: &str, count: usize, last: &str) -> String {
    repeated(rt.alloc(), first, "push 0\n", count, last).expect(rt, "no script")
}

// What is written for a script of `count` pushes on a lane where nothing was offered: their results, and the report.
fn answers<R: Abort + AllocGlobal>(rt: &R, count: usize) -> String {
    let report = "lane 0 open put\nleft 0\ndiary 0 0\n";
    repeated(rt.alloc(), "", "push 0 idle\n", count, report).expect(rt, "no answer")
}

#[test]
fn many_events_are_replayed(rt: HostRuntime) {
    let script = pushes(&rt, "setup 1 1 1 1 bits\n", 20_000, "");
    let (result, text) = replayed(&rt, rt.alloc(), &script);
    let is_whole = text.as_slice() == answers(&rt, 20_000).as_bytes();
    same(&rt, &(result, is_whole), &(Ok(()), true));
}

// A line after as many events as are allowed is one too many, whatever it says. A bad line before it is the fault.
#[test]
fn a_script_has_a_limit_of_events(rt: HostRuntime) {
    for (first, count, want) in &[
        ("setup 1 1 1 1 bits\n", 20_000, Fault::TooManyEvents),
        (
            "setup 1 1 1 1 bits\npush 0\npush\n",
            19_998,
            Fault::BadLine(3),
        ),
    ] {
        let script = pushes(&rt, *first, *count, "x\n");
        let (result, text) = replayed(&rt, rt.alloc(), &script);
        same(&rt, &(result, text.len()), &(Err(*want), 0));
    }
}

/// Checks that a text that was made is `want`. Returns whether one was made.
pub(crate) fn is_text<A: Allocator, E: Drop>(
    rt: &impl Abort,
    told: Result<String<A>, E>,
    want: &str,
) -> bool {
    match told {
        Ok(text) => {
            same(rt, &text.as_str(), &want);
            true
        }
        Err(_) => false,
    }
}

/// Whether the allocator serves the text of a report of a lane with these items, on which an only consumer has these
/// notes. Checks that the text is `want`.
pub(crate) fn report_is_served<R: Abort + AllocGlobal, A: Allocator + Drop>(
    rt: &R,
    alloc: A,
    items: &[u64],
    notes: &[Note],
    want: &str,
) -> bool {
    let report = made_up(rt.alloc(), &[(items, true, &[])], &[(0, 0, notes, false)]);
    let report = report.expect(rt, "no report");
    let told = report_text(alloc, &report);
    drop(report);
    is_text(rt, told, want)
}

// The report is of one item, which a consumer took.
#[test]
fn a_report_has_its_text(rt: HostRuntime) {
    let want = "lane 0 ended put 5\nleft 0\ndiary 0 0 took 5\n";
    let is_made = report_is_served(&rt, rt.alloc(), &[5], &[Note::Took(5)], want);
    same(&rt, &is_made, &true);
}

/// A case of `DEVICES`. `None` is the script of the example, or what the example writes.
type DeviceRow = (
    Option<&'static str>,
    bool,
    usize,
    bool,
    Result<(), Fault>,
    Option<&'static str>,
);

/// A case has the script, whether the reader fails at its end, the writer's room, whether the writer then fails, the
/// result, and what was written.
const DEVICES: &[DeviceRow] = &[
    (None, false, 1000, false, Ok(()), None),
    (None, true, 1000, false, Err(Fault::ReadFault), Some("")),
    (Some(""), true, 1000, false, Err(Fault::ReadFault), Some("")),
    (
        None,
        false,
        10,
        true,
        Err(Fault::WriteFault),
        Some("offer 0 7 "),
    ),
    (
        None,
        false,
        10,
        false,
        Err(Fault::WriteFault),
        Some("offer 0 7 "),
    ),
];

#[test]
fn devices_fail(rt: HostRuntime) {
    let example = ITEM_TAKEN;
    for &(script, reader_fails, room, writer_fails, want, written) in DEVICES {
        let script = script.unwrap_or(example.input);
        let written = written.unwrap_or(example.output);
        let mut reader = CountingIo::new(SlowReader {
            script: script.as_bytes(),
            fails: reader_fails,
        });
        let mut writer = CountingIo::new(NarrowWriter {
            taken: Vec::new(rt.alloc()),
            room,
            fails: writer_fails,
        });
        let result = run(rt.alloc(), &mut reader, &mut writer);
        same(
            &rt,
            &(
                result,
                writer.device.taken.as_slice(),
                reader.failures,
                writer.failures,
            ),
            &(
                want,
                written.as_bytes(),
                u64::from(reader_fails),
                u64::from(want == Err(Fault::WriteFault)),
            ),
        );
    }
}

/// A case has how many letters the reader gives, whether it then fails, and the fault. At most one byte past the limit
/// is read.
const LENGTHS: &[(usize, bool, Fault)] = &[
    (1_048_576, false, Fault::NoSetup),
    (1_048_576, true, Fault::ReadFault),
    (1_048_577, true, Fault::TooLong),
    (1_048_578, false, Fault::TooLong),
];

#[test]
fn reading_stops_past_the_limit(rt: HostRuntime) {
    for &(left, fails, want) in LENGTHS {
        let mut reader = CountingIo::new(Letters { left, fails });
        let mut writer = CountingIo::new(Vec::<u8>::new(rt.alloc()));
        let result = run(rt.alloc(), &mut reader, &mut writer);
        same_at(
            &rt,
            &(result, reader.device.left, writer.device.len()),
            &(Err(want), left.saturating_sub(1_048_577), 0),
            &left,
        );
    }
}
