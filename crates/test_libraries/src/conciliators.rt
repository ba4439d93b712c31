//! Schedules of one conciliator.

use crate::compare::same;
use crate::entries::{ending, loaded, shows, stored};
use mb_deciding::{Entry, Fault, Out, Reg, conciliate};

#[test]
fn two_stores_leave_two_values(rt: HostRuntime) {
    let entries = [
        loaded(0, Reg::Value, 0),
        loaded(1, Reg::Value, 0),
        stored(0, Reg::Value, 1),
        ending(loaded(0, Reg::Value, 1), Out::undecided(0)),
        stored(1, Reg::Value, 2),
        ending(loaded(1, Reg::Value, 2), Out::undecided(1)),
    ];
    let turns = [(0, 0), (1, 0), (0, 0), (0, 0), (1, 0), (1, 0)];
    let returned = conciliate(rt.alloc(), 2, &[0, 1], &turns);
    let outputs = [Some(Out::undecided(0)), Some(Out::undecided(1))];
    assert!(rt; shows(&rt, returned, &entries, &outputs));
}

// With one value the first attempt stores if its random word is even. If it is odd, the second attempt stores.
#[test]
fn one_value(rt: HostRuntime) {
    let entries = [
        loaded(0, Reg::Value, 0),
        loaded(0, Reg::Value, 0),
        stored(0, Reg::Value, 1),
        ending(loaded(0, Reg::Value, 1), Out::undecided(0)),
        Entry::Done { process: 0 },
    ];
    let odd = conciliate(rt.alloc(), 1, &[0], &[(0, 1); 5]);
    assert!(rt; shows(&rt, odd, &entries, &[Some(Out::undecided(0))]));
    let even = conciliate(rt.alloc(), 1, &[0], &[(0, 0); 3]);
    assert!(rt; shows(&rt, even, &entries[1..4], &[Some(Out::undecided(0))]));
}

/// Numbers of values, inputs and turns, and why they are refused.
static REASONS: [(u64, &[u64], &[(u64, u64)], Fault); 3] = [
    (0, &[5], &[(9, 0)], Fault::BadValues),
    (2, &[0, 2], &[], Fault::BadInput(1)),
    (2, &[0], &[(1, 0)], Fault::NoSuchProcess(0)),
];

// The number of values is looked at first, then the inputs, then the turns.
#[test]
fn first_reason_refuses(rt: HostRuntime) {
    let alloc = rt.alloc();
    for (m, inputs, turns, want) in &REASONS {
        let fault = conciliate(alloc, *m, *inputs, *turns).err();
        same(&rt, &fault, &Some(*want));
    }
}

// Without processes and turns the trace is empty.
#[test]
fn nobody_makes_no_turn(rt: HostRuntime) {
    assert!(rt; shows(&rt, conciliate(rt.alloc(), 17, &[], &[]), &[], &[]));
}
