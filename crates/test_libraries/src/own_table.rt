//! A ratifier over a quorum table of your own.

use crate::compare::same;
use crate::mirrored::Mirrored;
use mb_deciding::{Next, Op, Out, Pc, Reg};
use mb_quorum::Quorums;
use std::marker::Model;
use std::process::Abort;

/// A process in a ratifier over the mirrored table, and its place. After its output it has none.
#[derive(Drop)]
struct Process {
    q: Mirrored,
    place: Option<Pc>,
}

impl Model for Process {
    ghost use Rattle.std.specs.Prelude.{IfSome};
    ghost use Rattle.mb_deciding.specs.Vocabulary.{IsPlace};

    ghost Value = { Unit {0} };

    ghost view = { λ _. tt };

    ghost invariant = { λ p. IfSome p.place (IsPlace (⟦<Mirrored as Quorums>⟧.table p.q)) };
}

impl Process {
    /// A process that begins with this input. It has no place if the input is no value of the table.
    fn new(q: Mirrored, input: u32) -> Process {
        if input < q.values() {
            return Process {
                q,
                place: Some(Pc::ratifier(input)),
            };
        }
        Process { q, place: None }
    }

    /// The next access, and the output after it, if it finds this value.
    fn access(&mut self, seen: u64) -> Option<(Op, Option<Out>)> {
        let place = self.place?;
        let op = place.next(&self.q);
        match place.after(&self.q, seen, 0) {
            Next::Go(next) => {
                self.place = Some(next);
                Some((op, None))
            }
            Next::Out(out) => {
                self.place = None;
                Some((op, Some(out)))
            }
        }
    }
}

/// Checks that a process with this input makes these accesses, each with the value that it finds and the output after
/// it, if it has one.
fn makes(rt: &impl Abort, q: Mirrored, input: u32, accesses: &[(Op, u64, Option<Out>)]) {
    let mut process = Process::new(q, input);
    for (op, seen, out) in accesses {
        same(rt, &process.access(*seen), &Some((*op, *out)));
    }
}

// In the mirrored table of two values, value 0 is announced in register 1, and value 1 in register 0.
#[test]
fn one_after_the_other(rt: HostRuntime) {
    let q = Mirrored::new(2).expect(&rt, "no table");
    let first = [
        (Op::Store(Reg::Quorum(1), 1), 0, None),
        (Op::Load(Reg::Proposal), 0, None),
        (Op::Store(Reg::Proposal, 1), 0, None),
        (Op::Load(Reg::Quorum(0)), 0, Some(Out::decided(0))),
    ];
    makes(&rt, q, 0, &first);
    let second = [
        (Op::Store(Reg::Quorum(0), 1), 0, None),
        (Op::Load(Reg::Proposal), 1, None),
        (Op::Load(Reg::Quorum(0)), 1, Some(Out::undecided(0))),
    ];
    makes(&rt, q, 1, &second);
}
