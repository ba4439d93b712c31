//! A last object alone: two processes, each with its only access.
ghost use Rattle.std.specs.Prelude.{⊤};

use crate::compare::same;
use mb_deciding::{Memory, Op, Out, Pc, Reg};
use mb_quorum::{Bits, Quorums};

/// The word of a last object.
#[derive(Drop)]
struct Word {
    held: u64,
}

impl Memory for Word {
    ghost can_make = { λ _ _ _. ⊤ };

    ghost makes = { λ _ _ _ _ _. ⊤ };

    fn perform(&mut self, _object: u32, op: Op) -> u64 {
        let found = self.held;
        if let Op::Exchange(Reg::Last, value) = op
            && found == 0
        {
            self.held = value;
        }
        found
    }
}

/// The output of a process with this input. There is none if the input is no value of the table.
fn output(q: &Bits, word: &mut Word, input: u32) -> Option<Out> {
    if input >= q.values() {
        return None;
    }
    let mut place = Pc::last(input);
    place.step(q, word, 0, 0)
}

#[test]
fn the_second_finds_the_value_of_the_first(rt: HostRuntime) {
    let q = Bits::new(2).expect(&rt, "no table");
    let mut word = Word { held: 0 };
    let outputs = (output(&q, &mut word, 1), output(&q, &mut word, 0));
    same(
        &rt,
        &(outputs, word.held),
        &((Some(Out::decided(1)), Some(Out::decided(1))), 2),
    );
}
