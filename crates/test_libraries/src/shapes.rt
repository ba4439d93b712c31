//! A layout with a fast path and a last object, and claims on a cell with a last object alone.

use crate::claims::{plays, steps_of};
use crate::compare::same;
use mb_claim::{ClaimEntry, Layout, Shape, Stage};
use mb_deciding::{Act, Reg};
use mb_quorum::TableName;

#[test]
fn words_of_both_and_three_pairs(rt: HostRuntime) {
    let both = Shape {
        fast: true,
        last: true,
    };
    let layout = Layout::new(2, 3, TableName::Bits)
        .expect(&rt, "no layout")
        .shaped(both);
    // A cell has two ratifiers with three words each, the twelve words of three pairs, and one word.
    let words = layout.words(1);
    let addresses = (
        layout.address(2, 1, Reg::Proposal),
        layout.address(2, 5, Reg::Quorum(1)),
        layout.address(2, 8, Reg::Last),
    );
    // Two cells come first, and a register after the proposal and the registers before it.
    let begins = (layout.begin(2), Layout::place_in_object(Reg::Quorum(1)));
    same(&rt, &(begins, layout.copy().is_alone()), &((38, 2), false));
    // A claim has two ratifiers of 1 + 2 + 1 accesses at most, and one exchange, beside the 27 of the pairs.
    same(
        &rt,
        &(layout.shape(), words, addresses, layout.max_steps()),
        &(both, 19, (41, 51, 56), 36),
    );
}

/// The entry of a consumer's exchange.
fn exchanged(consumer: u32, value: u64, found: u64) -> ClaimEntry {
    ClaimEntry::Access {
        consumer,
        object: 0,
        act: Act::Exchange {
            reg: Reg::Last,
            value,
            found,
        },
    }
}

#[test]
fn an_exchange_decides_alone(rt: HostRuntime) {
    let layout = Layout::exchange(2).expect(&rt, "no layout");
    let entries = [
        exchanged(0, 1, 0),
        exchanged(1, 2, 1),
        ClaimEntry::Done { consumer: 0 },
    ];
    let stages = [Stage::Won, Stage::Lost(0)];
    plays(&rt, &layout, &steps_of([0, 1, 0]), (0, &entries), &stages);
}
