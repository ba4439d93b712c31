//! Two consumers claim one item, a step at a time, in an order that the caller chooses.
#![tactic(auto)]

use anyhow::Result;
use mb_claim::{Layout, play};
use mb_quorum::TableName;

fn main(rt: HostRuntime) -> Result<()> {
    // Two consumers, one pair of deciding objects, the table of bits. A step is named by its consumer and random word.
    let layout = Layout::new(2, 1, TableName::Bits)?;
    let (a, b) = ((0, 0), (1, 0));
    let apart = [a, a, a, a, a, a, a, b, b, b, b];
    let mixed = [a, b, a, a, b, b, a, b, a, b, a, a, b, b];
    for steps in [apart.as_slice(), mixed.as_slice()] {
        let run = play(rt.alloc(), &layout, steps)?;
        println!(rt; "{:?}", run.stages)?;
    }
    Ok(())
}
