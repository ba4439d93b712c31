//! An audited channel tells who sent each value, and who received it.

use mb_channel::{Audited, Fates, Receiver, audited};
use std::test::Fail;

/// Who sends this value, and who receives it.
fn names_of(value: u64) -> (u32, u32) {
    let sender = if value % 3 == 0 { 12 } else { 11 };
    let receiver = if value % 5 == 0 { 22 } else { 21 };
    (sender, receiver)
}

/// How many fates from the first position on are right, if this value was sent there.
fn count_right(fates: &Fates<u64>, first: u64) -> u64 {
    let mut right: u64 = 0;
    for at in 0..2000 {
        let Some(fate) = fates.fate(at) else {
            return right;
        };
        let (sender, receiver) = names_of(first.saturating_add(at));
        if fate.sender == Some(sender) && fate.receiver == Some(receiver) {
            right = right.saturating_add(1);
        }
    }
    right
}

/// How many of the fates that are told next are right. `first` is the value sent there first.
fn next_fates(receiver: &mut Receiver<u64>, first: u64) -> Option<u64> {
    match receiver.try_fates() {
        Audited::Told(fates) => Some(count_right(&fates, first)),
        Audited::Nothing => None,
        Audited::Again => None,
    }
}

#[test]
fn fates_name_who_sent_and_who_received(rt: HostRuntime) -> Result<(), Fail> {
    let (mut sender, mut receiver) = audited::<u64>(rt.alloc(), 11, 21)?;
    let mut other_sender = sender.another_named(12).expect(&rt, "an end");
    let mut other_receiver = receiver.another_named(22).expect(&rt, "an end");
    let early = next_fates(&mut receiver, 0);
    for value in 0..3000u64 {
        let (from, to) = names_of(value);
        if from == 12 {
            drop(other_sender.send(&rt, value));
        } else {
            drop(sender.send(&rt, value));
        }
        if to == 22 {
            drop(other_receiver.receive(&rt));
        } else {
            drop(receiver.receive(&rt));
        }
    }
    let first = next_fates(&mut receiver, 0);
    let second = next_fates(&mut other_receiver, 64);
    let third = next_fates(&mut receiver, 1088);
    let last = next_fates(&mut receiver, 2112);
    assert!(rt; (early, last) == (None, None) && first == Some(64));
    assert!(rt; (second, third) == (Some(1024), Some(1024)));
    Ok(())
}
