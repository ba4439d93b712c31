//! The allocator that refuses chosen requests: which it refuses, and how many blocks are out (granted and not freed).

use crate::compare::same;
use std::alloc::Allocator;
use test_alloc::{FaultyHeap, Refuse};

/// How many requests this allocator got, and how many blocks are out.
fn counts<B: Allocator>(rations: &FaultyHeap<B>) -> (u64, u64) {
    (rations.asked(), rations.out())
}

/// Whether the allocator refuses a box.
fn refuses<B: Allocator>(rations: &FaultyHeap<B>) -> bool {
    Box::new(rations, 8u64).is_err()
}

#[test]
fn each_request_is_granted(rt: HostRuntime) {
    let rations = FaultyHeap::new(rt.alloc(), Refuse::Never);
    let one = Box::new(&rations, 7u64).expect(&rt, "no box");
    let two = Box::new(&rations, 8u8).expect(&rt, "no box");
    let both = counts(&rations);
    drop(one);
    let last = counts(&rations);
    drop(two);
    same(
        &rt,
        &(both, last, counts(&rations)),
        &((2, 2), (2, 1), (2, 0)),
    );
}

#[test]
fn all_from_one_on_are_refused(rt: HostRuntime) {
    let rations = FaultyHeap::new(rt.alloc(), Refuse::From(1));
    let first = Box::new(&rations, 7u64).expect(&rt, "no box");
    let second = refuses(&rations);
    let third = refuses(&rations);
    let held = counts(&rations);
    drop(first);
    same(
        &rt,
        &((second, third), held, counts(&rations)),
        &((true, true), (3, 1), (3, 0)),
    );
}

#[test]
fn one_alone_is_refused(rt: HostRuntime) {
    let rations = FaultyHeap::new(rt.alloc(), Refuse::Only(1));
    let first = Box::new(&rations, 7u64).expect(&rt, "no box");
    let second = refuses(&rations);
    let third = Box::new(&rations, 9u64).expect(&rt, "no box");
    let held = counts(&rations);
    drop((first, third));
    same(
        &rt,
        &(second, held, counts(&rations)),
        &(true, (3, 2), (3, 0)),
    );
}

// The allocator below refuses what this one would grant.
#[test]
fn what_is_refused_below_is_not_out(rt: HostRuntime) {
    let below = FaultyHeap::new(rt.alloc(), Refuse::From(0));
    let rations = FaultyHeap::new(&below, Refuse::Never);
    let refused = refuses(&rations);
    same(
        &rt,
        &(refused, counts(&rations), counts(&below)),
        &(true, (1, 0), (1, 0)),
    );
}

// The list asks for more room as it grows, and gives back what it had.
#[test]
fn lists_grow(rt: HostRuntime) {
    let rations = FaultyHeap::new(rt.alloc(), Refuse::Never);
    let mut list = Vec::new(&rations);
    for x in 0..100u64 {
        list.push(x).expect(&rt, "no list");
    }
    let (asked, held) = counts(&rations);
    drop(list);
    same(&rt, &(1 < asked, held, rations.out()), &(true, 1, 0));
}
