//! How refusals are displayed.

use mb_claim::{BadLayout, PlayFault};
use mb_deciding::Fault;
use mb_quorum::BadValues;
use mb_shared_claims::AllGiven;
use mb_world::SetupFault;
use std::fmt::Display;
use std::test::Fail;
use test_support::check_display;

/// Checks that each value is displayed as the text beside it.
fn are_displayed<R: AllocGlobal, F: Display>(rt: &R, rows: &[(F, &str)]) -> Result<(), Fail> {
    for (value, text) in rows {
        check_display(rt, value, *text)?;
    }
    Ok(())
}

/// The texts of the faults of schedules.
static FAULTS: [(Fault, &str); 4] = [
    (
        Fault::BadInput(1),
        "input 1 is not below the number of values",
    ),
    (
        Fault::NoSuchProcess(20),
        "turn 20 is of a process without an input",
    ),
    (Fault::BadValues, "the number of values is out of range"),
    (Fault::NoMemory, "out of memory"),
];

/// The texts of layouts that are refused.
static LAYOUTS: [(BadLayout, &str); 2] = [
    (
        BadLayout::BadConsumers,
        "the number of consumers is out of range",
    ),
    (BadLayout::BadRounds, "the number of pairs is out of range"),
];

/// The texts of runs that are refused.
static RUNS: [(PlayFault, &str); 2] = [
    (
        PlayFault::NoConsumer(7),
        "the step at place 7 is of no consumer of the layout",
    ),
    (PlayFault::NoMemory, "out of memory"),
];

/// The texts of setups that are refused.
static SETUPS: [(SetupFault, &str); 4] = [
    (
        SetupFault::BadProducers,
        "the number of producers is out of range",
    ),
    (
        SetupFault::BadConsumers,
        "the number of consumers is out of range",
    ),
    (SetupFault::BadCells, "the number of cells is out of range"),
    (SetupFault::BadRounds, "the number of pairs is out of range"),
];

// Texts for bad values, for numbers that were all issued, and for refused schedules, layouts, runs and setups.
#[test]
fn texts_of_refusals(rt: HostRuntime) -> Result<(), Fail> {
    check_display(&rt, &BadValues, "the number of values is out of range")?;
    check_display(&rt, &AllGiven, "all numbers were given")?;
    check_display(&rt, &mb_shared_cells::AllGiven, "all numbers were given")?;
    are_displayed(&rt, &FAULTS)?;
    are_displayed(&rt, &LAYOUTS)?;
    are_displayed(&rt, &RUNS)?;
    are_displayed(&rt, &SETUPS)
}
