//! The places in a ratifier.

/// The place of one process in a ratifier.
#[derive(Clone, Copy, PartialEq, Eq, Debug)]
pub enum RatifierPlace {
    /// The process has made no access.
    Begin {
        /// The process's input.
        input: u32,
    },
    /// The process announces its input, or has done so and is about to load the proposal.
    Announce {
        /// The process's input.
        input: u32,
        /// The registers of the write quorum that the process has still to set, as a mask.
        left: u64,
    },
    /// The process loaded an empty proposal and is about to store its input there.
    Propose {
        /// The process's input.
        input: u32,
    },
    /// The process checks the read quorum of its preference.
    Check {
        /// The value that the process stored in the proposal, or found there.
        preference: u32,
        /// The registers of the read quorum that the process has still to load, as a mask. There is at least one.
        left: u64,
    },
}
