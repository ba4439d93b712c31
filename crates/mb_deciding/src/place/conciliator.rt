//! The places in a conciliator.

/// The place of one process in a conciliator.
#[derive(Clone, Copy, PartialEq, Eq, Debug)]
pub enum ConciliatorPlace {
    /// The process has not stored, and is about to load the word. If that is empty, and the random word modulo
    /// `modulus` is below `limit`, it stores next.
    Draw {
        /// The process's input.
        input: u32,
        /// 2^k on attempt k.
        limit: u64,
        /// 2^s, where s is the last attempt.
        modulus: u64,
    },
    /// The process is about to store its input.
    Put {
        /// The process's input.
        input: u32,
    },
    /// The process has stored, and is about to load the word once more.
    Look {
        /// The process's input.
        input: u32,
    },
}
