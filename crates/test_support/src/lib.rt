//! Helpers for the tests of several crates: made-up reports, a check of how a value is displayed, and sources of random
//! words that are all 0.
#![tactic(auto)]

mod reports;
mod texts;
mod zeros;

pub use reports::{DiaryTold, LaneTold, made_up};
pub use texts::check_display;
pub use zeros::{SeenZeros, Zeros};
