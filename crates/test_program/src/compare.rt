//! How tests compare two values. A test with an `assert_eq!` of its own costs the prover several times as much.
ghost use Rattle.std.specs.Prelude.{◌≡◌, true};

use std::fmt::Debug;
use std::process::Abort;

/// Ends the test if these differ, and prints both.
pub(crate) fn same<T: PartialEq + Debug>(rt: &impl Abort, told: &T, want: &T)
    ensures { T.eq told.now want.now ≡ true }
{
    assert_eq!(rt; *told, *want);
}

/// Ends the test if these differ, and prints both, and `row`, which says of what case they are.
pub(crate) fn same_at<T: PartialEq + Debug, W: Debug>(rt: &impl Abort, told: &T, want: &T, row: &W)
    ensures { T.eq told.now want.now ≡ true }
{
    assert_eq!(rt; *told, *want, "{row:?}");
}
