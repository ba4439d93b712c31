//! How a value is displayed.

ghost use Rattle.std.specs.Prelude.{◌≡◌, IfSome, IsOk};

use std::fmt::Display;
use std::test::Fail;

/// Checks that a value is displayed as this text. The error has the text with which the value is displayed.
pub fn check_display<R: AllocGlobal, F: Display>(rt: &R, value: &F, want: &str) -> Result<(), Fail>
    ensures { IsOk result → IfSome (F.output value.now) (λ text. text ≡ want.now) }
{
    let text = format!(in rt.alloc(); "{value}")?;
    if text.as_str() == want {
        Ok(())
    } else {
        Err(Fail::new(text))
    }
}
