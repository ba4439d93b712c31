//! The text of an act.
ghost use Rattle.std.specs.Prelude.{◌≡◌, ◌++◌, OnOk, codes, string_bytes};
ghost use Rattle.std.specs.Fmt.{decimal};
ghost use Rattle.mb_script.specs.ActText.{act_text, reg_text};

use mb_deciding::{Act, Reg};
use std::alloc::{AllocError, Allocator};

/// Appends the name of a word: `c`, `p`, `l`, or `q` and an index.
fn push_reg<A: Allocator>(text: &mut String<A>, reg: Reg) -> Result<(), AllocError>
    ensures { OnOk result (string_bytes text.new ≡ string_bytes text.old ++ reg_text reg) }
{
    match reg {
        Reg::Value => text.push_str("c"),
        Reg::Proposal => text.push_str("p"),
        Reg::Quorum(i) => write!(text, "q{i}"),
        Reg::Last => text.push_str("l"),
    }
}

/// Appends what was done, which is `name`, to which word, and the value loaded or stored.
fn push_access<A: Allocator>(
    text: &mut String<A>,
    name: &str,
    reg: Reg,
    value: u64,
) -> Result<(), AllocError>
    ensures { OnOk result (string_bytes text.new ≡ string_bytes text.old
        ++ (name.now ++ reg_text reg ++ codes " " ++ decimal value)) }
{
    text.push_str(name)?;
    push_reg(text, reg)?;
    write!(text, " {value}")
}

/// Appends what was done, to which word, and its value. The act is `load`, `store` or `exchange`. The word is `c` for a
/// conciliator's word, `p` for the proposal, `q` and its index for a quorum register, or `l` for a last object's word.
/// The value is the one loaded or stored. For an exchange the value that it found comes last. The error is `AllocError`
/// if memory ran out.
pub fn push_act<A: Allocator>(text: &mut String<A>, act: Act) -> Result<(), AllocError>
    ensures { OnOk result (string_bytes text.new ≡ string_bytes text.old ++ act_text act) }
{
    match act {
        Act::Load { reg, value } => push_access(text, "load ", reg, value),
        Act::Store { reg, value } => push_access(text, "store ", reg, value),
        Act::Exchange { reg, value, found } => {
            push_access(text, "exchange ", reg, value)?;
            write!(text, " {found}")
        }
    }
}
