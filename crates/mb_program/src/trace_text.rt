//! The text of a ratifier's trace.
ghost use Rattle.std.specs.Prelude.{◌≡◌, ◌++◌, IfOk, OnOk, string_bytes};
ghost use Rattle.std.specs.List.{flat_map};
ghost use Rattle.mb_program.specs.TraceText.{out_text, entry_text, process_text};
ghost use Rattle.mb_program.specs.TraceText.{processes_text, trace_text};

use mb_deciding::{Entry, Out, Trace};
use mb_script::push_act;
use std::alloc::{AllocError, Allocator};

/// Appends the text of an output: whether it is decided, and its value.
fn push_out<A: Allocator>(text: &mut String<A>, out: Out) -> Result<(), AllocError>
    ensures { OnOk result (string_bytes text.new ≡ string_bytes text.old ++ out_text out) }
{
    text.push_str(if out.decided { "1 " } else { "0 " })?;
    write!(text, "{}", out.value)
}

/// Appends the line of one entry of a trace.
fn push_entry<A: Allocator>(text: &mut String<A>, entry: Entry) -> Result<(), AllocError>
    ensures { OnOk result (string_bytes text.new ≡ string_bytes text.old ++ entry_text entry) }
{
    match entry {
        Entry::Access { process, act, out } => {
            write!(text, "{process} ")?;
            push_act(text, act)?;
            if let Some(out) = out {
                text.push_str(" out ")?;
                push_out(text, out)?;
            }
            text.push_str("\n")
        }
        Entry::Done { process } => write!(text, "{process} done\n"),
    }
}

/// Appends the line of a process with its output, if it has one.
fn push_process<A: Allocator>(
    text: &mut String<A>,
    process: usize,
    out: Option<Out>,
) -> Result<(), AllocError>
    ensures { OnOk result (string_bytes text.new ≡ string_bytes text.old
        ++ process_text process out) }
{
    write!(text, "process {process}: ")?;
    match out {
        Some(out) => push_out(text, out)?,
        None => text.push_str("none")?,
    }
    text.push_str("\n")
}

/// Appends a line for each entry.
fn push_entries<A: Allocator>(text: &mut String<A>, entries: &[Entry]) -> Result<(), AllocError>
    ensures { OnOk result (string_bytes text.new ≡ string_bytes text.old
        ++ flat_map entry_text entries.now) }
{
    for entry in entries {
        push_entry(text, *entry)?;
    }
    Ok(())
}

/// Appends a line for each process, from process 0 on.
fn push_processes<A: Allocator>(
    text: &mut String<A>,
    outputs: &[Option<Out>],
) -> Result<(), AllocError>
    ensures { OnOk result (string_bytes text.new ≡ string_bytes text.old
        ++ processes_text 0 outputs.now) }
{
    for (process, out) in outputs.iter().enumerate() {
        push_process(text, process, *out)?;
    }
    Ok(())
}

/// A line for each entry of the trace, and then one for the output of each process. The error comes if memory runs out.
pub fn trace_text<A: Allocator + Copy>(alloc: A, trace: &Trace<A>) -> Result<String<A>, AllocError>
    ensures { IfOk result (λ text. string_bytes text
        ≡ trace_text trace.now.entries.items trace.now.outputs.items) }
{
    let mut text = String::new(alloc);
    push_entries(&mut text, &trace.entries)?;
    push_processes(&mut text, &trace.outputs)?;
    Ok(text)
}
