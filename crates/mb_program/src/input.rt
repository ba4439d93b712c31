//! Reading a ratifier script.
//!
//! It has three lines. The first has `ratify`, the name of a quorum table, and the number of values. The second has
//! `inputs` and the input of each process. The third has `turns` and the process of each turn.
ghost use Rattle.std.specs.Prelude.{◌≡◌, ◌≤◌, length, Ok, IfOk};
ghost use Rattle.mb_script.specs.Vocabulary.{lines_of, words_in_line};
ghost use Rattle.mb_program.specs.Steps.{Gives};
ghost use Rattle.mb_program.specs.RatifyScript.{Script, view, line_words, head_of, list_of};
ghost use Rattle.mb_program.specs.RatifyScript.{three_lines, script_of};
ghost use Rattle.mb_program.specs.Spelling.{HasSpelling, script_lines};

use crate::fault::RatifyFault;
use crate::script::RatifyScript;
use mb_quorum::TableName;
use mb_script::laws::{
    lines_of_words_are_ascii, numbers_are_read_as_spelled, words_are_cut_as_spelled,
};
use mb_script::{
    MAX_SCRIPT_LEN, ascii_text, has_empty_word, number, numbers, split_line, split_word,
    table_named,
};
use std::alloc::Allocator;

/// The first line of the text, which is line `n` of the script, and the text after it.
#[tactic(auto, unfolding(crate::specs::RatifyScript::line_words))]
fn line(n: usize, text: &str) -> Result<(&str, &str), RatifyFault>
    ensures { Gives (λ x. (words_in_line x.0.now, lines_of x.1.now)) result
        (line_words n (lines_of text.now)) }
{
    let Some((line, rest)) = split_line(text) else {
        return Err(RatifyFault::BadLine(n));
    };
    if has_empty_word(line) {
        return Err(RatifyFault::BadLine(n));
    }
    Ok((line, rest))
}

/// The table and the number of values that the first line says, or what is wrong with the line.
#[tactic(auto, unfolding(crate::specs::RatifyScript::head_of))]
fn head(line: &str) -> Result<(TableName, u64), RatifyFault>
    ensures { Gives (λ x. x) result (head_of (words_in_line line.now)) }
{
    let (key, behind) = split_word(line);
    let Some(second) = behind else {
        return Err(RatifyFault::BadLine(1));
    };
    let (name, behind) = split_word(second);
    let Some(third) = behind else {
        return Err(RatifyFault::BadLine(1));
    };
    let (values, behind) = split_word(third);
    if let Some(_further) = behind {
        return Err(RatifyFault::BadLine(1));
    }
    if key != "ratify" {
        return Err(RatifyFault::BadLine(1));
    }
    let name = table_named(name).ok_or(RatifyFault::BadLine(1))?;
    let values = number(values).ok_or(RatifyFault::BadNumber(1))?;
    Ok((name, values))
}

/// The numbers after the key on line `n`, or what is wrong with the line.
#[tactic(auto, unfolding(crate::specs::RatifyScript::list_of))]
fn list<A: Allocator + Drop>(
    alloc: A,
    n: usize,
    key: &str,
    line: &str,
) -> Result<Vec<u64, A>, RatifyFault>
    ensures { Gives (λ v. v.items) result (list_of n key.now (words_in_line line.now)) }
{
    let (first, behind) = split_word(line);
    if first != key {
        return Err(RatifyFault::BadLine(n));
    }
    numbers(alloc, behind)?.ok_or(RatifyFault::BadNumber(n))
}

/// The script that the three lines of the text say, or the fault of the first faulty line.
#[tactic(auto, unfolding(crate::specs::RatifyScript::three_lines))]
fn read_lines<A: Allocator + Copy>(alloc: A, text: &str) -> Result<RatifyScript<A>, RatifyFault>
    ensures { Gives (λ s. view s) result (three_lines (lines_of text.now)) }
{
    let (first, rest) = line(1, text)?;
    let (table, values) = head(first)?;
    let (second, rest) = line(2, rest)?;
    let inputs = list(alloc, 2, "inputs", second)?;
    let (third, rest) = line(3, rest)?;
    let turns = list(alloc, 3, "turns", third)?;
    let None = split_line(rest) else {
        return Err(RatifyFault::BadLine(4));
    };
    Ok(RatifyScript {
        table,
        values,
        inputs,
        turns,
    })
}

/// What the bytes say: a script, or their first fault. Too many bytes and a byte that is not ASCII come first.
#[tactic(auto, unfolding(crate::specs::RatifyScript::script_of))]
fn read_bytes<A: Allocator + Copy>(alloc: A, bytes: &[u8]) -> Result<RatifyScript<A>, RatifyFault>
    ensures exact { Gives (λ s. view s) result (script_of bytes.now) }
{
    if bytes.len() > MAX_SCRIPT_LEN {
        return Err(RatifyFault::TooLong);
    }
    let Some(text) = ascii_text(bytes) else {
        return Err(RatifyFault::NotAscii);
    };
    read_lines(alloc, text)
}

/// The script that the bytes spell, or their first fault, in the order of [`RatifyFault`], or `NoMemory`.
pub fn read_script<A: Allocator + Copy>(
    alloc: A,
    bytes: &[u8],
) -> Result<RatifyScript<A>, RatifyFault>
    // The bytes spell the script that is returned.
    ensures found { IfOk result (λ s. HasSpelling (view s)
        × (lines_of bytes.now ≡ script_lines (view s))) }

    // If the bytes spell a script, it is returned, unless memory runs out.
    ensures only { (s : Script) → HasSpelling s → length bytes.now ≤ MAX_SCRIPT_LEN
        → lines_of bytes.now ≡ script_lines s
        → Gives (λ s. view s) result (Ok s) }

    // The call returns the script that the bytes say, or their first fault, unless memory runs out.
    ensures exact { Gives (λ s. view s) result (script_of bytes.now) }
{
    words_are_cut_as_spelled();
    numbers_are_read_as_spelled();
    lines_of_words_are_ascii();
    read_bytes(alloc, bytes)
}
