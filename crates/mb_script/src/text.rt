//! Lines, words and numbers of a text.
ghost use Rattle.std.specs.Prelude.{◌≡◌, ◌∷◌, [], ◌<◌, length, IfOk, IfSome, MatchOption, option_map, true, false};
ghost use Rattle.std.specs.Char.{is_ascii};
ghost use Rattle.std.specs.List.{list_all};
ghost use Rattle.mb_script.specs.Text.{lines_of, words_in_line, words_behind, has_empty, number_of, numbers_of};

use std::alloc::{AllocError, Allocator};
use std::str;

/// The bytes as a text, or `None` if one of them is not ASCII.
pub fn ascii_text(bytes: &[u8]) -> Option<&str>
    ensures { MatchOption result (list_all is_ascii bytes.now ≡ false)
        (λ text. (list_all is_ascii bytes.now ≡ true) × (text.now ≡ bytes.now)) }
{
    if !bytes.is_ascii() {
        return None;
    }
    let Ok(text) = str::from_utf8(bytes) else {
        unreachable!()
    };
    Some(text)
}

/// The first line and the text after it, or `None` if there is no line.
pub fn split_line(text: &str) -> Option<(&str, &str)>
    ensures lines { MatchOption result (lines_of text.now ≡ [])
        (λ x. lines_of text.now ≡ x.0.now ∷ lines_of x.1.now) }
    ensures shorter { MatchOption result (text.now ≡ [])
        (λ x. length x.1.now < length text.now) }
{
    if text.is_empty() {
        return None;
    }
    Some(text.split_once('\n').unwrap_or((text, "")))
}

/// The first word of a line, which may be empty, and the words after it, if there are any. A line is cut at each space.
pub fn split_word(line: &str) -> (&str, Option<&str>)
    ensures words { words_in_line line.now
        ≡ result.0.now ∷ words_behind (option_map (λ w. w.now) result.1) }
    ensures some { IfSome result.1 (λ rest. 0 < length (words_in_line rest.now)) }
    ensures shorter { IfSome result.1 (λ rest. length rest.now < length line.now) }
{
    match line.split_once(' ') {
        Some((word, rest)) => (word, Some(rest)),
        None => (line, None),
    }
}

/// Whether some word of the line is empty. Such a line is refused.
pub fn has_empty_word(line: &str) -> bool
    ensures { result ≡ has_empty (words_in_line line.now) }
{
    line.split(' ').any(|word| word.is_empty())
}

/// The number that a word spells, if it spells one: `0`, or digits that do not begin with 0, up to 2^64 - 1.
#[tactic(auto, unfolding(crate::specs::Text::number_of))]
pub fn number(word: &str) -> Option<u64>
    ensures { result ≡ number_of word.now }
{
    match word.as_bytes().first() {
        Some(b'1'..=b'9') => word.parse().ok(),
        _ => (word == "0").then_some(0),
    }
}

/// The numbers that these words spell, or `None` if some word spells none. The error comes if memory runs out.
pub fn numbers<A: Allocator + Drop>(
    alloc: A,
    words: Option<&str>,
) -> Result<Option<Vec<u64, A>>, AllocError>
    ensures { IfOk result (λ numbers. option_map (λ v. v.items) numbers
        ≡ numbers_of (words_behind (option_map (λ w. w.now) words.entry))) }
{
    let mut numbers = Vec::new(alloc);
    let mut rest = words;
    while let Some(line) = rest {
        let (word, behind) = split_word(line);
        let Some(n) = number(word) else {
            return Ok(None);
        };
        numbers.push(n)?;
        rest = behind;
    }
    Ok(Some(numbers))
}
