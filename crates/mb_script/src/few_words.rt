//! The words of one line, in an array that takes no memory of an allocator.
ghost use Rattle.std.specs.Prelude.{◌≤◌};

/// Room for the words of one line. The most words of a line in a replay script are the seven of `setup`. A line with
/// more words than this is a bad line.
pub const MAX_WORDS: usize = 8;

/// The words of a line that has no empty word, and at most [`MAX_WORDS`] words.
#[derive(Clone, Copy)]
pub struct LineWords<'a> {
    // The words of the line are the first `count` of these. The others are empty.
    words: [&'a str; MAX_WORDS],
    count: usize,
    pub ghost within: { count ≤ 8 },
}

impl<'a> LineWords<'a> {
    ghost use Rattle.std.specs.Prelude.{◌≡◌, true, false, ◌||◌, nat_lt, length, map, MatchOption};
    ghost use Rattle.mb_script.specs.Text.{has_empty, words_in_line};
    ghost use Rattle.mb_script.specs.FewWords.{words_in};

    /// The words of a line, or `None` if some word is empty or there are more than [`MAX_WORDS`].
    ///
    /// The call takes no memory, however many words there are.
    pub fn of_line(line: &'a str) -> Option<LineWords<'a>>
        ensures { MatchOption result
            ((has_empty (words_in_line line.now) || nat_lt MAX_WORDS
            (length (words_in_line line.now)))
            ≡ true)
            (λ words. (has_empty (words_in_line line.now) ≡ false)
            × (words_in words ≡ words_in_line line.now)) }
    {
        let mut words = [""; MAX_WORDS];
        let mut count = 0;
        let mut rest = line;
        while let Some((word, after)) = rest.split_once(' ') {
            if word.is_empty() || count + 1 == MAX_WORDS {
                return None;
            }
            words[count] = word;
            count += 1;
            rest = after;
        }
        if rest.is_empty() {
            return None;
        }
        words[count] = rest;
        Some(LineWords {
            words,
            count: count + 1,
        })
    }

    /// The words, in their order.
    pub fn as_slice(&self) -> &[&'a str]
        ensures { map (λ w. w.now) result.now ≡ words_in self.now }
    {
        &self.words[..self.count]
    }
}
