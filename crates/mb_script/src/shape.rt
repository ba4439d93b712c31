//! The shapes of cells in a script.
ghost use Rattle.std.specs.Prelude.{◌≡◌, map};
ghost use Rattle.mb_script.specs.Shapes.{shape_named, shape_of_word};

use mb_claim::Shape;

/// The shape of a word, which is `fast`, `last` or `fastlast`. For any other word it is `None`: cells with pairs alone
/// have no word.
pub fn shape_of_word(word: &str) -> Option<Shape>
    ensures { result ≡ shape_of_word word.now }
{
    let (fast, last) = match word {
        "fast" => (true, false),
        "last" => (false, true),
        "fastlast" => (true, true),
        _ => return None,
    };
    Some(Shape { fast, last })
}

/// The shape that the words after a table's name say. If there are none, cells have pairs alone.
pub(crate) fn shape_named(words: &[&str]) -> Option<Shape>
    ensures { result ≡ shape_named (map (λ w. w.now) words.now) }
{
    match words {
        [] => Some(Shape::PLAIN),
        [word] => shape_of_word(word),
        _ => None,
    }
}
