ghost use Rattle.std.specs.Prelude.{◌≡◌};
ghost use Rattle.replay.specs.Words.{number_of, rest_of, word_of};

use std::str;
use text::runs::cut_at;

// The word at the front of a line, and the rest behind one space.
pub fn split_word(line: &[u8]) -> (&[u8], &[u8])
    ensures word { result.0.now ≡ word_of line.now }
    ensures rest { result.1.now ≡ rest_of line.now }
{
    cut_at::<b' '>(line)
}

// The number that a text is: digits, at least one, and nothing else.
pub fn number(text: &[u8]) -> Option<usize>
    ensures { result ≡ number_of text.now }
{
    match text.first() {
        // `parse` would take a plus before the digits.
        None | Some(b'+') => None,
        Some(_) => str::from_utf8(text).ok()?.parse::<usize>().ok(),
    }
}
