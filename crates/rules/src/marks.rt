ghost use Rattle.std.specs.Prelude.{◌≡◌, if◌then◌else◌};
ghost use Rattle.rules.specs.Meanings.{blank_from, resuming, stands_at, text_from, title_byte};
ghost use Rattle.rules.specs.declared.meaning.Meaning.TheVariants.{Continues, Stray};

use crate::meaning::Meaning;
use text::bytes::{Blank, ByteClass, Word};
use text::dedent::is_blank_line;
use text::runs::run_from;

// Is byte `i` of the line a `b`?
pub fn stands_at(line: &[u8], i: usize, b: u8) -> bool
    ensures { result ≡ stands_at b i line.now }
{
    line.get(i) == Some(&b)
}

// Do only blanks stand from `from` on?
pub fn is_blank_from(line: &[u8], from: usize) -> bool
    ensures { result ≡ blank_from from line.now }
{
    line.get(from..).is_some_and(is_blank_line)
}

// What a line is that opens nothing: one that is empty or begins with a blank continues.
pub fn unopened(line: &[u8]) -> Meaning
    ensures { result ≡ (if resuming line.now then Continues else Stray) }
{
    match line {
        [b, ..] if !Blank::has(*b) => Meaning::Stray,
        _ => Meaning::Continues,
    }
}

// Behind the blanks that stand from `from` on.
pub fn text_from(line: &[u8], from: usize) -> usize
    ensures { result ≡ text_from from line.now }
{
    from + run_from::<Blank>(line, from)
}

// A byte that a section's title may have.
pub struct TitleByte;

impl ByteClass for TitleByte {
    ghost member = { title_byte };

    fn has(b: u8) -> bool {
        Word::has(b) || b == b' ' || b == b'-'
    }
}
