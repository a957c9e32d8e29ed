ghost use Rattle.std.specs.Prelude.{◌≡◌, ℕ, ◌+◌, List, length, Some, None, IfOk, if◌then◌else◌};
ghost use Rattle.std.specs.Option.{option_map};
ghost use Rattle.std.specs.Iterator.{YieldsFirstRef, item_count};
ghost use Rattle.text.specs.Lines.{fault_of, fed, has_room, lines_of, put, texts, Cuts, Reads, Splits};

use crate::bytes::Plain;
use crate::runs::{cut_at, run_from};
use std::alloc::{AllocError, Global};

// The first line of `text` and what stands behind its line feed; nothing where `text` is empty.
pub fn split_line(text: &[u8]) -> Option<(&[u8], &[u8])>
    ensures { Cuts text.now (option_map (λ p. (p.0.now, p.1.now)) result) }
{
    if text.is_empty() {
        return None;
    }
    Some(cut_at::<b'\n'>(text))
}

// The lines that are left of a text, in order, as parts of it.
#[derive(Drop)]
pub struct LineIter<'a> {
    rest: &'a [u8],
}

impl<'a> Iterator for LineIter<'a> {
    type Item = &'a [u8];

    ghost next_gives = { YieldsFirstRef (λ s. lines_of s.rest.now) };

    ghost remaining = { item_count (λ s. lines_of s.rest.now) };

    fn next(&mut self) -> Option<&'a [u8]> {
        let (line, behind) = split_line(self.rest)?;
        self.rest = behind;
        Some(line)
    }
}

pub fn lines(text: &[u8]) -> LineIter<'_>
    ensures { result.rest.now ≡ text.now }
{
    LineIter { rest: text }
}

// The lines of `text`, in order.
pub fn split_lines(heap: Global, text: &[u8]) -> Result<Vec<&[u8]>, AllocError>
    ensures value { IfOk result (λ v. texts v.items ≡ lines_of text.now) }
    ensures splits { IfOk result (λ v. Splits text.now (texts v.items)) }
    ensures only { IfOk result (λ v. (lines : List (List ℕ)) → Splits text.now lines → lines ≡ texts v.items) }
{
    lines(text).collect(heap)
}

// Writes the line and a line feed into `out` from `at` on, and gives the place behind them; nothing is written,
// and None given, where there is no room. (The caller lends `out`, so the place goes beside it.)
pub fn put_line(out: &mut [u8], at: usize, line: &[u8]) -> Option<usize>
    ensures value { result ≡ (if has_room at line.now out.old then Some (at + length line.now + 1) else None) }
    ensures written { out.new ≡ (if has_room at line.now out.old then put at (fed line.now) out.old else out.old) }
{
    let end = at.checked_add(line.len())?;
    if end >= out.len() {
        return None;
    }
    out[at..end].copy_from_slice(line);
    out[end] = b'\n';
    Some(end + 1)
}

// The longest line that is read.
pub const LINE_LIMIT: usize = 1000;

// Where a line cannot be read: at the first byte that no line may hold, or behind byte 999 of a longer line.
pub fn fault(line: &[u8]) -> Option<usize>
    ensures value { result ≡ fault_of line.now }
    ensures reads { Reads line.now result }
{
    let good = run_from::<Plain>(line, 0).min(LINE_LIMIT);
    if good < line.len() { Some(good) } else { None }
}
