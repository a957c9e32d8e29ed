ghost use Rattle.std.specs.Prelude.{◌≡◌, ◌+◌, ◌*◌, ◌<◌, ◌≤◌, length, IfSome, Some, None, if◌then◌else◌, nat_lt};
ghost use Rattle.text.specs.Lines.{fed, put};
ghost use Rattle.reader.specs.Shelves.{opening_text};

use crate::store::store_opening;
use std::ops::Range;
use text::lines::put_line;

// What a reader is started with, and never changes.
#[derive(Drop)]
pub struct Terms<'n, 'm, R> {
    pub rule: R,
    pub names: &'n [&'m [u8]],
    pub share: usize,
    ghost few: { length names.now ≤ 64 },
    ghost least: { 1001 ≤ share },
    ghost most: { share ≤ 16384 },
}

// Each asks for the index of an asked name: a type for such an index would have to carry how many names there are.
impl<R> Terms<'_, '_, R> {
    // The share of the name with this index, as a part of the shelf.
    pub fn part(&self, i: usize) -> Range<usize>
        requires { i < length self.now.names.now }
        ensures start { result.start ≡ i * self.now.share }
        ensures end { result.end ≡ i * self.now.share + self.now.share }
    {
        let start = i * self.share;
        start..start + self.share
    }

    // Writes what a line that opens the name stores to the front of its share; gives how much it is.
    pub fn begin(&self, shelf: &mut [u8], i: usize, line: &[u8], text: Option<usize>) -> usize
        requires index { i < length self.now.names.now }
        requires whole { i * self.now.share + self.now.share ≤ length shelf.old }
        requires brief { length line.now ≤ 1000 }
        requires inside { IfSome text (λ t. t ≤ length line.now) }
        ensures used { result ≡ length (opening_text text line.now) }
        ensures stored { shelf.new ≡ put (i * self.now.share) (opening_text text line.now) shelf.old }
    {
        let Range { start, end } = self.part(i);
        store_opening(&mut shelf[start..end], line, text)
    }

    // Writes the line and an LF behind the bytes used of the name's share, if they have room; gives how many are used then.
    pub fn append(&self, shelf: &mut [u8], i: usize, used: usize, line: &[u8]) -> Option<usize>
        requires index { i < length self.now.names.now }
        requires whole { i * self.now.share + self.now.share ≤ length shelf.old }
        ensures used { result ≡ (if nat_lt (used + length line.now) self.now.share then Some (used + length line.now + 1) else None) }
        ensures stored { shelf.new ≡ (if nat_lt (used + length line.now) self.now.share then put (i * self.now.share + used) (fed line.now) shelf.old else shelf.old) }
    {
        let Range { start, end } = self.part(i);
        put_line(&mut shelf[start..end], used, line)
    }
}
