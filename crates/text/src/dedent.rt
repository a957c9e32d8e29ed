ghost use Rattle.std.specs.Prelude.{◌≡◌, ◌+◌, ◌<◌, ◌≤◌, [], ◌∷◌, ◌++◌, map, length, take, drop, IfSome, IfOk, if◌then◌else◌, Some, None, fold, nat_eq, nat_lt};
ghost use Rattle.std.specs.Option.{option_map};
ghost use Rattle.std.specs.List.{common_prefix_len};
ghost use Rattle.text.specs.Dedents.{blank_line, dedented, less, margin_of, meeting, narrowed, Dedents};
ghost use Rattle.text.specs.Lines.{lines_of, unlines};

use crate::bytes::Blank;
use crate::lines::{lines, put_line};
use crate::runs::run_from;
use std::alloc::{AllocError, Global};

// Nothing but blanks, or nothing.
pub fn is_blank_line(line: &[u8]) -> bool
    ensures { result ≡ blank_line line.now }
{
    run_from::<Blank>(line, 0) == line.len()
}

// How many bytes two texts share at their fronts.
fn shared_len(a: &[u8], b: &[u8]) -> usize
    ensures value { result ≡ common_prefix_len nat_eq a.now b.now }
    ensures within { result ≤ length a.now }
{
    a.iter().zip(b).take_while(|(x, y)| x == y).count()
}

// The indent of the first line that counts, and then what is left of it beside each further one.
fn meet<'a>(margin: Option<&'a [u8]>, line: &'a [u8]) -> &'a [u8]
    ensures { result.now ≡ meeting (option_map (λ x. x.now) margin.entry) line.now }
{
    match margin {
        None => &line[0..run_from::<Blank>(line, 0)],
        Some(run) => &run[0..shared_len(run, line)],
    }
}

// The blanks that all lines with anything else begin with; none where no line has.
fn margin(text: &[u8]) -> Option<&[u8]>
    ensures { option_map (λ x. x.now) result ≡ fold narrowed None (lines_of text.now) }
{
    let mut margin: Option<&[u8]> = None;
    for line in lines(text) {
        if !is_blank_line(line) {
            margin = Some(meet(margin, line));
        }
    }
    margin
}

fn margin_width(text: &[u8]) -> usize
    ensures { result ≡ length (margin_of (lines_of text.now)) }
{
    margin(text).map_or(0, |run| run.len())
}

// A line of blanks becomes empty, any other loses its first `width` bytes.
fn outdent(line: &[u8], width: usize) -> &[u8]
    ensures { result.now ≡ less width line.now }
{
    if is_blank_line(line) {
        return &line[0..0];
    }
    &line[width.min(line.len())..]
}

// Writes the dedented text at the front of `out` and gives its length; nothing is written, and None given,
// where `out` is not longer than `text`.
pub fn dedent_into(text: &[u8], out: &mut [u8]) -> Option<usize>
    ensures value { result ≡ (if nat_lt (length text.now) (length out.old) then Some (length (dedented text.now)) else None) }
    ensures written { out.new ≡ (if nat_lt (length text.now) (length out.old) then dedented text.now ++ drop (length (dedented text.now)) out.old else out.old) }
    ensures fits { IfSome result (λ n. n ≤ length out.new) }
{
    if text.len() >= out.len() {
        return None;
    }
    let width = margin_width(text);
    let mut at = 0;
    for line in lines(text) {
        at = put_line(out, at, outdent(line, width))?;
    }
    Some(at)
}

// `text` with lines of blanks emptied and the margin of the others taken off, a line feed behind each line.
pub fn dedent(heap: Global, text: &[u8]) -> Result<Vec<u8>, AllocError>
    ensures value { IfOk result (λ v. v.items ≡ dedented text.now) }
    ensures lines { IfOk result (λ v. Dedents (lines_of text.now) (lines_of v.items)) }
    ensures settles { IfOk result (λ v. dedented v.items ≡ v.items) }
{
    let mut out = vec![in heap; 0; text.len() + 1]?;
    let len = dedent_into(text, &mut out).unwrap();
    out.truncate(len);
    Ok(out)
}
