ghost use Rattle.std.specs.Prelude.{◌≡◌, ◌+◌, ◌*◌, ◌<◌, ◌≤◌, [], ◌∷◌, ◌++◌, take, length, IfOk, Some};
ghost use Rattle.std.specs.Str.{IsAscii};
ghost use Rattle.text.specs.Escapes.{escaped, escape_of, hex_digit};

use std::alloc::{AllocError, Global};
use std::{fmt, str};

// How many bytes are made printable before a formatter is called: a call for each would take most of the time.
const PART: usize = 64;

// A number below 16 as a hexadecimal digit.
fn hex_digit(n: u8) -> u8
    requires { n < 16 }
    ensures { result ≡ hex_digit n }
{
    if n < 10 { b'0' + n } else { b'a' + (n - 10) }
}

// Writes a backslash and a mark behind it into `out` from `at` on, and gives the place behind them.
fn put_marked(out: &mut [u8], at: usize, mark: u8) -> usize
    requires { at + 2 ≤ length out.old }
    ensures place { result ≡ at + 2 }
    ensures written { take (at + 2) out.new ≡ take at out.old ++ (92 ∷ mark ∷ []) }
{
    out[at] = b'\\';
    out[at + 1] = mark;
    at + 2
}

// Writes what a byte prints as into `out` from `at` on, and gives the place behind it.
fn put_shown(out: &mut [u8], at: usize, b: u8) -> usize
    requires { at + 4 ≤ length out.old }
    ensures written { take result out.new ≡ take at out.old ++ escape_of b }
    ensures within { result ≤ at + 4 }
{
    match b {
        b'\\' => put_marked(out, at, b'\\'),
        b'\n' => put_marked(out, at, b'n'),
        b'\t' => put_marked(out, at, b't'),
        b' '..=b'~' => {
            out[at] = b;
            at + 1
        }
        _ => {
            let from = put_marked(out, at, b'x');
            out[from] = hex_digit(b / 16);
            out[from + 1] = hex_digit(b % 16);
            from + 2
        }
    }
}

// Writes what the bytes print as to the front of `out`, and gives how much it is.
fn show_into(bytes: &[u8], out: &mut [u8]) -> usize
    requires { 4 * length bytes.now ≤ length out.old }
    ensures written { take result out.new ≡ escaped bytes.now }
    ensures ascii { IsAscii (escaped bytes.now) }
    ensures within { result ≤ 4 * length bytes.now }
{
    let mut at = 0;
    for b in bytes {
        at = put_shown(out, at, *b);
    }
    at
}

// Bytes, which print as printable ASCII on one line.
#[derive(Clone, Copy)]
pub struct Escaped<'a>(pub &'a [u8]);

impl fmt::Display for Escaped<'_> {
    ghost output = { λ e. Some (escaped e.0.now) };

    fn fmt<W: fmt::Write>(&self, f: &mut fmt::Formatter<W>) -> fmt::Result {
        let mut out = [0u8; 4 * PART];
        for part in self.0.chunks(PART) {
            let len = show_into(part, &mut out);
            f.write_str(str::from_utf8(&out[..len]).unwrap())?;
        }
        Ok(())
    }
}

// `text` as printable ASCII on one line.
pub fn escape(heap: Global, text: &[u8]) -> Result<Vec<u8>, AllocError>
    ensures { IfOk result (λ v. v.items ≡ escaped text.now) }
{
    Ok(format!(in heap; "{}", Escaped(text))?.into_bytes())
}
