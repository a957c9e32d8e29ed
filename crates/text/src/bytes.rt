ghost use Rattle.std.specs.Prelude.{◌≡◌, ℕ, Bool, map, IfOk};
ghost use Rattle.text.specs.Bytes.{only, except, blank, white, word, plain, lowered};

use std::alloc::{AllocError, Global};

// A kind of byte, so that one loop serves every kind.
pub trait ByteClass {
    ghost member: { ℕ → Bool };

    fn has(b: u8) -> bool
        ensures { result ≡ member b };
}

// The byte `B` and no other.
pub struct Only<const B: u8>;

impl<const B: u8> ByteClass for Only<B> {
    ghost member = { only B };

    fn has(b: u8) -> bool {
        b == B
    }
}

// Any byte but `B`.
pub struct Except<const B: u8>;

impl<const B: u8> ByteClass for Except<B> {
    ghost member = { except B };

    fn has(b: u8) -> bool {
        b != B
    }
}

// A tab or a space.
pub struct Blank;

impl ByteClass for Blank {
    ghost member = { blank };

    fn has(b: u8) -> bool {
        b == b'\t' || b == b' '
    }
}

// A blank or a line feed.
pub struct White;

impl ByteClass for White {
    ghost member = { white };

    fn has(b: u8) -> bool {
        Blank::has(b) || b == b'\n'
    }
}

// An ASCII letter, a digit or an underscore.
pub struct Word;

impl ByteClass for Word {
    ghost member = { word };

    fn has(b: u8) -> bool {
        b.is_ascii_alphanumeric() || b == b'_'
    }
}

// A byte that a line may hold: a tab, or printable ASCII.
pub struct Plain;

impl ByteClass for Plain {
    ghost member = { plain };

    fn has(b: u8) -> bool {
        matches!(b, b'\t' | b' '..=b'~')
    }
}

// An ASCII capital as its small letter; any other byte as it is.
pub fn lower_byte(b: u8) -> u8
    ensures { result ≡ lowered b }
{
    b.to_ascii_lowercase()
}

// `name` with its ASCII capitals as small letters.
pub fn lower(heap: Global, name: &[u8]) -> Result<Vec<u8>, AllocError>
    ensures { IfOk result (λ v. v.items ≡ map lowered name.now) }
{
    name.iter().map(|b| lower_byte(*b)).collect(heap)
}
