ghost use Rattle.std.specs.Prelude.{◌≡◌};
ghost use Rattle.text.specs.Trims.{stripped, trimmed, Strips};
ghost use Rattle.text.specs.Bytes.{white};

use crate::bytes::{ByteClass, White};
use crate::runs::{run_back, run_from};

// `text` less the bytes of the class at both ends.
pub fn strip<C: ByteClass>(text: &[u8]) -> &[u8]
    ensures { result.now ≡ stripped C.member text.now }
{
    let rest = &text[run_from::<C>(text, 0)..];
    &rest[0..rest.len() - run_back::<C>(rest)]
}

// `text` less the white at both ends.
pub fn trim(text: &[u8]) -> &[u8]
    ensures value { result.now ≡ trimmed text.now }
    ensures strips { Strips white text.now result.now }
{
    strip::<White>(text)
}
