ghost use Rattle.std.specs.Prelude.{◌≡◌, ◌+◌, ◌-◌, ◌≤◌, length, take, drop};
ghost use Rattle.std.specs.List.{prefix_len, suffix_len};
ghost use Rattle.text.specs.Bytes.{except};

use crate::bytes::{ByteClass, Except};

// How many bytes of the class `text` begins with.
fn leading<C: ByteClass>(text: &[u8]) -> usize
    ensures count { result ≡ prefix_len C.member text.now }
    ensures within { result ≤ length text.now }
{
    text.iter().take_while(|b| C::has(**b)).count()
}

// How many bytes of the class stand in `text` from `from` on, before any other. From a part of the text: `skip` would
// go over all that stands before it.
#[tactic(auto, using(std::proofs::lemmas::List::drop_min))]
pub fn run_from<C: ByteClass>(text: &[u8], from: usize) -> usize
    ensures count { result ≡ prefix_len C.member (drop from text.now) }
    ensures within { result ≤ length text.now - from }
{
    leading::<C>(&text[from.min(text.len())..])
}

// How many bytes of the class `text` ends with.
pub fn run_back<C: ByteClass>(text: &[u8]) -> usize
    ensures count { result ≡ suffix_len C.member text.now }
    ensures within { result ≤ length text.now }
{
    text.iter().rev().take_while(|b| C::has(**b)).count()
}

// What stands before the first byte `B` of `text`, and what stands behind it; all and nothing where there is none.
pub fn cut_at<const B: u8>(text: &[u8]) -> (&[u8], &[u8])
    ensures before { result.0.now ≡ take (prefix_len (except B) text.now) text.now }
    ensures behind { result.1.now ≡ drop (prefix_len (except B) text.now + 1) text.now }
{
    let end = run_from::<Except<B>>(text, 0);
    (&text[..end], &text[(end + 1).min(text.len())..])
}
