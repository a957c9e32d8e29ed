ghost use Rattle.std.specs.Prelude.{◌≡◌, ◌≤◌, length};
ghost use Rattle.reader.specs.Steps.{handed};

use crate::limits::SHARE_MOST;
use refusal::Refusal;
use text::dedent::dedent_into;
use text::trim::trim;

// A share's text, dedented and trimmed, to the front of the target; gives its length.
pub fn hand_out(text: &[u8], target: &mut [u8]) -> Result<usize, Refusal>
    requires { length text.now ≤ 16384 }
    ensures { record { answer = result; target = target.new } ≡ handed target.old text.now }
{
    // A fixed array, for a reader allocates nothing; the target is written only once the body is known to fit.
    let mut scratch = [0u8; SHARE_MOST + 1];
    let len = dedent_into(text, &mut scratch).unwrap();
    let body = trim(&scratch[..len]);
    let end = body.len();
    if end > target.len() {
        return Err(Refusal::ShortTarget);
    }
    target[..end].copy_from_slice(body);
    Ok(end)
}
