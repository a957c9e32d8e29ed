// Bytes written into a share.
ghost use Rattle.std.specs.Prelude.{◌≡◌, ◌+◌, ◌≤◌, length, IfSome};
ghost use Rattle.text.specs.Lines.{put};
ghost use Rattle.reader.specs.Shelves.{opening_text};

use text::lines::put_line;

// Writes what a line that opens a name stores to the front of its share, and says how much it is.
pub fn store_opening(share: &mut [u8], line: &[u8], text: Option<usize>) -> usize
    requires room { length line.now + 1 ≤ length share.old }
    requires inside { IfSome text (λ t. t ≤ length line.now) }
    ensures used { result ≡ length (opening_text text line.now) }
    ensures stored { share.new ≡ put 0 (opening_text text line.now) share.old }
{
    let Some(t) = text else {
        return 0;
    };
    share[..t].fill(b' ');
    put_line(share, t, &line[t..]).unwrap()
}
