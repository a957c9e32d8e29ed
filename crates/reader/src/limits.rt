ghost use Rattle.std.specs.Prelude.{◌≡◌, ◌≤◌};
ghost use Rattle.reader.specs.Starts.{share_fits};

// The least share has room for the longest line and its LF.
const SHARE_LEAST: usize = 1001;

pub const SHARE_MOST: usize = 16384;

// What the shares of all names may have together.
const SHELF_MOST: usize = 65536;

// Is the share within its limits, for each name and for so many?
pub fn share_fits(count: usize, share: usize) -> bool
    requires { count ≤ 64 }
    ensures { result ≡ share_fits count share }
{
    matches!(share, SHARE_LEAST..=SHARE_MOST) && count * share <= SHELF_MOST
}
