ghost use Rattle.std.specs.Prelude.{◌≡◌, length};
ghost use Rattle.std.specs.List.{All};
ghost use Rattle.rules.specs.Worked.{worked, Holds};

// Each crate has such a function of its own, since the contract names the crate's list.
// How many worked lines there are, each of which means what is stated beside it.
pub fn worked_lines() -> usize
    ensures count { result ≡ length worked }
    ensures holds { All Holds worked }
{
    16
}
