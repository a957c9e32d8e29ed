ghost use Rattle.std.specs.Prelude.{◌≡◌, length};
ghost use Rattle.std.specs.List.{All};
ghost use Rattle.reader.specs.Worked.{worked, Holds};

// Each crate has such a function of its own, since the contract names the crate's list.
// How many worked lists of calls there are, each of which is answered as is stated beside it.
pub fn worked_runs() -> usize
    ensures count { result ≡ length worked }
    ensures holds { All Holds worked }
{
    4
}
