// The names that a reader is asked for: which can be asked for together, and where one stands among them.
#![tactic(auto)]

ghost use Rattle.std.specs.Prelude.{◌≡◌, ◌<◌, map, length, IfSome};
ghost use Rattle.std.specs.List.{list_all};
ghost use Rattle.std.specs.Str.{bytes_eq};
ghost use Rattle.text.specs.Bytes.{lowered as small};
ghost use Rattle.text.specs.Lines.{texts};
ghost use Rattle.rules.specs.Meanings.{looked_up};
ghost use Rattle.names.specs.Asked.{fitting, index_of, joins, names_fault, printable, Faults};

use text::bytes::lower_byte;

// The most names that can be asked for together.
const NAMES_LIMIT: usize = 64;

// The longest name that can be asked for.
const NAME_LIMIT: usize = 64;

// Has the name only bytes that a name may have?
fn is_printable(name: &[u8]) -> bool
    ensures { result ≡ list_all printable name.now }
{
    name.iter().all(|b| matches!(b, b' '..=b'~'))
}

// Can the name be asked for at all?
fn fits(name: &[u8]) -> bool
    ensures { result ≡ fitting name.now }
{
    matches!(name.len(), 1..=NAME_LIMIT) && is_printable(name)
}

// Is `name`, lowered, the asked one?
fn is_lowered(asked: &[u8], name: &[u8]) -> bool
    ensures { result ≡ bytes_eq asked.now (map small name.now) }
{
    // By `zip`: the proof of `eq` between two chains does not close.
    asked.len() == name.len() && asked.iter().zip(name).all(|(a, b)| *a == lower_byte(*b))
}

// Is `name`, lowered or not, the asked one?
fn is_called(asked: &[u8], name: &[u8], lowered: bool) -> bool
    ensures { result ≡ bytes_eq asked.now (looked_up lowered name.now) }
{
    if lowered {
        is_lowered(asked, name)
    } else {
        asked == name
    }
}

// Where a name, lowered or not, stands among the asked ones.
pub fn find(names: &[&[u8]], name: &[u8], lowered: bool) -> Option<usize>
    ensures value { result ≡ index_of (texts names.now) (looked_up lowered name.now) }
    ensures within { IfSome result (λ i. i < length names.now) }
{
    names
        .iter()
        .position(|asked| is_called(asked, name, lowered))
}

// Can `name` be asked for beside those before it?
fn can_join(seen: &[&[u8]], name: &[u8]) -> bool
    ensures { result ≡ joins (texts seen.now) name.now }
{
    fits(name) && find(seen, name, false).is_none() && seen.len() < NAMES_LIMIT
}

// The first name that cannot be asked for beside those before it.
pub fn names_fault(names: &[&[u8]]) -> Option<usize>
    ensures value { result ≡ names_fault (texts names.now) }
    ensures faults { Faults (texts names.now) result }
{
    (0..names.len()).find(|&i| !can_join(&names[..i], names[i]))
}
