ghost use Rattle.std.specs.Prelude.{◌≡◌, IfOk, Some, string_bytes};
ghost use Rattle.std.specs.Str.{IsAscii};
ghost use Rattle.text.specs.Lines.{fault_of};
ghost use Rattle.rules.specs.Meanings.{looked_up};
ghost use Rattle.lines.specs.Rows.{cell_of, reading_of};
ghost use Rattle.lines.specs.Findings.{shown};

use rules::meaning::Meaning;
use rules::rule::LineRule;
use std::alloc::{AllocError, Global};
use std::fmt;
use text::bytes::lower;
use text::lines::fault;

// What a rule makes of a line, or the byte at which the line cannot be read.
pub fn reading<R: LineRule>(rule: &R, line: &[u8]) -> Result<Meaning, usize>
    ensures { result ≡ reading_of (fault_of line.now) (R.LineRule.meaning line.now) }
{
    // A match: `map_or_else`, with the sides turned round, would read no plainer.
    match fault(line) {
        Some(at) => Err(at),
        None => Ok(rule.ask(line)),
    }
}

// The name as it is looked up.
fn looked_up(heap: Global, name: &[u8], lowers: bool) -> Result<String, AllocError>
    requires { IsAscii name.now }
    ensures { IfOk result (λ s. string_bytes s ≡ looked_up lowers name.now) }
{
    let bytes = if lowers {
        lower(heap, name)
    } else {
        Vec::from_slice(heap, name)
    };
    Ok(String::from_utf8(bytes?).unwrap())
}

// What is told of a line: what a rule makes of it, with the name as it is looked up. A `Display` needs a type of this crate.
#[derive(Drop)]
enum Finding {
    Opens { name: String, text: Option<usize> },
    Continues,
    Stray,
    Unreadable { at: usize },
}

impl Finding {
    fn of<R: LineRule>(heap: Global, rule: &R, line: &[u8]) -> Result<Finding, AllocError>
        ensures { IfOk result (λ f. shown f ≡ cell_of R.NAMES_LOWERED line.now (reading_of (fault_of line.now) (R.LineRule.meaning line.now))) }
    {
        match reading(rule, line) {
            Ok(Meaning::Opens { name, text }) => {
                let name = looked_up(heap, name.of(line), R::NAMES_LOWERED)?;
                Ok(Finding::Opens { name, text })
            }
            Ok(Meaning::Continues) => Ok(Finding::Continues),
            Ok(Meaning::Stray) => Ok(Finding::Stray),
            Err(at) => Ok(Finding::Unreadable { at }),
        }
    }
}

// In a few words: `opens "name" @6`, where the text starts at byte 6.
impl fmt::Display for Finding {
    ghost output = { λ f. Some (shown f) };

    fn fmt<W: fmt::Write>(&self, f: &mut fmt::Formatter<W>) -> fmt::Result {
        match self {
            Finding::Opens {
                name,
                text: Some(at),
            } => write!(f, "opens \"{name}\" @{at}"),
            Finding::Opens { name, text: None } => write!(f, "opens \"{name}\""),
            Finding::Continues => f.write_str("continues"),
            Finding::Stray => f.write_str("stray"),
            Finding::Unreadable { at } => write!(f, "unreadable @{at}"),
        }
    }
}

// How many bytes a column takes.
pub const COLUMN: usize = 20;

// What a rule makes of a line, in a few words, with room for the spaces that fill its column.
pub fn cell<R: LineRule>(heap: Global, rule: &R, line: &[u8]) -> Result<Vec<u8>, AllocError>
    ensures { IfOk result (λ v. v.items ≡ cell_of R.NAMES_LOWERED line.now (reading_of (fault_of line.now) (R.LineRule.meaning line.now))) }
{
    let finding = Finding::of(heap, rule, line)?;
    let mut cell = String::with_capacity(heap, COLUMN)?;
    write!(cell, "{finding}")?;
    Ok(cell.into_bytes())
}
