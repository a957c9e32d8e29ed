// The rules of Starlark docstrings: `Args:` and `name: text`.
ghost use Rattle.std.specs.Prelude.{◌≡◌, ◌<◌, true, false, length, IfSome};
ghost use Rattle.std.specs.Bool.{then_some};
ghost use Rattle.rules.specs.Forms.{StarlarkHeading, StarlarkItem};
ghost use Rattle.rules.specs.Meanings.{enters_starlark, heads_starlark, name_end, resuming, starlark_entry, starlark_name, starlark_section, starlark_title};
ghost use Rattle.rules.specs.Sections.{starlark_section_inside, starlark_section_exact};
ghost use Rattle.rules.specs.Entries.{starlark_entry_inside, starlark_entry_exact};

use crate::marks::{TitleByte, is_blank_from, stands_at, text_from, unopened};
use crate::meaning::{Meaning, Place};
use crate::rule::LineRule;
use text::bytes::{Only, Word};
use text::runs::run_from;

// The title at the front of a line that then has a colon and only blanks.
fn title(line: &[u8]) -> Option<Place>
    ensures { result ≡ then_some (heads_starlark line.now) (starlark_title line.now) }
{
    let len = run_from::<TitleByte>(line, 0);
    let heads = 0 < len
        && !stands_at(line, 0, b' ')
        && stands_at(line, len, b':')
        && is_blank_from(line, len + 1);
    heads.then_some(Place { at: 0, len })
}

// `Args:`, and nothing behind it.
#[derive(Drop)]
pub struct StarlarkSection;

impl LineRule for StarlarkSection {
    const STRAYS_END: bool = true;

    ghost STRAYS_END = { true };

    const NAMES_LOWERED: bool = true;

    ghost NAMES_LOWERED = { true };

    ghost meaning = { starlark_section };

    ghost form = { StarlarkHeading };

    ghost resumes = { resuming };

    ghost inside = { starlark_section_inside };

    ghost exact = { starlark_section_exact };

    fn ask(&self, line: &[u8]) -> Meaning {
        match title(line) {
            Some(name) => Meaning::Opens { name, text: None },
            None => unopened(line),
        }
    }
}

// The word behind at most two stars that a colon follows.
fn name(line: &[u8]) -> Option<Place>
    ensures value { result ≡ then_some (enters_starlark line.now) (starlark_name line.now) }
    ensures within { IfSome result (λ n. name_end n < length line.now) }
{
    let at = run_from::<Only<b'*'>>(line, 0);
    let len = run_from::<Word>(line, at);
    let enters = at <= 2 && 0 < len && stands_at(line, at + len, b':');
    enters.then_some(Place { at, len })
}

// `name: text`, with up to two stars before it.
#[derive(Drop)]
pub struct StarlarkEntry;

impl LineRule for StarlarkEntry {
    const STRAYS_END: bool = false;

    ghost STRAYS_END = { false };

    const NAMES_LOWERED: bool = false;

    ghost NAMES_LOWERED = { false };

    ghost meaning = { starlark_entry };

    ghost form = { StarlarkItem };

    ghost resumes = { resuming };

    ghost inside = { starlark_entry_inside };

    ghost exact = { starlark_entry_exact };

    fn ask(&self, line: &[u8]) -> Meaning {
        match name(line) {
            Some(name) => Meaning::Opens {
                name,
                text: Some(text_from(line, name.at + name.len + 1)),
            },
            None => unopened(line),
        }
    }
}
