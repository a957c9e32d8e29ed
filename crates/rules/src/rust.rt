// The rules of Rust docstrings: `# Args` and * `name`: text.
ghost use Rattle.std.specs.Prelude.{◌≡◌, ◌<◌, true, false, length, IfSome};
ghost use Rattle.std.specs.Bool.{then_some};
ghost use Rattle.rules.specs.Forms.{RustHeading, RustItem};
ghost use Rattle.rules.specs.Meanings.{always, enters_rust, heads_rust, name_end, resuming, rust_entry, rust_name, rust_section, rust_title, title_in};
ghost use Rattle.rules.specs.Sections.{rust_section_inside, rust_section_exact};
ghost use Rattle.rules.specs.Entries.{rust_entry_inside, rust_entry_exact};

use crate::marks::{TitleByte, is_blank_from, stands_at, text_from, unopened};
use crate::meaning::{Meaning, Place};
use crate::rule::LineRule;
use text::bytes::{Only, Word};
use text::runs::run_from;
use text::trim::strip;

// The title in a run that begins at byte 2 of its line.
fn title_in(run: &[u8]) -> Place
    ensures { result ≡ title_in run.now }
{
    match strip::<Only<b' '>>(run).len() {
        0 => Place {
            at: 2,
            len: run.len(),
        },
        len => Place {
            at: 2 + run_from::<Only<b' '>>(run, 0),
            len,
        },
    }
}

// The title of a line that is `# `, a run that has it, and then only blanks.
fn title(line: &[u8]) -> Option<Place>
    ensures { result ≡ then_some (heads_rust line.now) (rust_title line.now) }
{
    let len = run_from::<TitleByte>(line, 2);
    let heads = line.starts_with(b"# ") && 0 < len && is_blank_from(line, 2 + len);
    heads.then(|| title_in(&line[2..2 + len]))
}

// `# Args`, and nothing behind it.
#[derive(Drop)]
pub struct RustSection;

impl LineRule for RustSection {
    // There are no strays: this says nothing.
    const STRAYS_END: bool = false;

    ghost STRAYS_END = { false };

    const NAMES_LOWERED: bool = true;

    ghost NAMES_LOWERED = { true };

    ghost meaning = { rust_section };

    ghost form = { RustHeading };

    ghost resumes = { always };

    ghost inside = { rust_section_inside };

    ghost exact = { rust_section_exact };

    fn ask(&self, line: &[u8]) -> Meaning {
        match title(line) {
            Some(name) => Meaning::Opens { name, text: None },
            None => Meaning::Continues,
        }
    }
}

// The word in backquotes at the front of a line, or behind a bullet.
fn name(line: &[u8]) -> Option<Place>
    ensures value { result ≡ then_some (enters_rust line.now) (rust_name line.now) }
    ensures within { IfSome result (λ n. name_end n < length line.now) }
{
    let at = if line.starts_with(b"* ") { 3 } else { 1 };
    let len = run_from::<Word>(line, at);
    let enters = stands_at(line, at - 1, b'`') && 0 < len && stands_at(line, at + len, b'`');
    enters.then_some(Place { at, len })
}

// * `name`: text, where bullet and colon may be left out.
#[derive(Drop)]
pub struct RustEntry;

impl LineRule for RustEntry {
    const STRAYS_END: bool = false;

    ghost STRAYS_END = { false };

    const NAMES_LOWERED: bool = false;

    ghost NAMES_LOWERED = { false };

    ghost meaning = { rust_entry };

    ghost form = { RustItem };

    ghost resumes = { resuming };

    ghost inside = { rust_entry_inside };

    ghost exact = { rust_entry_exact };

    fn ask(&self, line: &[u8]) -> Meaning {
        match name(line) {
            Some(name) => {
                let end = name.at + name.len + 1;
                let colon = usize::from(stands_at(line, end, b':'));
                Meaning::Opens {
                    name,
                    text: Some(text_from(line, end + colon)),
                }
            }
            None => unopened(line),
        }
    }
}
