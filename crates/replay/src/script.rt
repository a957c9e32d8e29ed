ghost use Rattle.std.specs.Prelude.{◌≡◌, ℕ, ◌^◌, ◌<◌, ◌≤◌, List, [], length, drop, IfOk, OnOk, Result};
ghost use Rattle.text.specs.Lines.{lines_of, texts};
ghost use Rattle.replay.specs.Sayings.{asked_at, behind, call_of, limited as within_limit, name_of, number_behind, rule_named, rule_of, said, said_of, share_of, shelf_of};
ghost use Rattle.replay.specs.Scripts.{calls_from, content_in, content_of, fault_at, names_from, names_in, read_at, room_with, spoken_in, ReadAs};
ghost use Rattle.replay.specs.Words.{number_of, rest_of, word_of};
ghost use Rattle.replay.specs.declared.script.ScriptError.TheVariants.{Memory, Unread};

use crate::words::{number, split_word};
use reader::calls::Call;
use rules::meaning::Place;
use std::alloc::{AllocError, AllocFailed, Global};
use text::lines::split_lines;

// The rules by their names in a script.
#[derive(Clone, Copy, Debug, PartialEq, Eq)]
pub enum RuleName {
    StarlarkSection,
    RustSection,
    StarlarkEntry,
    RustEntry,
}

// What is wrong with a line of a script.
#[derive(Clone, Copy, Debug, PartialEq, Eq)]
pub enum Wrong {
    RuleWanted,
    NotRule,
    ShareWanted,
    ShelfWanted,
    NameWanted,
    NotNumber,
    ShelfOver,
    RoomOver,
    // All targets together would have more room than can be counted.
    RoomsOver,
    NotCall,
    NoStart,
}

// What is wrong, and on which line.
#[derive(Clone, Copy, Debug, PartialEq, Eq)]
pub struct Fault {
    pub line: usize,
    pub wrong: Wrong,
}

// Why there is no script.
#[derive(Clone, Copy, Debug, PartialEq, Eq)]
pub enum ScriptError {
    Memory,
    Unread(Fault),
}

// The library has two errors for want of memory, and `?` takes each by an impl of its own.
impl From<AllocError> for ScriptError {
    ghost from_gives = { λ _ r. r ≡ Memory };

    fn from(_e: AllocError) -> ScriptError {
        ScriptError::Memory
    }
}

impl<T: Drop> From<AllocFailed<T>> for ScriptError {
    ghost from_gives = { λ _ r. r ≡ Memory };

    fn from(_e: AllocFailed<T>) -> ScriptError {
        ScriptError::Memory
    }
}

impl From<Fault> for ScriptError {
    ghost from_gives = { λ fault r. r ≡ Unread fault };

    fn from(fault: Fault) -> ScriptError {
        ScriptError::Unread(fault)
    }
}

// The calls to make, and what to make them on.
#[derive(Drop)]
pub struct Script<'a> {
    pub rule: RuleName,
    pub share: usize,
    pub shelf: usize,
    pub names: Vec<&'a [u8]>,
    pub calls: Vec<Call<'a>>,
    // What all targets take together.
    pub room: usize,
}

// The most room that a shelf or a target gets.
pub const ROOM_MOST: usize = 1_000_000;

fn limited(over: Wrong, n: usize) -> Result<usize, Wrong>
    ensures { result ≡ within_limit over n }
{
    if n <= ROOM_MOST { Ok(n) } else { Err(over) }
}

impl TryFrom<&[u8]> for RuleName {
    type Error = Wrong;

    ghost try_from_gives = { λ name r. r ≡ rule_named name.now };

    fn try_from(name: &[u8]) -> Result<RuleName, Wrong> {
        // By ifs: the proof of a match on byte texts does not close.
        if name == b"starlark-section".as_slice() {
            Ok(RuleName::StarlarkSection)
        } else if name == b"rust-section".as_slice() {
            Ok(RuleName::RustSection)
        } else if name == b"starlark-entry".as_slice() {
            Ok(RuleName::StarlarkEntry)
        } else if name == b"rust-entry".as_slice() {
            Ok(RuleName::RustEntry)
        } else {
            Err(Wrong::NotRule)
        }
    }
}

// What stands behind the word that is wanted here.
fn behind<'a>(wanted: &[u8], other: Wrong, line: &'a [u8]) -> Result<&'a [u8], Wrong>
    ensures { said (λ x. x.now) result ≡ behind wanted.now other line.now }
{
    let (word, rest) = split_word(line);
    if word == wanted { Ok(rest) } else { Err(other) }
}

// `rule NAME`.
fn rule_of(line: &[u8]) -> Result<RuleName, Wrong>
    ensures { result ≡ rule_of line.now }
{
    RuleName::try_from(behind(b"rule", Wrong::RuleWanted, line)?)
}

// The number behind a word; another word is not what is wanted here.
fn number_behind(wanted: &[u8], other: Wrong, line: &[u8]) -> Result<usize, Wrong>
    ensures { result ≡ number_behind wanted.now other line.now }
{
    number(behind(wanted, other, line)?).ok_or(Wrong::NotNumber)
}

// `ask NAME`.
fn name_of(line: &[u8]) -> Result<&[u8], Wrong>
    ensures { said (λ x. x.now) result ≡ name_of line.now }
{
    behind(b"ask", Wrong::NameWanted, line)
}

// `INDEX ROOM`, for a target from `at` on.
fn ask_of(at: usize, text: &[u8]) -> Result<Call<'_>, Wrong>
    ensures { said said_of result ≡ asked_at at (number_of (word_of text.now)) (number_of (rest_of text.now)) }
{
    let (index, room) = split_word(text);
    let index = number(index).ok_or(Wrong::NotNumber)?;
    let room = number(room).ok_or(Wrong::NotNumber)?;
    let len = limited(Wrong::RoomOver, room)?;
    Ok(Call::Ask {
        index,
        target: Place { at, len },
    })
}

// The call that a line is, with its target, if it has one, from `at` on. By ifs, as a rule's name is read.
fn call_of(at: usize, line: &[u8]) -> Result<Call<'_>, Wrong>
    ensures { said said_of result ≡ call_of at line.now }
{
    let (word, rest) = split_word(line);
    if word == b"line".as_slice() {
        Ok(Call::Line(rest))
    } else if word == b"body".as_slice() {
        ask_of(at, rest)
    } else if line == b"close".as_slice() {
        Ok(Call::Close)
    } else {
        Err(Wrong::NotCall)
    }
}

impl Fault {
    fn at(i: usize, wrong: Wrong) -> Fault
        requires { i < 2 ^ 63 }
        ensures { result ≡ fault_at i wrong }
    {
        Fault { line: i + 1, wrong }
    }
}

// What `read` makes of the line with this index, which must be there: the script has not started yet.
fn read_at<'a, T, F: FnOnce(&'a [u8]) -> Result<T, Wrong>>(
    lines: &[&'a [u8]],
    i: usize,
    read: F,
) -> Result<T, Fault>
    requires { F.IsAlwaysCallable read }
    ensures value { (f : List ℕ → Result T Wrong) → ((line : _) (r : _) → F.post read line r → r ≡ f line.now) → result ≡ read_at i f (texts lines.now) }
    ensures there { OnOk result (i < length lines.now) }
{
    match lines.get(i) {
        Some(line) => read(*line).map_err(|wrong| Fault::at(i, wrong)),
        None => Err(Fault::at(lines.len(), Wrong::NoStart)),
    }
}

fn share_of(line: &[u8]) -> Result<usize, Wrong>
    ensures { result ≡ share_of line.now }
{
    number_behind(b"share", Wrong::ShareWanted, line)
}

fn shelf_of(line: &[u8]) -> Result<usize, Wrong>
    ensures { result ≡ shelf_of line.now }
{
    limited(
        Wrong::ShelfOver,
        number_behind(b"shelf", Wrong::ShelfWanted, line)?,
    )
}

// The names asked for, and the index of the line that says `start`.
struct Asked<'a> {
    names: Vec<&'a [u8]>,
    start: usize,
}

fn read_names<'a>(heap: Global, lines: &[&'a [u8]], from: usize) -> Result<Asked<'a>, ScriptError>
    requires { from ≤ length lines.now }
    ensures read { ReadAs names_in result (names_from (length (texts lines.now)) [] from (drop from (texts lines.now))) }
    ensures within { IfOk result (λ asked. asked.start < length lines.now) }
{
    let mut names = Vec::new(heap);
    for (k, line) in lines[from..].iter().enumerate() {
        let i = from + k;
        if *line == b"start".as_slice() {
            return Ok(Asked { names, start: i });
        }
        let name = name_of(*line).map_err(|wrong| Fault::at(i, wrong))?;
        names.push(name)?;
    }
    Err(Fault::at(lines.len(), Wrong::NoStart).into())
}

// The room up to the end of a call's target.
fn room_with(room: usize, call: &Call) -> Result<usize, Wrong>
    ensures { result ≡ room_with room (said_of call.now) }
{
    match call {
        Call::Ask { target, .. } => target.at.checked_add(target.len).ok_or(Wrong::RoomsOver),
        _ => Ok(room),
    }
}

struct Calls<'a> {
    calls: Vec<Call<'a>>,
    room: usize,
}

// The calls, their targets one behind the other.
fn read_calls<'a>(heap: Global, lines: &[&'a [u8]], from: usize) -> Result<Calls<'a>, ScriptError>
    requires { from ≤ length lines.now }
    ensures { ReadAs spoken_in result (calls_from [] 0 from (drop from (texts lines.now))) }
{
    let mut calls = Vec::new(heap);
    let mut room = 0;
    for (k, line) in lines[from..].iter().enumerate() {
        let i = from + k;
        let call = call_of(room, *line).map_err(|wrong| Fault::at(i, wrong))?;
        room = room_with(room, &call).map_err(|wrong| Fault::at(i, wrong))?;
        calls.push(call)?;
    }
    Ok(Calls { calls, room })
}

// A script from its text: the first three lines, the names, and behind `start` the calls.
pub fn read_script<'a>(heap: Global, text: &'a [u8]) -> Result<Script<'a>, ScriptError>
    ensures { ReadAs content_in result (content_of (lines_of text.now)) }
{
    let all = split_lines(heap, text)?;
    let lines = all.as_slice();
    let rule = read_at(lines, 0, rule_of)?;
    let share = read_at(lines, 1, share_of)?;
    let shelf = read_at(lines, 2, shelf_of)?;
    let Asked { names, start } = read_names(heap, lines, 3)?;
    let Calls { calls, room } = read_calls(heap, lines, start + 1)?;
    Ok(Script {
        rule,
        share,
        shelf,
        names,
        calls,
        room,
    })
}
