// The ways in which a call is turned down, by number and place.
#![tactic(auto)]

ghost use Rattle.std.specs.Prelude.{◌≡◌, IfOk, Some};
ghost use Rattle.refusal.specs.Numbers.{number, place, shown};

use std::alloc::{AllocError, Global};
use std::error::Error;
use std::fmt;

#[derive(Clone, Copy, Debug, PartialEq, Eq)]
pub enum Refusal {
    // No names, or one that cannot be asked for beside those before it: its index.
    BadNames(usize),
    // A share outside its limits, or too much for all names together.
    BadShare,
    // The reader is closed already.
    AlreadyClosed,
    // The shelf has no share for each name.
    ShortShelf,
    // A line that cannot be read: the byte at which it cannot.
    BadLine(usize),
    // The open name's share has no room for the line.
    FullShare,
    // The reader is not closed yet.
    StillReading,
    // The name was not asked for, or nothing opened it.
    NoText,
    // A line of the name's last stretch was lost.
    TornText,
    // The target has no room for the text.
    ShortTarget,
}

impl Refusal {
    // The published number of the kind, so that it stays a number.
    pub fn number(&self) -> u8
        ensures { result ≡ number self.now }
    {
        match self {
            Refusal::BadNames(_) => 1,
            Refusal::BadShare => 2,
            Refusal::AlreadyClosed => 3,
            Refusal::ShortShelf => 4,
            Refusal::BadLine(_) => 5,
            Refusal::FullShare => 6,
            Refusal::StillReading => 7,
            Refusal::NoText => 8,
            Refusal::TornText => 9,
            Refusal::ShortTarget => 10,
        }
    }

    // Where the fault is; 0 where there is nothing to point at.
    pub fn place(&self) -> usize
        ensures { result ≡ place self.now }
    {
        match self {
            Refusal::BadNames(i) | Refusal::BadLine(i) => *i,
            _ => 0,
        }
    }

    // What the Display writes, as bytes.
    pub fn show(&self, heap: Global) -> Result<Vec<u8>, AllocError>
        ensures { IfOk result (λ v. v.items ≡ shown self.now) }
    {
        Ok(format!(in heap; "{self}")?.into_bytes())
    }
}

// `refused N at P`.
impl fmt::Display for Refusal {
    ghost output = { λ r. Some (shown r) };

    fn fmt<W: fmt::Write>(&self, f: &mut fmt::Formatter<W>) -> fmt::Result {
        write!(f, "refused {} at {}", self.number(), self.place())
    }
}

impl Error for Refusal {}
