ghost use Rattle.std.specs.Prelude.{◌≡◌, take, drop};
ghost use Rattle.rules.specs.Places.{clipped};

// A part of a line: `len` bytes from `at`.
#[derive(Clone, Copy, Debug, PartialEq, Eq)]
pub struct Place {
    pub at: usize,
    pub len: usize,
}

impl Place {
    // As much of the place as there is in so many bytes.
    pub fn within(self, len: usize) -> Place
        ensures { result ≡ clipped self len }
    {
        let at = self.at.min(len);
        Place {
            at,
            len: self.len.min(len - at),
        }
    }

    // The bytes at the place, as far as `bytes` has them.
    pub fn of(self, bytes: &[u8]) -> &[u8]
        ensures { result.now ≡ take self.len (drop self.at bytes.now) }
    {
        let Place { at, len } = self.within(bytes.len());
        &bytes[at..at + len]
    }
}

// What a rule makes of a line.
#[derive(Clone, Copy, Debug, PartialEq, Eq)]
pub enum Meaning {
    // The line opens the name at the place given; its text, where the rule has one, starts at `text`.
    Opens { name: Place, text: Option<usize> },
    // The line belongs to what is open.
    Continues,
    // The line belongs to nothing.
    Stray,
}

// What is fixed for every line that a rule is asked about.
#[derive(Clone, Copy, Debug, PartialEq, Eq)]
pub struct Properties {
    pub strays_end: bool,
    pub names_lowered: bool,
}
