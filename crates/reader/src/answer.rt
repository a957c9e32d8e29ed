ghost use Rattle.std.specs.Prelude.{◌≡◌, Some};
ghost use Rattle.reader.specs.Answers.{answer_number, shown_answer};

use std::fmt;

// What becomes of a line that is not refused.
#[derive(Clone, Copy, Debug, PartialEq, Eq)]
pub enum Answer {
    // Passed over, the reader being lost.
    PassedOver,
    // The asked name with this index opens.
    Opened(usize),
    // Another name opens.
    OtherOpened,
    // Stored in the open name's share.
    Stored,
    // Belongs to no name.
    Outside,
}

impl Answer {
    // The number that is printed for it; code goes by the variants.
    pub fn number(&self) -> u8
        ensures { result ≡ answer_number self.now }
    {
        match self {
            Answer::PassedOver => 0,
            Answer::Opened(_) => 1,
            Answer::OtherOpened => 2,
            Answer::Stored => 3,
            Answer::Outside => 4,
        }
    }
}

// The number, and the index of the name that opens.
impl fmt::Display for Answer {
    ghost output = { λ a. Some (shown_answer a) };

    fn fmt<W: fmt::Write>(&self, f: &mut fmt::Formatter<W>) -> fmt::Result {
        let number = self.number();
        match self {
            Answer::Opened(index) => write!(f, "{number} {index}"),
            _ => write!(f, "{number}"),
        }
    }
}
