use crate::answer::Answer;
use rules::meaning::Place;

// A call to a reader.
#[derive(Clone, Copy)]
pub enum Call<'a> {
    Line(&'a [u8]),
    Close,
    // For the body of the name with this index, into a part of the targets.
    Ask { index: usize, target: Place },
}

// What a call that is not refused is answered.
#[derive(Clone, Copy, Debug, PartialEq, Eq)]
pub enum Reply {
    Answered(Answer),
    Closed,
    // How long the body is that the target now holds.
    Body(usize),
}
