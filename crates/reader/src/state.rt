// What is kept of an asked name.
#[derive(Clone, Copy, Debug, PartialEq, Eq)]
pub enum Kept {
    // Nothing: no line has opened it.
    Absent,
    // The whole text of its last stretch, so many bytes of its share.
    Whole(usize),
    // Nothing that can be handed out: a line of its last stretch was lost.
    Torn,
}

// How lines are taken.
#[derive(Clone, Copy, Debug, PartialEq, Eq)]
pub enum Course {
    // No asked name is open.
    NoName,
    // The asked name with this index is open.
    Open(usize),
    // A line was lost: nothing is understood up to the next boundary.
    Lost,
    Closed,
}

// What changes from call to call.
#[derive(Drop)]
pub struct State {
    // An array, for a reader allocates nothing.
    pub kept: [Kept; 64],
    pub course: Course,
}
