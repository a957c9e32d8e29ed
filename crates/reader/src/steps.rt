// How a reader's state goes from call to call.
ghost use Rattle.std.specs.Prelude.{◌≡◌, ℕ, ◌<◌};
ghost use Rattle.reader.specs.declared.state.Course.TheVariants.{Open};
ghost use Rattle.reader.specs.Steps.{finished, fresh, is_closed, opened_at, strayed, used};

use crate::state::{Course, Kept, State};

impl Kept {
    // How many bytes of the share are text.
    pub fn used(&self) -> usize
        ensures { result ≡ used self.now }
    {
        match self {
            Kept::Whole(used) => *used,
            _ => 0,
        }
    }
}

impl State {
    // On course, no name open, all absent.
    pub fn new() -> State
        ensures { result ≡ fresh }
    {
        State {
            kept: [Kept::Absent; 64],
            course: Course::NoName,
        }
    }

    pub fn is_closed(&self) -> bool
        ensures { result ≡ is_closed self.now.course }
    {
        self.course == Course::Closed
    }

    // The stretch ends: what its name has stays, and lines are understood again.
    pub fn finish_section(&mut self)
        ensures { self.new ≡ finished self.old }
    {
        self.course = Course::NoName;
    }

    // A line is lost: what its name has is torn, and nothing is understood up to the next boundary.
    pub fn lose(&mut self)
        requires { (i : ℕ) → self.old.course ≡ Open i → i < 64 }
        ensures { self.new ≡ strayed self.old }
    {
        if let Course::Open(i) = self.course {
            self.kept[i] = Kept::Torn;
        }
        self.course = Course::Lost;
    }

    // The name with this index is open, and its text has so many bytes.
    pub fn open(&mut self, i: usize, used: usize)
        requires { i < 64 }
        ensures { self.new ≡ opened_at i used self.old }
    {
        self.kept[i] = Kept::Whole(used);
        self.course = Course::Open(i);
    }
}
