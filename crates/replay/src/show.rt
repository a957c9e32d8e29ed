ghost use Rattle.std.specs.Prelude.{Some};
ghost use Rattle.replay.specs.Shown.{fault_text, shown_reply, shown_wrong};

use crate::script::{Fault, ROOM_MOST, Wrong};
use reader::calls::Reply;
use refusal::Refusal;
use std::fmt;
use text::escape::Escaped;

// What a call is answered, where its target holds these bytes.
#[derive(Clone, Copy)]
pub struct Shown<'a> {
    pub reply: &'a Result<Reply, Refusal>,
    pub target: &'a [u8],
}

impl fmt::Display for Shown<'_> {
    ghost output = { λ s. Some (shown_reply s.target.now s.reply.now) };

    fn fmt<W: fmt::Write>(&self, f: &mut fmt::Formatter<W>) -> fmt::Result {
        match self.reply {
            Ok(Reply::Answered(answer)) => write!(f, "{answer}"),
            Ok(Reply::Closed) => write!(f, "closed"),
            Ok(Reply::Body(len)) => {
                let end = (*len).min(self.target.len());
                write!(f, "body {len} {}", Escaped(&self.target[..end]))
            }
            Err(refusal) => write!(f, "{refusal}"),
        }
    }
}

impl fmt::Display for Wrong {
    ghost output = { λ wrong. Some (shown_wrong wrong) };

    fn fmt<W: fmt::Write>(&self, f: &mut fmt::Formatter<W>) -> fmt::Result {
        match self {
            Wrong::RuleWanted => write!(f, "rule NAME is wanted here"),
            Wrong::NotRule => write!(f, "not a rule"),
            Wrong::ShareWanted => write!(f, "share N is wanted here"),
            Wrong::ShelfWanted => write!(f, "shelf N is wanted here"),
            Wrong::NameWanted => write!(f, "ask NAME or start is wanted here"),
            Wrong::NotNumber => write!(f, "not a number"),
            Wrong::ShelfOver => write!(f, "shelf over {ROOM_MOST}"),
            Wrong::RoomOver => write!(f, "room over {ROOM_MOST}"),
            Wrong::RoomsOver => write!(f, "too much room in all"),
            Wrong::NotCall => write!(f, "not a call"),
            Wrong::NoStart => write!(f, "the script ends before start"),
        }
    }
}

// `line 3: not a number`.
impl fmt::Display for Fault {
    ghost output = { λ fault. Some (fault_text fault) };

    fn fmt<W: fmt::Write>(&self, f: &mut fmt::Formatter<W>) -> fmt::Result {
        write!(f, "line {}: {}", self.line, self.wrong)
    }
}
