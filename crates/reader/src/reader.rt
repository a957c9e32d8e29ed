ghost use Rattle.std.specs.Prelude.{◌≡◌, ℕ, ◌<◌, ◌≤◌, false, length, Some, None, MatchResult, OnOk};
ghost use Rattle.text.specs.Lines.{texts};
ghost use Rattle.reader.specs.Setups.{setup_of};
ghost use Rattle.reader.specs.Starts.{start_refusal, Starts};
ghost use Rattle.reader.specs.declared.state.Course.TheVariants.{Open};
ghost use Rattle.reader.specs.declared.state.Kept.TheVariants.{Whole};
ghost use Rattle.reader.specs.Steps.{closed_from, closing, decided, fresh, given, kept_at, short, stepped, used, LeavesAlone};

use crate::answer::Answer;
use crate::hand_out::hand_out;
use crate::limits::share_fits;
use crate::state::{Course, Kept, State};
use crate::terms::Terms;
use names::{find, names_fault};
use refusal::Refusal;
use rules::meaning::{Meaning, Place};
use rules::rule::LineRule;
use text::lines::fault;

// Reads lines by a rule, and keeps on a shelf what belongs to each asked name.
#[derive(Drop)]
pub struct Reader<'n, 'm, R> {
    terms: Terms<'n, 'm, R>,
    state: State,
    // The open name is one of those asked for.
    ghost among: { (i : ℕ) → state.course ≡ Open i → i < length terms.names.now },
    // And its text is whole up to now.
    ghost whole: { (i : ℕ) → state.course ≡ Open i → kept_at state i ≡ Whole (used (kept_at state i)) },
    // No name has more than its share.
    ghost within: { (k : ℕ) → used (kept_at state k) ≤ terms.share },
}

impl<'n, 'm, R: LineRule + Drop> Reader<'n, 'm, R> {
    // A new reader: on course, no name open, all absent.
    pub fn start(rule: R, names: &'n [&'m [u8]], share: usize) -> Result<Reader<'n, 'm, R>, Refusal>
        ensures value { MatchResult result (λ reader. (start_refusal (texts names.now) share ≡ None) × (reader.terms.names.now ≡ names.now) × (reader.terms.share ≡ share) × (reader.state ≡ fresh) × (reader.terms.rule ≡ rule)) (λ e. start_refusal (texts names.now) share ≡ Some e) }
        ensures starts { OnOk result (Starts (texts names.now) share) }
    {
        if names.is_empty() {
            return Err(Refusal::BadNames(0));
        }
        if let Some(i) = names_fault(names) {
            return Err(Refusal::BadNames(i));
        }
        if !share_fits(names.len(), share) {
            return Err(Refusal::BadShare);
        }
        Ok(Reader {
            terms: Terms { rule, names, share },
            state: State::new(),
        })
    }
}

impl<R: LineRule> Reader<'_, '_, R> {
    // Has the shelf too few bytes for a share of each name?
    fn is_short(&self, shelf: &[u8]) -> bool
        ensures { result ≡ short (setup_of self.now.terms R.LineRule) (length shelf.now) }
    {
        shelf.len() < self.terms.names.len() * self.terms.share
    }

    // What becomes of a line that can be read. `kept` stands in whatever changes a reader: as functions of the state
    // alone they would have to require what the ghost fields say.
    fn decide(&mut self, shelf: &mut [u8], line: &[u8]) -> Result<Answer, Refusal>
        requires long { short (setup_of self.old.terms R.LineRule) (length shelf.old) ≡ false }
        requires brief { length line.now ≤ 1000 }
        ensures did { record { answer = result; state = self.new.state; shelf = shelf.new } ≡ decided (setup_of self.old.terms R.LineRule) line.now self.old.state shelf.old (R.LineRule.meaning line.now) }
        ensures kept { self.new.terms ≡ self.old.terms }
    {
        match (self.terms.rule.ask(line), self.state.course) {
            (Meaning::Opens { name, text }, _) => {
                let Some(i) = find(self.terms.names, name.of(line), R::NAMES_LOWERED) else {
                    self.state.finish_section();
                    return Ok(Answer::OtherOpened);
                };
                let used = self.terms.begin(shelf, i, line, text);
                self.state.open(i, used);
                Ok(Answer::Opened(i))
            }
            (Meaning::Stray, _) if R::STRAYS_END => {
                self.state.finish_section();
                Ok(Answer::Outside)
            }
            (_, Course::Lost) => Ok(Answer::PassedOver),
            (Meaning::Continues, Course::Open(i)) => {
                let behind = self.state.kept[i].used();
                let Some(used) = self.terms.append(shelf, i, behind, line) else {
                    self.state.lose();
                    return Err(Refusal::FullShare);
                };
                self.state.open(i, used);
                Ok(Answer::Stored)
            }
            _ => Ok(Answer::Outside),
        }
    }

    // The next line.
    pub fn line(&mut self, shelf: &mut [u8], line: &[u8]) -> Result<Answer, Refusal>
        ensures did { record { answer = result; state = self.new.state; shelf = shelf.new } ≡ stepped (setup_of self.old.terms R.LineRule) line.now self.old.state shelf.old }
        ensures leaves { LeavesAlone self.old.state shelf.old record { answer = result; state = self.new.state; shelf = shelf.new } }
        ensures kept { self.new.terms ≡ self.old.terms }
    {
        if self.state.is_closed() {
            return Err(Refusal::AlreadyClosed);
        }
        if self.is_short(shelf) {
            return Err(Refusal::ShortShelf);
        }
        if let Some(at) = fault(line) {
            self.state.lose();
            return Err(Refusal::BadLine(at));
        }
        self.decide(shelf, line)
    }

    // The end of the lines: the stretch in force ends.
    pub fn close(&mut self) -> Result<(), Refusal>
        ensures did { (result ≡ closing self.old.state) × (self.new.state ≡ closed_from self.old.state) }
        ensures kept { self.new.terms ≡ self.old.terms }
    {
        if self.state.is_closed() {
            return Err(Refusal::AlreadyClosed);
        }
        self.state.course = Course::Closed;
        Ok(())
    }

    // The text of the name with this index, dedented and trimmed, to the front of the target; gives its length.
    pub fn body(&self, shelf: &[u8], index: usize, target: &mut [u8]) -> Result<usize, Refusal>
        ensures { record { answer = result; target = target.new } ≡ given (setup_of self.now.terms R.LineRule) self.now.state shelf.now index target.old }
    {
        if !self.state.is_closed() {
            return Err(Refusal::StillReading);
        }
        if self.is_short(shelf) {
            return Err(Refusal::ShortShelf);
        }
        if index >= self.terms.names.len() {
            return Err(Refusal::NoText);
        }
        match self.state.kept[index] {
            Kept::Absent => Err(Refusal::NoText),
            Kept::Whole(used) => {
                let at = self.terms.part(index).start;
                hand_out(Place { at, len: used }.of(shelf), target)
            }
            Kept::Torn => Err(Refusal::TornText),
        }
    }
}
