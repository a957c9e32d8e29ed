ghost use Rattle.std.specs.Prelude.{◌≡◌, Some, None, MatchResult, OnOk};
ghost use Rattle.text.specs.Lines.{texts};
ghost use Rattle.reader.specs.Calls.{called, given_in};
ghost use Rattle.reader.specs.Laws.{AnswersDetermined, BodiesWhole, DamageEnds, LostLeaveShelf};
ghost use Rattle.reader.specs.Setups.{setup, setup_of};
ghost use Rattle.reader.specs.Starts.{start_refusal};

use crate::calls::{Call, Reply};
use crate::reader::Reader;
use crate::targets::clip;
use refusal::Refusal;
use rules::meaning::Place;
use rules::rule::LineRule;

// A question for a body, into the named part of the targets or as much of it as there is.
fn ask<R: LineRule>(
    reader: &Reader<'_, '_, R>,
    shelf: &[u8],
    index: usize,
    target: Place,
    targets: &mut [u8],
) -> Result<usize, Refusal>
    ensures { record { answer = result; target = targets.new } ≡ given_in (setup_of reader.now.terms R.LineRule) reader.now.state shelf.now index target targets.old }
{
    // By its ends: `Place::of` gives a part to read, not one to write into.
    let part = clip(target, targets.len());
    let start = part.at;
    let end = start + part.len;
    reader.body(shelf, index, &mut targets[start..end])
}

// One call, and its reply.
fn reply<R: LineRule>(
    reader: &mut Reader<'_, '_, R>,
    shelf: &mut [u8],
    targets: &mut [u8],
    call: &Call,
) -> Result<Reply, Refusal>
    ensures did { record { reply = result; state = reader.new.state; shelf = shelf.new; targets = targets.new } ≡ called (setup_of reader.old.terms R.LineRule) reader.old.state shelf.old targets.old call.now }
    ensures kept { reader.new.terms ≡ reader.old.terms }
{
    match call {
        Call::Line(line) => reader.line(shelf, line).map(Reply::Answered),
        Call::Close => reader.close().map(|()| Reply::Closed),
        Call::Ask { index, target } => {
            ask(reader, shelf, *index, *target, targets).map(Reply::Body)
        }
    }
}

// Makes the calls in order on a new reader over one shelf, each with its reply; as many as there are places for replies.
pub fn run<'n, 'm, R: LineRule + Drop>(
    rule: R,
    names: &'n [&'m [u8]],
    share: usize,
    shelf: &mut [u8],
    targets: &mut [u8],
    calls: &[Call],
    replies: &mut [Result<Reply, Refusal>],
) -> Result<(), Refusal>
    ensures refused { MatchResult result (λ _. start_refusal (texts names.now) share ≡ None) (λ e. (start_refusal (texts names.now) share ≡ Some e) × (shelf.new ≡ shelf.old) × (targets.new ≡ targets.old) × (replies.new ≡ replies.old)) }
    ensures determined { OnOk result (AnswersDetermined (setup names.now share R.LineRule) calls.now shelf.old shelf.new targets.old targets.new replies.old replies.new) }
    ensures damage_ends { DamageEnds (setup names.now share R.LineRule) }
    ensures bodies_whole { OnOk result (BodiesWhole (setup names.now share R.LineRule)) }
    ensures lost_leave_shelf { LostLeaveShelf (setup names.now share R.LineRule) }
{
    let mut reader = Reader::start(rule, names, share)?;
    let made = calls.len().min(replies.len());
    // A reply's place by its index: of what is written through a `zip` over `iter_mut` a proof knows nothing (tried).
    for (i, call) in calls[..made].iter().enumerate() {
        replies[i] = reply(&mut reader, shelf, targets, call);
    }
    Ok(())
}
