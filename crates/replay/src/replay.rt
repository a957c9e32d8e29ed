ghost use Rattle.std.specs.Prelude.{◌≡◌, IfOk};
ghost use Rattle.text.specs.Lines.{lines_of};
ghost use Rattle.rules.specs.Properties.{properties_of};
ghost use Rattle.replay.specs.Plays.{fixed_by, meaning_by, Plays, Replays};
ghost use Rattle.replay.specs.Scripts.{content_of};
ghost use Rattle.replay.specs.Shown.{shown_run};

use crate::script::{RuleName, Script, ScriptError, read_script};
use crate::show::Shown;
use reader::calls::{Call, Reply};
use reader::run::run;
use reader::targets::target_of;
use refusal::Refusal;
use rules::rule::LineRule;
use rules::rust::{RustEntry, RustSection};
use rules::starlark::{StarlarkEntry, StarlarkSection};
use std::alloc::{AllocError, Global};
use std::fmt::Write;

// `started`, and a line for each reply.
fn show_run(
    heap: Global,
    targets: &[u8],
    calls: &[Call],
    replies: &[Result<Reply, Refusal>],
) -> Result<Vec<u8>, AllocError>
    ensures { IfOk result (λ v. v.items ≡ shown_run targets.now calls.now replies.now) }
{
    let mut lines = String::from_str(heap, "started\n")?;
    for (call, reply) in calls.iter().zip(replies) {
        let target = target_of(call, targets);
        writeln!(lines, "{}", Shown { reply, target })?;
    }
    Ok(lines.into_bytes())
}

// The script's calls on a reader by the rule, over new memory: a shelf and targets of dots, and a place for each reply.
fn play_by<R: LineRule + Drop>(
    heap: Global,
    rule: R,
    script: &Script,
) -> Result<Vec<u8>, AllocError>
    ensures { IfOk result (λ v. Plays (properties_of R.LineRule) R.LineRule.meaning script.now v.items) }
{
    let calls = script.calls.as_slice();
    let mut shelf = vec![in heap; b'.'; script.shelf]?;
    let mut targets = vec![in heap; b'.'; script.room]?;
    let mut replies = vec![in heap; Ok(Reply::Closed); calls.len()]?;
    match run::<R>(
        rule,
        &script.names,
        script.share,
        &mut shelf,
        &mut targets,
        calls,
        &mut replies,
    ) {
        Ok(()) => show_run(heap, &targets, calls, &replies),
        Err(refusal) => Ok(format!(in heap; "{refusal}\n")?.into_bytes()),
    }
}

// The script's calls on a reader by the rule that it names. Each case has a type of its own, since a `dyn` has no
// room for a rule's constants.
fn play(heap: Global, script: &Script) -> Result<Vec<u8>, AllocError>
    ensures { IfOk result (λ v. Plays (fixed_by script.now.rule) (meaning_by script.now.rule) script.now v.items) }
{
    match script.rule {
        RuleName::StarlarkSection => play_by(heap, StarlarkSection, script),
        RuleName::RustSection => play_by(heap, RustSection, script),
        RuleName::StarlarkEntry => play_by(heap, StarlarkEntry, script),
        RuleName::RustEntry => play_by(heap, RustEntry, script),
    }
}

// What is printed for a script.
pub fn replay(heap: Global, text: &[u8]) -> Result<Vec<u8>, AllocError>
    ensures { IfOk result (λ v. Replays (content_of (lines_of text.now)) v.items) }
{
    match read_script(heap, text) {
        Ok(script) => play(heap, &script),
        Err(ScriptError::Memory) => Err(AllocError),
        Err(ScriptError::Unread(fault)) => Ok(format!(in heap; "{fault}\n")?.into_bytes()),
    }
}
