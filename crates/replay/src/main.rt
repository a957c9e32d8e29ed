// Makes the calls of a script on a reader, and says what each is answered.
#![tactic(auto)]

mod replay;
mod script;
mod show;
#[cfg(test)]
mod tests;
mod words;

use crate::replay::replay;
use std::io;
use std::io::{Read, Write};

// So in both programs: one for both would need a crate of its own, for four lines.
fn main(rt: HostRuntime) -> io::Result<()> {
    let heap = rt.alloc();
    let mut script = Vec::new(heap);
    rt.stdin().read_to_end(&mut script)?;
    rt.stdout().write_all(&replay(heap, &script)?)
}
