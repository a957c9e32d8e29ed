// Says of each line of a text what the four line rules make of it.
#![tactic(auto)]

mod cell;
mod table;

use crate::table::table;
use std::io;
use std::io::{Read, Write};

// So in both programs: one for both would need a crate of its own, for four lines.
fn main(rt: HostRuntime) -> io::Result<()> {
    let heap = rt.alloc();
    let mut text = Vec::new(heap);
    rt.stdin().read_to_end(&mut text)?;
    rt.stdout().write_all(&table(heap, &text)?)
}
