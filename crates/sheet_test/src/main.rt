//! Loads and writes sheets and word lists of every kind (docs/SHEETS.md, The records, and What the
//! writer gives) and prints a line for each: what was given, the answer, what it left. A sheet that
//! is accepted has another line, of the answers to it without each of its records.
#![tactic(auto)]

mod cases;
mod input;
mod left_out;
mod load;
mod show;
mod write;

use std::io;

fn main(rt: HostRuntime) -> io::Result<()> {
    load::sheets(&rt)?;
    load::bits(&rt)?;
    load::lengths(&rt)?;
    load::word_lists(&rt)?;
    write::small(&rt, 1)?;
    write::small(&rt, 2)?;
    left_out::written(&rt)?;
    write::room(&rt)?;
    write::editions(&rt)?;
    write::large(&rt)?;
    input::small(&rt)?;
    input::large(&rt)
}
