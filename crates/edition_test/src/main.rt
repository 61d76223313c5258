//! Runs rules in both editions (docs/MACHINE.md, Editions): the four instructions that tell them
//! apart, by amounts up to 65,535; a rule that shifts by 16, with its log and the replays of that;
//! and calls that are handed another edition.
#![tactic(auto)]

mod refusals;
mod rows;
mod runs;

use std::io;

fn main(rt: HostRuntime) -> io::Result<()> {
    rows::all(&rt)?;
    runs::all(&rt)?;
    refusals::all(&rt)
}
