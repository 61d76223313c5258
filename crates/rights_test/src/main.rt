//! Runs short rules with rights over memory's pages (docs/MACHINE.md, Rights): an access of each
//! kind by each byte of rights, at the borders of pages and of memory; runs that go on to a page,
//! or end before they do; and calls that are refused.
#![tactic(auto)]

mod access;
mod pages;
mod refusals;

use std::io;

const LIMIT: u32 = 9;

fn main(rt: HostRuntime) -> io::Result<()> {
    access::bytes(&rt)?;
    access::borders(&rt)?;
    access::short(&rt)?;
    pages::all(&rt)?;
    refusals::all(&rt)
}
