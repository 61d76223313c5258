//! Makes the steps and runs of which the published Rust's answers are recorded, sees each run again
//! from its log, and counts the cases that differ (docs/MACHINE.md, One step, and The run).
//! rust/differential/README.md has the format of standard input.
#![tactic(auto)]

mod case;

use std::io;
use std::io::{ErrorKind, Read};

// Cases of an input, at most.
const MOST: u64 = 10000;

// Reads the next case, if the input has another whole one.
fn read_case<R: Read>(reader: &mut R) -> io::Result<Option<case::Case>> {
    let mut bytes = [0; case::SIZE];
    match reader.read_exact(&mut bytes) {
        Ok(()) => Ok(Some(case::Case::new(&bytes))),
        Err(e) if e.kind() == ErrorKind::UnexpectedEof => Ok(None),
        Err(e) => Err(e),
    }
}

fn main(rt: HostRuntime) -> io::Result<()> {
    let mut cases: u64 = 0;
    let mut wrong: u64 = 0;
    for _ in 0..MOST {
        let Some(case) = read_case(&mut rt.stdin())? else {
            break;
        };
        cases += 1;
        if !case.is_met() {
            wrong += 1;
        }
    }
    println!(rt; "{cases} cases, {wrong} wrong")
}
