//! Prints what scripts/manual compares the manual with: each number of the code with its variant
//! (docs/NUMBERS.md, The numbers), and what each word of standard input, low byte first, decodes
//! to (docs/MACHINE.md, Instructions).
#![tactic(auto)]

mod numbered;
mod word;

use std::io;
use std::io::{ErrorKind, Read};

// Words of an input, at most.
const MOST: u32 = 65536;

// Reads the next word, if the input has another whole one.
fn read_word<R: Read>(reader: &mut R) -> io::Result<Option<u16>> {
    let mut bytes = [0; 2];
    match reader.read_exact(&mut bytes) {
        Ok(()) => Ok(Some(u16::from_le_bytes(bytes))),
        Err(e) if e.kind() == ErrorKind::UnexpectedEof => Ok(None),
        Err(e) => Err(e),
    }
}

fn main(rt: HostRuntime) -> io::Result<()> {
    numbered::print(&rt)?;
    for _ in 0..MOST {
        let Some(word) = read_word(&mut rt.stdin())? else {
            break;
        };
        word::print(&rt, word)?;
    }
    Ok(())
}
