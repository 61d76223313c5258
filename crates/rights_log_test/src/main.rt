//! Runs with rights and a log that come to a refused access on page 2, and their replays
//! (docs/MACHINE.md, Rights, and Logs and replays).
#![tactic(auto)]

use emulator::{Core, LoggedRun, Run};
use replay::replay_guarded;
use shown::Shown;
use std::io;

// read r1 from [r0], read r3 from [r2]
const READS: [u16; 2] = [0x2001, 0x2023];

// call r2, nop
const CALL: [u16; 2] = [0x6212, 0];

const LIMIT: u32 = 9;

const WORDS: usize = 768;

// r0 has an address of page 1, r2 one of page 2.
fn start() -> Core {
    Core {
        gprs: [256, 0, 512, 0, 0, 0, 0, 0],
        ..Core::new()
    }
}

// Page 0 has execute, page 1 read, page 2 the byte.
fn rights(byte: u8) -> [u8; 256] {
    let mut rights = [0; 256];
    rights[0] = 4;
    rights[1] = 1;
    rights[2] = byte;
    rights
}

// How a run or a replay ended, its steps, ip, and the word that it read.
fn show_end(rt: &impl Print, run: Run) -> io::Result<()> {
    let Run { core, steps, end } = run;
    let [_, r1, ..] = core.gprs;
    print!(rt; "{} {steps} ip {} r1 {r1}", Shown(end), core.ip)
}

// A replay, where page 2 has the byte.
fn show_replay(rt: &impl Print, byte: u8, log: &[u32]) -> io::Result<()> {
    print!(rt; "  by {byte}: ")?;
    show_end(
        rt,
        replay_guarded(start(), WORDS, &rights(byte), 1, LIMIT, log),
    )?;
    println!(rt)
}

// A run of the rule, where page 2 has the byte, and replays of what it logged: with the same
// rights, and with every right there.
fn show(rt: &impl Print, rule: &[u16; 2], byte: u8, log: &mut [u32]) -> io::Result<()> {
    let mut words = [0; WORDS];
    words[..2].copy_from_slice(rule);
    words[256] = 42;
    let mut marks = [7; WORDS];
    let LoggedRun { run, logged } = start().run_logged_guarded(
        &mut words,
        &mut marks,
        &rights(byte),
        1,
        LIMIT,
        log,
    );
    print!(rt; "by {byte}: ")?;
    show_end(rt, run)?;
    print!(rt; " mark {} log {logged}:", marks[512])?;
    for word in &*log {
        print!(rt; " {word:08x}")?;
    }
    println!(rt)?;
    if let Some(log) = log.get(..logged) {
        show_replay(rt, byte, log)?;
        show_replay(rt, 7, log)?;
    }
    Ok(())
}

// In more and more room.
fn rooms(rt: &impl Print, rule: &[u16; 2], byte: u8) -> io::Result<()> {
    for room in 3..=8 {
        let mut log = [7; 8];
        show(rt, rule, byte, &mut log[..room])?;
    }
    Ok(())
}

fn main(rt: HostRuntime) -> io::Result<()> {
    rooms(&rt, &READS, 6)?;
    rooms(&rt, &CALL, 3)
}
