//! Runs a short rule with a log, in more and more room, and prints how it ends and what it logs;
//! then the replays of that log, as it is, longer, shorter, and with one word changed
//! (docs/MACHINE.md, Logs and replays).
#![tactic(auto)]

use emulator::{Core, LoggedRun, Run};
use replay::replay;
use shown::Shown;
use std::io;

// putl r0 6; read r1 from [r0]; write r1 to [r0]; read r2 from [r0]; hlt; and at address 6 the word
// 42. Seven reads, five of them fetches.
const RULE: [u16; 7] = [0x1006, 0x2001, 0x2081, 0x2002, 0xFFFF, 0, 42];

const LIMIT: u32 = 9;

const ROOM: usize = 20;

// A run with a log: its end, steps and number of log words, and the whole buffer.
fn show_run(rt: &impl Print, log: &mut [u32]) -> io::Result<()> {
    let mut memory = RULE;
    let mut marks = [0; RULE.len()];
    let LoggedRun { run, logged } = Core::new().run_logged(&mut memory, &mut marks, 1, LIMIT, log);
    print!(rt; "{} {} {logged}:", Shown(run.end), run.steps)?;
    for word in log {
        print!(rt; " {word}")?;
    }
    println!(rt)
}

// A replay: its end and steps, and the registers that the rule loads.
fn show_replay(rt: &impl Print, log: &[u32]) -> io::Result<()> {
    let Run { core, steps, end } = replay(Core::new(), RULE.len(), 1, LIMIT, log);
    let [_, r1, r2, ..] = core.gprs;
    println!(rt; "{} {steps} {r1} {r2}", Shown(end))
}

// The replays with each word changed: in its lowest bit, in bit 16, and in its kind.
fn each_changed(rt: &impl Print, log: &mut [u32]) -> io::Result<()> {
    for at in 0..log.len() {
        for bit in [1, 0x10000, 0x10000000] {
            log[at] ^= bit;
            show_replay(rt, log)?;
            log[at] ^= bit;
        }
    }
    Ok(())
}

fn main(rt: HostRuntime) -> io::Result<()> {
    for room in 0..=ROOM {
        let mut log = [7; ROOM];
        show_run(&rt, &mut log[..room])?;
    }
    // the rule needs 16 words, for four must be free before its last step, and logs 14
    let mut log = [7; 16];
    show_run(&rt, &mut log)?;
    println!(rt; "replays, with two words more, one more, just these, one less, two less")?;
    for size in (12..=16).rev() {
        show_replay(&rt, &log[..size])?;
    }
    println!(rt; "replays with a word changed")?;
    each_changed(&rt, &mut log[..14])
}
