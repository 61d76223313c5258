// A rule that shifts by 16, in both editions: plainly, with a log, and with rights; and the replays
// of each log in both.
use emulator::{Core, LoggedRun, Run};
use replay::{replay, replay_guarded};
use shown::Shown;
use std::io;

// putl r1 16; shl r0 r1; inc r0; hlt
const RULE: [u16; 4] = [0x1110, 0x4410, 0x4810, 0xFFFF];

const LIMIT: u32 = 9;

// The rights of every page.
const SEVENS: [u8; 256] = [7; 256];

fn start() -> Core {
    Core {
        gprs: [3, 0, 0, 0, 0, 0, 0, 0],
        ..Core::new()
    }
}

fn show_end(rt: &impl Print, run: Run) -> io::Result<()> {
    let [r0, ..] = run.core.gprs;
    print!(rt; " {} {} r0 {r0}", Shown(run.end), run.steps)
}

// The replays of a log, in both editions.
fn show_replays(rt: &impl Print, log: &[u32]) -> io::Result<()> {
    for edition in [1, 2] {
        print!(rt; "replayed in {edition}:")?;
        show_end(rt, replay(start(), RULE.len(), edition, LIMIT, log))?;
        show_end(
            rt,
            replay_guarded(start(), RULE.len(), &SEVENS, edition, LIMIT, log),
        )?;
        println!(rt)?;
    }
    Ok(())
}

fn show(rt: &impl Print, edition: u16) -> io::Result<()> {
    let (mut words, mut marks, mut log) = (RULE, [0; RULE.len()], [7; 16]);
    print!(rt; "run in {edition}:")?;
    show_end(rt, start().run(&mut words, &mut marks, edition, LIMIT))?;
    show_end(
        rt,
        start().run_guarded(&mut words, &mut marks, &SEVENS, edition, LIMIT),
    )?;
    let LoggedRun { run, logged } = start().run_logged_guarded(
        &mut words, &mut marks, &SEVENS, edition, LIMIT, &mut log,
    );
    show_end(rt, run)?;
    print!(rt; " {logged}")?;
    let LoggedRun { run, logged } = start().run_logged(
        &mut words, &mut marks, edition, LIMIT, &mut log,
    );
    show_end(rt, run)?;
    println!(rt; " {logged}")?;
    if let Some(log) = log.get(..logged) {
        show_replays(rt, log)?;
    }
    Ok(())
}

/// The rule in edition 1 and in edition 2.
pub fn all(rt: &impl Print) -> io::Result<()> {
    show(rt, 1)?;
    show(rt, 2)
}
