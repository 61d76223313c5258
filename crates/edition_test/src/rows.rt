// One step of an instruction, in both editions.
use emulator::Core;
use shown::Shown;
use std::io;

const AMOUNTS: [u16; 9] = [0, 1, 15, 16, 17, 32, 256, 32768, 65535];

const NEGATED: [u16; 6] = [0, 1, 0x7FFF, 0x8000, 0x8001, 0xFFFF];

// A run of one step of the word, with r0 and r1 as given, and whether the step alone leaves the
// same core.
fn show(rt: &impl Print, edition: u16, word: u16, core: Core) -> io::Result<()> {
    let (mut words, mut marks) = ([word], [0]);
    let run = core.run(&mut words, &mut marks, edition, 1);
    let step = core.step(&mut words, &mut marks, edition);
    let [r0, r1, ..] = run.core.gprs;
    print!(rt; "edition {edition}: {} {}", Shown(run.end), run.steps)?;
    println!(rt;
        " r0 {r0} r1 {r1} ip {} step {}",
        run.core.ip,
        step.core == run.core
    )
}

fn both(rt: &impl Print, word: u16, r0: u16, r1: u16, ef: u16) -> io::Result<()> {
    let core = Core {
        gprs: [r0, r1, 0, 0, 0, 0, 0, 0],
        ef,
        ..Core::new()
    };
    println!(rt; "{word:04x} r0 {r0} r1 {r1} ef {ef}")?;
    show(rt, 1, word, core)?;
    show(rt, 2, word, core)
}

/// The four instructions that tell the editions apart, and some that don't.
pub fn all(rt: &impl Print) -> io::Result<()> {
    for amount in AMOUNTS {
        // shl r0 by r1, shr r0 by r1, and bitset r0 at r1, without the condition and with it
        both(rt, 0x4410, 0x8001, amount, 0)?;
        both(rt, 0x4510, 0x8001, amount, 0)?;
        both(rt, 0x4710, 0xFFFF, amount, 0)?;
        both(rt, 0x4710, 0, amount, 2)?;
    }
    for value in NEGATED {
        // neg r0
        both(rt, 0x4800, value, 7, 0)?;
    }
    // shl r0 by itself; dmov, which stops in both; and a word that decodes in neither
    both(rt, 0x4400, 16, 0, 0)?;
    both(rt, 0x2108, 1, 2, 0)?;
    both(rt, 0x4600, 1, 2, 0)
}
