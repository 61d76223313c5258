// Calls with numbers of editions, and with what other host tests refuse.
ghost use Rattle.std.specs.Prelude.{◌≤◌};

use emulator::{Answer, Core, End, Run};
use replay::{replay, replay_guarded};
use shown::Shown;
use std::io;

// What a step answers as an end: one that steps is a run to its limit of one.
fn end_of(answer: Answer) -> End {
    match answer {
        Answer::Stepped => End::Limit,
        Answer::Halted => End::Halted,
        Answer::Fault(stop) => End::Fault(stop),
        Answer::Refused(refusal) => End::Refused(refusal),
    }
}

// Every call in an edition, on so many words with so many marks; and whether the core and all that
// was lent are as before.
fn show(rt: &impl Print, size: usize, marked: usize, rights: &[u8], edition: u16) -> io::Result<()>
    requires size { size ≤ 2 }
    requires marked { marked ≤ 2 }
{
    let core = Core::new();
    let (mut words, mut marks, mut log) = ([0; 2], [8; 2], [7; 4]);
    let (words_lent, marks_lent) = (&mut words[..size], &mut marks[..marked]);
    let step = core.step(words_lent, marks_lent, edition);
    let run = core.run(words_lent, marks_lent, edition, 1);
    let guarded = core.run_guarded(words_lent, marks_lent, rights, edition, 1);
    let logged = core.run_logged(words_lent, marks_lent, edition, 1, &mut log);
    let both = core.run_logged_guarded(words_lent, marks_lent, rights, edition, 1, &mut log);
    let seen = replay(core, size, edition, 1, &log);
    let seen_guarded = replay_guarded(core, size, rights, edition, 1, &log);
    print!(rt;
        "{size} words {marked} marks {} rights edition {edition}:",
        rights.len()
    )?;
    print!(rt; " {}", Shown(end_of(step.answer)))?;
    let mut kept = step.core == core && words == [0; 2] && marks == [8; 2] && log == [7; 4];
    for run in [run, guarded, logged.run, both.run, seen, seen_guarded] {
        let Run {
            core: left,
            end,
            ..
        } = run;
        print!(rt; ", {}", Shown(end))?;
        kept &= left == core;
    }
    println!(rt; " kept {kept}")
}

/// Numbers that are an edition and that are none, also beside what refuses memory, marks or rights.
pub fn all(rt: &impl Print) -> io::Result<()> {
    for edition in [0, 1, 2, 3, 255, 256, 257, 258, 65535] {
        show(rt, 2, 2, &[7; 256], edition)?;
    }
    // with what refuses memory, marks or rights, and with two of them
    for edition in [2, 3] {
        show(rt, 0, 0, &[7; 256], edition)?;
        show(rt, 2, 1, &[7; 256], edition)?;
        show(rt, 2, 2, &[8; 256], edition)?;
        show(rt, 2, 2, &[7; 255], edition)?;
        show(rt, 0, 1, &[8; 256], edition)?;
    }
    Ok(())
}
