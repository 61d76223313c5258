// Calls that are refused.
ghost use Rattle.std.specs.Prelude.{◌≤◌};

use crate::LIMIT;
use emulator::{Core, LoggedRun};
use replay::replay_guarded;
use shown::Shown;
use std::io;

// The run, the logged run and the replay on so many words with so many marks, and whether the core
// and all that was lent are as before.
fn show(rt: &impl Print, size: usize, marked: usize, rights: &[u8]) -> io::Result<()>
    requires size { size ≤ 2 }
    requires marked { marked ≤ 2 }
{
    let core = Core {
        gprs: [7; 8],
        ..Core::new()
    };
    let (mut words, mut marks, mut log) = ([7; 2], [7; 2], [7; 4]);
    let run = core.run_guarded(&mut words[..size], &mut marks[..marked], rights, 1, LIMIT);
    let logging = core.run_logged_guarded(
        &mut words[..size],
        &mut marks[..marked],
        rights,
        1,
        LIMIT,
        &mut log,
    );
    let LoggedRun {
        run: logged,
        logged: count,
    } = logging;
    let seen = replay_guarded(core, size, rights, 1, LIMIT, &log);
    print!(rt; "{size} words {marked} marks {} rights:", rights.len())?;
    for run in [run, logged, seen] {
        print!(rt; " {} {}", Shown(run.end), run.steps)?;
    }
    let kept = run.core == core && logged.core == core && seen.core == core;
    let lent = words == [7; 2] && marks == [7; 2] && log == [7; 4];
    println!(rt; " log {count} core kept {kept} lent kept {lent}")
}

/// Rights of another length, with a byte above 7, and beside what refuses memory or the marks.
pub fn all(rt: &impl Print) -> io::Result<()> {
    let sevens = [7; 257];
    for length in [0, 255, 257] {
        show(rt, 2, 2, &sevens[..length])?;
    }
    for place in [0, 128, 255] {
        let mut rights = [7; 256];
        rights[place] = 8;
        show(rt, 2, 2, &rights)?;
    }
    // with what refuses memory, the marks or both
    show(rt, 0, 0, &sevens)?;
    show(rt, 0, 2, &[8; 256])?;
    show(rt, 2, 1, &sevens)?;
    show(rt, 2, 1, &[8; 256])
}
