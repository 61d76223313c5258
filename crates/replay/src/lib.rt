//! The replay of a run from its log, without its memory: the same loop, with the log in memory's
//! place (docs/MACHINE.md, Logs and replays). `check` has its host tests, `tape` the log that is
//! read. specs/Replay.antt defines what it answers.
#![tactic(auto)]

ghost use Rattle.std.specs.Prelude.{◌≡◌, [], Some, None};
ghost use Rattle.emulator.specs.Answers.{end_of};
ghost use Rattle.emulator.specs.Machine.{plan_of, run_from};
ghost use Rattle.memory.specs.Log.{Room};
ghost use Rattle.memory.specs.Rights.{bytes_of};
ghost use Rattle.replay.specs.Replay.{tape, tape_store, replayed, answer_of, replay_of};

use crate::check::{check, check_guarded};
use crate::tape::LogTape;
use emulator::{Core, End, Run, no_run, turns};
use execute::Edition;
use memory::{LogEnd, Rights};

mod check;
mod tape;

// The turns of a replay. Both replays call this one function, so that the loop stands in it alone
// (docs/PERFORMANCE.md). Words of the log that are left over are a mismatch too.
fn tape_turns(
    core: Core,
    size: usize,
    rights: Rights<'_>,
    limit: u32,
    edition: Edition,
    log: &[u32],
) -> Run
    ensures { replayed (end_of result.end) result.steps result.core ≡ answer_of core log.now (run_from (tape_store (bytes_of rights.entry)) (plan_of edition) Room.none limit 0 core (tape size log.now) []) }
{
    let mut tape = LogTape {
        size,
        rest: log,
        matches: true,
    };
    let run = turns(core, &mut tape, rights, limit, edition);
    if tape.is_read() {
        run
    } else {
        no_run(core, End::Log(LogEnd::Mismatch))
    }
}

/// The run that made the log, seen again: its end, steps and registers. `size` is the length of the
/// memory that it ran on, and core, edition and limit are those that it was given. Where the reads
/// aren't the log's, or words are left over, it ends by 31, and a refused replay by its number: the
/// core is as given then, with 0 steps.
pub fn replay(core: Core, size: usize, edition: u16, limit: u32, log: &[u32]) -> Run
    ensures { replayed (end_of result.end) result.steps result.core ≡ replay_of plan_of None edition core size limit log.now }
{
    match check(size, edition) {
        Ok(edition) => tape_turns(core, size, None, limit, edition, log),
        Err(refusal) => no_run(core, End::Refused(refusal)),
    }
}

/// The same of a run with rights, which are those that it was given.
pub fn replay_guarded(
    core: Core,
    size: usize,
    rights: &[u8],
    edition: u16,
    limit: u32,
    log: &[u32],
) -> Run
    ensures { replayed (end_of result.end) result.steps result.core ≡ replay_of plan_of (Some rights.now) edition core size limit log.now }
{
    match check_guarded(size, rights, edition) {
        Ok((rights, edition)) => tape_turns(core, size, Some(rights), limit, edition, log),
        Err(refusal) => no_run(core, End::Refused(refusal)),
    }
}
