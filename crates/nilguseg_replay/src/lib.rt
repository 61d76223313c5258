//! What C and Rust hosts call to see a run again from its log (docs/MACHINE.md, Logs and replays;
//! docs/LOGS.md), as include/nilguseg.h tells them: libnilguseg_replay.a. It is a library of its
//! own: in one with a run, `Instruction::decode` and `execute` would have two callers, and the
//! compiler would inline them into neither loop.
#![tactic(auto)]

ghost use Rattle.std.specs.Prelude.{[], ◌∷◌, ◌≡◌, Some, None, MatchOption};
ghost use Rattle.emulator.specs.Machine.{plan_of};
ghost use Rattle.nilguseg.specs.Host.{core_from, call};
ghost use Rattle.nilguseg.specs.Refusal.{refused_run, IsRefusedRun};
ghost use Rattle.nilguseg_replay.specs.Host.{replay_call};
ghost use Rattle.refusal_laws.specs.Tests.{first_failing, replay_tests};
ghost use Rattle.replay.specs.Replay.{replay_of};

use nilguseg::{core_of, put_run};
use replay::{replay, replay_guarded};

/// The run that made a log, seen again without its memory (docs/MACHINE.md, Logs and replays).
///
/// Lent for writing: the core that the run started with. Lent for reading: the log's 32-bit words.
/// `size` is the length of the run's memory in words. If the run wasn't refused and didn't end by
/// 30, the answer is the run's, and the core becomes the one that it left. Where the log isn't that
/// of the reads that are made, the answer has 5 in bits 63..56 and 31 in bits 55..48. Then, and at
/// a refusal, by the first of 1 and 34, it has 0 steps, and the core stays.
#[unsafe(no_mangle)]
pub extern "C" fn nilguseg_replay(
    core: &mut [u16; 12],
    size: usize,
    edition: u16,
    limit: u32,
    log: &[u32],
) -> u64
    ensures replayed { call result (core.new ∷ []) ≡ replay_call (replay_of plan_of None edition (core_from core.old) size limit log.now) }
    // Refused exactly where a test fails, by the first that does; then the core keeps its words.
    ensures refused { MatchOption
        (first_failing (replay_tests None edition size))
        (¬ IsRefusedRun result)
        (λ n. call result (core.new ∷ []) ≡ call (refused_run n) (core.old ∷ [])) }
{
    let run = replay(core_of(*core), size, edition, limit, log);
    put_run(run, core)
}

/// `nilguseg_replay` of a run with rights (docs/MACHINE.md, Rights), which are lent for reading:
/// the run's own 256 bytes. One more refusal, 32, is tested after 1 and before 34.
#[unsafe(no_mangle)]
pub extern "C" fn nilguseg_replay_guarded(
    core: &mut [u16; 12],
    size: usize,
    rights: &[u8],
    edition: u16,
    limit: u32,
    log: &[u32],
) -> u64
    ensures replayed { call result (core.new ∷ []) ≡ replay_call (replay_of plan_of (Some rights.now) edition (core_from core.old) size limit log.now) }
    // Refused exactly where a test fails, by the first that does; then the core keeps its words.
    ensures refused { MatchOption
        (first_failing (replay_tests (Some rights.now) edition size))
        (¬ IsRefusedRun result)
        (λ n. call result (core.new ∷ []) ≡ call (refused_run n) (core.old ∷ [])) }
{
    let seen = replay_guarded(core_of(*core), size, rights, edition, limit, log);
    put_run(seen, core)
}
