//! What C and Rust hosts call to run with a log (docs/MACHINE.md, Logs and replays; docs/LOGS.md),
//! as include/nilguseg.h tells them: libnilguseg_log.a. It is a library of its own: in one with the
//! plain run, `Instruction::decode` and `execute` would have two callers, and the compiler would
//! inline them into neither loop.
#![tactic(auto)]

ghost use Rattle.std.specs.Prelude.{[], ◌∷◌, ◌≡◌, ◌*◌, ◌/◌, ◌^◌, ◌≤◌, length, take, Some, None, MatchOption};
ghost use Rattle.memory.specs.Memory.{lent};
ghost use Rattle.emulator.specs.Answers.{end_of};
ghost use Rattle.emulator.specs.Machine.{logging_in, plan_of, refusal_in, run_logged_of, run_logged_guarded_of};
ghost use Rattle.run_laws.specs.Agreement.{AgreesWithOthers};
ghost use Rattle.run_laws.specs.Rights.{ClosedKept};
ghost use Rattle.nilguseg.specs.Host.{core_from, call, ended_call};
ghost use Rattle.nilguseg_log.specs.Host.{IsEndedByLog, logged_call, ReplaysAs};
ghost use Rattle.nilguseg.specs.Refusal.{how_of, refused_run, IsRefusedRun};
ghost use Rattle.refusal_laws.specs.Tests.{first_failing, run_tests};

use emulator::LoggedRun;
use nilguseg::{core_of, put_run};

// Puts back the core that a run with a log leaves and the number of its log words, and answers its
// end and its steps.
fn put_logged_run(ended: LoggedRun, core: &mut [u16; 12], logged: &mut usize) -> u64
    ensures run { call result (core.new ∷ (logged.new ∷ []) ∷ []) ≡ ended_call (end_of ended.run.end) ended.run.steps ended.run.core ((ended.logged ∷ []) ∷ []) }
    // The upper bits say how the run came out.
    ensures how { result / 2 ^ 56 ≡ how_of (end_of ended.run.end) }
{
    *logged = ended.logged;
    put_run(ended.run, core)
}

/// A run of at most `limit` steps with a log of its reads (docs/MACHINE.md, Logs and replays).
///
/// It is lent what `nilguseg_run` is, and for writing a buffer for the log's 32-bit words, two for
/// each read, and `logged`, which becomes the number of them; the buffer past them stays. It
/// answers as that does, or with 5 in bits 63..56 and 30 in bits 55..48 where fewer than four log
/// words were free before a step. A refusal, by the first of 1, 2 and 34, has 0 steps; `logged`
/// becomes 0, and all else that was lent stays.
#[unsafe(no_mangle)]
pub extern "C" fn nilguseg_run_logged(
    core: &mut [u16; 12],
    memory: &mut [u16],
    marks: &mut [u8],
    edition: u16,
    limit: u32,
    log: &mut [u32],
    logged: &mut usize,
) -> u64
    ensures run { call result (core.new ∷ memory.new ∷ marks.new ∷ log.new ∷ (logged.new ∷ []) ∷ []) ≡ logged_call (run_logged_of plan_of (core_from core.old) (lent memory.old marks.old) edition limit log.old) }
    // Refused exactly where a test fails, by the first that does; then `logged` gets 0, and all
    // else that was lent for writing keeps its value.
    ensures refused { MatchOption
        (first_failing (run_tests None edition (lent memory.old marks.old)))
        (¬ IsRefusedRun result)
        (λ n. call result (core.new ∷ memory.new ∷ marks.new ∷ log.new ∷ (logged.new ∷ []) ∷ [])
        ≡ call (refused_run n) (core.old ∷ memory.old ∷ marks.old ∷ log.old ∷ (0 ∷ []) ∷ [])) }
    // Unless a host test refuses it or the log ends it: the replay of its log, with the same core,
    // length, edition and limit, answers the same number and leaves the same core.
    ensures replay { ReplaysAs (logging_in log.old None edition) (core_from core.old)
        (lent memory.old marks.old) limit (take logged.new log.new) (call result (core.new ∷ [])) }
    // With room for four log words a step of the limit, its log doesn't end it.
    ensures room { 4 * limit ≤ length log.old → ¬ IsEndedByLog result }
    // If no host test refuses it: any other such run of this core, edition and limit, with as long
    // a buffer for its log, agrees with it, its log too, if its memory is as long and starts equal
    // wherever this run's final marks include 1.
    ensures agreement { AgreesWithOthers (logging_in log.old None edition) (core_from core.old)
        (lent memory.old marks.old) limit marks.new }
{
    let ended = core_of(*core).run_logged(memory, marks, edition, limit, log);
    put_logged_run(ended, core, logged)
}

/// `nilguseg_run_logged` with rights over memory's pages (docs/MACHINE.md, Rights).
///
/// It is lent for reading the rights too, 256 bytes as `nilguseg_run_guarded` has them, with one
/// more fault, 33, and one more refusal, 32, which is tested after 2 and before 34. A refusal
/// leaves what it leaves without rights.
#[unsafe(no_mangle)]
pub extern "C" fn nilguseg_run_logged_guarded(
    core: &mut [u16; 12],
    memory: &mut [u16],
    marks: &mut [u8],
    rights: &[u8],
    edition: u16,
    limit: u32,
    log: &mut [u32],
    logged: &mut usize,
) -> u64
    ensures run { call result (core.new ∷ memory.new ∷ marks.new ∷ log.new ∷ (logged.new ∷ []) ∷ []) ≡ logged_call (run_logged_guarded_of plan_of (core_from core.old) (lent memory.old marks.old) rights.now edition limit log.old) }
    // Refused exactly where a test fails, by the first that does; then `logged` gets 0, and all
    // else that was lent for writing keeps its value.
    ensures refused { MatchOption
        (first_failing (run_tests (Some rights.now) edition (lent memory.old marks.old)))
        (¬ IsRefusedRun result)
        (λ n. call result (core.new ∷ memory.new ∷ marks.new ∷ log.new ∷ (logged.new ∷ []) ∷ [])
        ≡ call (refused_run n) (core.old ∷ memory.old ∷ marks.old ∷ log.old ∷ (0 ∷ []) ∷ [])) }
    // Unless a host test refuses it or the log ends it: the replay of its log, with the same core,
    // length, rights, edition and limit, answers the same number and leaves the same core.
    ensures replay { ReplaysAs (logging_in log.old (Some rights.now) edition) (core_from core.old)
        (lent memory.old marks.old) limit (take logged.new log.new) (call result (core.new ∷ [])) }
    // With room for four log words a step of the limit, its log doesn't end it.
    ensures room { 4 * limit ≤ length log.old → ¬ IsEndedByLog result }
    // If no host test refuses it: any other such run of this core, edition, limit and these rights,
    // with as long a buffer for its log, agrees with it, its log too, if its memory is as long and
    // starts equal wherever this run's final marks include 1.
    ensures agreement { AgreesWithOthers (logging_in log.old (Some rights.now) edition)
        (core_from core.old) (lent memory.old marks.old) limit marks.new }
    // If no host test refuses it, it leaves every page without any right its words, and mark 0.
    ensures closed { refusal_in (logging_in log.old (Some rights.now) edition)
        (lent memory.old marks.old) ≡ 0
        → ClosedKept (Some rights.now) (lent memory.old marks.old) (lent memory.new marks.new) }
{
    let ended = core_of(*core).run_logged_guarded(memory, marks, rights, edition, limit, log);
    put_logged_run(ended, core, logged)
}
