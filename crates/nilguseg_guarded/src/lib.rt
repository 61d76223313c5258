//! What C and Rust hosts call to run with rights (docs/MACHINE.md, Rights), as include/nilguseg.h
//! tells them: libnilguseg_guarded.a. It is a library of its own: in one with the plain run, the
//! two would share a loop, and the plain run would test at each access whether there are rights.
#![tactic(auto)]

ghost use Rattle.std.specs.Prelude.{[], ◌∷◌, ◌≡◌, Some, MatchOption};
ghost use Rattle.memory.specs.Memory.{lent};
ghost use Rattle.emulator.specs.Machine.{plan_of, refusal_in, run_guarded_of, unlogged};
ghost use Rattle.run_laws.specs.Agreement.{AgreesWithOthers};
ghost use Rattle.run_laws.specs.Rights.{ClosedKept};
ghost use Rattle.nilguseg.specs.Host.{core_from, call, run_call};
ghost use Rattle.nilguseg.specs.Refusal.{refused_run, IsRefusedRun};
ghost use Rattle.refusal_laws.specs.Tests.{first_failing, run_tests};

use nilguseg::{core_of, put_run};

/// A run of at most `limit` steps with rights over memory's pages (docs/MACHINE.md, Rights).
///
/// It is lent what `nilguseg_run` is, and for reading the rights: 256 bytes, one for each page of
/// 256 addresses, each the sum of 1 read, 2 write and 4 execute. It answers as that does, with one
/// more fault, 33, an access whose right is absent. A refusal, by the first of 1, 2, 32 and 34,
/// leaves all that was lent for writing, and has 0 steps.
#[unsafe(no_mangle)]
pub extern "C" fn nilguseg_run_guarded(
    core: &mut [u16; 12],
    memory: &mut [u16],
    marks: &mut [u8],
    rights: &[u8],
    edition: u16,
    limit: u32,
) -> u64
    ensures run { call result (core.new ∷ memory.new ∷ marks.new ∷ []) ≡ run_call (run_guarded_of plan_of (core_from core.old) (lent memory.old marks.old) rights.now edition limit) }
    // Refused exactly where a test fails, by the first that does; then all that was lent for
    // writing keeps its value.
    ensures refused { MatchOption
        (first_failing (run_tests (Some rights.now) edition (lent memory.old marks.old)))
        (¬ IsRefusedRun result)
        (λ n. call result (core.new ∷ memory.new ∷ marks.new ∷ [])
        ≡ call (refused_run n) (core.old ∷ memory.old ∷ marks.old ∷ [])) }
    // If no host test refuses it: any other such run of this core, edition, limit and these rights
    // agrees with it, if its memory is as long and starts equal wherever this run's final marks
    // include 1.
    ensures agreement { AgreesWithOthers (unlogged (Some rights.now) edition) (core_from core.old)
        (lent memory.old marks.old) limit marks.new }
    // If no host test refuses it, it leaves every page without any right its words, and mark 0.
    ensures closed { refusal_in (unlogged (Some rights.now) edition) (lent memory.old marks.old) ≡ 0
        → ClosedKept (Some rights.now) (lent memory.old marks.old) (lent memory.new marks.new) }
{
    let run = core_of(*core).run_guarded(memory, marks, rights, edition, limit);
    put_run(run, core)
}
