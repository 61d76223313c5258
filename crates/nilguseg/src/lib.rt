//! What hosts' calls share: the core record as twelve words, the numbers that a call answers, and
//! how a step, a run and a load are put back. The exports of `nilguseg_c`, `nilguseg_guarded`,
//! `nilguseg_log` and `nilguseg_replay` stand on it. specs/Host.antt is the layout that
//! include/nilguseg.h tells a host; the numbers of faults, refusals and ends by the log in it are
//! those of docs/NUMBERS.md.
#![tactic(auto)]

ghost use Rattle.std.specs.Prelude.{◌≡◌, ◌/◌, ◌^◌, [], ◌∷◌};
ghost use Rattle.emulator.specs.Answers.{answer_of, end_of};
ghost use Rattle.nilguseg.specs.Host.{words_of, call, outcome_number, ended_call, loaded_number};
ghost use Rattle.nilguseg.specs.Refusal.{how_of};

use crate::core_record::put_core;
use crate::number::{end_number, loaded_number, step_number};
use emulator::{Run, Step};
use sheet::Load;

mod core_record;
mod number;

pub use core_record::core_of;
pub use number::{order_number, written_number};

/// Puts back the core that a step leaves, and answers how it came out: 0 stepped, 1 halted, 3 fault
/// or 4 refused in bits 31..24, the number in bits 23..16, a fault's value in bits 15..0.
pub fn put_step(step: Step, core: &mut [u16; 12]) -> u32
    ensures step { call result (core.new ∷ []) ≡ call (outcome_number (answer_of step.answer)) (words_of step.core ∷ []) }
    // The upper bits say how the step came out.
    ensures how { result / 2 ^ 24 ≡ how_of (answer_of step.answer) }
{
    put_core(step.core, core);
    step_number(step.answer)
}

/// Puts back the core that a run or a replay leaves, and answers its end, from bit 32 on, and the
/// steps counted in bits 31..0. In bits 63..56 stands 1 halted, 2 limit, 3 fault, 4 refused or 5
/// ended by the log, in bits 55..48 the number, in bits 47..32 a fault's value.
pub fn put_run(run: Run, core: &mut [u16; 12]) -> u64
    ensures run { call result (core.new ∷ []) ≡ ended_call (end_of run.end) run.steps run.core [] }
    // The upper bits say how the run came out.
    ensures how { result / 2 ^ 56 ≡ how_of (end_of run.end) }
{
    put_core(run.core, core);
    end_number(run.end) as u64 * 0x100000000 + run.steps as u64
}

/// Puts back the core and the edition that a load leaves, and answers 0, or the number of the
/// refusal.
pub fn put_load(load: Load, core: &mut [u16; 12], edition: &mut u16) -> u32
    ensures { call result (core.new ∷ (edition.new ∷ []) ∷ []) ≡ call (loaded_number load.answer) (words_of load.core ∷ (load.edition ∷ []) ∷ []) }
{
    put_core(load.core, core);
    *edition = load.edition;
    loaded_number(load.answer)
}
