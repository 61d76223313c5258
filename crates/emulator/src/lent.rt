//! The step on a core that is lent for writing.
ghost use Rattle.std.specs.Prelude.{◌≡◌};
ghost use Rattle.emulator.specs.Answers.{answer_of};
ghost use Rattle.memory.specs.Memory.{lent};
ghost use Rattle.emulator.specs.Machine.{plan_of, turn, step_of};

use crate::core_record::{Answer, Core};

/// One step of the core, which is changed where it stands: its core afterwards is that of
/// `Core::step`. A refused step and one of a halted core change nothing.
pub fn step_lent(core: &mut Core, memory: &mut [u16], marks: &mut [u8], edition: u16) -> Answer
    ensures { turn (answer_of result) core.new (lent memory.new marks.new) ≡ step_of plan_of core.old (lent memory.old marks.old) edition }
{
    let step = core.step(memory, marks, edition);
    *core = step.core;
    step.answer
}
