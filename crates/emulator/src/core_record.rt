//! The core record: its registers, one step, and the run.
ghost use Rattle.std.specs.Prelude.{◌≡◌, [], length};
ghost use Rattle.emulator.specs.Core.{new_core, read_gpr, write_gpr, read_spr, write_spr, is_halted, is_cond_set, set_cond};
ghost use Rattle.memory.specs.Log.{Room, written};
ghost use Rattle.memory.specs.Memory.{lent};
ghost use Rattle.emulator.specs.Answers.{answer_of, end_of, answered_of};
ghost use Rattle.memory.specs.Store.{memory_store};
ghost use Rattle.emulator.specs.Machine.{plan_of, turn, step_of, run_from, ran, ran_logged, in_buffer, run_of, run_guarded_of, run_logged_of, run_logged_guarded_of};
ghost use Rattle.memory.specs.Rights.{bytes_of};
ghost use Rattle.emulator.specs.declared.cycle.End.TheVariants as ends;

use crate::check::{check, check_guarded};
use crate::cycle::{End, turns};
use execute::Edition;
use instructions::{GPR, Register, SPR};
use memory::{LoggedMemory, MarkedMemory, Refusal, Rights, Stop};

/// The core record: the twelve registers, 16 bits each (docs/MACHINE.md, Registers).
#[derive(Clone, Copy, Debug, PartialEq, Eq)]
pub struct Core {
    /// The general registers, r0 to r7.
    pub gprs: [u16; 8],
    /// The address of the next instruction.
    pub ip: u16,
    /// Where `ret` goes.
    pub rp: u16,
    /// The top of the stack.
    pub sp: u16,
    /// The flags: bit 0 is halt, bit 1 the condition; the others mean nothing.
    pub ef: u16,
}

/// What a step answers.
#[derive(Clone, Copy, Debug, PartialEq, Eq)]
pub enum Answer {
    /// An instruction was executed, `hlt` too.
    Stepped,
    /// The core was halted, and nothing is changed.
    Halted,
    /// The step stopped; what it did before stays done (docs/NUMBERS.md, What is left unchanged).
    Fault(Stop),
    /// A host test refused the call, and nothing is changed.
    Refused(Refusal),
}

/// A step: the core that it leaves, and its answer.
#[derive(Clone, Copy, Debug, PartialEq, Eq)]
pub struct Step {
    /// The core after it; as it was given where the step is refused or the core halted.
    pub core: Core,
    /// How it came out.
    pub answer: Answer,
}

/// A run: the core that it leaves, the steps counted, and its end.
#[derive(Clone, Copy, Debug, PartialEq, Eq)]
pub struct Run {
    /// The core after it; as it was given where the run is refused, or a replay ends by 31.
    pub core: Core,
    /// The steps counted, at most the limit; one that faults isn't.
    pub steps: u32,
    /// How it ended.
    pub end: End,
}

/// A run with a log, and the number of its log words.
#[derive(Clone, Copy, Debug, PartialEq, Eq)]
pub struct LoggedRun {
    /// The run.
    pub run: Run,
    /// How many words of the buffer are its log, from the front: two for each read; 0 where the run
    /// is refused.
    pub logged: usize,
}

/// A call that runs nothing: the core as it was given, 0 steps, and why.
pub fn no_run(core: Core, end: End) -> Run
    ensures { result ≡ record { core = core; steps = 0; end = end } }
{
    Run {
        core,
        steps: 0,
        end,
    }
}

// A refused run with a log, of which nothing is logged.
fn no_logged_run(core: Core, refusal: Refusal) -> LoggedRun
    ensures { result ≡ record { run = record { core = core; steps = 0; end = ends.Refused refusal }; logged = 0 } }
{
    LoggedRun {
        run: no_run(core, End::Refused(refusal)),
        logged: 0,
    }
}

// The turns of a run or a step without a log. All call this one function, so that the loop stands
// in it alone, on slices (docs/PERFORMANCE.md).
fn marked_turns(
    core: Core,
    words: &mut [u16],
    marks: &mut [u8],
    rights: Rights<'_>,
    limit: u32,
    edition: Edition,
) -> Run
    requires { length marks.old ≡ length words.old }
    ensures { ran (end_of result.end) result.steps result.core (lent words.new marks.new) ≡ (run_from (memory_store (bytes_of rights.entry)) (plan_of edition) Room.none limit 0 core (lent words.old marks.old) []).result }
{
    let mut lent = MarkedMemory { words, marks };
    turns(core, &mut lent, rights, limit, edition)
}

// The turns of a run with a log.
fn logged_turns(
    core: Core,
    words: &mut [u16],
    marks: &mut [u8],
    rights: Rights<'_>,
    limit: u32,
    edition: Edition,
    log: &mut [u32],
) -> LoggedRun
    requires { length marks.old ≡ length words.old }
    ensures { ran_logged (ran (end_of result.run.end) result.run.steps result.run.core (lent words.new marks.new)) (written result.logged log.new) ≡ in_buffer log.old (run_from (memory_store (bytes_of rights.entry)) (plan_of edition) (Room.words (length log.old)) limit 0 core (lent words.old marks.old) []) }
{
    let mut lent = LoggedMemory {
        words,
        marks,
        log,
        logged: 0,
    };
    let run = turns(core, &mut lent, rights, limit, edition);
    LoggedRun {
        run,
        logged: lent.logged,
    }
}

// What a step answers, from the count and the end of a run of one turn.
fn answered(steps: u32, end: End) -> Answer
    ensures { answer_of result ≡ answered_of steps (end_of end) }
{
    if steps == 1 {
        return Answer::Stepped;
    }
    match end {
        End::Halted => Answer::Halted,
        End::Limit => Answer::Stepped,
        End::Fault(stop) => Answer::Fault(stop),
        End::Refused(refusal) => Answer::Refused(refusal),
        End::Log(_) => Answer::Stepped,
    }
}

impl Core {
    /// A fresh core: all 0 but sp, which is 0xFFFF.
    pub fn new() -> Self
        ensures { result ≡ new_core }
    {
        Self {
            gprs: [0; 8],
            ip: 0,
            rp: 0,
            sp: 0xFFFF,
            ef: 0,
        }
    }

    /// The word in a general register.
    pub fn read_gpr(self, reg: GPR) -> u16
        ensures { result ≡ read_gpr self reg }
    {
        execute::read_gpr(&self.gprs, reg)
    }

    /// The core with the word in a general register.
    pub fn write_gpr(mut self, reg: GPR, value: u16) -> Self
        ensures { result ≡ write_gpr self reg value }
    {
        self.gprs[reg.encode() as usize] = value;
        self
    }

    /// The word in a special register.
    pub fn read_spr(self, reg: SPR) -> u16
        ensures { result ≡ read_spr self reg }
    {
        execute::read_spr(reg, self.ip, self.rp, self.sp, self.ef)
    }

    /// The core with the word in a special register: in ef all 16 bits, halt included.
    pub fn write_spr(mut self, reg: SPR, value: u16) -> Self
        ensures { result ≡ write_spr self reg value }
    {
        match reg {
            SPR::IP => self.ip = value,
            SPR::RP => self.rp = value,
            SPR::SP => self.sp = value,
            SPR::EF => self.ef = value,
        }
        self
    }

    /// Whether the halt bit is set.
    pub fn is_halted(self) -> bool
        ensures { result ≡ is_halted self }
    {
        execute::is_halted(self.ef)
    }

    /// Whether the condition holds.
    pub fn is_cond_set(self) -> bool
        ensures { result ≡ is_cond_set self }
    {
        execute::is_cond_set(self.ef)
    }

    /// The core with the condition set or cleared; no other bit of ef changes.
    pub fn set_cond(mut self, val: bool) -> Self
        ensures { result ≡ set_cond self val }
    {
        self.ef = execute::with_cond(self.ef, val);
        self
    }

    /// One step (docs/MACHINE.md, One step), in the edition of that number, 1 or 2. It adds to the
    /// marks without clearing them. Where a host test refuses, and where the core is halted,
    /// nothing changes.
    #[tactic(auto, using(crate::proofs::Laws::accepted))]
    pub fn step(self, memory: &mut [u16], marks: &mut [u8], edition: u16) -> Step
        ensures { turn (answer_of result.answer) result.core (lent memory.new marks.new) ≡ step_of plan_of self (lent memory.old marks.old) edition }
    {
        let edition = match check(memory, marks, edition) {
            Ok(edition) => edition,
            Err(refusal) => {
                return Step {
                    core: self,
                    answer: Answer::Refused(refusal),
                };
            }
        };
        let run = marked_turns(self, memory, marks, None, 1, edition);
        Step {
            core: run.core,
            answer: answered(run.steps, run.end),
        }
    }

    /// Runs the core (docs/MACHINE.md, The run): all marks are set to 0, then steps are made until
    /// it halts, the limit is reached, or a step faults. A refused run changes nothing.
    #[tactic(auto, using(crate::proofs::Laws::accepted))]
    pub fn run(self, memory: &mut [u16], marks: &mut [u8], edition: u16, limit: u32) -> Run
        ensures { ran (end_of result.end) result.steps result.core (lent memory.new marks.new) ≡ run_of plan_of self (lent memory.old marks.old) edition limit }
    {
        let edition = match check(memory, marks, edition) {
            Ok(edition) => edition,
            Err(refusal) => return no_run(self, End::Refused(refusal)),
        };
        marks.fill(0); // the marks are of this run alone
        marked_turns(self, memory, marks, None, limit, edition)
    }

    /// The run with a log of its reads, which is written to the front of the lent one
    /// (docs/MACHINE.md, Logs and replays). It also ends where fewer than four words are free
    /// before a step. The words past the log keep their value, and a refused run changes nothing.
    #[tactic(auto, using(crate::proofs::Laws::accepted))]
    pub fn run_logged(
        self,
        memory: &mut [u16],
        marks: &mut [u8],
        edition: u16,
        limit: u32,
        log: &mut [u32],
    ) -> LoggedRun
        ensures { ran_logged (ran (end_of result.run.end) result.run.steps result.run.core (lent memory.new marks.new)) (written result.logged log.new) ≡ run_logged_of plan_of self (lent memory.old marks.old) edition limit log.old }
    {
        let edition = match check(memory, marks, edition) {
            Ok(edition) => edition,
            Err(refusal) => return no_logged_run(self, refusal),
        };
        marks.fill(0); // of this run alone, with a log too
        logged_turns(self, memory, marks, None, limit, edition, log)
    }

    /// The run with rights over memory's pages (docs/MACHINE.md, Rights): 256 bytes, one for each
    /// page of 256 addresses. An access that they don't allow is a fault. A refused run changes
    /// nothing.
    #[tactic(auto, using(crate::proofs::Laws::accepted))]
    pub fn run_guarded(
        self,
        memory: &mut [u16],
        marks: &mut [u8],
        rights: &[u8],
        edition: u16,
        limit: u32,
    ) -> Run
        ensures { ran (end_of result.end) result.steps result.core (lent memory.new marks.new) ≡ run_guarded_of plan_of self (lent memory.old marks.old) rights.now edition limit }
    {
        let (rights, edition) = match check_guarded(memory, marks, rights, edition) {
            Ok(accepted) => accepted,
            Err(refusal) => return no_run(self, End::Refused(refusal)),
        };
        marks.fill(0);
        marked_turns(self, memory, marks, Some(rights), limit, edition)
    }

    /// The run with rights and with a log: what `run_guarded` and `run_logged` say holds of it.
    #[tactic(auto, using(crate::proofs::Laws::accepted))]
    pub fn run_logged_guarded(
        self,
        memory: &mut [u16],
        marks: &mut [u8],
        rights: &[u8],
        edition: u16,
        limit: u32,
        log: &mut [u32],
    ) -> LoggedRun
        ensures { ran_logged (ran (end_of result.run.end) result.run.steps result.run.core (lent memory.new marks.new)) (written result.logged log.new) ≡ run_logged_guarded_of plan_of self (lent memory.old marks.old) rights.now edition limit log.old }
    {
        let (rights, edition) = match check_guarded(memory, marks, rights, edition) {
            Ok(accepted) => accepted,
            Err(refusal) => return no_logged_run(self, refusal),
        };
        marks.fill(0);
        logged_turns(self, memory, marks, Some(rights), limit, edition, log)
    }
}
