// One recorded case: what a step or a run over 32 words starts with, and what the published Rust
// made of it.
ghost use Rattle.std.specs.Prelude.{◌≡◌, ◌≤◌, ◌+◌};
ghost use Rattle.memory.specs.Outcome.{stop_of, fault};

use emulator::{Answer, Core, End, Run, step_lent};
use instructions::{GPR, Register, SPR};
use memory::{Fault, Stop};
use std::array;

/// Bytes of a case.
pub const SIZE: usize = 222;

// Words of a case.
const WORDS: usize = 111;

// Log words that no recorded run needs more of.
const LOG: usize = 4096;

#[derive(Clone, Copy, PartialEq, Eq)]
struct Memory {
    words: [u16; 32],
    marks: [u8; 32],
}

// The registers and memory at the start or at the end.
#[derive(Clone, Copy)]
struct State {
    gprs: [u16; 8],
    sprs: [u16; 4],
    memory: Memory,
}

// How a step or a run comes out: its class, and the number and value of a fault (0 where there is
// none). These are the numbers that are recorded.
#[derive(Clone, Copy, PartialEq, Eq)]
struct Outcome {
    class: u16,
    number: u16,
    value: u16,
}

// What is asked of the machine: a step, or a run to a limit.
#[derive(Clone, Copy)]
enum Asked {
    Step,
    Run(u32),
}

/// A recorded case.
// A step has a limit and a number of steps recorded too, which say nothing.
#[derive(Clone, Copy)]
pub struct Case {
    asked: Asked,
    start: State,
    outcome: Outcome,
    steps: u32,
    end: State,
}

// The words of a case, low byte first.
fn words_of(bytes: &[u8; SIZE]) -> [u16; WORDS] {
    let (pairs, _) = bytes.as_chunks::<2>();
    array::from_fn(|i| u16::from_le_bytes(pairs[i]))
}

// The words from a place on.
fn part<const N: usize>(words: &[u16; WORDS], from: usize) -> [u16; N]
    requires { from + N ≤ 111 }
{
    let mut part = [0; N];
    part.copy_from_slice(&words[from..from + N]);
    part
}

impl State {
    // The registers and memory from a place on.
    fn new(words: &[u16; WORDS], from: usize, marks: [u8; 32]) -> Self
        requires { from + 44 ≤ 111 }
    {
        State {
            gprs: part(words, from),
            sprs: part(words, from + 8),
            memory: Memory {
                words: part(words, from + 12),
                marks,
            },
        }
    }

    fn core(&self) -> Core {
        let mut core = Core::new();
        for (n, value) in (0..8).zip(self.gprs) {
            core = core.write_gpr(GPR::from_low_bits(n), value);
        }
        for (n, value) in (0..4).zip(self.sprs) {
            core = core.write_spr(SPR::from_low_bits(n), value);
        }
        core
    }

    // Whether it has this core, as a whole and by each register that is read.
    fn has_core(&self, core: Core) -> bool {
        let [_, _, _, ef] = self.sprs;
        core == self.core()
            && (0..8)
                .zip(self.gprs)
                .all(|(n, value)| core.read_gpr(GPR::from_low_bits(n)) == value)
            && (0..4)
                .zip(self.sprs)
                .all(|(n, value)| core.read_spr(SPR::from_low_bits(n)) == value)
            && has_flags(core, ef)
    }
}

// Whether the flags are those of this word; the condition changed and changed back leaves the core
// as it is.
fn has_flags(core: Core, ef: u16) -> bool {
    let halted = ef % 2 == 1;
    let cond = ef / 2 % 2 == 1;
    let changed = core.set_cond(!cond);
    core.is_halted() == halted
        && core.is_cond_set() == cond
        && changed.is_cond_set() != cond
        && changed.set_cond(cond) == core
}

// A fault has class 2, at a step and at a run.
impl From<Stop> for Outcome {
    ghost from_gives = { λ s o. (o.class ≡ 2) × (stop_of s ≡ fault o.number o.value) };

    fn from(stop: Stop) -> Outcome {
        let fault = Fault::from(stop);
        Outcome {
            class: 2,
            number: fault.number as u16,
            value: fault.value,
        }
    }
}

impl Outcome {
    fn ended(class: u16) -> Self {
        Outcome {
            class,
            number: 0,
            value: 0,
        }
    }

    // The classes of a step: 0 stepped, 1 halted, 2 fault. No case is refused. (Functions and no
    // `TryFrom`: a step and a run number their classes differently, and `None` means that no case
    // is such.)
    fn of_step(answer: Answer) -> Option<Self> {
        match answer {
            Answer::Stepped => Some(Self::ended(0)),
            Answer::Halted => Some(Self::ended(1)),
            Answer::Fault(stop) => Some(Self::from(stop)),
            Answer::Refused(_) => None,
        }
    }

    // The classes of a run: 0 halted, 1 limit, 2 fault.
    fn of_run(end: End) -> Option<Self> {
        match end {
            End::Halted => Some(Self::ended(0)),
            End::Limit => Some(Self::ended(1)),
            End::Fault(stop) => Some(Self::from(stop)),
            End::Refused(_) | End::Log(_) => None,
        }
    }
}

impl Case {
    /// The case of these bytes, as rust/differential/README.md lays them out. Any bytes are one.
    pub fn new(bytes: &[u8; SIZE]) -> Self {
        let words = words_of(bytes);
        let [kind, limit, mark] = part::<3>(&words, 0);
        let [class, number, value, steps] = part::<4>(&words, 47);
        let mut marks = [0; 32];
        marks.copy_from_slice(&bytes[190..]);
        Case {
            asked: if kind == 0 {
                Asked::Step
            } else {
                Asked::Run(limit as u32)
            },
            start: State::new(&words, 3, [(mark % 256) as u8; 32]),
            outcome: Outcome {
                class,
                number,
                value,
            },
            steps: steps as u32,
            end: State::new(&words, 51, marks),
        }
    }

    /// Whether this machine answers as the published Rust did: the step or the run, and of a run
    /// also the one with a log and its replay.
    pub fn is_met(&self) -> bool {
        match self.asked {
            Asked::Step => self.steps_so(),
            Asked::Run(limit) => self.runs_so(limit) && self.is_seen_again(limit),
        }
    }

    // A step of a core that is lent, which makes the step of a core by value.
    fn steps_so(&self) -> bool {
        let mut memory = self.start.memory;
        let mut core = self.start.core();
        let answer = step_lent(&mut core, &mut memory.words, &mut memory.marks, 1);
        Outcome::of_step(answer) == Some(self.outcome)
            && self.end.has_core(core)
            && memory == self.end.memory
    }

    fn runs_so(&self, limit: u32) -> bool {
        let mut memory = self.start.memory;
        let core = self.start.core();
        let run = core.run(&mut memory.words, &mut memory.marks, 1, limit);
        self.is_run(run) && memory == self.end.memory
    }

    // The same run with a log, and its replay: both end as the published Rust did.
    fn is_seen_again(&self, limit: u32) -> bool {
        let mut memory = self.start.memory;
        let mut log = [0; LOG];
        let core = self.start.core();
        let logged = core.run_logged(&mut memory.words, &mut memory.marks, 1, limit, &mut log);
        let Some(log) = log.get(..logged.logged) else {
            return false;
        };
        self.is_run(logged.run)
            && memory == self.end.memory
            && self.is_run(replay::replay(core, memory.words.len(), 1, limit, log))
    }

    fn is_run(&self, run: Run) -> bool {
        run.steps == self.steps
            && Outcome::of_run(run.end) == Some(self.outcome)
            && self.end.has_core(run.core)
    }
}
