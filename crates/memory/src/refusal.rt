//! Why a call is refused, and how a run ends by its log: enums with the numbers of docs/NUMBERS.md.
//! (`number` is a method, as a register's is: `u8::from` wouldn't say what it is the number of.)
ghost use Rattle.std.specs.Prelude.{◌≡◌};
ghost use Rattle.memory.specs.Memory.{length_test};
ghost use Rattle.memory.specs.Outcome.{refusal_number, log_end_number};

/// A host test that refuses a call, with its number. A refused call leaves what it was lent as it
/// is (docs/NUMBERS.md, What is left unchanged).
#[derive(Clone, Copy, Debug, PartialEq, Eq)]
pub enum Refusal {
    /// The length of memory isn't 1 to 65,536.
    MemoryLength = 1,
    /// There are not as many marks as memory has words.
    MarksLength = 2,
    /// The rights aren't 256 bytes of at most 7.
    Rights = 32,
    /// The edition is neither 1 nor 2.
    Edition = 34,
}

impl Refusal {
    /// The number that hosts get: 1, 2, 32 or 34.
    pub fn number(self) -> u8
        ensures { result ≡ refusal_number self }
    {
        self as u8
    }
}

/// How a run ends by its log, with its number.
#[derive(Clone, Copy, Debug, PartialEq, Eq)]
pub enum LogEnd {
    /// Fewer than four words of its buffer were free before a step.
    Full = 30,
    /// A replay's reads aren't those of its log, or log words are left.
    Mismatch = 31,
}

impl LogEnd {
    /// The number that hosts get: 30 or 31.
    pub fn number(self) -> u8
        ensures { result ≡ log_end_number self }
    {
        self as u8
    }
}

/// Host test 1: memory has 1 to 65,536 words.
#[tactic(auto, using(crate::proofs::Laws::length_accepted, crate::proofs::Laws::length_none, crate::proofs::Laws::length_past))]
pub fn check_length(words: usize) -> Result<(), Refusal>
    ensures { result ≡ length_test words }
{
    match words {
        1..=65536 => Ok(()),
        _ => Err(Refusal::MemoryLength),
    }
}
