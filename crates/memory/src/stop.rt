//! Why a step stops, and its numbers (docs/NUMBERS.md, The numbers).
ghost use Rattle.std.specs.Prelude.{◌≡◌};
ghost use Rattle.memory.specs.Outcome.{stop_of, fault};
ghost use Rattle.memory.specs.declared.stop.Stop.TheVariants as stops;

use instructions::Undecodable;

/// A stop, with the value that is returned too.
#[derive(Clone, Copy, Debug, PartialEq, Eq)]
pub enum Stop {
    /// 10: the word, which is no instruction.
    Undecodable(u16),
    /// 11: the address, which is past memory.
    OutOfRange(u16),
    /// 33: the address, whose page hasn't the right.
    NoRight(u16),
    /// 12: the word of a decimal instruction.
    Decimal(u16),
    /// 13: the amount of a shift, or the index of a bit, of 16 or more, in the first edition.
    Amount(u16),
    /// 14: the word that has no negation in the first edition, 0x8000.
    Negation(u16),
}

impl From<Undecodable> for Stop {
    ghost from_gives = { λ e s. s ≡ stops.Undecodable e.word };

    fn from(e: Undecodable) -> Stop {
        Stop::Undecodable(e.word)
    }
}

/// A stop by its number, as hosts get it.
#[derive(Clone, Copy)]
pub struct Fault {
    /// 10 to 14, or 33.
    pub number: u8,
    /// The word, address or amount that the stop has.
    pub value: u16,
}

impl From<Stop> for Fault {
    ghost from_gives = { λ s f. stop_of s ≡ fault f.number f.value };

    fn from(stop: Stop) -> Fault {
        match stop {
            Stop::Undecodable(value) => Fault { number: 10, value },
            Stop::OutOfRange(value) => Fault { number: 11, value },
            Stop::NoRight(value) => Fault { number: 33, value },
            Stop::Decimal(value) => Fault { number: 12, value },
            Stop::Amount(value) => Fault { number: 13, value },
            Stop::Negation(value) => Fault { number: 14, value },
        }
    }
}
