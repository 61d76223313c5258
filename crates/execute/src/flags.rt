//! The flags in the word ef: bit 0 is halt, bit 1 is condition (docs/MACHINE.md, Registers).
ghost use Rattle.std.specs.Prelude.{◌≡◌};
ghost use Rattle.execute.specs.Flags.{halt_of, cond_of, with_halt, with_cond};

use crate::word;

/// Whether halt is set in ef.
pub fn is_halted(ef: u16) -> bool
    ensures { result ≡ halt_of ef }
{
    word::has_bit(ef, 0)
}

/// Whether the condition holds in ef.
pub fn is_cond_set(ef: u16) -> bool
    ensures { result ≡ cond_of ef }
{
    word::has_bit(ef, 1)
}

/// ef with halt set.
pub fn with_halt(ef: u16) -> u16
    ensures { result ≡ with_halt ef }
{
    word::set_bit(ef, 0)
}

/// ef with the condition set or cleared. No other bit changes.
pub fn with_cond(ef: u16, val: bool) -> u16
    ensures { result ≡ with_cond ef val }
{
    word::put_bit(ef, 1, val)
}
