//! The host tests of a step and of a run, in their order (docs/NUMBERS.md, The order of the tests).
//! What passes them comes back in the form that the loop takes.
ghost use Rattle.std.specs.Prelude.{◌≡◌, IfOk, None, Some};
ghost use Rattle.execute.specs.Edition.{edition_of};
ghost use Rattle.memory.specs.Memory.{lent};
ghost use Rattle.emulator.specs.Machine.{refusal_of, refusal_with, edition_test, test_number};

use execute::Edition;
use memory::{Refusal, check_length, check_rights};

// Host tests 1 and 2.
fn check_lengths(memory: &[u16], marks: &[u8]) -> Result<(), Refusal>
    ensures { test_number result ≡ refusal_of (lent memory.now marks.now) }
{
    check_length(memory.len())?;
    if marks.len() != memory.len() {
        return Err(Refusal::MarksLength);
    }
    Ok(())
}

/// Host test 34: the edition of that number, 1 or 2.
pub fn check_edition(number: u16) -> Result<Edition, Refusal>
    ensures { result ≡ edition_test number }
{
    Edition::at(number).ok_or(Refusal::Edition)
}

/// The host tests of a step, and of a run without rights: 1, 2 and 34. Of the lent lists they look
/// at the lengths alone.
pub fn check(memory: &[u16], marks: &[u8], edition: u16) -> Result<Edition, Refusal>
    ensures number { test_number result ≡ refusal_with None edition (lent memory.now marks.now) }
    ensures edition { IfOk result (λ e. e ≡ edition_of edition) }
{
    check_lengths(memory, marks)?;
    check_edition(edition)
}

/// The host tests of a run with rights, which are tested before the edition: 1, 2, 32 and 34. The
/// rights bytes come back as the 256 that they are.
pub fn check_guarded<'a>(
    memory: &[u16],
    marks: &[u8],
    rights: &'a [u8],
    edition: u16,
) -> Result<(&'a [u8; 256], Edition), Refusal>
    ensures number { test_number result ≡ refusal_with (Some rights.now) edition (lent memory.now marks.now) }
    ensures rights { IfOk result (λ p. p.0.now ≡ rights.now) }
    ensures edition { IfOk result (λ p. p.1 ≡ edition_of edition) }
{
    check_lengths(memory, marks)?;
    let rights = check_rights(rights)?;
    let edition = check_edition(edition)?;
    Ok((rights, edition))
}
