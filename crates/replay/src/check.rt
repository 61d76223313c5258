//! The host tests of a replay, in their order (docs/NUMBERS.md, The order of the tests). What
//! passes them comes back in the form that the loop takes.
ghost use Rattle.std.specs.Prelude.{◌≡◌, IfOk, None, Some};
ghost use Rattle.execute.specs.Edition.{edition_of};
ghost use Rattle.emulator.specs.Machine.{test_number};
ghost use Rattle.replay.specs.Replay.{replay_refusal};

use emulator::check_edition;
use execute::Edition;
use memory::{Refusal, check_length, check_rights};

/// The host tests of a replay without rights, of a memory of so many words: 1 and 34.
pub fn check(size: usize, edition: u16) -> Result<Edition, Refusal>
    ensures number { test_number result ≡ replay_refusal None edition size }
    ensures edition { IfOk result (λ e. e ≡ edition_of edition) }
{
    check_length(size)?;
    check_edition(edition)
}

/// The host tests of a replay with rights: 1, 32 and 34. The rights bytes come back as the 256 that
/// they are.
pub fn check_guarded(
    size: usize,
    rights: &[u8],
    edition: u16,
) -> Result<(&[u8; 256], Edition), Refusal>
    ensures number { test_number result ≡ replay_refusal (Some rights.now) edition size }
    ensures rights { IfOk result (λ p. p.0.now ≡ rights.now) }
    ensures edition { IfOk result (λ p. p.1 ≡ edition_of edition) }
{
    check_length(size)?;
    let rights = check_rights(rights)?;
    let edition = check_edition(edition)?;
    Ok((rights, edition))
}
