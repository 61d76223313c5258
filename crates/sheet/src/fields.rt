// The fields of a record, and the register that a preset names.
ghost use Rattle.std.specs.Prelude.{◌≡◌};
ghost use Rattle.sheet.specs.Record.{record_of, register_of, with_register};

use crate::refusal::SheetRefusal;
use emulator::Core;
use execute::Edition;
use instructions::{GPR, Register, SPR};

/// What a record says (docs/SHEETS.md, The records).
#[derive(Clone, Copy, Debug, PartialEq, Eq)]
pub enum Record {
    /// The load address of the words that follow.
    Place(u16),
    /// The word that goes to the load address.
    Word(u16),
    /// The register's number as the record has it, 0 to 11, and its value.
    Preset(u8, u16),
    /// The edition's number, 1 or 2.
    Edition(u16),
    /// The number of records before it.
    End(u32),
}

/// The record that a word is, or the first of the tests 20, 21, 22 and 34 that it fails.
// It goes by the kind and bits 27..16 at once. Word records, of which a sheet has most, are told
// first and by a test of their own: as an arm of the match they are compared after places, and
// loading takes a fifth longer. With ranges of the whole word it takes twice as long.
#[tactic(auto, unfolding(crate::specs::Record::record_of))]
pub fn record_of(w: u32) -> Result<Record, SheetRefusal>
    ensures { result ≡ record_of w }
{
    let upper = w / 0x10000;
    let low = (w % 0x10000) as u16;
    if w - low as u32 == 0x20000000 {
        return Ok(Record::Word(low));
    }
    match upper {
        0x1000 => Ok(Record::Place(low)),
        0x3000..=0x300B => Ok(Record::Preset((upper % 0x10) as u8, low)),
        0x300C..=0x300F => Err(SheetRefusal::UnknownRegister),
        0x1001..=0x3FFF => Err(SheetRefusal::NonzeroBit),
        0x7000 => match Edition::at(low) {
            Some(_) => Ok(Record::Edition(low)),
            None => Err(SheetRefusal::UnknownEdition),
        },
        0x7001..=0x7FFF => Err(SheetRefusal::NonzeroBit),
        0xF000..=0xFFFF => Ok(Record::End(w % 0x10000000)),
        _ => Err(SheetRefusal::UnknownKind),
    }
}

/// The value of the register of that number: 0 to 7 general, 8 ip, 9 rp, 10 sp, 11 ef. No caller
/// has a number above 11.
#[tactic(auto, unfolding(crate::specs::Record::register_of))]
pub fn register(core: Core, number: u8) -> u16
    ensures { result ≡ register_of core number }
{
    if number < 8 {
        core.read_gpr(GPR::from_low_bits(number))
    } else {
        core.read_spr(SPR::from_low_bits(number - 8))
    }
}

/// The core with the register of that number changed, as `register` numbers them.
#[tactic(auto, unfolding(crate::specs::Record::with_register))]
pub fn with_register(core: Core, number: u8, value: u16) -> Core
    ensures { result ≡ with_register core number value }
{
    if number < 8 {
        core.write_gpr(GPR::from_low_bits(number), value)
    } else {
        core.write_spr(SPR::from_low_bits(number - 8), value)
    }
}
