// The numbers of the code. Each variant's name is the one that the derived `Debug` writes.
use memory::{Fault, LogEnd, Refusal, Stop};
use sheet::SheetRefusal;
use std::io;

const REFUSALS: [Refusal; 4] = [
    Refusal::MemoryLength,
    Refusal::MarksLength,
    Refusal::Rights,
    Refusal::Edition,
];

const LOG_ENDS: [LogEnd; 2] = [LogEnd::Full, LogEnd::Mismatch];

// Each with a value, which is written behind its name.
const STOPS: [Stop; 6] = [
    Stop::Undecodable(0),
    Stop::OutOfRange(0),
    Stop::NoRight(0),
    Stop::Decimal(0),
    Stop::Amount(0),
    Stop::Negation(0),
];

// All but `Host`, which has a refusal's number.
const SHEET_REFUSALS: [SheetRefusal; 11] = [
    SheetRefusal::LongList,
    SheetRefusal::ShortBuffer,
    SheetRefusal::UnknownKind,
    SheetRefusal::NonzeroBit,
    SheetRefusal::UnknownRegister,
    SheetRefusal::UnknownEdition,
    SheetRefusal::PastMemory,
    SheetRefusal::NoEnd,
    SheetRefusal::AfterEnd,
    SheetRefusal::WrongCount,
    SheetRefusal::Input,
];

/// Prints a line for each variant: its number and its name.
pub fn print(rt: &impl Print) -> io::Result<()> {
    for refusal in REFUSALS {
        println!(rt; "{} {refusal:?}", refusal.number())?;
    }
    for end in LOG_ENDS {
        println!(rt; "{} {end:?}", end.number())?;
    }
    for stop in STOPS {
        println!(rt; "{} {stop:?}", Fault::from(stop).number)?;
    }
    for refusal in SHEET_REFUSALS {
        println!(rt; "{} {refusal:?}", refusal.number())?;
    }
    Ok(())
}
