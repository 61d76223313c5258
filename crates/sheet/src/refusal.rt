// Why a load, a write or an input is refused.
ghost use Rattle.std.specs.Prelude.{◌≡◌};
ghost use Rattle.sheet.specs.Refusal.{sheet_refusal_number};
ghost use Rattle.sheet.specs.declared.refusal.SheetRefusal.TheVariants.{Host};

use memory::Refusal;

/// The test that refuses a load, a write or an input, with its number of docs/NUMBERS.md.
#[derive(Clone, Copy, Debug, PartialEq, Eq)]
pub enum SheetRefusal {
    /// A host test that runs make too. The calls of this crate make but one of them, 1: the length
    /// of memory isn't 1 to 65,536.
    Host(Refusal),
    /// 3: the word list is longer than memory.
    LongList,
    /// 4: the buffer is too short for the sheet.
    ShortBuffer,
    /// 20: a record of an unknown kind.
    UnknownKind,
    /// 21: a bit is set that must be 0.
    NonzeroBit,
    /// 22: the register's number is above 11.
    UnknownRegister,
    /// 34: an edition, of a record or of the host, is neither 1 nor 2.
    UnknownEdition,
    /// 23: a word record at an address at or past memory's length.
    PastMemory,
    /// 24: the sheet has no end record.
    NoEnd,
    /// 25: records after the end.
    AfterEnd,
    /// 26: the end's count isn't the number of the records before it.
    WrongCount,
    /// 27: the input isn't whole records of four bytes, or is above 32,768 bytes.
    Input,
}

impl SheetRefusal {
    /// The number of docs/NUMBERS.md.
    pub fn number(self) -> u8
        ensures { result ≡ sheet_refusal_number self }
    {
        match self {
            SheetRefusal::Host(refusal) => refusal.number(),
            SheetRefusal::LongList => 3,
            SheetRefusal::ShortBuffer => 4,
            SheetRefusal::UnknownKind => 20,
            SheetRefusal::NonzeroBit => 21,
            SheetRefusal::UnknownRegister => 22,
            SheetRefusal::UnknownEdition => 34,
            SheetRefusal::PastMemory => 23,
            SheetRefusal::NoEnd => 24,
            SheetRefusal::AfterEnd => 25,
            SheetRefusal::WrongCount => 26,
            SheetRefusal::Input => 27,
        }
    }
}

impl From<Refusal> for SheetRefusal {
    ghost from_gives = { λ refusal given. given ≡ Host refusal };

    fn from(refusal: Refusal) -> SheetRefusal {
        SheetRefusal::Host(refusal)
    }
}
