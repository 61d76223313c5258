//! The registers, and the numbers that stand for them in a word (docs/MACHINE.md, Registers).
ghost use Rattle.std.specs.Prelude.{◌≡◌, ◌≤◌, ℕ};
ghost use Rattle.std.proofs.Common.{lit≤};
ghost use Rattle.instructions.specs.Bounded.{Bounded};
ghost use Rattle.instructions.specs.Reg.{gpr_number, gpr_at, gpr_at_lem, spr_number, spr_at, spr_at_lem, dr_number, dr_at, dr_at_lem, register_of};

/// A sort of registers, which have the numbers below their count.
pub trait Register: Copy {
    /// The register's number.
    ghost number: { Self → ℕ };

    /// The register whose number is in the lowest bits.
    ghost at: { ℕ → Self };

    /// How many registers the sort has.
    ghost COUNT: { ℕ };

    /// How many registers the sort has: their numbers are those from 0 on.
    const COUNT: u16;

    /// The register's number, as a word holds it.
    fn encode(self) -> u16
        ensures { Bounded result (number self) COUNT };

    /// The register whose number is in the lowest bits, as many as numbers below the count need;
    /// the bits above are not looked at.
    fn from_low_bits(bits: u8) -> Self
        ensures { result ≡ at bits };

    /// The register whose number all the bits are, or none where that is not below the count.
    fn decode(bits: u16) -> Option<Self>
        ensures { result ≡ register_of COUNT at bits }
    {
        if bits < Self::COUNT {
            Some(Self::from_low_bits(bits as u8))
        } else {
            None
        }
    }

    /// Every number fits a byte, as `from_low_bits` takes one.
    ghost fits_byte: { COUNT ≤ 256 };

    /// A register is the one of its number.
    ghost at_number: { (r : Self) → at (number r) ≡ r };
}

/// A general register, of eight.
#[derive(Clone, Copy, Debug, PartialEq, Eq)]
pub enum GeneralPurposeRegister {
    /// Number 0.
    R0,
    /// Number 1.
    R1,
    /// Number 2.
    R2,
    /// Number 3.
    R3,
    /// Number 4.
    R4,
    /// Number 5.
    R5,
    /// Number 6.
    R6,
    /// Number 7.
    R7,
}

/// Short for it, as operands are written.
pub type GPR = GeneralPurposeRegister;

/// A special register, of four.
#[derive(Clone, Copy, Debug, PartialEq, Eq)]
pub enum SpecialPurposeRegister {
    /// The address of the next fetch. Number 0.
    IP,
    /// The address to which `ret` goes, and which `call` sets. Number 1.
    RP,
    /// The top of the stack, the address of the word pushed last: `push` lowers it, `pop` raises
    /// it. Number 2.
    SP,
    /// The flags: bit 0 is halt, bit 1 is condition. Number 3.
    EF,
}

/// Short for it, as operands are written.
pub type SPR = SpecialPurposeRegister;

/// A decimal register, of four. Words name them, but a core has none: an instruction that names one
/// decodes, and stops when it is executed (number 12 of docs/NUMBERS.md).
#[derive(Clone, Copy, Debug, PartialEq, Eq)]
pub enum DecimalRegister {
    /// Number 0.
    D0,
    /// Number 1.
    D1,
    /// Number 2.
    D2,
    /// Number 3.
    D3,
}

/// Short for it, as operands are written.
pub type DR = DecimalRegister;

impl GeneralPurposeRegister {
    /// The register's number, as `r1` has 1.
    pub fn number(self) -> u16
        ensures { Bounded result (gpr_number self) 8 }
    {
        self.encode()
    }
}

impl Register for GeneralPurposeRegister {
    ghost number = { gpr_number };

    ghost at = { gpr_at };

    ghost COUNT = { 8 };

    const COUNT: u16 = 8;

    ghost fits_byte = { lit≤ tt };

    ghost at_number = { gpr_at_lem };

    fn encode(self) -> u16 {
        self as u16
    }

    fn from_low_bits(bits: u8) -> GPR {
        match bits % 8 {
            0 => GPR::R0,
            1 => GPR::R1,
            2 => GPR::R2,
            3 => GPR::R3,
            4 => GPR::R4,
            5 => GPR::R5,
            6 => GPR::R6,
            _ => GPR::R7,
        }
    }
}

impl Register for SpecialPurposeRegister {
    ghost number = { spr_number };

    ghost at = { spr_at };

    ghost COUNT = { 4 };

    const COUNT: u16 = 4;

    ghost fits_byte = { lit≤ tt };

    ghost at_number = { spr_at_lem };

    fn encode(self) -> u16 {
        self as u16
    }

    fn from_low_bits(bits: u8) -> SPR {
        match bits % 4 {
            0 => SPR::IP,
            1 => SPR::RP,
            2 => SPR::SP,
            _ => SPR::EF,
        }
    }
}

impl Register for DecimalRegister {
    ghost number = { dr_number };

    ghost at = { dr_at };

    ghost COUNT = { 4 };

    const COUNT: u16 = 4;

    ghost fits_byte = { lit≤ tt };

    ghost at_number = { dr_at_lem };

    fn encode(self) -> u16 {
        self as u16
    }

    fn from_low_bits(bits: u8) -> DR {
        match bits % 4 {
            0 => DR::D0,
            1 => DR::D1,
            2 => DR::D2,
            _ => DR::D3,
        }
    }
}
