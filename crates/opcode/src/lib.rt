//! The opcode of a word, by ranges of its upper byte and then of its lower byte: the first half of
//! decoding (docs/MACHINE.md, Instructions). specs/Opcode.antt has the same choice as a definition.
//! The second half, the operands, is in the crate `instructions`.
#![tactic(auto)]

ghost use Rattle.std.specs.Prelude.{◌≡◌, ◌<◌, ◌≤◌, ◌⊎◌};
ghost use Rattle.opcode.specs.Opcode.{single_of, general_of, general_or_decimal_of, paired_of, memory_of, moves_of, pointer_of, stack_of, slots_of, ands_of, unary_of, zero_of, calls_of, opcode_of};

/// The kind of an instruction, or that a word is undecodable. One flat enum, so that it takes one
/// byte. Each kind is listed with its base word, to which its operands add (docs/MACHINE.md,
/// Instructions): a pair has one register in bits 6..4 and one from bit 0 on; the table's row says
/// which operand each is.
#[derive(Clone, Copy, Debug, PartialEq, Eq)]
pub enum InstructionOpcode {
    /// No kind: the word stands for no instruction.
    Undecodable,

    // Core
    /// The word 0x0000.
    Nop,
    /// The word 0xFFFF.
    Hlt,
    /// From 0x2100 on: a pair of general registers.
    Mov,
    /// From 0x2108 on: a pair of decimal registers.
    DMov,

    // Immediate loads
    /// From 0x1000 on: a general register in bits 10..8, and a byte.
    Putl,
    /// From 0x1800 on: a general register in bits 10..8, and a byte.
    Puth,

    // Memory
    /// From 0x2000 on: a pair of general registers.
    Read,
    /// From 0x2080 on: a pair of general registers.
    Write,
    /// From 0x3000 on: a general register, and an offset of four bits.
    Spread,
    /// From 0x3080 on: a general register, and an offset of four bits.
    Spwrite,
    /// From 0x2008 on: a general register, and a decimal one.
    DRead,
    /// From 0x2088 on: a general register, and a decimal one.
    DWrite,
    /// From 0x23D0 on: a general register.
    Push,
    /// From 0x23D8 on: a general register.
    Pop,

    // Special-purpose registers
    /// From 0x2180 on: a special register, and a general one.
    Movso,
    /// From 0x21C0 on: a special register, and a general one.
    Movsi,
    /// From 0x21D8 on: a general register.
    Spadd,
    /// The word 0x22D0.
    Spinc,
    /// The word 0x22D1.
    Spdec,

    // Bit manipulation
    /// From 0x4000 on: a general register.
    Not,
    /// From 0x4100 on: a pair of general registers.
    And,
    /// From 0x4180 on: a pair of general registers.
    Booland,
    /// From 0x4200 on: a pair of general registers.
    Or,
    /// From 0x4300 on: a pair of general registers.
    Xor,
    /// From 0x4400 on: a pair of general registers.
    Shl,
    /// From 0x4500 on: a pair of general registers.
    Shr,
    /// From 0x4700 on: a pair of general registers.
    Bitset,

    // General-purpose arithmetic
    /// From 0x4800 on: a general register.
    Neg,
    /// From 0x4810 on: a general register.
    Inc,
    /// From 0x4820 on: a general register.
    Dec,
    /// From 0x4900 on: a pair of general registers.
    Add,
    /// From 0x4A00 on: a pair of general registers.
    Sub,
    /// From 0x4B00 on: a pair of general registers.
    Mul,

    // Comparison
    /// The word 0x5000.
    Inv,
    /// From 0x5010 on: a general register.
    Eqz,
    /// From 0x5100 on: a pair of general registers.
    Eq,
    /// From 0x5200 on: a pair of general registers.
    Gt,
    /// From 0x5300 on: a pair of general registers.
    Gteq,

    // Branching
    /// From 0x6000 on: a byte.
    Jmpoff,
    /// From 0x6100 on: a byte.
    Cjmpoff,
    /// From 0x6300 on: a general register.
    Cjmp,
    /// From 0x6210 on: a general register.
    Call,
    /// The word 0x6218.
    Ret,
}

/// The opcode of the word with the upper byte `hi` and the lower byte `lo`.
// The ranges of putl and puth are tested before any other, since most words of a long rule are
// theirs: one test tells both from the rest. The two bytes are what the ranges match, and so are
// two parameters: a struct of the two would be taken apart in each function.
pub fn opcode(hi: u8, lo: u8) -> InstructionOpcode
    ensures { result ≡ opcode_of hi lo }
{
    match hi {
        0x10..=0x1F => match hi {
            0x10..=0x17 => InstructionOpcode::Putl,
            _ => InstructionOpcode::Puth,
        },
        _ => other(hi, lo),
    }
}

// Every upper byte but those of putl and puth. Its ranges are halved, since a match on many single
// values becomes a jump through a table, which costs more in a long irregular program
// (docs/PERFORMANCE.md); two or three values do not.
fn other(hi: u8, lo: u8) -> InstructionOpcode
    requires { (hi < 0x10) ⊎ (0x20 ≤ hi) }
    ensures { result ≡ opcode_of hi lo }
{
    match hi {
        0x00..=0x4F => match hi {
            0x00..=0x3F => match hi {
                0x00..=0x21 => match hi {
                    0x00 => nop(lo),
                    0x20 => memory(lo),
                    0x21 => moves(lo),
                    _ => InstructionOpcode::Undecodable,
                },
                _ => stack(hi, lo),
            },
            _ => match hi {
                0x40..=0x47 => logic(hi, lo),
                _ => arithmetic(hi, lo),
            },
        },
        _ => match hi {
            0x50..=0x5F => comparison(hi, lo),
            _ => branching_or_hlt(hi, lo),
        },
    }
}

// Upper byte 0x00: nop.
fn nop(lo: u8) -> InstructionOpcode
    ensures { result ≡ opcode_of 0x00 lo }
{
    match lo {
        0x00 => InstructionOpcode::Nop,
        _ => InstructionOpcode::Undecodable,
    }
}

// Upper byte 0x20: read and dread, write and dwrite.
fn memory(lo: u8) -> InstructionOpcode
    ensures { result ≡ memory_of lo }
{
    match lo {
        0x00..=0x7F => general_or_decimal(lo, InstructionOpcode::Read, InstructionOpcode::DRead),
        _ => general_or_decimal(lo, InstructionOpcode::Write, InstructionOpcode::DWrite),
    }
}

// Upper byte 0x21: mov, dmov, movso, movsi, spadd.
fn moves(lo: u8) -> InstructionOpcode
    ensures { result ≡ moves_of lo }
{
    match lo {
        0x00..=0x3F => general_or_decimal(lo, InstructionOpcode::Mov, InstructionOpcode::DMov),
        0x40..=0x7F => general(lo, InstructionOpcode::Mov),
        0x80..=0xBF => general(lo, InstructionOpcode::Movso),
        0xD8..=0xDF => InstructionOpcode::Spadd,
        _ => general(lo, InstructionOpcode::Movsi),
    }
}

// Upper bytes 0x22 to 0x3F: spinc and spdec, push and pop, spread and spwrite.
fn stack(hi: u8, lo: u8) -> InstructionOpcode
    requires { (0x22 ≤ hi) × (hi < 0x40) }
    ensures { result ≡ opcode_of hi lo }
{
    match hi {
        0x22 => pointer(lo),
        0x23 => push_or_pop(lo),
        0x30 => slots(lo),
        _ => InstructionOpcode::Undecodable,
    }
}

// Upper byte 0x22: spinc, spdec.
fn pointer(lo: u8) -> InstructionOpcode
    ensures { result ≡ pointer_of lo }
{
    match lo {
        0xD0 => InstructionOpcode::Spinc,
        0xD1 => InstructionOpcode::Spdec,
        _ => InstructionOpcode::Undecodable,
    }
}

// Upper byte 0x23: push, pop, by the lower byte without its register.
fn push_or_pop(lo: u8) -> InstructionOpcode
    ensures { result ≡ stack_of lo }
{
    match lo / 8 {
        0x1A => InstructionOpcode::Push,
        0x1B => InstructionOpcode::Pop,
        _ => InstructionOpcode::Undecodable,
    }
}

// Upper byte 0x30: spread, spwrite.
fn slots(lo: u8) -> InstructionOpcode
    ensures { result ≡ slots_of lo }
{
    match lo {
        0x00..=0x7F => InstructionOpcode::Spread,
        _ => InstructionOpcode::Spwrite,
    }
}

// Upper bytes 0x40 to 0x47, bit manipulation: not, and, booland, or, xor, shl, shr, bitset.
fn logic(hi: u8, lo: u8) -> InstructionOpcode
    requires { (0x40 ≤ hi) × (hi < 0x48) }
    ensures { result ≡ opcode_of hi lo }
{
    match hi {
        0x40..=0x43 => match hi {
            0x40 => single(lo, InstructionOpcode::Not),
            0x41 => ands(lo),
            0x42 => paired(lo, InstructionOpcode::Or),
            _ => paired(lo, InstructionOpcode::Xor),
        },
        _ => match hi {
            0x44 => paired(lo, InstructionOpcode::Shl),
            0x45 => paired(lo, InstructionOpcode::Shr),
            0x47 => paired(lo, InstructionOpcode::Bitset),
            _ => InstructionOpcode::Undecodable,
        },
    }
}

// Upper byte 0x41: and, booland.
fn ands(lo: u8) -> InstructionOpcode
    ensures { result ≡ ands_of lo }
{
    match lo {
        0x00..=0x7F => general(lo, InstructionOpcode::And),
        _ => general(lo, InstructionOpcode::Booland),
    }
}

// Upper bytes 0x48 to 0x4F, general-purpose arithmetic: neg, inc, dec, add, sub, mul.
fn arithmetic(hi: u8, lo: u8) -> InstructionOpcode
    requires { (0x48 ≤ hi) × (hi < 0x50) }
    ensures { result ≡ opcode_of hi lo }
{
    match hi {
        0x48..=0x49 => match hi {
            0x48 => unary(lo),
            _ => paired(lo, InstructionOpcode::Add),
        },
        _ => match hi {
            0x4A => paired(lo, InstructionOpcode::Sub),
            0x4B => paired(lo, InstructionOpcode::Mul),
            _ => InstructionOpcode::Undecodable,
        },
    }
}

// Upper byte 0x48: neg, inc, dec.
fn unary(lo: u8) -> InstructionOpcode
    ensures { result ≡ unary_of lo }
{
    match lo {
        0x00..=0x07 => InstructionOpcode::Neg,
        0x10..=0x17 => InstructionOpcode::Inc,
        0x20..=0x27 => InstructionOpcode::Dec,
        _ => InstructionOpcode::Undecodable,
    }
}

// Upper bytes 0x50 to 0x5F, comparison: inv, eqz, eq, gt, gteq.
fn comparison(hi: u8, lo: u8) -> InstructionOpcode
    requires { (0x50 ≤ hi) × (hi < 0x60) }
    ensures { result ≡ opcode_of hi lo }
{
    match hi {
        0x50..=0x51 => match hi {
            0x50 => zero(lo),
            _ => paired(lo, InstructionOpcode::Eq),
        },
        _ => match hi {
            0x52 => paired(lo, InstructionOpcode::Gt),
            0x53 => paired(lo, InstructionOpcode::Gteq),
            _ => InstructionOpcode::Undecodable,
        },
    }
}

// Upper byte 0x50: inv, eqz. The lower bytes below 8 are apart, so that the compiler leads eqz
// straight to its instruction (docs/PERFORMANCE.md).
fn zero(lo: u8) -> InstructionOpcode
    ensures { result ≡ zero_of lo }
{
    match lo {
        0x00..=0x07 => match lo {
            0x00 => InstructionOpcode::Inv,
            _ => InstructionOpcode::Undecodable,
        },
        0x10..=0x17 => InstructionOpcode::Eqz,
        _ => InstructionOpcode::Undecodable,
    }
}

// Upper bytes from 0x60 on, branching and hlt: jmpoff, cjmpoff, call, ret, cjmp, hlt.
fn branching_or_hlt(hi: u8, lo: u8) -> InstructionOpcode
    requires { 0x60 ≤ hi }
    ensures { result ≡ opcode_of hi lo }
{
    match hi {
        0x60..=0x61 => match hi {
            0x60 => InstructionOpcode::Jmpoff,
            _ => InstructionOpcode::Cjmpoff,
        },
        _ => match hi {
            0x62 => calls(lo),
            0x63 => single(lo, InstructionOpcode::Cjmp),
            0xFF => match lo {
                0xFF => InstructionOpcode::Hlt,
                _ => InstructionOpcode::Undecodable,
            },
            _ => InstructionOpcode::Undecodable,
        },
    }
}

// Upper byte 0x62: call, ret. The lower bytes of ret's eight are apart, as those of inv are.
fn calls(lo: u8) -> InstructionOpcode
    ensures { result ≡ calls_of lo }
{
    match lo {
        0x10..=0x17 => InstructionOpcode::Call,
        0x18..=0x1F => match lo {
            0x18 => InstructionOpcode::Ret,
            _ => InstructionOpcode::Undecodable,
        },
        _ => InstructionOpcode::Undecodable,
    }
}

// The next four stay apart: one function with the bits as a const parameter would need laws of the
// masks at most calls, in more text.

// A general register in bits 2..0, and nothing else: 00000qqq.
fn single(lo: u8, opcode: InstructionOpcode) -> InstructionOpcode
    ensures { result ≡ single_of opcode lo }
{
    match lo {
        0x00..=0x07 => opcode,
        _ => InstructionOpcode::Undecodable,
    }
}

// General registers in bits 6..4 and 2..0, 0ppp0qqq. One test for both bits between them, so that
// the compiler leads each opcode straight to its instruction (docs/PERFORMANCE.md).
#[tactic(auto, using(crate::proofs::Masks::uppers))]
fn paired(lo: u8, opcode: InstructionOpcode) -> InstructionOpcode
    ensures { result ≡ paired_of opcode lo }
{
    match lo & 0x88 {
        0x00 => opcode,
        _ => InstructionOpcode::Undecodable,
    }
}

// A general register in the low four bits: 0qqq.
fn general(lo: u8, opcode: InstructionOpcode) -> InstructionOpcode
    ensures { result ≡ general_of opcode lo }
{
    general_or_decimal(lo, opcode, InstructionOpcode::Undecodable)
}

// A general or a decimal register in the low four bits: 0qqq, 10dd.
fn general_or_decimal(
    lo: u8,
    opcode: InstructionOpcode,
    decimal: InstructionOpcode,
) -> InstructionOpcode
    ensures { result ≡ general_or_decimal_of opcode decimal lo }
{
    match lo % 16 {
        0x0..=0x7 => opcode,
        0x8..=0xB => decimal,
        _ => InstructionOpcode::Undecodable,
    }
}
