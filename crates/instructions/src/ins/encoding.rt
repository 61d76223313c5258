//! The words of the instructions (docs/MACHINE.md, Instructions).
ghost use Rattle.std.specs.Prelude.{◌≡◌, ◌+◌, ◌*◌};
ghost use Rattle.instructions.specs.Bounded.{Bounded};
ghost use Rattle.instructions.specs.Encoding.{encode_of, place, slot_of, immediate_of};
ghost use Rattle.instructions.specs.Decoding.{operands_of, decode_of};

use crate::ins::Instruction;
use crate::reg::{DR, GPR, Register, SPR};
use opcode::InstructionOpcode;

/// What decoding answers for a word that stands for no instruction: number 10 of docs/NUMBERS.md.
#[derive(Clone, Copy, Debug, PartialEq, Eq)]
pub struct Undecodable {
    /// That word.
    pub word: u16,
}

impl Instruction {
    /// The word of the instruction. It never refuses: of a spread or spwrite offset above 15 it
    /// keeps the low four bits.
    pub fn encode(self) -> u16
        ensures { result ≡ encode_of self }
    {
        match self {
            // Core
            Instruction::Nop => 0x0000,
            Instruction::Hlt => 0xFFFF,
            Instruction::Mov { dest, src } => 0x2100 + pair(src, dest),
            Instruction::DMov { dest, src } => 0x2108 + pair(src, dest),

            // Immediate loads
            Instruction::Putl { reg, imm } => 0x1000 + immediate(reg, imm),
            Instruction::Puth { reg, imm } => 0x1800 + immediate(reg, imm),

            // Memory
            Instruction::Read { val, addr } => 0x2000 + pair(addr, val),
            Instruction::Write { addr, val } => 0x2080 + pair(addr, val),
            Instruction::Spread { val, offset } => 0x3000 + slot(val, offset),
            Instruction::Spwrite { offset, val } => 0x3080 + slot(val, offset),
            Instruction::DRead { val, addr } => 0x2008 + pair(addr, val),
            Instruction::DWrite { addr, val } => 0x2088 + pair(addr, val),
            Instruction::Push { val } => 0x23D0 + val.encode(),
            Instruction::Pop { val } => 0x23D8 + val.encode(),

            // Special-purpose registers
            Instruction::Movso { dest, src } => 0x2180 + pair(src, dest),
            Instruction::Movsi { dest, src } => 0x21C0 + pair(dest, src),
            Instruction::Spadd { val } => 0x21D8 + val.encode(),
            Instruction::Spinc => 0x22D0,
            Instruction::Spdec => 0x22D1,

            // Bit manipulation
            Instruction::Not { reg } => 0x4000 + reg.encode(),
            Instruction::And { reg, val } => 0x4100 + pair(val, reg),
            Instruction::Booland { reg, val } => 0x4180 + pair(val, reg),
            Instruction::Or { reg, val } => 0x4200 + pair(val, reg),
            Instruction::Xor { reg, val } => 0x4300 + pair(val, reg),
            Instruction::Shl { reg, val } => 0x4400 + pair(val, reg),
            Instruction::Shr { reg, val } => 0x4500 + pair(val, reg),
            Instruction::Bitset { reg, idx } => 0x4700 + pair(idx, reg),

            // General-purpose arithmetic
            Instruction::Neg { reg } => 0x4800 + reg.encode(),
            Instruction::Inc { reg } => 0x4810 + reg.encode(),
            Instruction::Dec { reg } => 0x4820 + reg.encode(),
            Instruction::Add { reg, val } => 0x4900 + pair(val, reg),
            Instruction::Sub { reg, val } => 0x4A00 + pair(val, reg),
            Instruction::Mul { reg, val } => 0x4B00 + pair(val, reg),

            // Comparison
            Instruction::Inv => 0x5000,
            Instruction::Eqz { reg } => 0x5010 + reg.encode(),
            Instruction::Eq { left, right } => 0x5100 + pair(left, right),
            Instruction::Gt { left, right } => 0x5200 + pair(left, right),
            Instruction::Gteq { left, right } => 0x5300 + pair(left, right),

            // Branching
            Instruction::Jmpoff { offset } => 0x6000 + offset as u16,
            Instruction::Cjmpoff { offset } => 0x6100 + offset as u16,
            Instruction::Cjmp { src } => 0x6300 + src.encode(),
            Instruction::Call { src } => 0x6210 + src.encode(),
            Instruction::Ret => 0x6218,
        }
    }

    /// The instruction that the word stands for. Encoding it gives the same word.
    #[tactic(auto, unfolding(crate::specs::Decoding::decode_of))]
    pub fn decode(bits: u16) -> Result<Instruction, Undecodable>
        ensures { result ≡ decode_of bits }
    {
        let hi = (bits / 256) as u8;
        let lo = (bits % 256) as u8;
        with_operands(opcode::opcode(hi, lo), bits, hi, lo)
    }
}

// Two registers at their places: p from bit 4 on, q from bit 0 on.
fn pair<P: Register, Q: Register>(p: P, q: Q) -> u16
    ensures { Bounded result (place (P.number p) (Q.number q)) (P.COUNT * 16 + Q.COUNT) }
{
    p.encode() * 16 + q.encode()
}

// A register in bits 6..4, and the low four bits of a stack offset in bits 3..0.
fn slot(val: GPR, offset: u8) -> u16
    ensures { Bounded result (slot_of val offset) 128 }
{
    val.encode() * 16 + (offset % 16) as u16
}

// A register in bits 10..8, and a byte in bits 7..0.
fn immediate(reg: GPR, imm: u8) -> u16
    ensures { Bounded result (immediate_of reg imm) 2048 }
{
    reg.encode() * 256 + imm as u16
}

// The instruction with this opcode, with the operands that the word's two bytes hold.
fn with_operands(
    opcode: InstructionOpcode,
    bits: u16,
    hi: u8,
    lo: u8,
) -> Result<Instruction, Undecodable>
    ensures { result ≡ operands_of opcode bits hi lo }
{
    let p = GPR::from_low_bits(lo / 16);
    let q = GPR::from_low_bits(lo);
    let ins = match opcode {
        InstructionOpcode::Undecodable => return Err(Undecodable { word: bits }),

        // Core
        InstructionOpcode::Nop => Instruction::Nop,
        InstructionOpcode::Hlt => Instruction::Hlt,
        InstructionOpcode::Mov => Instruction::Mov { dest: q, src: p },
        InstructionOpcode::DMov => Instruction::DMov {
            dest: DR::from_low_bits(lo),
            src: DR::from_low_bits(lo / 16),
        },

        // Immediate loads
        InstructionOpcode::Putl => Instruction::Putl {
            reg: GPR::from_low_bits(hi),
            imm: lo,
        },
        InstructionOpcode::Puth => Instruction::Puth {
            reg: GPR::from_low_bits(hi),
            imm: lo,
        },

        // Memory
        InstructionOpcode::Read => Instruction::Read { val: q, addr: p },
        InstructionOpcode::Write => Instruction::Write { addr: p, val: q },
        InstructionOpcode::Spread => Instruction::Spread {
            val: p,
            offset: lo % 16,
        },
        InstructionOpcode::Spwrite => Instruction::Spwrite {
            offset: lo % 16,
            val: p,
        },
        InstructionOpcode::DRead => Instruction::DRead {
            val: DR::from_low_bits(lo),
            addr: p,
        },
        InstructionOpcode::DWrite => Instruction::DWrite {
            addr: p,
            val: DR::from_low_bits(lo),
        },
        InstructionOpcode::Push => Instruction::Push { val: q },
        InstructionOpcode::Pop => Instruction::Pop { val: q },

        // Special-purpose registers
        InstructionOpcode::Movso => Instruction::Movso {
            dest: q,
            src: SPR::from_low_bits(lo / 16),
        },
        InstructionOpcode::Movsi => Instruction::Movsi {
            dest: SPR::from_low_bits(lo / 16),
            src: q,
        },
        InstructionOpcode::Spadd => Instruction::Spadd { val: q },
        InstructionOpcode::Spinc => Instruction::Spinc,
        InstructionOpcode::Spdec => Instruction::Spdec,

        // Bit manipulation
        InstructionOpcode::Not => Instruction::Not { reg: q },
        InstructionOpcode::And => Instruction::And { reg: q, val: p },
        InstructionOpcode::Booland => Instruction::Booland { reg: q, val: p },
        InstructionOpcode::Or => Instruction::Or { reg: q, val: p },
        InstructionOpcode::Xor => Instruction::Xor { reg: q, val: p },
        InstructionOpcode::Shl => Instruction::Shl { reg: q, val: p },
        InstructionOpcode::Shr => Instruction::Shr { reg: q, val: p },
        InstructionOpcode::Bitset => Instruction::Bitset { reg: q, idx: p },

        // General-purpose arithmetic
        InstructionOpcode::Neg => Instruction::Neg { reg: q },
        InstructionOpcode::Inc => Instruction::Inc { reg: q },
        InstructionOpcode::Dec => Instruction::Dec { reg: q },
        InstructionOpcode::Add => Instruction::Add { reg: q, val: p },
        InstructionOpcode::Sub => Instruction::Sub { reg: q, val: p },
        InstructionOpcode::Mul => Instruction::Mul { reg: q, val: p },

        // Comparison
        InstructionOpcode::Inv => Instruction::Inv,
        InstructionOpcode::Eqz => Instruction::Eqz { reg: q },
        InstructionOpcode::Eq => Instruction::Eq { left: p, right: q },
        InstructionOpcode::Gt => Instruction::Gt { left: p, right: q },
        InstructionOpcode::Gteq => Instruction::Gteq { left: p, right: q },

        // Branching
        InstructionOpcode::Jmpoff => Instruction::Jmpoff { offset: lo },
        InstructionOpcode::Cjmpoff => Instruction::Cjmpoff { offset: lo },
        InstructionOpcode::Cjmp => Instruction::Cjmp { src: q },
        InstructionOpcode::Call => Instruction::Call { src: q },
        InstructionOpcode::Ret => Instruction::Ret,
    };
    Ok(ins)
}
