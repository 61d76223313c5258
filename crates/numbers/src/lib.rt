//! The numbers of instructions, as hosts have them: of the 43 kinds in the order of the enum, and
//! of the operands. specs/Instruction.antt has the table, and the claim that these numbers encode
//! to the word of the instruction (docs/MACHINE.md, Instructions).
#![tactic(auto)]

ghost use Rattle.std.specs.Prelude.{◌≡◌};
ghost use Rattle.std.specs.Option.{option_zip};
ghost use Rattle.instructions.specs.Reg.{register_of};
ghost use Rattle.numbers.specs.Instruction.{numbers, numbers_of, packed, instruction_of, NumbersEncode};

use instructions::{Instruction, Register};

// The number of a register.
fn number<R: Register>(reg: R) -> u8
    ensures { result ≡ R.number reg }
{
    reg.encode() as u8
}

// The register of a number, and those of two, if there are such.
fn register<R: Register>(number: u8) -> Option<R>
    ensures { result ≡ register_of R.COUNT R.at number }
{
    R::decode(number as u16)
}

fn registers<P: Register, Q: Register>(first: u8, second: u8) -> Option<(P, Q)>
    ensures { result ≡ option_zip (register_of P.COUNT P.at first) (register_of Q.COUNT Q.at second) }
{
    register(first).zip(register(second))
}

// A kind and two operands are three numbers everywhere, as hosts have them: a struct of the three
// would be taken apart at once.
fn numbers(kind: u8, first: u8, second: u8) -> u32
    ensures { result ≡ packed (numbers kind first second) }
{
    kind as u32 * 0x10000 + first as u32 * 0x100 + second as u32
}

// The same of two registers.
fn operands<P: Register, Q: Register>(kind: u8, first: P, second: Q) -> u32
    ensures { result ≡ packed (numbers kind (P.number first) (Q.number second)) }
{
    numbers(kind, number(first), number(second))
}

/// The numbers of an instruction: its kind in bits 23..16, its first operand in bits 15..8 and its
/// second in bits 7..0, 0 where there is none. The bits above are 0.
pub fn pack(ins: Instruction) -> u32
    ensures { result ≡ packed (numbers_of ins) }
{
    match ins {
        // Core
        Instruction::Nop => numbers(0, 0, 0),
        Instruction::Hlt => numbers(1, 0, 0),
        Instruction::Mov { dest, src } => operands(2, dest, src),
        Instruction::DMov { dest, src } => operands(3, dest, src),

        // Immediate loads
        Instruction::Putl { reg, imm } => numbers(4, number(reg), imm),
        Instruction::Puth { reg, imm } => numbers(5, number(reg), imm),

        // Memory
        Instruction::Read { val, addr } => operands(6, val, addr),
        Instruction::Write { addr, val } => operands(7, addr, val),
        Instruction::Spread { val, offset } => numbers(8, number(val), offset),
        Instruction::Spwrite { offset, val } => numbers(9, offset, number(val)),
        Instruction::DRead { val, addr } => operands(10, val, addr),
        Instruction::DWrite { addr, val } => operands(11, addr, val),
        Instruction::Push { val } => numbers(12, number(val), 0),
        Instruction::Pop { val } => numbers(13, number(val), 0),

        // Special-purpose registers
        Instruction::Movso { dest, src } => operands(14, dest, src),
        Instruction::Movsi { dest, src } => operands(15, dest, src),
        Instruction::Spadd { val } => numbers(16, number(val), 0),
        Instruction::Spinc => numbers(17, 0, 0),
        Instruction::Spdec => numbers(18, 0, 0),

        // Bit manipulation
        Instruction::Not { reg } => numbers(19, number(reg), 0),
        Instruction::And { reg, val } => operands(20, reg, val),
        Instruction::Booland { reg, val } => operands(21, reg, val),
        Instruction::Or { reg, val } => operands(22, reg, val),
        Instruction::Xor { reg, val } => operands(23, reg, val),
        Instruction::Shl { reg, val } => operands(24, reg, val),
        Instruction::Shr { reg, val } => operands(25, reg, val),
        Instruction::Bitset { reg, idx } => operands(26, reg, idx),

        // General-purpose arithmetic
        Instruction::Neg { reg } => numbers(27, number(reg), 0),
        Instruction::Inc { reg } => numbers(28, number(reg), 0),
        Instruction::Dec { reg } => numbers(29, number(reg), 0),
        Instruction::Add { reg, val } => operands(30, reg, val),
        Instruction::Sub { reg, val } => operands(31, reg, val),
        Instruction::Mul { reg, val } => operands(32, reg, val),

        // Comparison
        Instruction::Inv => numbers(33, 0, 0),
        Instruction::Eqz { reg } => numbers(34, number(reg), 0),
        Instruction::Eq { left, right } => operands(35, left, right),
        Instruction::Gt { left, right } => operands(36, left, right),
        Instruction::Gteq { left, right } => operands(37, left, right),

        // Branching
        Instruction::Jmpoff { offset } => numbers(38, offset, 0),
        Instruction::Cjmpoff { offset } => numbers(39, offset, 0),
        Instruction::Cjmp { src } => numbers(40, number(src), 0),
        Instruction::Call { src } => numbers(41, number(src), 0),
        Instruction::Ret => numbers(42, 0, 0),
    }
}

/// The instruction of these numbers, or none where the kind is above 42 or an operand that names a
/// register has no register's number. An operand that the kind doesn't have is not looked at.
pub fn instruction(kind: u8, first: u8, second: u8) -> Option<Instruction>
    ensures { result ≡ instruction_of kind first second }
{
    let ins = match kind {
        // Core
        0 => Instruction::Nop,
        1 => Instruction::Hlt,
        2 => {
            let (dest, src) = registers(first, second)?;
            Instruction::Mov { dest, src }
        }
        3 => {
            let (dest, src) = registers(first, second)?;
            Instruction::DMov { dest, src }
        }

        // Immediate loads
        4 => Instruction::Putl {
            reg: register(first)?,
            imm: second,
        },
        5 => Instruction::Puth {
            reg: register(first)?,
            imm: second,
        },

        // Memory
        6 => {
            let (val, addr) = registers(first, second)?;
            Instruction::Read { val, addr }
        }
        7 => {
            let (addr, val) = registers(first, second)?;
            Instruction::Write { addr, val }
        }
        8 => Instruction::Spread {
            val: register(first)?,
            offset: second,
        },
        9 => Instruction::Spwrite {
            offset: first,
            val: register(second)?,
        },
        10 => {
            let (val, addr) = registers(first, second)?;
            Instruction::DRead { val, addr }
        }
        11 => {
            let (addr, val) = registers(first, second)?;
            Instruction::DWrite { addr, val }
        }
        12 => Instruction::Push {
            val: register(first)?,
        },
        13 => Instruction::Pop {
            val: register(first)?,
        },

        // Special-purpose registers
        14 => {
            let (dest, src) = registers(first, second)?;
            Instruction::Movso { dest, src }
        }
        15 => {
            let (dest, src) = registers(first, second)?;
            Instruction::Movsi { dest, src }
        }
        16 => Instruction::Spadd {
            val: register(first)?,
        },
        17 => Instruction::Spinc,
        18 => Instruction::Spdec,

        // Bit manipulation
        19 => Instruction::Not {
            reg: register(first)?,
        },
        20 => {
            let (reg, val) = registers(first, second)?;
            Instruction::And { reg, val }
        }
        21 => {
            let (reg, val) = registers(first, second)?;
            Instruction::Booland { reg, val }
        }
        22 => {
            let (reg, val) = registers(first, second)?;
            Instruction::Or { reg, val }
        }
        23 => {
            let (reg, val) = registers(first, second)?;
            Instruction::Xor { reg, val }
        }
        24 => {
            let (reg, val) = registers(first, second)?;
            Instruction::Shl { reg, val }
        }
        25 => {
            let (reg, val) = registers(first, second)?;
            Instruction::Shr { reg, val }
        }
        26 => {
            let (reg, idx) = registers(first, second)?;
            Instruction::Bitset { reg, idx }
        }

        // General-purpose arithmetic
        27 => Instruction::Neg {
            reg: register(first)?,
        },
        28 => Instruction::Inc {
            reg: register(first)?,
        },
        29 => Instruction::Dec {
            reg: register(first)?,
        },
        30 => {
            let (reg, val) = registers(first, second)?;
            Instruction::Add { reg, val }
        }
        31 => {
            let (reg, val) = registers(first, second)?;
            Instruction::Sub { reg, val }
        }
        32 => {
            let (reg, val) = registers(first, second)?;
            Instruction::Mul { reg, val }
        }

        // Comparison
        33 => Instruction::Inv,
        34 => Instruction::Eqz {
            reg: register(first)?,
        },
        35 => {
            let (left, right) = registers(first, second)?;
            Instruction::Eq { left, right }
        }
        36 => {
            let (left, right) = registers(first, second)?;
            Instruction::Gt { left, right }
        }
        37 => {
            let (left, right) = registers(first, second)?;
            Instruction::Gteq { left, right }
        }

        // Branching
        38 => Instruction::Jmpoff { offset: first },
        39 => Instruction::Cjmpoff { offset: first },
        40 => Instruction::Cjmp {
            src: register(first)?,
        },
        41 => Instruction::Call {
            src: register(first)?,
        },
        42 => Instruction::Ret,
        _ => return None,
    };
    Some(ins)
}

/// The numbers of an instruction encode to its word.
#[tactic(auto, using(crate::proofs::Laws::numbers_encode))]
pub fn numbers_name_instructions()
    ensures numbers { NumbersEncode }
{}
