//! What an instruction asks for, in plain numbers: what becomes of the registers, and at most one
//! memory access, or a stop (docs/MACHINE.md, Instructions). The registers are given one by one, as
//! the core record stands above, in the emulator.
ghost use Rattle.std.specs.Prelude.{◌≡◌};
ghost use Rattle.execute.specs.Execute.{execute_of, jumped_of, to_spr};
ghost use Rattle.execute.specs.Registers.{registers, gpr_of, spr_of};

use crate::edition::Edition;
use crate::{flags, word};
use instructions::{GPR, Instruction, Register, SPR};

/// What an instruction does to a core, or the stop that it is.
// The stops stand among the rest: in a `Result`, forty of the forty-three rows would say `Ok`.
#[derive(Clone, Copy)]
pub enum Effect {
    /// Nothing changes.
    None,
    /// The word goes to the general register.
    Gpr(GPR, u16),
    /// The word goes to ip.
    Ip(u16),
    /// The word goes to rp.
    Rp(u16),
    /// The word goes to sp.
    Sp(u16),
    /// The word goes to ef, with all of its bits.
    Ef(u16),
    /// ip goes to rp, then the address to ip.
    Call(u16),
    /// The word at the address goes to a general register, then sp rises.
    Load {
        /// The address that is read. It may be out of range, or on a page without the right.
        address: u16,
        /// The register that gets the word.
        into: GPR,
        /// What is added to sp, modulo 65,536: 1 at a `pop`, else 0.
        raise: u16,
    },
    /// sp falls, then the word goes to the address.
    Store {
        /// The address that is written. It may be out of range, or on a page without the right.
        address: u16,
        /// The word that goes there.
        value: u16,
        /// What is taken from sp, modulo 65,536: 1 at a `push`, else 0. `address` is lowered
        /// already.
        lower: u16,
    },
    /// A decimal instruction, with its word: stop 12.
    Decimal(u16),
    /// A shift or a bit index of 16 or more, in the first edition, with that amount: stop 13.
    Amount(u16),
    /// The negation of 0x8000, in the first edition, with that word: stop 14.
    Negation(u16),
}

/// The effect of the instruction `ins`, whose word is `word`, in an edition, on a core whose ip is
/// already advanced. It changes nothing itself.
#[tactic(auto, unfolding(crate::specs::Execute::execute_of))]
pub fn execute(
    ins: Instruction,
    word: u16,
    edition: Edition,
    gprs: &[u16; 8],
    ip: u16,
    rp: u16,
    sp: u16,
    ef: u16,
) -> Effect
    ensures { result ≡ execute_of edition (registers gprs.now ip rp sp ef) ins word }
{
    match ins {
        // Core
        Instruction::Nop => Effect::None,
        Instruction::Hlt => Effect::Ef(flags::with_halt(ef)),
        Instruction::Mov { dest, src } => Effect::Gpr(dest, read_gpr(gprs, src)),
        Instruction::DMov { dest: _, src: _ } => Effect::Decimal(word),

        // Immediate Loads
        Instruction::Putl { reg, imm } => Effect::Gpr(
            reg,
            word::with_low(read_gpr(gprs, reg), imm),
        ),
        Instruction::Puth { reg, imm } => Effect::Gpr(
            reg,
            word::with_high(read_gpr(gprs, reg), imm),
        ),

        // Memory
        Instruction::Read { val, addr } => Effect::Load {
            address: read_gpr(gprs, addr),
            into: val,
            raise: 0,
        },
        Instruction::Write { addr, val } => Effect::Store {
            address: read_gpr(gprs, addr),
            value: read_gpr(gprs, val),
            lower: 0,
        },
        Instruction::Spread { val, offset } => Effect::Load {
            address: word::add(sp, offset as u16),
            into: val,
            raise: 0,
        },
        Instruction::Spwrite { offset, val } => Effect::Store {
            address: word::add(sp, offset as u16),
            value: read_gpr(gprs, val),
            lower: 0,
        },
        Instruction::DRead { val: _, addr: _ } => Effect::Decimal(word),
        Instruction::DWrite { addr: _, val: _ } => Effect::Decimal(word),
        Instruction::Push { val } => Effect::Store {
            address: word::sub(sp, 1),
            value: read_gpr(gprs, val),
            lower: 1,
        },
        Instruction::Pop { val } => Effect::Load {
            address: sp,
            into: val,
            raise: 1,
        },

        // Special-Purpose Registers
        Instruction::Movso { dest, src } => Effect::Gpr(dest, read_spr(src, ip, rp, sp, ef)),
        Instruction::Movsi { dest, src } => to_spr(dest, read_gpr(gprs, src)),
        Instruction::Spadd { val } => Effect::Sp(word::add(sp, read_gpr(gprs, val))),
        Instruction::Spinc => Effect::Sp(word::add(sp, 1)),
        Instruction::Spdec => Effect::Sp(word::sub(sp, 1)),

        // Bit Manipulation
        Instruction::Not { reg } => Effect::Gpr(reg, !read_gpr(gprs, reg)),
        Instruction::And { reg, val } => Effect::Gpr(
            reg,
            read_gpr(gprs, reg) & read_gpr(gprs, val),
        ),
        Instruction::Booland { reg, val } => Effect::Gpr(
            reg,
            word::bool_and(read_gpr(gprs, reg), read_gpr(gprs, val)),
        ),
        Instruction::Or { reg, val } => Effect::Gpr(reg, read_gpr(gprs, reg) | read_gpr(gprs, val)),
        Instruction::Xor { reg, val } => Effect::Gpr(
            reg,
            read_gpr(gprs, reg) ^ read_gpr(gprs, val),
        ),
        Instruction::Shl { reg, val } => {
            let amount = read_gpr(gprs, val);
            if amount < 16 {
                Effect::Gpr(reg, read_gpr(gprs, reg) << amount)
            } else if edition == Edition::First {
                Effect::Amount(amount)
            } else {
                Effect::Gpr(reg, 0)
            }
        }
        Instruction::Shr { reg, val } => {
            let amount = read_gpr(gprs, val);
            if amount < 16 {
                Effect::Gpr(reg, read_gpr(gprs, reg) >> amount)
            } else if edition == Edition::First {
                Effect::Amount(amount)
            } else {
                Effect::Gpr(reg, 0)
            }
        }
        Instruction::Bitset { reg, idx } => {
            let index = read_gpr(gprs, idx);
            if index < 16 {
                Effect::Gpr(
                    reg,
                    word::put_bit(read_gpr(gprs, reg), index, flags::is_cond_set(ef)),
                )
            } else if edition == Edition::First {
                Effect::Amount(index)
            } else {
                Effect::None
            }
        }

        // General-Purpose Arithmetic
        Instruction::Neg { reg } => {
            let value = read_gpr(gprs, reg);
            if value == 0x8000 && edition == Edition::First {
                Effect::Negation(value)
            } else {
                Effect::Gpr(reg, word::sub(0, value))
            }
        }
        Instruction::Inc { reg } => Effect::Gpr(reg, word::add(read_gpr(gprs, reg), 1)),
        Instruction::Dec { reg } => Effect::Gpr(reg, word::sub(read_gpr(gprs, reg), 1)),
        Instruction::Add { reg, val } => Effect::Gpr(
            reg,
            word::add(read_gpr(gprs, reg), read_gpr(gprs, val)),
        ),
        Instruction::Sub { reg, val } => Effect::Gpr(
            reg,
            word::sub(read_gpr(gprs, reg), read_gpr(gprs, val)),
        ),
        Instruction::Mul { reg, val } => Effect::Gpr(
            reg,
            word::wrapping_mul_u16(read_gpr(gprs, reg), read_gpr(gprs, val)),
        ),

        // Comparison
        Instruction::Inv => Effect::Ef(flags::with_cond(ef, !flags::is_cond_set(ef))),
        Instruction::Eqz { reg } => Effect::Ef(flags::with_cond(ef, read_gpr(gprs, reg) == 0)),
        Instruction::Eq { left, right } => Effect::Ef(flags::with_cond(
            ef,
            read_gpr(gprs, left) == read_gpr(gprs, right),
        )),
        Instruction::Gt { left, right } => Effect::Ef(flags::with_cond(
            ef,
            read_gpr(gprs, left) > read_gpr(gprs, right),
        )),
        Instruction::Gteq { left, right } => Effect::Ef(flags::with_cond(
            ef,
            read_gpr(gprs, left) >= read_gpr(gprs, right),
        )),

        // Branching
        Instruction::Jmpoff { offset } => Effect::Ip(jumped(ip, offset)),
        Instruction::Cjmpoff { offset } => {
            if flags::is_cond_set(ef) {
                Effect::Ip(jumped(ip, offset))
            } else {
                Effect::None
            }
        }
        Instruction::Cjmp { src } => {
            if flags::is_cond_set(ef) {
                Effect::Ip(read_gpr(gprs, src))
            } else {
                Effect::None
            }
        }
        Instruction::Call { src } => Effect::Call(read_gpr(gprs, src)),
        Instruction::Ret => Effect::Ip(rp),
    }
}

/// The word in a general register, of r0 to r7 in order.
pub fn read_gpr(gprs: &[u16; 8], reg: GPR) -> u16
    ensures { result ≡ gpr_of gprs.now reg }
{
    gprs[reg.encode() as usize]
}

/// The word in a special register, of the four.
pub fn read_spr(reg: SPR, ip: u16, rp: u16, sp: u16, ef: u16) -> u16
    ensures { result ≡ spr_of ip rp sp ef reg }
{
    match reg {
        SPR::IP => ip,
        SPR::RP => rp,
        SPR::SP => sp,
        SPR::EF => ef,
    }
}

// The effect that takes the word to a special register.
fn to_spr(reg: SPR, value: u16) -> Effect
    ensures { result ≡ to_spr reg value }
{
    match reg {
        SPR::IP => Effect::Ip(value),
        SPR::RP => Effect::Rp(value),
        SPR::SP => Effect::Sp(value),
        SPR::EF => Effect::Ef(value),
    }
}

// ip moved by a byte read as -128..127.
fn jumped(ip: u16, offset: u8) -> u16
    ensures { result ≡ jumped_of ip offset }
{
    word::add(ip, word::sign_extend_u8_to_u16(offset))
}
