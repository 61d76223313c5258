//! The instructions, in the categories of the instruction set.
use crate::reg::{DR, GPR, SPR};

/// The words of the instructions.
pub mod encoding;

/// An instruction with its operands (docs/MACHINE.md, Instructions). What each does is a row of the
/// table `execute_of`, crates/execute/specs/Execute.antt; a line here says it in short. In these
/// lines a register operand stands for the word in it, and a result goes to `reg` where nothing
/// else is said.
// `Debug` and `PartialEq` are not derived: their proofs take longer than those of the whole crate.
#[derive(Clone, Copy)]
pub enum Instruction {
    // Core
    /// Does nothing.
    Nop,
    /// Sets the halt bit of ef.
    Hlt,
    /// Copies `src` to `dest`.
    Mov { dest: GPR, src: GPR },
    /// Names two decimal registers. Executing it is stop 12.
    DMov { dest: DR, src: DR },

    // Immediate loads
    /// Replaces the low byte of `reg` by `imm`.
    Putl { reg: GPR, imm: u8 },
    /// Replaces the high byte of `reg` by `imm`.
    Puth { reg: GPR, imm: u8 },

    // Memory
    /// Copies the word at the address `addr` to `val`.
    Read { val: GPR, addr: GPR },
    /// Copies `val` to the address `addr`.
    Write { addr: GPR, val: GPR },
    /// Copies the word at sp plus `offset` to `val`. A word holds the low four bits of the offset.
    Spread { val: GPR, offset: u8 },
    /// Copies `val` to sp plus `offset`. A word holds the low four bits of the offset.
    Spwrite { offset: u8, val: GPR },
    /// Names a decimal register, `val`, and the address `addr`. Executing it is stop 12.
    DRead { val: DR, addr: GPR },
    /// Names the address `addr` and a decimal register, `val`. Executing it is stop 12.
    DWrite { addr: GPR, val: DR },
    /// Takes 1 from sp, then copies `val` to the address sp.
    Push { val: GPR },
    /// Copies the word at the address sp to `val`, then adds 1 to sp.
    Pop { val: GPR },

    // Special-purpose registers
    /// Copies a special register, `src`, to `dest`: of ip the one that is already advanced.
    Movso { dest: GPR, src: SPR },
    /// Copies `src` to a special register, `dest`: to ef all 16 bits, halt included.
    Movsi { dest: SPR, src: GPR },
    /// Adds `val` to sp.
    Spadd { val: GPR },
    /// Adds 1 to sp.
    Spinc,
    /// Takes 1 from sp.
    Spdec,

    // Bit manipulation
    /// Inverts each bit of `reg`.
    Not { reg: GPR },
    /// The bits that `reg` and `val` both have go to `reg`.
    And { reg: GPR, val: GPR },
    /// Puts 1 into `reg` if `reg` and `val` are both above 0, else 0.
    Booland { reg: GPR, val: GPR },
    /// The bits that `reg` or `val` has go to `reg`.
    Or { reg: GPR, val: GPR },
    /// The bits in which `reg` and `val` differ go to `reg`.
    Xor { reg: GPR, val: GPR },
    /// Moves the bits of `reg` up by the amount `val`. From 16 on the edition decides.
    Shl { reg: GPR, val: GPR },
    /// Moves the bits of `reg` down by the amount `val`. From 16 on the edition decides.
    Shr { reg: GPR, val: GPR },
    /// The bit of `reg` with the index `idx` becomes the condition. From 16 on the edition decides.
    Bitset { reg: GPR, idx: GPR },

    // General-purpose arithmetic
    /// Takes `reg` from 65,536, modulo 65,536. Of 0x8000 the edition decides.
    Neg { reg: GPR },
    /// Adds 1 to `reg`.
    Inc { reg: GPR },
    /// Takes 1 from `reg`.
    Dec { reg: GPR },
    /// Adds `val` to `reg`.
    Add { reg: GPR, val: GPR },
    /// Takes `val` from `reg`.
    Sub { reg: GPR, val: GPR },
    /// Multiplies `reg` by `val`, and keeps the low 16 bits.
    Mul { reg: GPR, val: GPR },

    // Comparison
    /// Flips the condition.
    Inv,
    /// The condition becomes whether `reg` is 0.
    Eqz { reg: GPR },
    /// The condition becomes whether `left` is equal to `right`.
    Eq { left: GPR, right: GPR },
    /// The condition becomes whether `left` is greater than `right`, both unsigned.
    Gt { left: GPR, right: GPR },
    /// The condition becomes whether `left` is greater than `right` or equal, both unsigned.
    Gteq { left: GPR, right: GPR },

    // Branching
    /// Adds `offset`, read as -128..127, to the ip that is already advanced.
    Jmpoff { offset: u8 },
    /// Does what `Jmpoff` does, if the condition holds.
    Cjmpoff { offset: u8 },
    /// Goes to the address `src`, if the condition holds.
    Cjmp { src: GPR },
    /// Copies the ip that is already advanced to rp, and goes to the address `src`.
    Call { src: GPR },
    /// Goes to the address rp.
    Ret,
}
