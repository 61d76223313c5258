//! The instruction set of the Delta Null core: the registers (`reg`), the 43 instructions (`ins`),
//! and the words that stand for them (`ins::encoding`), as docs/MACHINE.md has them under Registers
//! and Instructions. `Instruction::encode` is the table of words, specs/Encoding.antt.
#![tactic(auto)]

mod ins;
mod reg;

pub use ins::Instruction;
pub use ins::encoding::Undecodable;
pub use reg::{DR, GPR, Register, SPR};
