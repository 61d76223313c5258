//! What one instruction does, in each of two editions, on plain numbers: no core record and no
//! memory. `execute` (in `effect`) is the table of effects, specs/Execute.antt; `word` and `flags`
//! have its arithmetic and the bits of ef (docs/MACHINE.md, Instructions and Editions).
#![tactic(auto)]

mod edition;
mod effect;
mod flags;
mod word;

pub use edition::Edition;
pub use effect::{Effect, execute, read_gpr, read_spr};
pub use flags::{is_cond_set, is_halted, with_cond};
pub use word::{add, sub};
