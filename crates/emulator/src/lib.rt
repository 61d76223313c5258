//! The machine: the core record, one step, and the run, with a log or without, with rights or
//! without (docs/MACHINE.md, Registers, One step, The run). `core_record` has the calls, `check`
//! their host tests, `cycle` the one loop under them, over whatever is read and written, and `lent`
//! the step on a core that is lent. specs/Machine.antt defines what each gives and leaves.
#![tactic(auto)]

mod check;
mod core_record;
mod cycle;
mod lent;

pub use check::check_edition;
pub use core_record::{Answer, Core, LoggedRun, Run, Step, no_run};
pub use cycle::{End, turns};
pub use lent::step_lent;
