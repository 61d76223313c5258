//! Memory with its marks, the rights over its pages and the log of its reads: what an access comes
//! to (docs/MACHINE.md, Memory and marks, Rights, Logs and replays), and why an access or a call is
//! refused (docs/NUMBERS.md). `store` says what a run reads and writes, `memory` and `logging` are
//! lent memory without and with a log, and `stop` and `refusal` have the numbers.
#![tactic(auto)]

mod log;
mod logging;
mod memory;
mod refusal;
mod rights;
mod stop;
mod store;

pub use log::{Purpose, address_word};
pub use logging::LoggedMemory;
pub use memory::{MarkedMemory, place};
pub use refusal::{LogEnd, Refusal, check_length};
pub use rights::{Right, Rights, check_rights};
pub use stop::{Fault, Stop};
pub use store::Store;
