//! How test programs print the end of a run.
#![tactic(auto)]

use emulator::End;
use memory::Fault;
use std::fmt;

/// An end as it is printed: `halted`, `limit`, `fault` with its number and value, `refused` with
/// its number, or `log` with the number of an end by the log.
#[derive(Drop)]
pub struct Shown(
    /// The end.
    pub End,
);

impl fmt::Display for Shown {
    fn fmt<W: fmt::Write>(&self, f: &mut fmt::Formatter<W>) -> fmt::Result {
        match self.0 {
            End::Halted => write!(f, "halted"),
            End::Limit => write!(f, "limit"),
            End::Fault(stop) => {
                let fault = Fault::from(stop);
                write!(f, "fault {} {}", fault.number, fault.value)
            }
            End::Refused(refusal) => write!(f, "refused {}", refusal.number()),
            End::Log(end) => write!(f, "log {}", end.number()),
        }
    }
}
