//! What a run reads and writes: lent memory, memory whose reads are logged, or, in a replay, a log
//! in memory's place.
ghost use Rattle.std.specs.Prelude.{◌≡◌, List, ℕ, ◌++◌, [], Bool, Option};
ghost use Rattle.memory.specs.Log.{read_log, end_by_log};
ghost use Rattle.memory.specs.Store.{Store};
ghost use Rattle.memory.specs.Memory.{accessed};
ghost use Rattle.memory.specs.Rights.{bytes_of};
ghost use Rattle.memory.specs.declared.refusal.LogEnd.{LogEnd};

use crate::log::Purpose;
use crate::refusal::LogEnd;
use crate::rights::Rights;
use crate::stop::Stop;

/// Where a run reads and writes. Each access comes to what `store` of the definitions says, and
/// each read is noted by its log words.
pub trait Store {
    /// The medium by which the definitions speak of it.
    ghost Seen: { Type 0 };

    /// The medium that it is now.
    ghost seen: { Self → Seen };

    /// The accesses to the medium, with such rights.
    ghost store: { Option (List ℕ) → Store Seen };

    /// `Noted start now log`: `start` has become `now`, and `log` was logged meanwhile.
    ghost Noted: { Self → Self → List ℕ → Type 0 };

    /// Whether the words logged since a start end the run.
    ghost over: { Self → List ℕ → Bool };

    /// Which end that is.
    ghost why: { LogEnd };

    /// The word at an address, read for a purpose. The error is the stop of an access that may not
    /// be made, which changes and notes nothing.
    fn read(&mut self, rights: Rights<'_>, purpose: Purpose, address: u16) -> Result<u16, Stop>
        ensures read { accessed result (seen self.new) ≡ (store (bytes_of rights.entry)).read (seen self.old) purpose address }
        ensures noted { (start : Self) (l : List ℕ) → Noted start self.old l → Noted start self.new (l ++ read_log purpose address result) };

    /// Puts a word at an address. The error is the stop of an access that may not be made, which
    /// changes nothing; no write is noted.
    fn write(&mut self, rights: Rights<'_>, address: u16, value: u16) -> Result<(), Stop>
        ensures written { accessed result (seen self.new) ≡ (store (bytes_of rights.entry)).write (seen self.old) address value }
        ensures noted { (start : Self) (l : List ℕ) → Noted start self.old l → Noted start self.new l };

    /// How the log ends the run before its next step, if it does.
    fn log_end(&self) -> Option<LogEnd>
        ensures { (start : Self) (l : List ℕ) → Noted start self.now l → result ≡ end_by_log (over start l) why };

    /// Nothing is noted at first.
    ghost begun: { (start : Self) → Noted start start [] };
}
