//! Lent memory with its marks, and the log of its reads.
ghost use Rattle.std.specs.Prelude.{◌≡◌, ◌+◌, ◌≤◌, length, refl};
ghost use Rattle.memory.specs.Log.{is_full, words};
ghost use Rattle.memory.specs.Memory.{Memory, lent};
ghost use Rattle.memory.specs.Store.{memory_store};
ghost use Rattle.memory.specs.Parts.{Logs, logs_start};
ghost use Rattle.memory.specs.declared.refusal.LogEnd.TheVariants.{Full};

use crate::log::{Purpose, push};
use crate::memory::{place, read_mark, write_mark};
use crate::refusal::LogEnd;
use crate::rights::{Right, Rights};
use crate::stop::Stop;
use crate::store::Store;

/// Lent memory whose reads are logged: the words and as many marks, and a buffer with so many log
/// words at its front. (A `MarkedMemory` in it would not do: of a reference two structs deep the
/// check doesn't tell what it leaves in what was lent.)
#[derive(Drop)]
pub struct LoggedMemory<'a> {
    /// The words, by address from 0.
    pub words: &'a mut [u16],
    /// The mark of each.
    pub marks: &'a mut [u8],
    /// The buffer for the log.
    pub log: &'a mut [u32],
    /// The number of its words that are log words, from its front.
    pub logged: usize,
    /// There is a mark for each word.
    pub ghost marked: { length marks.now ≡ length words.now },
    /// The log stands in its buffer.
    pub ghost within: { logged ≤ length log.now },
}

impl Store for LoggedMemory<'_> {
    ghost Seen = { Memory };

    ghost seen = { λ s. lent s.words.now s.marks.now };

    ghost store = { memory_store };

    // It is still what was lent, too.
    ghost Noted = { λ start now l. (now.words.ghost_name ≡ start.words.ghost_name) × (now.marks.ghost_name ≡ start.marks.ghost_name) × (now.log.ghost_name ≡ start.log.ghost_name) × Logs start.log.now start.logged now.log.now now.logged l };

    ghost over = { λ start l. is_full (words (length start.log.now)) (start.logged + length l) };

    ghost why = { Full };

    #[tactic(auto, using(crate::proofs::Places::placed), unfolding(crate::specs::Memory::read_of))]
    fn read(&mut self, rights: Rights<'_>, purpose: Purpose, address: u16) -> Result<u16, Stop> {
        let at = place(self.words.len(), rights, purpose.right(), address)?;
        self.marks[at] = read_mark(self.marks[at]);
        let word = self.words[at];
        self.logged = push(self.log, self.logged, purpose, address, word);
        Ok(word)
    }

    #[tactic(auto, using(crate::proofs::Places::placed), unfolding(crate::specs::Memory::write_of))]
    fn write(&mut self, rights: Rights<'_>, address: u16, value: u16) -> Result<(), Stop> {
        let at = place(self.words.len(), rights, Right::Write, address)?;
        self.marks[at] = write_mark(self.marks[at]);
        self.words[at] = value;
        Ok(())
    }

    // The log is full where fewer than four words are free.
    fn log_end(&self) -> Option<LogEnd> {
        if self.log.len() - self.logged < 4 {
            Some(LogEnd::Full)
        } else {
            None
        }
    }

    ghost begun = { λ start. (refl, refl, refl, logs_start _ _) };
}
