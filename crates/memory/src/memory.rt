//! Lent memory with its marks, and the place of an access to it.
ghost use Rattle.std.specs.Prelude.{◌≡◌, length, false, refl};
ghost use Rattle.memory.specs.Memory.{Memory, read_mark, write_mark, place_of, lent};
ghost use Rattle.memory.specs.Store.{memory_store};
ghost use Rattle.memory.specs.Rights.{bytes_of};
ghost use Rattle.memory.specs.declared.refusal.LogEnd.TheVariants.{Full};

use crate::log::Purpose;
use crate::refusal::LogEnd;
use crate::rights::{Right, Rights, has_right};
use crate::stop::Stop;
use crate::store::Store;

/// A mark after a read: bit 0 is set, unless bit 1 is.
#[tactic(auto, unfolding(crate::specs::Memory::read_mark))]
pub fn read_mark(m: u8) -> u8
    ensures { result ≡ read_mark m }
{
    if m / 2 % 2 == 1 || m % 2 == 1 {
        m
    } else {
        m + 1
    }
}

/// A mark after a write: bit 1 is set.
#[tactic(auto, unfolding(crate::specs::Memory::write_mark))]
pub fn write_mark(m: u8) -> u8
    ensures { result ≡ write_mark m }
{
    if m / 2 % 2 == 1 { m } else { m + 2 }
}

/// The place in so many words of an access that needs a right. The error is the stop: out of range,
/// which is tested first, or no right.
#[tactic(auto, unfolding(crate::specs::Memory::place_of))]
pub fn place(size: usize, rights: Rights<'_>, right: Right, address: u16) -> Result<usize, Stop>
    ensures { result ≡ place_of (bytes_of rights.entry) size right address }
{
    let at = address as usize;
    if at >= size {
        return Err(Stop::OutOfRange(address));
    }
    if !has_right(rights, right, address) {
        return Err(Stop::NoRight(address));
    }
    Ok(at)
}

/// Lent memory without a log: the words and as many marks.
#[derive(Drop)]
pub struct MarkedMemory<'a> {
    /// The words, by address from 0.
    pub words: &'a mut [u16],
    /// The mark of each.
    pub marks: &'a mut [u8],
    /// There is a mark for each word.
    pub ghost marked: { length marks.now ≡ length words.now },
}

impl Store for MarkedMemory<'_> {
    ghost Seen = { Memory };

    ghost seen = { λ s. lent s.words.now s.marks.now };

    ghost store = { memory_store };

    // It has no log, and is still what was lent.
    ghost Noted = { λ start now l. (now.words.ghost_name ≡ start.words.ghost_name) × (now.marks.ghost_name ≡ start.marks.ghost_name) };

    ghost over = { λ start l. false };

    ghost why = { Full };

    // The word at an address, which is marked as read.
    #[tactic(auto, using(crate::proofs::Places::placed), unfolding(crate::specs::Memory::read_of))]
    fn read(&mut self, rights: Rights<'_>, purpose: Purpose, address: u16) -> Result<u16, Stop> {
        let at = place(self.words.len(), rights, purpose.right(), address)?;
        self.marks[at] = read_mark(self.marks[at]);
        Ok(self.words[at])
    }

    // Puts a word at an address, which is marked as written.
    #[tactic(auto, using(crate::proofs::Places::placed), unfolding(crate::specs::Memory::write_of))]
    fn write(&mut self, rights: Rights<'_>, address: u16, value: u16) -> Result<(), Stop> {
        let at = place(self.words.len(), rights, Right::Write, address)?;
        self.marks[at] = write_mark(self.marks[at]);
        self.words[at] = value;
        Ok(())
    }

    fn log_end(&self) -> Option<LogEnd> {
        None
    }

    ghost begun = { λ start. (refl, refl) };
}
