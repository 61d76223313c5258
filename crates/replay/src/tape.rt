//! The log in memory's place: each read must be the next two words.
ghost use Rattle.std.specs.Prelude.{◌≡◌, [], false, ◌&&◌, length, drop, eqb, not, refl};
ghost use Rattle.replay.specs.Places.{is_entry, begins, begun};
ghost use Rattle.replay.specs.Replay.{Tape, tape, tape_store};
ghost use Rattle.memory.specs.declared.refusal.LogEnd.TheVariants.{Mismatch};

use memory::{LogEnd, Purpose, Right, Rights, Stop, Store, address_word, place};

// Whether two log words are the read.
fn is_entry(purpose: Purpose, address: u16, named: u32, value: u32) -> bool
    ensures { result ≡ is_entry purpose address named value }
{
    named == address_word(purpose, address) && value / 0x10000 == 0x5000
}

/// A log in memory's place. A read that may be made takes its next two words, and gives the word as
/// logged; a write takes none. Where fewer than two are left it takes them and gives 0, which is no
/// match.
#[derive(Drop)]
pub struct LogTape<'a> {
    /// The length of the memory that was run on.
    pub size: usize,
    /// The log words that are still to be read.
    pub rest: &'a [u32],
    /// Whether the reads so far are the log's. (A flag and not an `Option` of the words: the
    /// definition's tape reads on after a mismatch, so there are words then too.)
    pub matches: bool,
}

impl LogTape<'_> {
    /// Whether the reads were the log's, and all of it is read.
    pub fn is_read(&self) -> bool
        ensures { result ≡ (self.now.matches && eqb (length self.now.rest.now) 0) }
    {
        self.matches && self.rest.is_empty()
    }

    // Takes what is left, too few words for a read, which is no match. (Cold and not inlined, or
    // every read that finds its two words would jump over this: docs/PERFORMANCE.md.)
    #[cold]
    #[inline(never)]
    fn run_out(&mut self)
        ensures rest { self.new.rest.now ≡ [] }
        ensures matches { self.new.matches ≡ false }
        ensures size { self.new.size ≡ self.old.size }
    {
        self.rest = &[];
        self.matches = false;
    }
}

impl Store for LogTape<'_> {
    ghost Seen = { Tape };

    ghost seen = { λ s. tape s.size s.rest.now };

    ghost store = { tape_store };

    ghost Noted = { λ start now l. (now.rest.now ≡ drop (length l) start.rest.now) × (now.matches ≡ (start.matches && begins l start.rest.now)) };

    ghost over = { λ start l. not (start.matches && begins l start.rest.now) };

    ghost why = { Mismatch };

    #[tactic(auto, unfolding(crate::specs::Replay::read_tape))]
    fn read(&mut self, rights: Rights<'_>, purpose: Purpose, address: u16) -> Result<u16, Stop> {
        place(self.size, rights, purpose.right(), address)?;
        let Some((entry, rest)) = self.rest.split_first_chunk::<2>() else {
            self.run_out();
            return Ok(0);
        };
        let [named, value] = *entry;
        self.rest = rest;
        self.matches &= is_entry(purpose, address, named, value);
        Ok((value % 0x10000) as u16)
    }

    #[tactic(auto, unfolding(crate::specs::Replay::write_tape))]
    fn write(&mut self, rights: Rights<'_>, address: u16, _value: u16) -> Result<(), Stop> {
        place(self.size, rights, Right::Write, address)?;
        Ok(())
    }

    fn log_end(&self) -> Option<LogEnd> {
        if self.matches {
            None
        } else {
            Some(LogEnd::Mismatch)
        }
    }

    ghost begun = { λ start. (refl, begun start.matches start.rest.now) };
}
