//! The log of a run's reads: two words for each (docs/MACHINE.md, Logs and replays).
ghost use Rattle.std.specs.Prelude.{◌≡◌, ◌≤◌, length};
ghost use Rattle.memory.specs.Log.{address_word, written};
ghost use Rattle.memory.specs.Parts.{pushed};

/// What a read is made for; a write is for nothing but its word.
#[derive(Clone, Copy, Debug, PartialEq, Eq)]
pub enum Purpose {
    /// The word is to be executed.
    Fetch,
    /// The word is what an instruction loads.
    Read,
}

/// The log word that names a read's address: kind 4, with bit 16 set for a fetch.
pub fn address_word(purpose: Purpose, address: u16) -> u32
    ensures { result ≡ address_word purpose address }
{
    match purpose {
        Purpose::Fetch => 0x40010000 + address as u32,
        Purpose::Read => 0x40000000 + address as u32,
    }
}

/// Logs a read in a buffer that has so many log words, and answers how many it has then. Without
/// room for two more nothing changes; a run tests first that there is room. (Hosts lend the buffer,
/// so it is no `Vec`.)
pub fn push(buffer: &mut [u32], count: usize, purpose: Purpose, address: u16, word: u16) -> usize
    requires { count ≤ length buffer.old }
    ensures { written result buffer.new ≡ pushed purpose address word (written count buffer.old) }
{
    if buffer.len() - count < 2 {
        return count;
    }
    buffer[count] = address_word(purpose, address);
    buffer[count + 1] = 0x50000000 + word as u32;
    count + 2
}
