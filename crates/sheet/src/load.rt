// Loading memory and core.
ghost use Rattle.std.specs.Prelude.{◌≡◌, Ok, length};
ghost use Rattle.emulator.specs.Core.{new_core};
ghost use Rattle.sheet.specs.Load.{left, load_words_of, Reading, sheet_reads, tested_of, sheet_test, load_sheet_of};

use crate::fields::{Record, record_of, with_register};
use crate::refusal::SheetRefusal;
use emulator::Core;
use memory::check_length;

/// What a load comes to, beside what it leaves in memory.
#[derive(Clone, Copy)]
pub struct Load {
    /// The core to run: fresh but for what presets set, and fresh where the load is refused.
    pub core: Core,
    /// The number of the edition to run it in, 1 or 2: 1 for a plain word list, for a sheet that
    /// names none, and where the load is refused.
    pub edition: u16,
    /// Whether it is loaded, or why it is refused.
    pub answer: Result<(), SheetRefusal>,
}

// The slice becomes the words. (`copy_from_slice` would have the library ask its host for
// `memmove`.)
fn copy(words: &[u16], front: &mut [u16])
    requires { length front.old ≡ length words.now }
    ensures { front.new ≡ words.now }
{
    for (at, word) in words.iter().enumerate() {
        front[at] = *word;
    }
}

// Memory becomes the words from address 0 on, and 0 past them.
#[tactic(auto, unfolding(crate::specs::Load::load_words_of))]
fn put_words(words: &[u16], memory: &mut [u16]) -> Result<(), SheetRefusal>
    ensures { left result new_core 1 memory.new ≡ load_words_of words.now memory.old }
{
    check_length(memory.len())?;
    if memory.len() < words.len() {
        return Err(SheetRefusal::LongList);
    }
    let (front, rest) = memory.split_at_mut(words.len());
    copy(words, front);
    rest.fill(0);
    Ok(())
}

/// Loads a plain word list (docs/MACHINE.md, Word lists and their order): its words go to memory
/// from address 0 on, and zeros past them. A list that is refused, by 1 or 3, leaves memory as it
/// is.
pub fn load_words(words: &[u16], memory: &mut [u16]) -> Load
    ensures { left result.answer result.core result.edition memory.new ≡ load_words_of words.now memory.old }
{
    let answer = put_words(words, memory);
    Load {
        core: Core::new(),
        edition: 1,
        answer,
    }
}

// The tests of a sheet's records for a memory of `size` words, in order.
#[tactic(auto, using(crate::proofs::SheetLaws::testing))]
fn test_records(sheet: &[u32], size: usize) -> Result<(), SheetRefusal>
    ensures { result ≡ tested_of (sheet_reads sheet.now size) }
{
    let mut address: usize = 0;
    for (before, w) in sheet.iter().enumerate() {
        match record_of(*w)? {
            Record::Place(place) => {
                address = place as usize;
            }
            Record::Word(_) => {
                if size <= address {
                    return Err(SheetRefusal::PastMemory);
                }
                address += 1;
            }
            Record::Preset(_, _) => {}
            Record::Edition(_) => {}
            Record::End(count) => {
                if count as usize != before {
                    return Err(SheetRefusal::WrongCount);
                }
                if before + 1 < sheet.len() {
                    return Err(SheetRefusal::AfterEnd);
                }
                return Ok(());
            }
        }
    }
    Err(SheetRefusal::NoEnd)
}

// The tests of a sheet, host test 1 first.
fn test_sheet(sheet: &[u32], size: usize) -> Result<(), SheetRefusal>
    ensures { result ≡ sheet_test sheet.now size }
{
    check_length(size)?;
    test_records(sheet, size)
}

// What a sheet that passed its tests does. It cannot fail any more: its end record is the last, and
// every word has its place.
#[tactic(auto, using(crate::proofs::SheetLaws::applying))]
fn apply_sheet(sheet: &[u32], memory: &mut [u16]) -> (Core, u16)
    requires { Ok tt ≡ sheet_test sheet.now (length memory.old) }
    ensures { Reading.gives result.0 result.1 memory.new ≡ sheet_reads sheet.now (length memory.old) }
{
    memory.fill(0);
    let mut core = Core::new();
    let mut edition = 1;
    let mut address: usize = 0;
    for w in sheet {
        let Ok(record) = record_of(*w) else {
            break;
        };
        match record {
            Record::Place(place) => {
                address = place as usize;
            }
            Record::Word(word) => {
                memory[address] = word;
                address += 1;
            }
            Record::Preset(register, value) => {
                core = with_register(core, register, value);
            }
            Record::Edition(number) => {
                edition = number;
            }
            Record::End(_) => {
                break;
            }
        }
    }
    (core, edition)
}

/// Loads a rule sheet (docs/SHEETS.md, The records): memory becomes zeros but for the words that
/// the sheet places. A sheet that is refused leaves memory as it is. It is refused by 1; record by
/// record by the first of 20, 21, 22, 34, 23, 26 and 25; or by 24 after the last record
/// (docs/NUMBERS.md, The order of the tests).
// Only the second pass writes. (It isn't inlined, so that in `berth` the run's loop stands well:
// docs/PERFORMANCE.md.)
#[tactic(auto, unfolding(crate::specs::Load::load_sheet_of))]
#[inline(never)]
pub fn load_sheet(sheet: &[u32], memory: &mut [u16]) -> Load
    ensures { left result.answer result.core result.edition memory.new ≡ load_sheet_of sheet.now memory.old }
{
    let answer = test_sheet(sheet, memory.len());
    let (core, edition) = match answer {
        Ok(()) => apply_sheet(sheet, memory),
        Err(_) => (Core::new(), 1),
    };
    Load {
        core,
        edition,
        answer,
    }
}
