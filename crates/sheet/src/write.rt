// Writing a rule sheet.
ghost use Rattle.std.specs.Prelude.{◌≡◌, ◌+◌, ◌*◌, ◌≤◌, ◌<◌, length};
ghost use Rattle.std.proofs.lemmas.List.Edits.{sets};
ghost use Rattle.instructions.specs.Bounded.{Bounded};
ghost use Rattle.sheet.specs.Write.{wrote, edition_record, edition_records, preset_record, presets_from, records_at, stretches_from, write_sheet_of};

use crate::fields::register;
use crate::refusal::SheetRefusal;
use emulator::Core;
use execute::Edition;
use memory::check_length;

// How many records a word takes after the word before it.
#[tactic(auto, using(crate::proofs::WriteLaws::one_word))]
fn needed(before: u16, word: u16) -> usize
    ensures { Bounded result (length (records_at 0 before word)) 3 }
{
    match (before, word) {
        (_, 0) => 0,
        (0, _) => 2,
        _ => 1,
    }
}

// How many records the stretches of nonzero words take.
fn count_records(memory: &[u16]) -> usize
    ensures { Bounded result (length (stretches_from 0 0 memory.now)) (length memory.now * 2 + 1) }
{
    let mut count = 0;
    let mut before = 0;
    for word in memory {
        count += needed(before, *word);
        before = *word;
    }
    count
}

// How many records stand for the edition: one for edition 2, none for edition 1.
#[tactic(auto, unfolding(crate::specs::Write::edition_records))]
fn count_editions(edition: u16) -> usize
    ensures { Bounded result (length (edition_records edition)) 2 }
{
    if edition == 2 { 1 } else { 0 }
}

fn edition_record(edition: u16) -> u32
    ensures { result ≡ edition_record edition }
{
    0x70000000 + edition as u32
}

fn preset_record(register: u8, value: u16) -> u32
    requires { register < 12 }
    ensures { result ≡ preset_record register value }
{
    0x30000000 + register as u32 * 0x10000 + value as u32
}

// The presets of the twelve registers.
fn put_presets(core: Core, sheet: &mut [u32])
    requires { 12 ≤ length sheet.old }
    ensures { sheet.new ≡ sets sheet.old 0 (presets_from core 12 0) }
{
    for r in 0..12 {
        sheet[r as usize] = preset_record(r, register(core, r));
    }
}

// The records of a word at an address after the word before it, put at `at`; answers the place past
// them. (Hosts lend the sheet, so it is no `Vec`.)
#[tactic(auto, using(crate::proofs::WriteLaws::one_word))]
fn put_word(sheet: &mut [u32], at: usize, address: usize, before: u16, word: u16) -> usize
    requires { (at + length (records_at address before word) ≤ length sheet.old) × (address < 65536) }
    ensures value { result ≡ at + length (records_at address before word) }
    ensures sheet_after { sheet.new ≡ sets sheet.old at (records_at address before word) }
{
    match (before, word) {
        (_, 0) => at,
        (0, _) => {
            sheet[at] = 0x10000000 + address as u32;
            sheet[at + 1] = 0x20000000 + word as u32;
            at + 2
        }
        _ => {
            sheet[at] = 0x20000000 + word as u32;
            at + 1
        }
    }
}

// The stretches of nonzero words, put after the presets.
fn put_stretches(memory: &[u16], sheet: &mut [u32])
    requires { (length memory.now ≤ 65536) × (12 + length (stretches_from 0 0 memory.now) ≤ length sheet.old) }
    ensures { sheet.new ≡ sets sheet.old 12 (stretches_from 0 0 memory.now) }
{
    let mut at = 12;
    let mut before = 0;
    for (address, word) in memory.iter().enumerate() {
        at = put_word(sheet, at, address, before, *word);
        before = *word;
    }
}

/// Writes the sheet that loads this core, this edition and this memory (docs/SHEETS.md, What the
/// writer gives) to the front of `sheet`, and answers how many records it has, the end included.
/// What stands in `sheet` past them stays. A write that is refused, by the first of 1, 34 and 4,
/// leaves all of `sheet`.
#[tactic(auto, using(crate::proofs::WriteLaws::sheet_laws), unfolding(crate::specs::Write::write_sheet_of, memory::specs::Memory::refused_length))]
pub fn write_sheet(
    core: Core,
    edition: u16,
    memory: &[u16],
    sheet: &mut [u32],
) -> Result<usize, SheetRefusal>
    ensures { wrote result sheet.new ≡ write_sheet_of core edition memory.now sheet.old }
{
    check_length(memory.len())?;
    if Edition::at(edition).is_none() {
        return Err(SheetRefusal::UnknownEdition);
    }
    let first = count_editions(edition);
    let end = 12 + count_records(memory);
    if sheet.len() <= first + end {
        return Err(SheetRefusal::ShortBuffer);
    }
    // In front stands the edition's record, where it has one.
    let (front, rest) = sheet.split_at_mut(first);
    front.fill(edition_record(edition));
    put_presets(core, rest);
    put_stretches(memory, rest);
    rest[end] = 0xF0000000 + (first + end) as u32;
    Ok(first + end + 1)
}
