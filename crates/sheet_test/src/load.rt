// Loading.
use crate::cases::SHEETS;
use crate::{left_out, show};
use sheet::Load;
use std::io;

/// Each stored sheet, and without each of its records.
pub fn sheets(rt: &impl Print) -> io::Result<()> {
    for records in &SHEETS {
        load(rt, records)?;
        left_out::sheet(rt, records)?;
    }
    Ok(())
}

/// 21: each bit that must be 0, of each kind of record.
pub fn bits(rt: &impl Print) -> io::Result<()> {
    for (record, from) in [
        (0x10000000, 16),
        (0x20000000, 16),
        (0x30000000, 20),
        (0x70000002, 16),
    ] {
        bits_from(rt, record, from)?;
    }
    Ok(())
}

fn bits_from(rt: &impl Print, record: u32, from: u32) -> io::Result<()> {
    for bit in from..28 {
        load(rt, &[record | 1 << bit, 0xF0000001])?;
    }
    Ok(())
}

// Loads a sheet into a memory of four words that held something else.
fn load(rt: &impl Print, records: &[u32]) -> io::Result<()> {
    let mut memory = [7u16; 4];
    show::records(rt, records)?;
    show_load(rt, sheet::load_sheet(records, &mut memory))?;
    show::words(rt, &memory)?;
    show::line(rt)
}

/// What a load answers, the core and the edition.
pub fn show_load(rt: &impl Print, l: Load) -> io::Result<()> {
    show::loaded(rt, l.answer)?;
    show::core(rt, l.core)?;
    show::edition(rt, l.edition)
}

/// Host test 1, before any other.
pub fn lengths(rt: &impl Print) -> io::Result<()> {
    for n in [0, 1, 65535, 65536, 65537] {
        at_length(rt, n)?;
    }
    Ok(())
}

fn at_length(rt: &impl Print, n: usize) -> io::Result<()> {
    let mut memory = [7u16; 65537];
    show::number(rt, n as u64)?;
    if let Some(memory) = memory.get_mut(..n) {
        load_each(rt, memory)?;
    }
    show::line(rt)
}

// A sheet for the last address, a sheet with no end, and a word list.
fn load_each(rt: &impl Print, memory: &mut [u16]) -> io::Result<()> {
    show_load(
        rt,
        sheet::load_sheet(&[0x1000FFFF, 0x20000005, 0xF0000002], memory),
    )?;
    show::sum(rt, memory)?;
    show_load(rt, sheet::load_sheet(&[], memory))?;
    show_load(rt, sheet::load_words(&[5, 6], memory))?;
    show::sum(rt, memory)
}

/// Word lists of up to one word more than memory has.
pub fn word_lists(rt: &impl Print) -> io::Result<()> {
    for n in [0, 2, 4, 5] {
        word_list(rt, n)?;
    }
    Ok(())
}

fn word_list(rt: &impl Print, n: usize) -> io::Result<()> {
    let words = [0x1003u16, 0xFFFF, 0, 4, 5];
    let mut memory = [7u16; 4];
    show::number(rt, n as u64)?;
    if let Some(words) = words.get(..n) {
        show_load(rt, sheet::load_words(words, &mut memory))?;
    }
    show::words(rt, &memory)?;
    show::line(rt)
}
