// Writing, and loading what was written.
use crate::cases::MEMORIES;
use crate::load::show_load;
use crate::show;
use emulator::Core;
use std::io;

/// A core whose registers all differ.
pub fn core() -> Core {
    Core {
        gprs: [1, 2, 3, 4, 5, 6, 7, 0xFFFF],
        ip: 8,
        rp: 9,
        sp: 10,
        ef: 11,
    }
}

// Writes into `buffer`, and loads what was written into `other`.
fn write(
    rt: &impl Print,
    edition: u16,
    memory: &[u16],
    buffer: &mut [u32],
    other: &mut [u16],
) -> io::Result<()> {
    show::edition(rt, edition)?;
    let answer = sheet::write_sheet(core(), edition, memory, buffer);
    show::written(rt, answer)?;
    if let Ok(n) = answer {
        if let Some(records) = buffer.get(..n) {
            show_load(rt, sheet::load_sheet(records, other))?;
        }
    }
    Ok(())
}

/// Each stored memory, with the records, and the buffer past them.
pub fn small(rt: &impl Print, edition: u16) -> io::Result<()> {
    for memory in &MEMORIES {
        write_small(rt, edition, memory)?;
    }
    Ok(())
}

fn write_small(rt: &impl Print, edition: u16, memory: &[u16]) -> io::Result<()> {
    let mut buffer = [0u32; 20];
    let mut other = [7u16; 4];
    show::words(rt, memory)?;
    write(rt, edition, memory, &mut buffer, &mut other)?;
    show::words(rt, &other)?;
    show::records(rt, &buffer)?;
    show::line(rt)
}

/// Buffers just long enough, and one too short, in both editions, for a memory of one word or of
/// none.
pub fn room(rt: &impl Print) -> io::Result<()> {
    at_room(rt, 1, &[0], 13)?;
    at_room(rt, 1, &[0], 12)?;
    at_room(rt, 1, &[3], 15)?;
    at_room(rt, 1, &[3], 14)?;
    at_room(rt, 1, &[], 16)?;
    at_room(rt, 1, &[], 0)?;
    at_room(rt, 2, &[0], 14)?;
    at_room(rt, 2, &[0], 13)?;
    at_room(rt, 2, &[3], 16)?;
    at_room(rt, 2, &[3], 15)?;
    at_room(rt, 2, &[3], 0)
}

/// Editions that there aren't, with room enough, with none, and for no memory.
pub fn editions(rt: &impl Print) -> io::Result<()> {
    for edition in [0, 3, 65535] {
        at_room(rt, edition, &[3], 16)?;
        at_room(rt, edition, &[3], 0)?;
        at_room(rt, edition, &[], 0)?;
    }
    Ok(())
}

fn at_room(rt: &impl Print, edition: u16, memory: &[u16], n: usize) -> io::Result<()> {
    let mut buffer = [0xFFFFFFFFu32; 16];
    let mut other = [7u16; 1];
    show::words(rt, memory)?;
    show::number(rt, n as u64)?;
    if let Some(buffer) = buffer.get_mut(..n) {
        write(rt, edition, memory, buffer, &mut other)?;
    }
    show::words(rt, &other)?;
    show::records(rt, &buffer)?;
    show::line(rt)
}

/// Memories of 65,536 words, all zero and without a zero, and one of a word more.
pub fn large(rt: &impl Print) -> io::Result<()> {
    at_size(rt, 1, &[0; 65536], 65550)?;
    at_size(rt, 1, &[1; 65536], 65550)?;
    at_size(rt, 1, &[1; 65536], 65549)?;
    at_size(rt, 1, &[1; 65537], 65550)?;
    at_size(rt, 2, &[1; 65536], 65551)?;
    at_size(rt, 2, &[1; 65536], 65550)
}

fn at_size(rt: &impl Print, edition: u16, memory: &[u16], n: usize) -> io::Result<()> {
    let mut buffer = [0u32; 65551];
    let mut other = [7u16; 65536];
    show::sum(rt, memory)?;
    show::number(rt, n as u64)?;
    if let Some(buffer) = buffer.get_mut(..n) {
        write(rt, edition, memory, buffer, &mut other)?;
    }
    show::sum(rt, &other)?;
    show::line(rt)
}
