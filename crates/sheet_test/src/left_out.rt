// Sheets that lost a record: each record left out in turn, the end as the last.
ghost use Rattle.std.specs.Prelude.{◌+◌, ◌<◌, ◌≡◌, length};

use crate::{show, write};
use emulator::Core;
use std::io;

/// Leaves out each record in turn of a sheet, if it is accepted, and shows the answers.
pub fn sheet(rt: &impl Print, records: &[u32]) -> io::Result<()> {
    if sheet::load_sheet(records, &mut [0; 4]).answer.is_err() {
        return Ok(());
    }
    show::text(rt, b"less one ")?;
    each(rt, records)
}

/// The same of sheets that were written, of random memories, in both editions.
pub fn written(rt: &impl Print) -> io::Result<()> {
    let mut random = 1;
    for k in 0..16 {
        let mut memory = [0; 4];
        for word in &mut memory {
            random = next(random);
            *word = word_of(random);
        }
        write(rt, 1 + k % 2, &memory)?;
    }
    Ok(())
}

// The next pseudo-random number, by a linear congruence (with the constants of Numerical Recipes).
fn next(random: u32) -> u32 {
    random.wrapping_mul(1664525).wrapping_add(1013904223)
}

// A word, of which every other one is 0.
fn word_of(random: u32) -> u16 {
    if random < 0x80000000 {
        0
    } else {
        (random / 0x8000 % 0x10000) as u16
    }
}

fn write(rt: &impl Print, edition: u16, memory: &[u16; 4]) -> io::Result<()> {
    let mut buffer = [0; 20];
    let answer = sheet::write_sheet(write::core(), edition, memory, &mut buffer);
    show::words(rt, memory)?;
    show::edition(rt, edition)?;
    show::written(rt, answer)?;
    if let Ok(n) = answer {
        if let Some(records) = buffer.get(..n) {
            each(rt, records)?;
        }
    }
    Ok(())
}

fn each(rt: &impl Print, records: &[u32]) -> io::Result<()> {
    for i in 0..records.len() {
        let mut buffer = [0; 20];
        if let Some(rest) = buffer.get_mut(..records.len() - 1) {
            leave_out(records, i, rest);
            load(rt, rest)?;
        }
    }
    show::line(rt)
}

// Copies all records but that at `i`.
fn leave_out(records: &[u32], i: usize, rest: &mut [u32])
    requires { (i < length records.now) × (length rest.old + 1 ≡ length records.now) }
{
    let (front, behind) = rest.split_at_mut(i);
    front.copy_from_slice(&records[..i]);
    behind.copy_from_slice(&records[i + 1..]);
}

// Shows the answer, and whether anything isn't as a refused load leaves it.
fn load(rt: &impl Print, records: &[u32]) -> io::Result<()> {
    let mut memory = [7; 4];
    let load = sheet::load_sheet(records, &mut memory);
    show::loaded(rt, load.answer)?;
    if load.core != Core::new() || load.edition != 1 || memory != [7; 4] {
        show::text(rt, b"and changed ")?;
    }
    Ok(())
}
