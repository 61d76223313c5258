// Printing. Most of it is of arrays and of std's `Result`, for which a crate has no `Display` to
// give.
use emulator::Core;
use sheet::SheetRefusal;
use std::io;

/// A text as it stands.
pub fn text(rt: &impl Print, s: &[u8]) -> io::Result<()> {
    rt.write_all(s)
}

/// A number in decimal and a space.
pub fn number(rt: &impl Print, n: u64) -> io::Result<()> {
    print!(rt; "{n} ")
}

/// A word in decimal and a space.
pub fn word(rt: &impl Print, n: u16) -> io::Result<()> {
    number(rt, n as u64)
}

fn record(rt: &impl Print, r: u32) -> io::Result<()> {
    print!(rt; "{r:08x} ")
}

/// What a load answers: `done`, or `refused` and the number.
pub fn loaded(rt: &impl Print, answer: Result<(), SheetRefusal>) -> io::Result<()> {
    match answer {
        Ok(()) => text(rt, b"done "),
        Err(refusal) => refused(rt, refusal),
    }
}

/// What a write answers, or the reader of an input: how many records, or `refused` and the number.
pub fn written(rt: &impl Print, answer: Result<usize, SheetRefusal>) -> io::Result<()> {
    match answer {
        Ok(n) => {
            text(rt, b"records ")?;
            number(rt, n as u64)
        }
        Err(refusal) => refused(rt, refusal),
    }
}

fn refused(rt: &impl Print, refusal: SheetRefusal) -> io::Result<()> {
    text(rt, b"refused ")?;
    number(rt, refusal.number() as u64)
}

/// The registers of a core: ip, rp, sp, ef, r0 to r7.
pub fn core(rt: &impl Print, c: Core) -> io::Result<()> {
    text(rt, b"core ")?;
    words(rt, &[c.ip, c.rp, c.sp, c.ef])?;
    words(rt, &c.gprs)
}

/// The number of an edition.
pub fn edition(rt: &impl Print, n: u16) -> io::Result<()> {
    text(rt, b"edition ")?;
    word(rt, n)
}

/// Each word of a list, in decimal.
pub fn words(rt: &impl Print, list: &[u16]) -> io::Result<()> {
    for w in list {
        word(rt, *w)?;
    }
    Ok(())
}

/// Each record of a list, by its eight hexadecimal digits.
pub fn records(rt: &impl Print, list: &[u32]) -> io::Result<()> {
    for r in list {
        record(rt, *r)?;
    }
    Ok(())
}

/// The end of the line.
pub fn line(rt: &impl Print) -> io::Result<()> {
    text(rt, b"\n")
}

// A sum and a word, such that the order of the words matters.
fn add(s: u32, w: u16) -> u32 {
    s.rotate_left(1).wrapping_add(w as u32)
}

/// A number that stands for a list too long to print.
pub fn sum(rt: &impl Print, list: &[u16]) -> io::Result<()> {
    text(rt, b"sum ")?;
    record(rt, list.iter().fold(1, |s, w| add(s, *w)))
}
