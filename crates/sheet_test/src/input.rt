// Records from bytes.
use crate::cases::BYTES;
use crate::show;
use std::io;

/// The bytes of the program's example, whole and cut, no bytes too.
pub fn small(rt: &impl Print) -> io::Result<()> {
    each(rt, &BYTES, &[0, 3, 4, 5, 12], 0, 4)
}

/// As many bytes as a program takes, and more.
pub fn large(rt: &impl Print) -> io::Result<()> {
    each(rt, &[0xFE; 32772], &[32768, 32769, 32772], 8190, 8192)
}

// Reads as many of the bytes as each length says, and shows a part of the buffer.
fn each(
    rt: &impl Print,
    bytes: &[u8],
    lengths: &[usize],
    from: usize,
    to: usize,
) -> io::Result<()> {
    for n in lengths {
        show::number(rt, *n as u64)?;
        if let Some(bytes) = bytes.get(..*n) {
            read(rt, bytes, from, to)?;
        }
    }
    Ok(())
}

// Reads the records, and shows the part of the buffer.
fn read(rt: &impl Print, bytes: &[u8], from: usize, to: usize) -> io::Result<()> {
    let mut out = [0xFFFFFFFFu32; 8192];
    show::written(rt, sheet::records(bytes, &mut out))?;
    if let Some(part) = out.get(from..to) {
        show::records(rt, part)?;
    }
    show::line(rt)
}
