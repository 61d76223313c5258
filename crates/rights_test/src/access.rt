// One access, and what it comes to.
ghost use Rattle.std.specs.Prelude.{◌≤◌};

use crate::LIMIT;
use emulator::Core;
use shown::Shown;
use std::io;

const HLT: u16 = 0xFFFF;

// The words of the largest memory. A shorter one is its front.
const MOST: usize = 65536;

// A rule of one instruction, which makes the access, and hlt.
struct Access {
    name: &'static str,
    // The right that it needs.
    right: u8,
    // The instruction: r0 has the address, r2 the word to be written, and r1 gets the one read.
    word: u16,
    // What sp is above the address.
    above: u16,
}

const ACCESSES: [Access; 7] = [
    // of hlt, at the address: its rule has no other word
    Access {
        name: "fetch",
        right: 4,
        word: HLT,
        above: 0,
    },
    // r1 from [r0]
    Access {
        name: "read",
        right: 1,
        word: 0x2001,
        above: 0,
    },
    // r2 to [r0]
    Access {
        name: "write",
        right: 2,
        word: 0x2082,
        above: 0,
    },
    // r2 to where sp is then
    Access {
        name: "push",
        right: 2,
        word: 0x23D2,
        above: 1,
    },
    // r1 from where sp is
    Access {
        name: "pop",
        right: 1,
        word: 0x23D9,
        above: 0,
    },
    // r1 from [sp + 3]
    Access {
        name: "spread",
        right: 1,
        word: 0x3013,
        above: 0xFFFD,
    },
    // r2 to [sp + 3]
    Access {
        name: "spwrite",
        right: 2,
        word: 0x30A3,
        above: 0xFFFD,
    },
];

// The largest memory with the rule, from where it starts on, and 42 at the address, unless a
// fetch's rule is there.
fn words(access: &Access, start: u16, address: u16) -> [u16; MOST] {
    let mut words = [0; MOST];
    words[usize::from(start.wrapping_add(1))] = HLT;
    words[usize::from(address)] = 42;
    words[usize::from(start)] = access.word;
    words
}

// The rights: the address's page has the byte, the rule's page, if it is another, only execute, and
// the others what the byte lacks.
fn rights(start: u16, address: u16, byte: u8) -> [u8; 256] {
    let mut rights = [byte ^ 7; 256];
    rights[usize::from(start) / 256] = 4;
    rights[usize::from(address) / 256] = byte;
    rights
}

// Makes the access at the address, by the byte of rights, in a memory of so many words. The rule is
// at `rule`, or, for a fetch, at the address.
fn show(
    rt: &impl Print,
    access: &Access,
    size: usize,
    rule: u16,
    address: u16,
    byte: u8,
) -> io::Result<()>
    requires { size ≤ 65536 }
{
    let start = if access.word == HLT { address } else { rule };
    let core = Core {
        gprs: [address, 0, 9, 0, 0, 0, 0, 0],
        ip: start,
        sp: address.wrapping_add(access.above),
        ..Core::new()
    };
    let mut words = words(access, start, address);
    let mut marks = [7; MOST];
    let rights = rights(start, address, byte);
    let run = core.run_guarded(&mut words[..size], &mut marks[..size], &rights, 1, LIMIT);
    let at = usize::from(address);
    let Core { gprs, ip, sp, .. } = run.core;
    print!(rt;
        "{} {address} by {byte}: {} {} ",
        access.name,
        Shown(run.end),
        run.steps
    )?;
    println!(rt;
        "ip {ip} sp {sp} r1 {} mark {} word {}",
        gprs[1], marks[at], words[at]
    )
}

/// Each byte of rights, in the middle of a page.
pub fn bytes(rt: &impl Print) -> io::Result<()> {
    for access in &ACCESSES {
        for byte in 0..=7 {
            show(rt, access, MOST, 512, 384, byte)?;
        }
    }
    Ok(())
}

/// Just without and with the right, at the last address of the first page, the first of the second,
/// and the last of all.
pub fn borders(rt: &impl Print) -> io::Result<()> {
    for address in [255, 256, 65535] {
        for access in &ACCESSES {
            for byte in [access.right ^ 7, 7] {
                show(rt, access, MOST, 512, address, byte)?;
            }
        }
    }
    Ok(())
}

/// The same in a memory shorter than a page, at its last address and after it.
pub fn short(rt: &impl Print) -> io::Result<()> {
    for address in [99, 100] {
        for access in &ACCESSES {
            for byte in [access.right ^ 7, 7] {
                show(rt, access, 100, 0, address, byte)?;
            }
        }
    }
    Ok(())
}
