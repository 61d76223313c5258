//! Compares lists with each other (docs/MACHINE.md, Word lists and their order), and prints a table
//! of the short ones and a line for each two of the long ones. A cell is the order, the place from
//! which on the part of the earlier list is, and after a colon the part; of a long list, how long
//! the part is, and its first word.
#![tactic(auto)]

use std::cmp::Ordering;
use std::io;

// All lists of up to three words that are 0 or 1.
const LISTS: [&[u16]; 15] = [
    &[],
    &[0],
    &[1],
    &[0, 0],
    &[0, 1],
    &[1, 0],
    &[1, 1],
    &[0, 0, 0],
    &[0, 0, 1],
    &[0, 1, 0],
    &[0, 1, 1],
    &[1, 0, 0],
    &[1, 0, 1],
    &[1, 1, 0],
    &[1, 1, 1],
];

fn words(rt: &impl Print, list: &[u16]) -> io::Result<()> {
    for w in list {
        print!(rt; "{w}")?;
    }
    Ok(())
}

// < if the first comes first, > if the second does. (`Ordering` is std's, so this is no `Display`.)
fn sign(order: Ordering) -> char {
    match order {
        Ordering::Less => '<',
        Ordering::Equal => '=',
        Ordering::Greater => '>',
    }
}

// The order of two lists, and from which place on the part of the earlier one is.
fn compare(rt: &impl Print, first: &[u16], second: &[u16]) -> io::Result<()> {
    let order = sign(order::compare(first, second));
    let from = order::earlier_part(first, second).from;
    print!(rt; " {order}{from}:")
}

// Each short list against each.
fn table(rt: &impl Print) -> io::Result<()> {
    for first in LISTS {
        words(rt, first)?;
        for second in LISTS {
            compare(rt, first, second)?;
            words(rt, order::earlier(first, second))?;
        }
        println!(rt)?;
    }
    Ok(())
}

// The first n words, or all, of a list of zeros but for one word at a place, if it has it.
fn zeros_but(room: &mut [u16], n: usize, at: usize, w: u16) -> &[u16] {
    if let Some(word) = room.get_mut(at) {
        *word = w;
    }
    room.get(..n).unwrap_or(room)
}

// Two such lists: how long the part is, and its first word. (Each is told by its length, a place
// and a word: a list of 70,000 words spelled out would be no plainer, and there is no heap.)
fn long(rt: &impl Print, n: usize, m: usize, at: usize, v: u16, w: u16) -> io::Result<()> {
    let mut first = [0; 70000];
    let mut second = [0; 70000];
    let first = zeros_but(&mut first, n, at, v);
    let second = zeros_but(&mut second, m, at, w);
    compare(rt, first, second)?;
    let part = order::earlier(first, second);
    print!(rt; "{}", part.len())?;
    if let Some(w) = part.first() {
        print!(rt; " {w}")?;
    }
    println!(rt)
}

fn main(rt: HostRuntime) -> io::Result<()> {
    table(&rt)?;
    long(&rt, 65536, 65537, 65536, 0, 0)?;
    long(&rt, 65536, 65537, 65536, 0, 1)?;
    long(&rt, 65537, 65536, 65536, 1, 0)?;
    long(&rt, 70000, 70000, 65537, 0x7FFF, 0x8000)?;
    long(&rt, 70000, 70000, 69999, 0xFFFF, 0xFFFE)?;
    long(&rt, 70000, 0, 0, 0, 0)?;
    long(&rt, 0, 70000, 69999, 0, 1)
}
