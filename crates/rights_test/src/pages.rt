// Runs that go on to a page, and runs that end before they do.
use emulator::Core;
use shown::Shown;
use std::io;

// Runs nop from ip on, where the page may not be executed and the others may only be executed.
fn show(rt: &impl Print, core: Core, limit: u32, page: u8) -> io::Result<()> {
    let mut rights = [4; 256];
    rights[usize::from(page)] = 3;
    let mut words = [0; 65536];
    let mut marks = [7; 65536];
    let run = core.run_guarded(&mut words, &mut marks, &rights, 1, limit);
    let first = usize::from(page) * 256;
    print!(rt;
        "from {} to page {page}: {} {} ",
        core.ip,
        Shown(run.end),
        run.steps
    )?;
    println!(rt; "ip {} mark {}", run.core.ip, marks[first])
}

/// Runs to a page in the middle, to the first and to the last, and runs that the limit or halt ends
/// before.
pub fn all(rt: &impl Print) -> io::Result<()> {
    let first = Core::new();
    let last = Core { ip: 65535, ..first };
    show(rt, first, 300, 1)?;
    show(rt, last, 300, 0)?;
    show(rt, first, 70000, 255)?;
    // the limit and halt come before the fetch
    show(rt, first, 256, 1)?;
    show(rt, first, 0, 0)?;
    show(rt, Core { ef: 1, ..first }, 300, 0)
}
