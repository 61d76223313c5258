// The core record as twelve words: r0 to r7, ip, rp, sp, ef. A host's struct `nilguseg_core` is
// just these, without padding. Neither type is of this crate, so these are functions, not `From`.
ghost use Rattle.std.specs.Prelude.{◌≡◌};
ghost use Rattle.nilguseg.specs.Host.{core_from, words_of};

use emulator::Core;

/// The core that twelve words are, r0 to r7, ip, rp, sp, ef. Any words are a core.
pub fn core_of(words: [u16; 12]) -> Core
    ensures { result ≡ core_from words }
{
    let [r0, r1, r2, r3, r4, r5, r6, r7, ip, rp, sp, ef] = words;
    Core {
        gprs: [r0, r1, r2, r3, r4, r5, r6, r7],
        ip,
        rp,
        sp,
        ef,
    }
}

/// Puts the core's registers into the words, in that order.
pub fn put_core(core: Core, words: &mut [u16; 12])
    ensures { words.new ≡ words_of core }
{
    let [r0, r1, r2, r3, r4, r5, r6, r7] = core.gprs;
    *words = [
        r0, r1, r2, r3, r4, r5, r6, r7, core.ip, core.rp, core.sp, core.ef,
    ];
}
