//! One cycle and the loop of cycles, on any store. The loop takes the core apart once and lends its
//! registers to each cycle in two parts. The general ones are found by their number and so stand in
//! memory; apart from them the special ones can stand in the processor's own.
ghost use Rattle.std.specs.Prelude.{◌≡◌, ◌++◌, [], List, ℕ};
ghost use Rattle.emulator.specs.Answers.{core_of_parts, progress_of, end_of};
ghost use Rattle.memory.specs.Rights.{bytes_of};
ghost use Rattle.emulator.specs.Machine.{access_of, after_of, planned, plan_of, turn, carry_out, cycle_of, ran, run_until};

use crate::core_record::{Core, Run};
use execute::{Edition, Effect, execute};
use instructions::{Instruction, Register};
use memory::{LogEnd, Purpose, Refusal, Rights, Stop, Store};

/// How a run ends.
#[derive(Clone, Copy, Debug, PartialEq, Eq)]
pub enum End {
    /// The halt bit is set. It is tested before the limit.
    Halted,
    /// As many steps as the limit were counted, and halt is clear.
    Limit,
    /// A step stopped, and isn't counted.
    Fault(Stop),
    /// A host test refused the call, and nothing was run.
    Refused(Refusal),
    /// The log ended the run: its buffer is full, or a replay's reads aren't those of its log.
    Log(LogEnd),
}

// The special registers.
struct Special {
    ip: u16,
    rp: u16,
    sp: u16,
    ef: u16,
}

// Changes the registers as the effect says, and makes its access.
fn obey<S: Store>(
    gprs: &mut [u16; 8],
    special: &mut Special,
    effect: Effect,
    store: &mut S,
    rights: Rights<'_>,
) -> Result<(), Stop>
    ensures turn { turn (progress_of result) (core_of_parts gprs.new special.new) (S.seen store.new) ≡ (carry_out (S.store (bytes_of rights.entry)) (planned (after_of (core_of_parts gprs.old special.old) effect) (access_of effect)) (S.seen store.old)).result }
    ensures noted { (start : S) (l : List ℕ) → S.Noted start store.old l → S.Noted start store.new (l ++ (carry_out (S.store (bytes_of rights.entry)) (planned (after_of (core_of_parts gprs.old special.old) effect) (access_of effect)) (S.seen store.old)).log) }
{
    match effect {
        Effect::None => {}
        Effect::Gpr(reg, value) => gprs[reg.encode() as usize] = value,
        Effect::Ip(value) => special.ip = value,
        Effect::Rp(value) => special.rp = value,
        Effect::Sp(value) => special.sp = value,
        Effect::Ef(value) => special.ef = value,
        Effect::Call(address) => {
            special.rp = special.ip;
            special.ip = address;
        }
        Effect::Load {
            address,
            into,
            raise,
        } => {
            let word = store.read(rights, Purpose::Read, address)?;
            gprs[into.encode() as usize] = word;
            special.sp = execute::add(special.sp, raise);
        }
        Effect::Store {
            address,
            value,
            lower,
        } => {
            special.sp = execute::sub(special.sp, lower);
            store.write(rights, address, value)?;
        }
        Effect::Decimal(word) => return Err(Stop::Decimal(word)),
        Effect::Amount(amount) => return Err(Stop::Amount(amount)),
        Effect::Negation(value) => return Err(Stop::Negation(value)),
    }
    Ok(())
}

// Fetches at ip, advances ip, and obeys the word.
fn cycle<S: Store>(
    gprs: &mut [u16; 8],
    special: &mut Special,
    store: &mut S,
    rights: Rights<'_>,
    edition: Edition,
) -> Result<(), Stop>
    ensures turn { turn (progress_of result) (core_of_parts gprs.new special.new) (S.seen store.new) ≡ (cycle_of (S.store (bytes_of rights.entry)) (plan_of edition) (core_of_parts gprs.old special.old) (S.seen store.old)).result }
    ensures noted { (start : S) (l : List ℕ) → S.Noted start store.old l → S.Noted start store.new (l ++ (cycle_of (S.store (bytes_of rights.entry)) (plan_of edition) (core_of_parts gprs.old special.old) (S.seen store.old)).log) }
{
    let word = store.read(rights, Purpose::Fetch, special.ip)?;
    special.ip = execute::add(special.ip, 1);
    let ins = Instruction::decode(word)?;
    let effect = execute(
        ins, word, edition, gprs, special.ip, special.rp, special.sp, special.ef,
    );
    obey(gprs, special, effect, store, rights)
}

/// Cycles up to the limit, on a store, whose marks it doesn't set to 0: each turn tests halt first,
/// then the limit, then the log. A cycle that faults isn't counted. (A `for` up to the limit would
/// test the limit before halt.)
pub fn turns<S: Store>(
    core: Core,
    store: &mut S,
    rights: Rights<'_>,
    limit: u32,
    edition: Edition,
) -> Run
    ensures run { ran (end_of result.end) result.steps result.core (S.seen store.new) ≡ (run_until (S.store (bytes_of rights.entry)) (plan_of edition) (S.over store.old) S.why limit 0 core (S.seen store.old) []).result }
    ensures noted { S.Noted store.old store.new (run_until (S.store (bytes_of rights.entry)) (plan_of edition) (S.over store.old) S.why limit 0 core (S.seen store.old) []).log }
{
    let Core {
        mut gprs,
        ip,
        rp,
        sp,
        ef,
    } = core;
    let mut special = Special { ip, rp, sp, ef };
    let mut steps: u32 = 0;
    let end = loop {
        if execute::is_halted(special.ef) {
            break End::Halted;
        }
        if steps == limit {
            break End::Limit;
        }
        if let Some(end) = store.log_end() {
            break End::Log(end);
        }
        if let Err(stop) = cycle(&mut gprs, &mut special, store, rights, edition) {
            break End::Fault(stop);
        }
        steps += 1;
    };
    let Special { ip, rp, sp, ef } = special;
    let core = Core {
        gprs,
        ip,
        rp,
        sp,
        ef,
    };
    Run { core, steps, end }
}
