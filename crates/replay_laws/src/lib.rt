//! The theorem that the replay of a run's log is the run (docs/MACHINE.md, Logs and replays), about
//! the definitions of `replay` and `emulator`. It is the contract of a function with an empty body:
//! specs/ states it, proofs/ proves it.
#![tactic(auto)]

ghost use Rattle.replay_laws.specs.Replay.{ReplayIsRun};

/// The replay of an accepted run's log gives the run's end, steps and registers, unless the run
/// ended because its log was full. Registers and memory have 16-bit words.
#[tactic(auto, using(crate::proofs::Replay::replay_is_run))]
pub fn replays_are_runs()
    ensures replay { ReplayIsRun }
{}
