//! Theorems about whole runs of the machine that `emulator` defines (docs/MACHINE.md, The run,
//! Editions, Rights, Logs and replays, Known words; docs/PROOFS.md says which there are). Each is
//! the contract of a function with an empty body: specs/ states it, proofs/ proves it.
#![tactic(auto)]

ghost use Rattle.run_laws.specs.Agreement.{Agreement, PlainAgreement};
ghost use Rattle.run_laws.specs.Claims.{Keeping, RunIsSteps};
ghost use Rattle.run_laws.specs.Editions.{Editions};
ghost use Rattle.run_laws.specs.Ends.{LimitMeans};
ghost use Rattle.run_laws.specs.Logs.{FourWordsSuffice, FullIsPlain, LogSize, LoggedIsPlain};
ghost use Rattle.run_laws.specs.Rights.{Isolation, SevensArePlain};
ghost use Rattle.run_laws.specs.Rows.{Rows};

/// Two accepted runs of the same core, limit, length, rights and edition,
/// whose memories start equal wherever the first run's final mark includes 1, have the same end,
/// steps, registers, marks, written words and log, if both log with equal room, or neither logs, or
/// neither ends because its log is full.
#[tactic(auto, using(crate::proofs::Agreement::agreement, crate::proofs::Agreement::plain_agreement))]
pub fn runs_agree()
    ensures logged { Agreement }
    ensures plain { PlainAgreement }
{}

/// A page without any right is neither read nor written, nor does it change a run; with every right
/// on every page it is the run without rights.
#[tactic(auto, using(crate::proofs::Rights::isolation, crate::proofs::Sevens::sevens_are_plain))]
pub fn rights_isolate_pages()
    ensures isolated { Isolation }
    ensures sevens { SevensArePlain }
{}

/// A log changes no run but where it is full, and has two words for each read; room for four words
/// a step of the limit always suffices.
#[tactic(auto, using(crate::proofs::Logs::logged_is_plain, crate::proofs::Logs::full_is_plain, crate::proofs::Logs::log_size, crate::proofs::Ends::four_words_suffice))]
pub fn logs_change_no_run()
    ensures logged { LoggedIsPlain }
    ensures full { FullIsPlain }
    ensures size { LogSize }
    ensures room { FourWordsSuffice }
{}

/// A run is its steps, one after another; marks only grow, and lengths never change.
#[tactic(auto, using(crate::proofs::Claims::run_is_steps, crate::proofs::Claims::keeping))]
pub fn runs_are_steps()
    ensures steps { RunIsSteps }
    ensures keeping { Keeping }
{}

/// An accepted run ends by its limit exactly where it counted as many steps and isn't halted, and
/// halted exactly where halt is set; a step that faults isn't counted.
#[tactic(auto, using(crate::proofs::Ends::limit_means))]
pub fn limit_and_halt_end_runs()
    ensures ends { LimitMeans }
{}

/// A run in edition 1 that ends by neither of the stops 13 and 14 is the run in edition 2, and no
/// run in edition 2 ends by one.
#[tactic(auto, using(crate::proofs::Editions::run_editions))]
pub fn editions_differ_by_stops()
    ensures editions { Editions }
{}

/// The twelve rows of known words come out as listed, and edition 2 goes on where rows 9 and 10
/// stop.
#[tactic(auto, using(crate::proofs::Rows::rows))]
pub fn known_words_do_as_listed()
    ensures rows { Rows }
{}
