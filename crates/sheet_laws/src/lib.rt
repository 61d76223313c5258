//! Theorems about the definitions of `sheet`. Each is the contract of a function with an empty
//! body: specs/ states it, proofs/ proves it. They say what docs/SHEETS.md says of sheets under
//! What the writer gives and Old sheets, and of those that lost a record.
#![tactic(auto)]

ghost use Rattle.sheet_laws.specs.LeftOut.{EndCounts, LeftOut, LeftOutOfWritten};
ghost use Rattle.sheet_laws.specs.RoundTrip.{RoundTrip};
ghost use Rattle.sheet_laws.specs.Size.{SheetFits};
ghost use Rattle.sheet_laws.specs.WordRecords.{BothRules};

/// The sheet that the writer gives restores core, edition and memory, of 16-bit words, when it is
/// loaded, and has at most 14 + n + (n + 1) / 2 records of n words.
#[tactic(auto, using(crate::proofs::RoundTrip::round_trip, crate::proofs::Size::sheet_fits))]
pub fn written_sheets_load_back()
    ensures round_trip { RoundTrip }
    ensures size { SheetFits }
{}

/// A sheet that passes is refused without any one of its records: its last record is the end, and
/// counts those before it.
#[tactic(auto, using(crate::proofs::LeftOut::end_counts, crate::proofs::LeftOut::left_out, crate::proofs::Written::left_out_of_written))]
pub fn lost_records_are_refused()
    ensures end_counts { EndCounts }
    ensures left_out { LeftOut }
    ensures left_out_of_written { LeftOutOfWritten }
{}

/// Of sheets whose end counted words alone: those of words and an end give what they gave, no other
/// that passed passes, and each that passed gives what it gave once its end is redone.
#[tactic(auto, using(crate::proofs::WordRecords::both_rules))]
pub fn old_sheets_want_new_ends()
    ensures both_rules { BothRules }
{}
