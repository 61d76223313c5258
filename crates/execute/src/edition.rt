//! The two editions of the instruction set (docs/MACHINE.md, Editions).
ghost use Rattle.std.specs.Prelude.{◌≡◌};
ghost use Rattle.execute.specs.Edition.{edition_at};

/// An edition of the instruction set. The two differ in four instructions.
#[derive(Clone, Copy, Debug, PartialEq, Eq)]
pub enum Edition {
    /// Stops at a shift or a bit index of 16 or more (13) and at the negation of 0x8000 (14).
    First,
    /// Never stops there: such a shift gives 0, such a `bitset` leaves its register, and `neg` of
    /// 0x8000 is 0x8000.
    Second,
}

impl Edition {
    /// The edition of that number, 1 or 2, or none of any other (test 34 of docs/NUMBERS.md).
    #[tactic(auto, unfolding(crate::specs::Edition::refused_edition, crate::specs::Edition::edition_of))]
    pub fn at(number: u16) -> Option<Edition>
        ensures { result ≡ edition_at number }
    {
        match number {
            1 => Some(Edition::First),
            2 => Some(Edition::Second),
            _ => None,
        }
    }
}
