//! Rights over memory's pages: a byte for each page of 256 addresses, or none, where every page has
//! every right (docs/MACHINE.md, Rights).
ghost use Rattle.std.specs.Prelude.{◌≡◌, Result, Ok, Err};
ghost use Rattle.memory.specs.Rights.{bytes_of, has_right, right_of, tested_bytes, rights_test};

use crate::log::Purpose;
use crate::refusal::Refusal;

/// The rights bytes of a run, one for each page from 0 on; with `None` every page has every right.
pub type Rights<'a> = Option<&'a [u8; 256]>;

/// A right, with its value in a page's byte, which is the sum of those that the page has.
#[derive(Clone, Copy, Debug, PartialEq, Eq)]
pub enum Right {
    /// For every read but a fetch.
    Read = 1,
    /// For a write.
    Write = 2,
    /// For a fetch.
    Execute = 4,
}

impl Purpose {
    /// The right that a read for it needs.
    pub fn right(self) -> Right
        ensures { result ≡ right_of self }
    {
        match self {
            Purpose::Fetch => Right::Execute,
            Purpose::Read => Right::Read,
        }
    }
}

/// Whether an address's page has a right.
#[tactic(auto, unfolding(crate::specs::Rights::has_right))]
pub fn has_right(rights: Rights<'_>, right: Right, address: u16) -> bool
    ensures { result ≡ has_right (bytes_of rights.entry) right address }
{
    let Some(bytes) = rights else {
        return true;
    };
    bytes[usize::from(address) / 256] / right as u8 % 2 == 1
}

/// Host test 32: there are 256 rights bytes, none above 7.
pub fn check_rights(rights: &[u8]) -> Result<&[u8; 256], Refusal>
    ensures { tested_bytes result ≡ rights_test rights.now }
{
    let Ok(bytes) = <&[u8; 256]>::try_from(rights) else {
        return Err(Refusal::Rights);
    };
    if bytes.iter().any(|byte| *byte > 7) {
        return Err(Refusal::Rights);
    }
    Ok(bytes)
}
