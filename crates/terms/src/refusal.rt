// Why a call is turned down.
ghost use Rattle.std.specs.Prelude.{◌≡◌, Some};
ghost use Rattle.terms.specs.Refusals.{number, known, said};
ghost use Rattle.terms.specs.declared.refusal.Refusal.TheVariants.{Memory};

use crate::types::Type;
use std::alloc::{AllocError, AllocFailed};
use std::error::Error;
use std::fmt;

/// The table of refusals, and want of memory, which has no number in it. A type's name is read in the bank: at the node of
/// that number, whose leaf has it.
#[derive(Clone, Copy, Debug, PartialEq, Eq)]
pub enum Refusal {
    Node,
    Leaf,
    Text,
    Key,
    Answer,
    Type {
        expected: Type<u32>,
        actual: Type<u32>,
    },
    Size,
    Room,
    Memory,
}

impl Refusal {
    // No `From`: want of memory has no number.
    /// The refusal's number in the table.
    pub fn number(self) -> Option<u8>
        ensures { result ≡ number self }
    {
        match self {
            Refusal::Node => Some(1),
            Refusal::Leaf => Some(2),
            Refusal::Text => Some(3),
            Refusal::Key => Some(4),
            Refusal::Answer => Some(5),
            Refusal::Type { .. } => Some(6),
            Refusal::Size => Some(7),
            Refusal::Room => Some(8),
            Refusal::Memory => None,
        }
    }
}

impl fmt::Display for Refusal {
    ghost output = { λ r. Some (said r) };

    fn fmt<W: fmt::Write>(&self, f: &mut fmt::Formatter<W>) -> fmt::Result {
        f.write_str(match self {
            Refusal::Node => "refused 1 (node)",
            Refusal::Leaf => "refused 2 (leaf)",
            Refusal::Text => "refused 3 (text)",
            Refusal::Key => "refused 4 (key)",
            Refusal::Answer => "refused 5 (answer)",
            Refusal::Type { .. } => "refused 6 (type)",
            Refusal::Size => "refused 7 (size)",
            Refusal::Room => "refused 8 (room)",
            Refusal::Memory => "out of memory",
        })
    }
}

impl Error for Refusal {}

impl From<AllocError> for Refusal {
    ghost from_gives = { λ _ r. r ≡ Memory };

    fn from(_e: AllocError) -> Refusal {
        Refusal::Memory
    }
}

impl<T: Drop> From<AllocFailed<T>> for Refusal {
    ghost from_gives = { λ _ r. r ≡ Memory };

    fn from(failed: AllocFailed<T>) -> Refusal {
        Refusal::from(AllocError::from(failed))
    }
}

/// Refusal 1 unless a node's number is below the count.
pub fn check_node(number: u32, count: u32) -> Result<(), Refusal>
    ensures { result ≡ known number count }
{
    if number < count {
        Ok(())
    } else {
        Err(Refusal::Node)
    }
}
