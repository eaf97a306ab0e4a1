// What comes of the lines of a catalogue.
ghost use Rattle.std.specs.Prelude.{◌≡◌, ◌+◌, true, length, map, vec_items, vec_len};
ghost use Rattle.terms.specs.Orders.{text_order};
ghost use Rattle.catalogue.specs.Placed.{rises};

use catalogue::names::Catalogue;

pub mod notes;

/// A line of more bytes than a name may have: its number, from one on, and its bytes.
#[derive(Clone, Copy, Debug, PartialEq, Eq)]
pub struct LongLine {
    pub number: u64,
    pub bytes: usize,
}

/// The names kept, the lines refused, and how many lines were read and names repeated. Each line read is of one of the three sorts, and the names ascend.
#[derive(Debug, Drop)]
pub struct Ledger {
    pub catalogue: Catalogue,
    pub refused: Vec<LongLine>,
    pub read: u64,
    pub repeated: u64,
    ghost adds: { read ≡ length catalogue + repeated + vec_len refused },
    ghost ascends: { rises text_order (map vec_items catalogue) ≡ true },
}
