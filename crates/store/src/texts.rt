// The text table: the bytes of all texts, the spans of the texts of lists, and the elements of patterns. A text of a list takes two bytes
// more than it has, and an element four.
ghost use Rattle.std.specs.Prelude.{◌≡◌, ◌+◌, ◌*◌, ◌≤◌, true, length};
ghost use Rattle.model.specs.Checks.{every};
ghost use Rattle.store.specs.Spans.{span_in};

use crate::table::Table;
use leaves::pattern::PatternElem;
use leaves::text_list::Span;

mod keeps;
mod reads;
mod stores;

pub const MOST: usize = 16384;

#[derive(Debug, Drop)]
pub struct TextTable {
    bytes: Table<u8, 16384>,
    spans: Table<Span, 8192>,
    elems: Table<PatternElem, 4096>,
    ghost within: { length bytes + (2 * length spans + 4 * length elems) ≤ 16384 },
    ghost inside: { every (span_in (length bytes)) spans ≡ true },
}
