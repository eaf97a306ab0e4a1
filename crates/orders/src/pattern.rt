// The order of patterns.
ghost use Rattle.std.specs.Prelude.{◌≡◌};
ghost use Rattle.terms.specs.Compare.{list_order};
ghost use Rattle.terms.specs.Orders.{elem_order};
ghost use Rattle.leaves.specs.Values.{elem_of, pattern_of};

use leaves::pattern::PatternElem;
use std::cmp::Ordering;

/// Scalars as numbers; the wildcard is above them.
pub fn compare_elem(a: PatternElem, b: PatternElem) -> Ordering
    ensures { result ≡ elem_order (elem_of a) (elem_of b) }
{
    a.cmp(&b)
}

/// Patterns element by element; one that begins another is less.
pub fn compare_pattern(a: &[PatternElem], b: &[PatternElem]) -> Ordering
    ensures { result ≡ list_order elem_order (pattern_of a.now) (pattern_of b.now) }
{
    a.cmp(b)
}
