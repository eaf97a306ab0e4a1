// The order of lists of texts.
ghost use Rattle.std.specs.Prelude.{◌≡◌};
ghost use Rattle.terms.specs.Orders.{texts_order};
ghost use Rattle.leaves.specs.Values.{texts_of};

use leaves::text_list::TextList;
use std::cmp::Ordering;

/// Lists of texts member by member; one that begins another is less.
pub fn compare_texts(a: TextList, b: TextList) -> Ordering
    ensures { result ≡ texts_order (texts_of a.entry) (texts_of b.entry) }
{
    a.cmp(&b)
}
