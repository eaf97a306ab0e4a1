// The order of unknowns.
ghost use Rattle.std.specs.Prelude.{◌≡◌};
ghost use Rattle.terms.specs.Compare.{option_order, pair_order};
ghost use Rattle.terms.specs.Orders.{text_order, type_order};
ghost use Rattle.leaves.specs.Values.{unknown_of};

use leaves::literal::Unknown;
use leaves::name::Name;
use leaves::text::Text;
use std::cmp::Ordering;

/// Unknowns by their names, and then by their types; no type is least.
pub fn compare_unknown(a: Unknown<Text, Name>, b: Unknown<Text, Name>) -> Ordering
    ensures { result ≡ pair_order text_order (option_order type_order) (unknown_of a.entry) (unknown_of b.entry) }
{
    a.cmp(&b)
}
