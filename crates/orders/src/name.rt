// The order of names.
ghost use Rattle.std.specs.Prelude.{◌≡◌};
ghost use Rattle.terms.specs.Orders.{name_order};
ghost use Rattle.leaves.specs.Values.{name_of};

use leaves::name::Name;
use std::cmp::Ordering;

/// Names by their bases, and then by their namespaces.
pub fn compare_name(a: Name, b: Name) -> Ordering
    ensures { result ≡ name_order (name_of a.entry) (name_of b.entry) }
{
    a.cmp(&b)
}
