// The order of types.
ghost use Rattle.std.specs.Prelude.{◌≡◌};
ghost use Rattle.terms.specs.Orders.{type_order};
ghost use Rattle.leaves.specs.Values.{type_of};

use leaves::name::Name;
use std::cmp::Ordering;
use terms::types::Type;

/// Types by their codes, and then by their names.
pub fn compare_type(a: Type<Name>, b: Type<Name>) -> Ordering
    ensures { result ≡ type_order (type_of a.entry) (type_of b.entry) }
{
    a.cmp(&b)
}
