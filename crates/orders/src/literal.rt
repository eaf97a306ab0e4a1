// The order of literals.
ghost use Rattle.std.specs.Prelude.{◌≡◌};
ghost use Rattle.terms.specs.Orders.{literal_order};
ghost use Rattle.leaves.specs.Values.{literal_of};

use leaves::literal::Literal;
use leaves::name::Name;
use leaves::text::Text;
use std::cmp::Ordering;

/// Literals by their case, and then by what they hold; Longs as signed numbers.
pub fn compare_literal(a: Literal<Text, Name>, b: Literal<Text, Name>) -> Ordering
    ensures { result ≡ literal_order (literal_of a.entry) (literal_of b.entry) }
{
    a.cmp(&b)
}
