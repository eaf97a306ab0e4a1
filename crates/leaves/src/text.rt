// Texts, and their order.
ghost use Rattle.std.specs.Prelude.{◌≡◌};
ghost use Rattle.std.proofs.Common.{refl};
ghost use Rattle.std.specs.Cmp.{partial_order_from_total};
ghost use Rattle.std.specs.Ordering.{eq_by_cmp, as_partial_cmp};
ghost use Rattle.terms.specs.Orders.{text_order};
ghost use Rattle.leaves.specs.Texts.{text_cmp, text_total, text_partial, text_equiv};

use std::cmp::Ordering;

/// A text: some bytes. Any can be given; a bank refuses those out of bounds.
#[derive(Clone, Copy, Debug)]
pub struct Text<'a>(pub &'a [u8]);

// The one place where bytes are ordered, in the form that the rules ask for.
/// Texts by their first bytes, and then by the rest of each; the empty text is least.
pub fn compare_text(a: &[u8], b: &[u8]) -> Ordering
    ensures { result ≡ text_order a.now b.now }
{
    match (a, b) {
        ([], []) => Ordering::Equal,
        ([], [_, ..]) => Ordering::Less,
        ([_, ..], []) => Ordering::Greater,
        ([x, xs @ ..], [y, ys @ ..]) => match x.cmp(y) {
            Ordering::Equal => compare_text(xs, ys),
            unequal => unequal,
        },
    }
}

// Written out, since a derive would order the bytes by the library's order of slices.
impl PartialEq for Text<'_> {
    ghost eq = { eq_by_cmp text_cmp };

    ghost laws = { text_partial };

    fn eq(&self, other: &Self) -> bool {
        self.cmp(other).is_eq()
    }
}

impl Eq for Text<'_> {
    ghost laws = { text_equiv };
}

impl PartialOrd for Text<'_> {
    ghost partial_cmp = { as_partial_cmp text_cmp };

    ghost laws = { partial_order_from_total text_total };

    fn partial_cmp(&self, other: &Self) -> Option<Ordering> {
        Some(self.cmp(other))
    }
}

impl Ord for Text<'_> {
    ghost cmp = { text_cmp };

    ghost total = { text_total };

    ghost matches_partial_cmp = { λ x y. refl };

    ghost matches_eq = { λ x y. refl };

    fn cmp(&self, other: &Self) -> Ordering {
        compare_text(self.0, other.0)
    }
}
