// Patterns.
ghost use Rattle.std.specs.Prelude.{◌≡◌, ◌*◌, ◌&&◌, true, length, nat_le};
ghost use Rattle.leaves.specs.Values.{elem_of, pattern_of};
ghost use Rattle.model.specs.Checks.{elem_fits, every};

use crate::part::Part;
use leaves::pattern::PatternElem;

// The most elements that a pattern may have.
const MAX_ELEMS: usize = 256;

impl Part for &[PatternElem] {
    ghost fits = { λ p. nat_le (length (pattern_of p.now)) 256 && every elem_fits (pattern_of p.now) };

    ghost short = { λ p. true };

    ghost bytes = { λ p. 4 * length (pattern_of p.now) };

    ghost max_bytes = { 4 * 256 };

    // There are few enough elements, and each is in range.
    fn fits(self) -> bool {
        self.len() <= MAX_ELEMS && self.iter().all(|&elem| elem_fits(elem))
    }

    fn short(self) -> bool {
        true
    }

    // Each element takes four.
    fn bytes(self) -> usize {
        4 * self.len()
    }
}

// Whether a scalar is a Unicode scalar value: no surrogate, and none past the last.
fn elem_fits(elem: PatternElem) -> bool
    ensures { result ≡ elem_fits (elem_of elem) }
{
    match elem {
        PatternElem::Scalar(n) => char::from_u32(n).is_some(),
        PatternElem::Wildcard => true,
    }
}
