// The elements of patterns.

/// A Unicode scalar value by its number, or the wildcard. Any number can be given; a bank refuses those out of range.
#[derive(Clone, Copy, Debug, PartialEq, Eq, PartialOrd, Ord)]
pub enum PatternElem {
    Scalar(u32),
    Wildcard,
}
