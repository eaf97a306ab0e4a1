// Where a node stands in a source.

/// A source by its number, and some of its bytes.
#[derive(Clone, Copy, Debug, PartialEq, Eq)]
pub struct Location {
    pub source: u32,
    pub offset: u32,
    pub len: u32,
}
