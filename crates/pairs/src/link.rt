// A pair as it is kept.
use leaves::text_list::Span;

/// A node with its key: some bytes among the key bytes that go with it.
#[derive(Clone, Copy, Debug, PartialEq, Eq)]
pub struct Link {
    pub key: Span,
    pub child: u32,
}
