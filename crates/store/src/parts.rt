// The rows of the tables.
use crate::location::Location;
use codes::kind::Kind;
use leaves::leaf::Leaf;
use leaves::text_list::Span;

/// How much of the text table was in use.
#[derive(Clone, Copy, Debug, PartialEq, Eq)]
pub struct Mark {
    pub bytes: u32,
    pub spans: u32,
    pub elems: u32,
}

/// A leaf as it is kept in the text table: a text is a span of its bytes, a name or a list a span of its spans, a pattern a span of its elements.
pub type Kept = Leaf<Span, Span, Span, Span>;

/// A node as it is kept: its links are a span of the link table.
#[derive(Clone, Copy, Debug, PartialEq, Eq)]
pub struct Node {
    pub kind: Kind,
    pub leaf: Kept,
    pub links: Span,
    pub size: u32,
    pub place: Option<Location>,
    pub mark: Mark,
}
