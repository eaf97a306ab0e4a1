// A node as it is read.
use crate::location::Location;
use codes::kind::Kind;
use leaves::leaf::Given;

/// A node's kind, its leaf, how many children it has, how many subexpressions its tree counts, and its location.
#[derive(Clone, Copy, Debug, PartialEq, Eq)]
pub struct View<'a> {
    pub kind: Kind,
    pub leaf: Given<'a>,
    pub degree: u32,
    pub size: u32,
    pub location: Option<Location>,
}
