// Names.
use crate::text::Text;
use crate::text_list::TextList;

/// A name: its base and the namespaces before it. Any texts can be given; a bank refuses those out of bounds.
#[derive(Clone, Copy, Debug, PartialEq, Eq, PartialOrd, Ord)]
pub struct Name<'a> {
    pub base: Text<'a>,
    pub namespaces: TextList<'a>,
}
