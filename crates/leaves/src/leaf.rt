// Leaves. `T` is how a text is given, `N` a name, `L` a list of texts and `P` a pattern.
ghost use Rattle.std.specs.Prelude.{◌≡◌};
ghost use Rattle.terms.specs.Terms.{Leaf as model};
ghost use Rattle.leaves.specs.Values.{leaf_of};

use crate::literal::{Literal, Unknown};
use crate::name::Name;
use crate::pattern::PatternElem;
use crate::text::Text;
use crate::text_list::TextList;

/// What a node has besides its children. A variable, a slot and an operator are codes: the kind says which.
#[derive(Clone, Copy, Debug, PartialEq, Eq)]
pub enum Leaf<T, N, L, P> {
    Nothing,
    Literal(Literal<T, N>),
    // a number and no enum: any can be given, and a bank refuses those out of range
    Code(u8),
    Unknown(Unknown<T, N>),
    Name(N),
    Text(T),
    Texts(L),
    Pattern(P),
}

/// A leaf as a caller gives it, or as it is read.
pub type Given<'a> = Leaf<Text<'a>, Name<'a>, TextList<'a>, &'a [PatternElem]>;

// Constructors by name, since `From<u8>` would not say that a number is a code.

/// No leaf.
pub fn nothing() -> Given<'static>
    ensures { result ≡ Leaf.Nothing }
{
    Leaf::Nothing
}

/// A boolean literal.
pub fn boolean(value: bool) -> Given<'static>
    ensures { result ≡ Leaf.Literal (Literal.Bool value) }
{
    Leaf::Literal(Literal::Bool(value))
}

/// A Long.
pub fn long(value: i64) -> Given<'static>
    ensures { result ≡ Leaf.Literal (Literal.Long value) }
{
    Leaf::Literal(Literal::Long(value))
}

/// A code.
pub fn code(value: u8) -> Given<'static>
    ensures { result ≡ Leaf.Code value }
{
    Leaf::Code(value)
}

/// A text.
pub fn text(value: &[u8]) -> Given<'_>
    ensures { leaf_of result ≡ model.text value.now }
{
    Leaf::Text(Text(value))
}
