//! How the leaves of a condition tree are fed to a hasher.
#![tactic(auto)]

ghost use Rattle.std.specs.Prelude.{◌≡◌, ◌++◌, ℕ, List};
ghost use Rattle.std.specs.Option.{option_map};
ghost use Rattle.std.specs.Int.{w64};
ghost use Rattle.std.proofs.Common.{of_z};
ghost use Rattle.terms.specs.Feed.{bytes as le_bytes, feed_elem, feed_length, feed_list, feed_literal, feed_name, feed_number, feed_option, feed_text, feed_type};
ghost use Rattle.leaves.specs.Texts.{text_of};
ghost use Rattle.leaves.specs.Values.{elem_of, literal_of, name_of, pattern_of, texts_of, type_of};
ghost use Rattle.terms.specs.Hashers.{fed};

use hashers::hasher::Hasher;
use leaves::literal::{Literal, Unknown};
use leaves::name::Name;
use leaves::pattern::PatternElem;
use leaves::text::Text;
use leaves::text_list::TextList;
use terms::types::Type;

// The mark before an element of a pattern.
#[derive(Clone, Copy)]
enum ElemMark {
    Scalar = 0,
    Wildcard = 1,
}

// The mark before a type, or in place of one.
#[derive(Clone, Copy)]
enum TypeMark {
    None = 0,
    Some = 1,
}

// The mark before a literal.
#[derive(Clone, Copy)]
enum LiteralMark {
    Bool = 0,
    Long = 1,
    String = 2,
    Entity = 3,
}

/// What can be fed to a hasher.
pub trait Feed {
    // The bytes that a value is fed as.
    ghost bytes: { Self → List ℕ };

    /// Feeds the bytes of the value.
    fn feed<H: Hasher>(&self, h: &mut H)
        ensures { H.state h.new ≡ fed H.next (H.state h.old) (bytes self.now) };
}

/// How many members a list has: eight bytes, least first.
#[derive(Clone, Copy, Debug, PartialEq, Eq)]
pub struct Count(pub u64);

impl Feed for Count {
    ghost bytes = { λ n. feed_number n.0 };

    fn feed<H: Hasher>(&self, h: &mut H) {
        let Count(n) = self;
        h.write_all(&n.to_le_bytes());
    }
}

// Apart from `Count`, since one of the two encodings may change alone.
/// How long a text is: eight bytes, least first.
#[derive(Clone, Copy, Debug, PartialEq, Eq)]
pub struct Length(pub u64);

impl Feed for Length {
    ghost bytes = { λ n. feed_length n.0 };

    fn feed<H: Hasher>(&self, h: &mut H) {
        let Length(len) = self;
        h.write_all(&len.to_le_bytes());
    }
}

/// A Long: eight bytes, least first, in two's complement.
impl Feed for i64 {
    ghost bytes = { λ z. le_bytes 8 (of_z w64 z) };

    fn feed<H: Hasher>(&self, h: &mut H) {
        h.write_all(&self.to_le_bytes());
    }
}

/// A text: its length, then its bytes.
impl Feed for Text<'_> {
    ghost bytes = { λ t. feed_text (text_of t) };

    fn feed<H: Hasher>(&self, h: &mut H) {
        Length(self.0.len() as u64).feed(h);
        h.write_all(self.0);
    }
}

/// Texts: how many, then each.
impl Feed for TextList<'_> {
    ghost bytes = { λ ts. feed_list feed_text (texts_of ts) };

    fn feed<H: Hasher>(&self, h: &mut H) {
        Count(self.len() as u64).feed(h);
        for text in self.iter() {
            text.feed(h);
        }
    }
}

/// A name: the base, then the namespaces.
impl Feed for Name<'_> {
    ghost bytes = { λ n. feed_name (name_of n) };

    fn feed<H: Hasher>(&self, h: &mut H) {
        self.base.feed(h);
        self.namespaces.feed(h);
    }
}

/// An element of a pattern: a mark, and a scalar's four bytes, least first.
impl Feed for PatternElem {
    ghost bytes = { λ e. feed_elem (elem_of e) };

    fn feed<H: Hasher>(&self, h: &mut H) {
        match self {
            PatternElem::Scalar(scalar) => {
                h.write(ElemMark::Scalar as u8);
                h.write_all(&scalar.to_le_bytes());
            }
            PatternElem::Wildcard => h.write(ElemMark::Wildcard as u8),
        }
    }
}

/// A pattern: how many elements, then each.
impl Feed for &[PatternElem] {
    ghost bytes = { λ p. feed_list feed_elem (pattern_of p.now) };

    fn feed<H: Hasher>(&self, h: &mut H) {
        // The lines of `TextList` again: one function for both would need clauses on the iterator's end.
        let elems = *self;
        Count(elems.len() as u64).feed(h);
        for elem in elems {
            elem.feed(h);
        }
    }
}

/// A type: its number, and its name, where it has one.
impl Feed for Type<Name<'_>> {
    ghost bytes = { λ t. feed_type (type_of t) };

    fn feed<H: Hasher>(&self, h: &mut H) {
        h.write(self.code());
        if let Some(name) = self.name() {
            name.feed(h);
        }
    }
}

/// A mark, and the type where there is one.
impl Feed for Option<Type<Name<'_>>> {
    ghost bytes = { λ o. feed_option feed_type (option_map type_of o) };

    fn feed<H: Hasher>(&self, h: &mut H) {
        match self {
            None => h.write(TypeMark::None as u8),
            Some(t) => {
                h.write(TypeMark::Some as u8);
                t.feed(h);
            }
        }
    }
}

/// A literal: its case, then what it holds.
impl Feed for Literal<Text<'_>, Name<'_>> {
    ghost bytes = { λ l. feed_literal (literal_of l) };

    fn feed<H: Hasher>(&self, h: &mut H) {
        match self {
            Literal::Bool(b) => {
                h.write(LiteralMark::Bool as u8);
                h.write(u8::from(*b));
            }
            Literal::Long(z) => {
                h.write(LiteralMark::Long as u8);
                z.feed(h);
            }
            Literal::String(t) => {
                h.write(LiteralMark::String as u8);
                t.feed(h);
            }
            Literal::Entity(n, t) => {
                h.write(LiteralMark::Entity as u8);
                n.feed(h);
                t.feed(h);
            }
        }
    }
}

/// An unknown: its name, then its type, if it has one.
impl Feed for Unknown<Text<'_>, Name<'_>> {
    ghost bytes = { λ u. feed_text (text_of u.name) ++ feed_option feed_type (option_map type_of u.type_annotation) };

    fn feed<H: Hasher>(&self, h: &mut H) {
        self.name.feed(h);
        self.type_annotation.feed(h);
    }
}
