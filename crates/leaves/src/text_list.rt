// Lists of texts.
ghost use Rattle.std.specs.Prelude.{◌≡◌, length};
ghost use Rattle.std.proofs.Common.{refl};
ghost use Rattle.std.specs.Cmp.{partial_order_from_total};
ghost use Rattle.std.specs.Iterator.{YieldsFirstBy, item_count};
ghost use Rattle.std.specs.List.{slice_get};
ghost use Rattle.std.specs.Option.{option_map};
ghost use Rattle.std.specs.Ordering.{eq_by_cmp, as_partial_cmp};
ghost use Rattle.leaves.specs.Values.{read, texts_of};
ghost use Rattle.leaves.specs.Texts.{text_of};
ghost use Rattle.leaves.specs.Lists.{texts_left, list_cmp, list_total, list_partial, list_equiv};

use crate::text::Text;
use std::cmp::Ordering;

/// Some members among many.
#[derive(Clone, Copy, Debug, PartialEq, Eq)]
pub struct Span {
    pub start: u32,
    pub len: u32,
}

impl Span {
    /// The members of the span, as far as there are any.
    pub fn of<T>(self, members: &[T]) -> &[T]
        ensures { result.now ≡ read members.now self }
    {
        let start = members.len().min(self.start as usize);
        let end = start + (members.len() - start).min(self.len as usize);
        &members[start..end]
    }
}

/// A list of texts: as a caller gives it, or as spans of one run of bytes.
#[derive(Clone, Copy, Debug)]
pub enum TextList<'a> {
    Given(&'a [&'a [u8]]),
    Kept(&'a [u8], &'a [Span]),
}

impl<'a> TextList<'a> {
    /// How many texts.
    pub fn len(self) -> usize
        ensures { result ≡ length (texts_of self.entry) }
    {
        match self {
            TextList::Given(texts) => texts.len(),
            TextList::Kept(_, spans) => spans.len(),
        }
    }

    /// The text at a place, and nothing past the end.
    pub fn get(self, at: usize) -> Option<&'a [u8]>
        ensures { option_map (λ x. x.now) result ≡ slice_get (texts_of self.entry) at }
    {
        match self {
            TextList::Given(texts) => texts.get(at).copied(),
            TextList::Kept(bytes, spans) => spans.get(at).map(|span| span.of(bytes)),
        }
    }

    /// The texts, one after another.
    pub fn iter(self) -> Texts<'a>
        ensures { texts_left result ≡ texts_of self.entry }
    {
        self.into_iter()
    }
}

/// The texts of a list that are left.
#[derive(Clone, Debug, Drop)]
pub struct Texts<'a> {
    rest: TextList<'a>,
}

impl<'a> Iterator for Texts<'a> {
    type Item = Text<'a>;

    ghost next_gives = { YieldsFirstBy text_of texts_left };

    ghost remaining = { item_count texts_left };

    fn next(&mut self) -> Option<Text<'a>> {
        match self.rest {
            TextList::Given([first, rest @ ..]) => {
                self.rest = TextList::Given(rest);
                Some(Text(first))
            }
            TextList::Kept(bytes, [first, rest @ ..]) => {
                self.rest = TextList::Kept(bytes, rest);
                Some(Text(first.of(bytes)))
            }
            _ => None,
        }
    }
}

impl<'a> IntoIterator for TextList<'a> {
    type Item = Text<'a>;

    type IntoIter = Texts<'a>;

    ghost into_iter_gives = { λ list it. texts_left it ≡ texts_of list };

    fn into_iter(self) -> Texts<'a> {
        Texts { rest: self }
    }
}

// Written out, since lists are compared by their texts, whether given or kept.
impl PartialEq for TextList<'_> {
    ghost eq = { eq_by_cmp list_cmp };

    ghost laws = { list_partial };

    fn eq(&self, other: &Self) -> bool {
        self.cmp(other).is_eq()
    }
}

impl Eq for TextList<'_> {
    ghost laws = { list_equiv };
}

impl PartialOrd for TextList<'_> {
    ghost partial_cmp = { as_partial_cmp list_cmp };

    ghost laws = { partial_order_from_total list_total };

    fn partial_cmp(&self, other: &Self) -> Option<Ordering> {
        Some(self.cmp(other))
    }
}

impl Ord for TextList<'_> {
    ghost cmp = { list_cmp };

    ghost total = { list_total };

    ghost matches_partial_cmp = { λ x y. refl };

    ghost matches_eq = { λ x y. refl };

    fn cmp(&self, other: &Self) -> Ordering {
        self.iter().cmp(other.iter())
    }
}
