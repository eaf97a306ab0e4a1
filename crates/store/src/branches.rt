// The children of a node to build.
ghost use Rattle.std.specs.Prelude.{◌≡◌};
ghost use Rattle.store.specs.Branches.{branches_of, children_left};

use pairs::iter::Iter;
use pairs::pairs::Pairs;

pub(crate) mod reads;

/// Numbers without keys, or pairs.
#[derive(Clone, Copy, Debug)]
pub enum Branches<'a> {
    Plain(&'a [u32]),
    Keyed(&'a Pairs),
}

/// The children that are still to come, each with its key, which is empty without keys.
#[derive(Clone, Debug, Drop)]
pub enum ChildIter<'a> {
    Plain(&'a [u32]),
    Keyed(Iter<'a>),
}

impl<'a> IntoIterator for Branches<'a> {
    type Item = (&'a [u8], u32);

    type IntoIter = ChildIter<'a>;

    ghost into_iter_gives = { λ b it. children_left it ≡ branches_of b };

    fn into_iter(self) -> ChildIter<'a> {
        match self {
            Branches::Plain(numbers) => ChildIter::Plain(numbers),
            Branches::Keyed(pairs) => ChildIter::Keyed(pairs.iter()),
        }
    }
}

impl<'a> Iterator for ChildIter<'a> {
    ghost use Rattle.std.specs.Iterator.{YieldsFirstBy, item_count};
    ghost use Rattle.store.specs.Branches.{child_now, children_left};

    type Item = (&'a [u8], u32);

    ghost next_gives = { YieldsFirstBy child_now children_left };

    ghost remaining = { item_count children_left };

    fn next(&mut self) -> Option<(&'a [u8], u32)> {
        match self {
            ChildIter::Plain(numbers) => {
                let (first, rest) = numbers.split_first()?;
                *numbers = rest;
                Some((&[], *first))
            }
            ChildIter::Keyed(pairs) => pairs.next(),
        }
    }
}
