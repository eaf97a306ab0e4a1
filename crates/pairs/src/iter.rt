// Pairs one after another.
ghost use Rattle.std.specs.Iterator.{YieldsFirstBy, item_count};
ghost use Rattle.pairs.specs.Iters.{pair_now, pairs_left};

use crate::link::Link;

/// The pairs that are left, over the key bytes that go with them.
#[derive(Clone, Debug, Drop)]
pub struct Iter<'a> {
    pub(crate) bytes: &'a [u8],
    pub(crate) links: &'a [Link],
}

impl<'a> Iterator for Iter<'a> {
    type Item = (&'a [u8], u32);

    ghost next_gives = { YieldsFirstBy pair_now pairs_left };

    ghost remaining = { item_count pairs_left };

    fn next(&mut self) -> Option<(&'a [u8], u32)> {
        let (link, rest) = self.links.split_first()?;
        self.links = rest;
        Some((link.key.of(self.bytes), link.child))
    }
}
