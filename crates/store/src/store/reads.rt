// What is read of a store.
ghost use Rattle.std.specs.Prelude.{◌≡◌, ◌<◌, length};
ghost use Rattle.store.specs.Stores.{model};
ghost use Rattle.store.specs.Reads.{Viewed, Linked};

use crate::store::Store;
use crate::view::View;
use terms::refusal::{Refusal, check_node};

impl Store {
    /// A node, or refusal 1.
    pub fn view(&self, number: u32) -> Result<View<'_>, Refusal>
        ensures { Viewed (model self.now) number result }
    {
        check_node(number, self.count())?;
        let node = self.nodes.get(number);
        Ok(View {
            kind: node.kind,
            leaf: self.texts.leaf(node.leaf),
            degree: node.links.len,
            size: node.size,
            location: node.place,
        })
    }

    /// A child with its key, which is empty but in records; nothing past the last child; refusal 1 for a missing node.
    pub fn link(&self, number: u32, place: u32) -> Result<Option<(&[u8], u32)>, Refusal>
        ensures value { Linked (model self.now) number place result }
    {
        check_node(number, self.count())?;
        let node = self.nodes.get(number);
        if place >= node.links.len {
            return Ok(None);
        }
        let link = self.links.get(node.links.start + place);
        Ok(Some((self.texts.text(link.key).0, link.child)))
    }
}
