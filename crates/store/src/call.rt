// A call for a node.
ghost use Rattle.std.specs.Prelude.{◌≡◌};
ghost use Rattle.std.specs.Option.{option_map};
ghost use Rattle.model.specs.Made.{single};
ghost use Rattle.codes.specs.Codes.{kind_code};
ghost use Rattle.leaves.specs.Values.{leaf_of};
ghost use Rattle.store.specs.Branches.{branches_of, Drafted};
ghost use Rattle.store.specs.Stores.{children_fit};

use crate::branches::Branches;
use crate::location::Location;
use codes::kind::{Children, Kind};
use leaves::leaf::{Given, Leaf};

// The most children of a list.
const LONGEST: usize = 64;

// What a node is to be built of.
#[derive(Clone, Copy, Debug)]
pub(crate) struct Call<'a> {
    pub kind: Kind,
    pub leaf: Given<'a>,
    pub children: Branches<'a>,
    pub at: Option<Location>,
}

impl<'a> Call<'a> {
    // The attribute of an extended has of a single one.
    pub(crate) fn single(self) -> Option<&'a [u8]>
        ensures { option_map (λ x. x.now) result ≡ single (kind_code self.entry.kind) (leaf_of self.entry.leaf) }
    {
        match (self.kind, self.leaf) {
            (Kind::ExtHasAttr, Leaf::Texts(texts)) if texts.len() == 1 => texts.get(0),
            _ => None,
        }
    }

    // Whether the children are as the kind has them.
    pub(crate) fn suits(self) -> bool
        ensures fit { result ≡ children_fit (kind_code self.entry.kind) (branches_of self.entry.children) }
        ensures drafted { Drafted self.entry.children }
    {
        let many = self.children.len();
        match self.kind.children() {
            Children::Exactly(count) => many == count as usize && self.children.keyless(),
            Children::Many => many <= LONGEST && self.children.keyless(),
            Children::Keyed => many <= LONGEST && self.children.rise(),
        }
    }
}
