// What is asked before a node is built.
ghost use Rattle.std.specs.Prelude.{◌≡◌, ◌+◌, ◌≤◌, true, [], length, Some};
ghost use Rattle.terms.specs.Shape.{sizes};
ghost use Rattle.terms.specs.Fold.{as_bool, join, fold};
ghost use Rattle.terms.specs.Bank.{gather, shapes, shape_at};
ghost use Rattle.model.specs.Checks.{every, there};
ghost use Rattle.codes.specs.Codes.{kind_code};
ghost use Rattle.store.specs.Branches.{branches_of};
ghost use Rattle.store.specs.Stores.{model, room_for};

use crate::branches::Branches;
use crate::call::Call;
use crate::store::Store;
use codes::kind::Kind;
use leaves::leaf::Leaf;
use leaves::literal::Literal;

impl Store {
    /// How many nodes there are.
    #[tactic(auto, using(crate::proofs::Lookups::length_model))]
    pub fn count(&self) -> u32
        ensures { result ≡ length (model self.now) }
    {
        self.nodes.len()
    }

    // Whether each of these is the number of a node.
    pub(crate) fn knows(&self, children: Branches<'_>) -> bool
        ensures { result ≡ every (there (length (model self.now))) (branches_of children.entry) }
    {
        let count = self.count();
        children.into_iter().all(|(_, child)| child < count)
    }

    // The size of a tree over these children.
    pub(crate) fn size_over(&self, children: Branches<'_>) -> u64
        requires known { every (there (length (model self.now))) (branches_of children) ≡ true }
        requires few { length (branches_of children) ≤ 64 }
        ensures { result ≡ 1 + sizes (gather (shapes (model self.now)) (branches_of children.entry)) }
    {
        // No `sum`: a closure would not know that the child is in the table.
        let mut size: u64 = 1;
        for (_, child) in children {
            size += u64::from(self.nodes.get(child).size);
        }
        size
    }

    // Whether there is room for a node with a leaf of so many bytes and these children.
    #[tactic(auto, using(crate::proofs::Lookups::length_model))]
    pub(crate) fn has_room(&self, bytes: usize, children: Branches<'_>) -> bool
        ensures { result ≡ room_for (model self.now) bytes (branches_of children.entry) }
    {
        self.nodes.has_room(1)
            && self.links.has_room(children.len())
            && self.texts.has_room(bytes, children.key_bytes())
    }

    // The boolean literal under a number, if there is one.
    fn bool_at(&self, number: u32) -> Option<bool>
        ensures { result ≡ as_bool (shape_at (model self.now) number) }
    {
        if number >= self.count() {
            return None;
        }
        match self.nodes.get(number).leaf {
            Leaf::Literal(Literal::Bool(value)) => Some(value),
            _ => None,
        }
    }

    // What And or Or over two boolean literals comes to.
    #[tactic(auto, using(crate::proofs::Folds::fold_other))]
    pub(crate) fn fold(&self, call: Call<'_>) -> Option<bool>
        ensures { result ≡ fold (kind_code call.entry.kind) (gather (shapes (model self.now)) (branches_of call.entry.children)) }
    {
        if call.children.len() != 2 {
            return None;
        }
        let (_, left) = call.children.at(0);
        let (_, right) = call.children.at(1);
        join(call.kind, self.bool_at(left)?, self.bool_at(right)?)
    }
}

// Two booleans under And or Or.
fn join(kind: Kind, left: bool, right: bool) -> Option<bool>
    ensures { result ≡ join (kind_code kind) (Some left) (Some right) }
{
    match kind {
        Kind::And => Some(left && right),
        Kind::Or => Some(left || right),
        _ => None,
    }
}
