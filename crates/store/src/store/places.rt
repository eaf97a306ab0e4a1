// How a node is put into the tables.
ghost use Rattle.std.specs.Prelude.{◌≡◌, ◌+◌, ◌≤◌, [], ◌∷◌, ◌++◌, length};
ghost use Rattle.terms.specs.Shape.{size};
ghost use Rattle.terms.specs.Bank.{shape_of, shapes};
ghost use Rattle.model.specs.Costs.{keys_bytes};
ghost use Rattle.model.specs.Build.{Fitting};
ghost use Rattle.store.specs.Pools.{pool, Room, Takes};
ghost use Rattle.store.specs.Branches.{branches_of};
ghost use Rattle.store.specs.Stores.{model, asked, Entered};

use crate::branches::Branches;
use crate::call::Call;
use crate::parts::Node;
use crate::store::Store;
use crate::table::LinkTable;
use crate::texts::TextTable;
use leaves::text_list::Span;
use pairs::link::Link;

// Keeps the keys and the links of a node's children, for which there is room, and says where they begin.
fn keep_links(links: &mut LinkTable, texts: &mut TextTable, children: Branches<'_>) -> u32
    requires links { length links.old + length (branches_of children) ≤ 1024 }
    requires bytes { Room (pool texts.old) (keys_bytes (branches_of children)) }
    ensures entered { Entered links.old links.new (pool texts.new) (branches_of children.entry) }
    ensures takes { Takes (pool texts.old) (pool texts.new) (keys_bytes (branches_of children.entry)) }
    ensures first { result ≡ length links.old }
{
    let first = links.len();
    for (key, child) in children {
        let span = texts.keep_text(key);
        links.push(Link { key: span, child });
    }
    first
}

impl Store {
    // Puts a node that has been checked.
    pub(crate) fn place(&mut self, call: Call<'_>, tally: u32) -> u32
        requires fits { Fitting (model self.old) (asked call) }
        requires size { tally ≡ size (shape_of (shapes (model self.old)) (asked call)) }
        ensures number { result ≡ length (model self.old) }
        ensures after { model self.new ≡ model self.old ++ asked call.entry ∷ [] }
    {
        let mark = self.texts.mark();
        let kept = self.texts.keep(call.leaf);
        let len = call.children.len() as u32;
        let start = keep_links(&mut self.links, &mut self.texts, call.children);
        self.nodes.push(Node {
            kind: call.kind,
            leaf: kept,
            links: Span { start, len },
            size: tally,
            place: call.at,
            mark,
        })
    }
}
