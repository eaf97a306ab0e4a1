// The calls that build nodes.
ghost use Rattle.std.specs.Prelude.{◌≡◌, true, [], length, IfOk, MatchResult};
ghost use Rattle.terms.specs.Formed.{NodeOk};
ghost use Rattle.terms.specs.Bank.{gather, shapes};
ghost use Rattle.terms.specs.declared.refusal.Refusal.TheVariants.{Memory};
ghost use Rattle.model.specs.Checks.{every, there};
ghost use Rattle.model.specs.Costs.{leaf_bytes};
ghost use Rattle.model.specs.Build.{built_plain, Built, LongOk};
ghost use Rattle.model.specs.Nodes.{numbered, fields};
ghost use Rattle.codes.specs.Codes.{kind_code};
ghost use Rattle.leaves.specs.Values.{leaf_of};
ghost use Rattle.store.specs.Branches.{branches_of};
ghost use Rattle.store.specs.Tables.{place_of};
ghost use Rattle.store.specs.Stores.{model, called, asked, checked, added, Comes};

use crate::branches::Branches;
use crate::call::Call;
use crate::location::Location;
use crate::store::Store;
use crate::table::{LinkTable, NodeTable};
use crate::texts::TextTable;
use checks::leaf::check_leaf;
use codes::kind::Kind;
use leaves::leaf::{Given, boolean, nothing, text};
use pairs::pairs::Pairs;
use std::alloc::Global;
use terms::refusal::Refusal;

// The most subexpressions that a tree may count.
const LARGEST: u64 = 65536;

impl Store {
    /// An empty store, with all the memory that it will ever need.
    pub fn new(heap: Global) -> Result<Store, Refusal>
        ensures { MatchResult result (λ b. model b ≡ []) (λ e. e ≡ Memory) }
    {
        let nodes = NodeTable::new(heap)?;
        let links = LinkTable::new(heap)?;
        let texts = TextTable::new(heap)?;
        Ok(Store {
            nodes,
            links,
            texts,
        })
    }

    // What is asked of a call: refusals 1, 2 and 3, or the bytes of the leaf.
    #[tactic(auto, using(crate::proofs::Asked::checked_leaf, crate::proofs::Asked::code_below, crate::proofs::Children::short_branches))]
    fn check(&self, call: Call<'_>) -> Result<usize, Refusal>
        ensures value { result ≡ checked (model self.now) (kind_code call.entry.kind) (leaf_of call.entry.leaf) (branches_of call.entry.children) }
        ensures long { IfOk result (λ _. LongOk (leaf_of call.entry.leaf)) }
    {
        if !self.knows(call.children) {
            return Err(Refusal::Node);
        }
        if !call.suits() {
            return Err(Refusal::Leaf);
        }
        check_leaf(call.kind, call.leaf)
    }

    // Adds a node, or refuses 7 or 8.
    fn add(&mut self, call: Call<'_>, bytes: usize) -> Result<u32, Refusal>
        requires ok { NodeOk (kind_code call.kind) (leaf_of call.leaf) (gather (shapes (model self.old)) (branches_of call.children)) }
        requires known { every (there (length (model self.old))) (branches_of call.children) ≡ true }
        requires bytes { bytes ≡ leaf_bytes (leaf_of call.leaf) }
        ensures { Comes (model self.old) (added (model self.old) (asked call.entry)) result (model self.new) }
    {
        let tally = self.size_over(call.children);
        if tally > LARGEST {
            return Err(Refusal::Size);
        }
        if !self.has_room(bytes, call.children) {
            return Err(Refusal::Room);
        }
        Ok(self.place(call, tally as u32))
    }

    // Builds a node that is no extended has of a single attribute.
    fn build_plain(&mut self, call: Call<'_>) -> Result<u32, Refusal>
        ensures { Comes (model self.old) (built_plain (model self.old) (asked call.entry)) result (model self.new) }
    {
        let bytes = self.check(call)?;
        match self.fold(call) {
            Some(value) => {
                let literal = Call {
                    kind: Kind::Lit,
                    leaf: boolean(value),
                    children: Branches::Plain(&[]),
                    at: call.at,
                };
                self.add(literal, 0)
            }
            None => self.add(call, bytes),
        }
    }

    /// Builds a node of a kind over children without keys, or refuses it.
    pub fn build(
        &mut self,
        kind: Kind,
        leaf: Given<'_>,
        children: &[u32],
        at: Option<Location>,
    ) -> Result<u32, Refusal>
        ensures { Built (model self.old) (called kind leaf.entry (numbered children.now) at) result (model self.new) }
    {
        let call = Call {
            kind,
            leaf,
            children: Branches::Plain(children),
            at,
        };
        match call.single() {
            Some(attr) => {
                let plain = Call {
                    kind: Kind::HasAttr,
                    leaf: text(attr),
                    ..call
                };
                self.build_plain(plain)
            }
            None => self.build_plain(call),
        }
    }

    /// Builds a record of pairs, or refuses it.
    pub fn record(&mut self, pairs: &Pairs, at: Option<Location>) -> Result<u32, Refusal>
        ensures { Built (model self.old) (fields pairs.now (place_of at)) result (model self.new) }
    {
        self.build_plain(Call {
            kind: Kind::Record,
            leaf: nothing(),
            children: Branches::Keyed(pairs),
            at,
        })
    }
}
