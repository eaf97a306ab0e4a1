// Pairs of key and node.
ghost use Rattle.std.specs.Prelude.{◌≡◌, ℕ, true, [], length, IfErr, MatchResult};
ghost use Rattle.std.specs.List.{insert, slice_get};
ghost use Rattle.terms.specs.declared.refusal.Refusal.TheVariants.{Memory};
ghost use Rattle.model.specs.Checks.{keys_rise};
ghost use Rattle.model.specs.Costs.{keys_bytes};
ghost use Rattle.model.specs.Pairs.{Put};
ghost use Rattle.pairs.specs.Entries.{Draft, seen, Placing};
ghost use Rattle.pairs.specs.Iters.{pairs_left};

use crate::iter::Iter;
use crate::link::Link;
use leaves::text::compare_text;
use leaves::text_list::Span;
use std::alloc::Global;
use std::cmp::Ordering;
use std::marker::Model;
use terms::refusal::{Refusal, check_node};

// Limits of the rules; the contracts tie them to the definitions' numbers.

// The node numbers of a bank are below this.
const NODES: u32 = 512;
// The most bytes that a key may have.
const LONGEST: usize = 512;
// The most pairs.
const MOST: usize = 64;
// The most bytes that all keys may have.
const ROOM: usize = 2048;

/// At most 64 pairs, each key once. All memory is reserved from the start.
#[derive(Debug, Drop)]
pub struct Pairs {
    // the key bytes, in the order in which they were put
    bytes: Vec<u8>,
    // in ascending key order
    links: Vec<Link>,
}

impl Model for Pairs {
    ghost use Rattle.std.specs.Prelude.{List};
    ghost use Rattle.terms.specs.Bank.{Child};

    ghost Value = { List Child };

    ghost use Rattle.pairs.specs.Entries.{entries, Kept};

    ghost view = { entries };

    ghost invariant = { Kept };
}

impl Pairs {
    /// No pairs yet, with memory for all that may come.
    pub fn new(heap: Global) -> Result<Pairs, Refusal>
        ensures { MatchResult result (λ p. p ≡ []) (λ e. e ≡ Memory) }
    {
        let bytes = Vec::with_capacity(heap, ROOM)?;
        let links = Vec::with_capacity(heap, MOST)?;
        Ok(Pairs { bytes, links })
    }

    // A caller sees the list alone, so each call says in `draft` what holds of any.

    /// How many pairs.
    pub fn len(&self) -> usize
        ensures count { result ≡ length self.now }
        ensures draft { Draft self.now }
    {
        self.links.len()
    }

    /// The pair at a place, the least key first, and nothing past the end.
    pub fn get(&self, at: usize) -> Option<(&[u8], u32)>
        ensures pair { seen result ≡ slice_get self.now at }
        ensures draft { Draft self.now }
    {
        let bytes = self.bytes.as_slice();
        self.links
            .get(at)
            .map(|link| (link.key.of(bytes), link.child))
    }

    /// The pairs one after another, the least key first.
    pub fn iter(&self) -> Iter<'_>
        ensures { pairs_left result ≡ self.now }
    {
        Iter {
            bytes: self.bytes.as_slice(),
            links: self.links.as_slice(),
        }
    }

    /// The bytes of all keys.
    pub fn key_bytes(&self) -> usize
        ensures total { result ≡ keys_bytes self.now }
        ensures draft { Draft self.now }
    {
        self.bytes.len()
    }

    // Where the key stands, or the place that it would take.
    fn place(&self, key: &[u8]) -> Result<usize, usize>
        ensures place { Placing self.now key.now result }
        ensures rises { IfErr result (λ i. (n : ℕ) → keys_rise (insert self.now i (key.now, n)) ≡ true) }
    {
        // No `binary_search_by`: it goes on to the last key where one that it meets is equal.
        let mut low = 0;
        let mut high = self.links.len();
        while low < high {
            let middle = low + (high - low) / 2;
            let other = self.links[middle].key.of(self.bytes.as_slice());
            match compare_text(key, other) {
                Ordering::Less => high = middle,
                Ordering::Equal => return Ok(middle),
                Ordering::Greater => low = middle + 1,
            }
        }
        Err(low)
    }

    /// Puts a pair at its place. The node's number, the key's length, a key that stands already and want of room are
    /// refused, in this order, and then nothing changes.
    pub fn put(&mut self, key: &[u8], node: u32) -> Result<(), Refusal>
        ensures answer { Put self.old key.now node result self.new }
        ensures draft { Draft self.new }
    {
        let _ = &self.links;
        check_node(node, NODES)?;
        if key.len() > LONGEST {
            return Err(Refusal::Text);
        }
        let Err(place) = self.place(key) else {
            return Err(Refusal::Key);
        };
        let start = self.bytes.len();
        if self.links.len() >= MOST || start + key.len() > ROOM {
            return Err(Refusal::Room);
        }
        let link = Link {
            key: Span {
                start: start as u32,
                len: key.len() as u32,
            },
            child: node,
        };
        // Neither fails, since the memory is reserved.
        let _ = self.bytes.extend_from_slice(key);
        let _ = self.links.insert(place, link);
        Ok(())
    }
}
