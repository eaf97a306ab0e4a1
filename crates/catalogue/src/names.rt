// Names in order, each once.
ghost use Rattle.std.specs.Prelude.{◌≡◌, ℕ, true, List, [], map, vec_items, Vec};
ghost use Rattle.std.specs.declared.alloc.Global.{Global};
ghost use Rattle.terms.specs.Orders.{text_order};
ghost use Rattle.catalogue.specs.Placed.{rises};
ghost use Rattle.catalogue.specs.Puts.{texts, Placing, Puts, Settles};

use crate::entry::Entry;
use leaves::text::compare_text;
use std::alloc::Global;
use std::cmp::Ordering;
use std::marker::Model;
use terms::refusal::Refusal;

// The most bytes that a name may have.
const LONGEST: usize = 512;

/// Names in strictly ascending order of texts.
#[derive(Debug, Drop)]
pub struct Catalogue {
    names: Vec<Vec<u8>>,
}

impl Model for Catalogue {
    ghost Value = { List (Vec ℕ Global) };

    ghost view = { λ c. c.names.items };

    ghost invariant = { λ c. rises text_order (texts c.names) ≡ true };
}

impl Catalogue {
    /// No names.
    pub fn new(heap: Global) -> Catalogue
        ensures { result ≡ [] }
    {
        Catalogue {
            names: Vec::new(heap),
        }
    }

    /// The names, the least first.
    pub fn names(&self) -> &[Vec<u8>]
        ensures value { result.now ≡ self.now }
        ensures ascend { rises text_order (map vec_items result.now) ≡ true }
    {
        self.names.as_slice()
    }

    // Where the name stands, or the place that it would take.
    fn place(&self, name: &[u8]) -> Result<usize, usize>
        ensures { Placing (map vec_items self.now) name.now result }
    {
        // No `binary_search_by`: it compares as often where the name is met at once, and names are mostly repeats.
        let mut low = 0;
        let mut high = self.names.len();
        while low < high {
            let middle = low + (high - low) / 2;
            match compare_text(name, self.names[middle].as_slice()) {
                Ordering::Less => high = middle,
                Ordering::Equal => return Ok(middle),
                Ordering::Greater => low = middle + 1,
            }
        }
        Err(low)
    }

    /// Puts a name at its place, unless it stands there already. More than 512 bytes are refused as text, and then, or without memory, nothing changes.
    pub fn put(&mut self, name: &[u8]) -> Result<Entry, Refusal>
        ensures value { Puts (map vec_items self.old) name.now result (map vec_items self.new) }
        ensures settles { Settles (map vec_items self.old) name.now result (map vec_items self.new) }
        ensures ascend { rises text_order (map vec_items self.new) ≡ true }
    {
        let _ = &self.names;
        if name.len() > LONGEST {
            return Err(Refusal::Text);
        }
        let Err(place) = self.place(name) else {
            return Ok(Entry::Repeated);
        };
        let copy = Vec::from_slice(*self.names.allocator(), name)?;
        self.names.insert(place, copy)?;
        Ok(Entry::Kept)
    }
}
