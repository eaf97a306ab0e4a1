// How texts, lists, names and patterns are kept.
ghost use Rattle.std.specs.Prelude.{◌≡◌, ◌+◌, ◌*◌, ◌≤◌, true, [], ◌∷◌, ◌++◌, length, IfOk, nat_le};
ghost use Rattle.leaves.specs.Values.{read, texts_of, name_of, pattern_of};
ghost use Rattle.model.specs.Checks.{every};
ghost use Rattle.model.specs.Costs.{texts_bytes, name_bytes};
ghost use Rattle.store.specs.Spans.{span_in};
ghost use Rattle.store.specs.Pools.{pool, used, listed, Room, Takes, upto};
ghost use Rattle.store.specs.Kept.{texts_kept, name_kept, pattern_kept, text_in, list_in, name_in};

use crate::parts::Mark;
use crate::table::Table;
use crate::texts::{MOST, TextTable};
use leaves::name::Name;
use leaves::pattern::PatternElem;
use leaves::text_list::{Span, TextList};
use std::alloc::{AllocError, Global};

impl TextTable {
    // An empty table, with room for all that it may ever hold.
    pub(crate) fn new(heap: Global) -> Result<TextTable, AllocError>
        ensures { IfOk result (λ t. (used (pool t) ≡ 0) × ((pool t).bytes ≡ []) × ((pool t).spans ≡ []) × ((pool t).elems ≡ [])) }
    {
        Ok(TextTable {
            bytes: Table::new(heap)?,
            spans: Table::new(heap)?,
            elems: Table::new(heap)?,
        })
    }

    // Whether there is room for a leaf of so many bytes and keys of so many.
    pub(crate) fn has_room(&self, leaf: usize, keys: usize) -> bool
        ensures { result ≡ nat_le (used (pool self.now) + (leaf + keys)) 16384 }
    {
        let used = self.bytes.len() + (2 * self.spans.len() + 4 * self.elems.len());
        let free = MOST - used as usize;
        leaf <= free && keys <= free - leaf
    }

    // How much is in use.
    pub(crate) fn mark(&self) -> Mark
        ensures bytes { result.bytes ≡ length (pool self.now).bytes }
        ensures spans { result.spans ≡ length (pool self.now).spans }
        ensures elems { result.elems ≡ length (pool self.now).elems }
    {
        Mark {
            bytes: self.bytes.len(),
            spans: self.spans.len(),
            elems: self.elems.len(),
        }
    }

    // Lets go of what was kept since a mark.
    pub(crate) fn cut(&mut self, mark: Mark)
        requires { every (span_in (length (upto (pool self.old) mark).bytes)) (upto (pool self.old) mark).spans ≡ true }
        ensures { pool self.new ≡ upto (pool self.old) mark }
    {
        self.bytes.truncate(mark.bytes);
        self.spans.truncate(mark.spans);
        self.elems.truncate(mark.elems);
    }

    // Keeps a text, for which there is room.
    pub(crate) fn keep_text(&mut self, text: &[u8]) -> Span
        requires { Room (pool self.old) (length text.now) }
        ensures takes { Takes (pool self.old) (pool self.new) (length text.now) }
        ensures texts { listed (pool self.new) ≡ listed (pool self.old) }
        ensures text { read (pool self.new).bytes result ≡ text.now }
        ensures inside { text_in (pool self.new) result ≡ true }
    {
        let start = self.bytes.len();
        self.bytes.extend_from_slice(text);
        Span {
            start,
            len: text.len() as u32,
        }
    }

    // Keeps a text as the next of a list.
    fn keep_next(&mut self, text: &[u8])
        requires { Room (pool self.old) (length text.now + 2) }
        ensures takes { Takes (pool self.old) (pool self.new) (length text.now + 2) }
        ensures texts { listed (pool self.new) ≡ listed (pool self.old) ++ text.now ∷ [] }
    {
        let span = self.keep_text(text);
        self.spans.push(span);
    }

    // Keeps a list of texts, for which there is room.
    pub(crate) fn keep_list(&mut self, list: TextList<'_>) -> Span
        requires { Room (pool self.old) (texts_bytes (texts_of list)) }
        ensures takes { Takes (pool self.old) (pool self.new) (texts_bytes (texts_of list.entry)) }
        ensures texts { listed (pool self.new) ≡ listed (pool self.old) ++ texts_of list.entry }
        ensures len { result.len ≡ length (texts_of list.entry) }
        ensures list { texts_kept (pool self.new) result ≡ texts_of list.entry }
        ensures inside { list_in (pool self.new) result ≡ true }
    {
        let start = self.spans.len();
        for text in list {
            self.keep_next(text.0);
        }
        Span {
            start,
            len: list.len() as u32,
        }
    }

    // Keeps a name, for which there is room: its base and its namespaces as one list.
    pub(crate) fn keep_name(&mut self, name: Name<'_>) -> Span
        requires { Room (pool self.old) (name_bytes (name_of name)) }
        ensures takes { Takes (pool self.old) (pool self.new) (name_bytes (name_of name.entry)) }
        ensures name { name_kept (pool self.new) result ≡ name_of name.entry }
        ensures inside { name_in (pool self.new) result ≡ true }
    {
        let start = self.spans.len();
        self.keep_next(name.base.0);
        let namespaces = self.keep_list(name.namespaces);
        Span {
            start,
            len: namespaces.len + 1,
        }
    }

    // Keeps a pattern, for which there is room.
    pub(crate) fn keep_pattern(&mut self, pattern: &[PatternElem]) -> Span
        requires { Room (pool self.old) (4 * length (pattern_of pattern.now)) }
        ensures takes { Takes (pool self.old) (pool self.new) (4 * length (pattern_of pattern.now)) }
        ensures pattern { pattern_kept (pool self.new) result ≡ pattern_of pattern.now }
        ensures inside { span_in (length (pool self.new).elems) result ≡ true }
    {
        let start = self.elems.len();
        self.elems.extend_from_slice(pattern);
        Span {
            start,
            len: pattern.len() as u32,
        }
    }
}
