// A table of rows: the nodes, their children one after another, or what the text table holds.
ghost use Rattle.std.specs.Prelude.{◌≡◌, ◌+◌, ◌<◌, ◌≤◌, [], ◌∷◌, ◌++◌, length, take, IfOk, nat_le, slice_index_or};

use crate::parts::Node;
use pairs::link::Link;
use std::alloc::{AllocError, Global};
use std::marker::Model;

/// At most so many rows. All memory is reserved from the start.
#[derive(Debug, Drop)]
pub struct Table<T, const MOST: u32> {
    rows: Vec<T>,
}

// Clauses see the rows.
impl<T, const MOST: u32> Model for Table<T, MOST> {
    ghost use Rattle.std.specs.Prelude.{List, ◌≤◌, vec_len, vec_capacity};

    ghost Value = { List T };

    ghost view = { λ t. t.rows.items };

    ghost invariant = { λ t. (MOST ≤ vec_capacity t.rows) × (vec_len t.rows ≤ MOST) };
}

/// The nodes of a store.
pub type NodeTable = Table<Node, 512>;

/// The children of its nodes.
pub type LinkTable = Table<Link, 1024>;

impl<T, const MOST: u32> Table<T, MOST> {
    pub(crate) fn new(heap: Global) -> Result<Self, AllocError>
        ensures { IfOk result (λ t. t ≡ []) }
    {
        let rows = Vec::with_capacity(heap, MOST as usize)?;
        Ok(Table { rows })
    }

    pub(crate) fn len(&self) -> u32
        ensures { result ≡ length self.now }
    {
        self.rows.len() as u32
    }

    // Whether there is room for so many rows more.
    pub(crate) fn has_room(&self, more: usize) -> bool
        ensures { result ≡ nat_le (length self.now + more) MOST }
    {
        more <= MOST as usize - self.rows.len()
    }

    pub(crate) fn as_slice(&self) -> &[T]
        ensures { result.now ≡ self.now }
    {
        self.rows.as_slice()
    }

    pub(crate) fn get(&self, at: u32) -> T
    where
        T: Copy,
        requires { at < length self.now }
        ensures { result ≡ slice_index_or self.now at result }
    {
        self.rows[at as usize]
    }

    // Keeps a row, for which there is room, and says its place.
    pub(crate) fn push(&mut self, row: T) -> u32
        requires { length self.old < MOST }
        ensures rows { self.new ≡ self.old ++ row ∷ [] }
        ensures place { result ≡ length self.old }
    {
        let place = self.rows.len() as u32;
        self.rows.push_reserved(row);
        place
    }

    // Keeps some rows, for which there is room.
    pub(crate) fn extend_from_slice(&mut self, rows: &[T])
    where
        T: Copy,
        requires { length self.old + length rows.now ≤ MOST }
        ensures { self.new ≡ self.old ++ rows.now }
    {
        // It does not fail, since the memory is reserved.
        let _ = self.rows.extend_from_slice(rows);
    }

    // Lets go of all but the first rows.
    pub(crate) fn truncate(&mut self, count: u32)
    where
        T: Drop,
        ensures { self.new ≡ take count self.old }
    {
        self.rows.truncate(count as usize);
    }
}
