// The store: its three tables, and what they keep together.
ghost use Rattle.model.specs.Build.{Sound};
ghost use Rattle.store.specs.Pools.{pool};
ghost use Rattle.store.specs.Tables.{model_of, Held, Marked};

use crate::table::{LinkTable, NodeTable};
use crate::texts::TextTable;

mod asks;
mod builds;
mod places;
mod reads;

/// Nodes with their links and texts. A store is no bank: it can be cut back, so it promises nothing over time.
#[derive(Debug, Drop)]
pub struct Store {
    nodes: NodeTable,
    links: LinkTable,
    texts: TextTable,
    ghost held: { Held nodes links (pool texts) },
    ghost marked: { ∥ Marked nodes links (pool texts) ∥₁ },
    ghost sound: { ∥ Sound (model_of nodes links (pool texts)) ∥₁ },
}
