//! The attribute names of a catalogue in order, each once.
#![tactic(auto)]

pub mod entry;
pub mod names;
