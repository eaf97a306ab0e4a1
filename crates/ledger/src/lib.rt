//! What comes of the lines of a catalogue, and the report on it.
#![tactic(auto)]

pub mod ledger;
pub mod report;
