//! Condition trees as values: the definitions that every contract cites (in specs/), their laws, types and refusals.
#![tactic(auto)]

pub mod laws;
pub mod refusal;
pub mod types;
