//! A line as tokens.
#![tactic(auto)]

pub mod tokens;
