//! The orders of names, lists of texts, literals, types, unknowns and patterns, in the words of the rules.
#![tactic(auto)]

pub mod literal;
pub mod name;
pub mod pattern;
pub mod texts;
pub mod types;
pub mod unknown;
