//! What is asked of a leaf before a bank keeps it.
#![tactic(auto)]

pub mod leaf;
mod literal;
mod name;
mod part;
mod pattern;
mod texts;
mod unknown;
