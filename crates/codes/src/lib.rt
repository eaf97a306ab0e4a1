//! Kinds, variables, slots and operators, with their numbers and words.
#![tactic(auto)]

pub mod kind;
pub mod ops;
pub mod var;
