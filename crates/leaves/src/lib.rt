//! The values that leaves are made of: texts in lists, names, literals, unknowns and patterns.
#![tactic(auto)]

pub mod leaf;
pub mod literal;
pub mod name;
pub mod pattern;
pub mod text;
pub mod text_list;
