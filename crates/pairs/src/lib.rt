//! The pairs of key and node that a draft collects, in ascending key order.
#![tactic(auto)]

pub mod iter;
pub mod link;
pub mod pairs;
