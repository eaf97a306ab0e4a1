//! Hashers: a state, and a next state for each byte. FNV-1a of 64 bits, and a tape of what is fed.
#![tactic(auto)]

pub mod fnv;
pub mod hasher;
pub mod tape;
