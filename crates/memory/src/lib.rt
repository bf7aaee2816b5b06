// Memories: what one is, two that hold their words themselves, and lists of accesses.

#![tactic(auto)]

pub mod accesses;
pub mod cell;
pub mod dense;
pub mod memory;
pub mod refusal;
pub mod sparse;
pub mod unfit;
