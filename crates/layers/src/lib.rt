// Memories that stand on another one.

#![tactic(auto)]

pub mod cache;
mod lines;
pub mod offset;
