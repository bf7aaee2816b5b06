// What the programs print, as bytes of their inputs.

#![tactic(auto)]

mod fates;
pub mod faults;
pub mod fences;
