// The x86-TSO machine in pure definitions, and its laws.

#![tactic(auto)]

pub mod faults;
pub mod laws;
pub mod writes;
