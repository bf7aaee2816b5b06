// What a whole text says: the faults of a routine, the definition of reading, and the grammar above it.

#![tactic(auto)]

pub mod faults;
pub mod theorems;
