// What thinning keeps: the double run in pure definitions, and the promises.

#![tactic(auto)]

pub mod calls;
pub mod faults;
pub mod theorems;
